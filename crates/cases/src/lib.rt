// Worked cases and published answers: the definitions themselves are held to them, and not only the code.
#![tactic(auto)]

ghost use Rattle.std.specs.Prelude.{◌≡◌};
ghost use Rattle.cases.specs.Published.{Published};
ghost use Rattle.cases.specs.Table.{Table, ShareTerms};

// The table of worked cases holds, and one more case of the shares. The answer is how many the table has.
pub fn worked_cases() -> u32
    ensures table { Table }
    ensures share_terms { ShareTerms }
    ensures count { result ≡ 13 }
{
    4 + 2 + 3 + 3 + 1
}

// The published answers are what the definitions give. The answer is how many there are.
pub fn published_answers() -> u32
    ensures table { Published }
    ensures count { result ≡ 6 }
{
    1 + 2 + 3
}
