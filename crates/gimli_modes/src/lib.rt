// Gimli-24-Hash and Gimli-24-Cipher: what digests and boxes are over the Gimli engines.
#![tactic(auto)]

ghost use Rattle.std.specs.Prelude.{◌≡◌};
ghost use Rattle.gimli_modes.specs.Standard.{Standard};

// The modes over the Gimli rule are the published ones. The answer is how many there are: hash, long output, box.
pub fn standard() -> u32
    ensures modes { Standard }
    ensures count { result ≡ 3 }
{
    1 + 1 + 1
}
