// The three-share engine: three states whose xor is the meaning. Nothing joins them but the answer of one byte.
ghost use Rattle.std.specs.Prelude.{◌≡◌};
ghost use Rattle.engine.specs.Answers.{Xored, Read};
ghost use Rattle.engine.specs.Strings.{zeros};
ghost use Rattle.gimli.specs.Shares.{joined, shared_permutation};
ghost use Rattle.gimli.specs.Strings.{string, gimli};
ghost use Rattle.gimli.specs.ThreeShare.{Made, Recleared, ShareXored};
ghost use Rattle.gimli.specs.StringsLemmas.{string_whole, gimli_whole};

use crate::shares::Shares;
use crate::state::State;
use engine::engine::Engine;
use engine::refusal::Refusal;

#[derive(Clone, Copy)]
pub struct ThreeShareEngine {
    shares: Shares,
}

impl ThreeShareEngine {
    // An engine of zeros under two masks, which become shares 1 and 2.
    pub fn new(first: &[u8], second: &[u8]) -> Result<ThreeShareEngine, Refusal>
        ensures { Made first.now second.now result }
    {
        let one = State::from_bytes(first).ok_or(Refusal::MaskLength)?;
        let two = State::from_bytes(second).ok_or(Refusal::MaskLength)?;
        Ok(ThreeShareEngine {
            shares: Shares::of_zeros(one, two),
        })
    }

    // The three shares as they stand.
    pub fn shares(&self) -> Shares
        ensures { result ≡ self.now.shares }
    {
        let ThreeShareEngine { shares } = *self;
        shares
    }
}

// Share 0 becomes the xor of the other two.
fn cleared(shares: Shares) -> Shares
    ensures shares { Recleared shares.share result.share }
    ensures meaning { string (joined result.share) ≡ zeros }
{
    let [_, one, two] = shares.share;
    Shares::of_zeros(one, two)
}

// A byte xored into share 0, which is lent to be changed.
fn xor_share(shares: &mut Shares, place: usize, b: u8) -> Result<(), Refusal>
    ensures shares { ShareXored shares.old.share place b result shares.new.share }
    ensures meaning { Xored (string (joined shares.old.share)) place b result (string (joined shares.new.share)) }
{
    shares.share[0].xor_byte(place, b)
}

// The one byte that is ever joined.
fn joined_byte(shares: &Shares, place: usize) -> Result<u8, Refusal>
    ensures { Read (string (joined shares.now.share)) place result }
{
    let zeroth = shares.share[0].byte(place)?;
    let first = shares.share[1].byte(place)?;
    let second = shares.share[2].byte(place)?;
    Ok(zeroth ^ first ^ second)
}

// The permutation, share by share, as the rule on the string that they share.
fn permuted(shares: Shares) -> Shares
    ensures shares { result.share ≡ shared_permutation shares.share }
    ensures meaning { string (joined result.share) ≡ gimli (string (joined shares.share)) }
{
    shares.known().permutation()
}

impl Engine for ThreeShareEngine {
    ghost meaning = { λ e. string (joined e.shares.share) };

    ghost rule = { gimli };

    ghost whole = { λ e. string_whole (joined e.shares.share) };

    ghost keeps = { λ s whole. gimli_whole s };

    fn clear(&mut self)
        ensures shares { Recleared self.old.shares.share self.new.shares.share }
        ensures meaning { string (joined self.new.shares.share) ≡ zeros }
    {
        self.shares = cleared(self.shares);
    }

    fn xor_byte(&mut self, place: usize, b: u8) -> Result<(), Refusal>
        ensures shares { ShareXored self.old.shares.share place b result self.new.shares.share }
        ensures meaning { Xored (string (joined self.old.shares.share)) place b result (string (joined self.new.shares.share)) }
    {
        xor_share(&mut self.shares, place, b)
    }

    fn byte(&self, place: usize) -> Result<u8, Refusal> {
        joined_byte(&self.shares, place)
    }

    fn permute(&mut self)
        ensures shares { self.new.shares.share ≡ shared_permutation self.old.shares.share }
        ensures meaning { string (joined self.new.shares.share) ≡ gimli (string (joined self.old.shares.share)) }
    {
        self.shares = permuted(self.shares);
    }
}
