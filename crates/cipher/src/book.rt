// A nonce book: the one maker of the nonces that seal.
ghost use Rattle.std.specs.Prelude.{◌≡◌, ℕ, ◌<◌};
ghost use Rattle.cipher.specs.Nonces.{issued_bytes, nonce_of, last_count, BookMade, Issued};

use crate::nonce::NONCE_LEN;
use engine::refusal::Refusal;

// The number of bytes in a bench name.
pub const NAME_LEN: usize = 12;

// A nonce that a book issued: made by no one else, never copied, and spent by the one sealing that takes it.
#[derive(Drop)]
pub struct IssuedNonce {
    bytes: [u8; NONCE_LEN],
}

impl IssuedNonce {
    // The nonce's string.
    pub fn bytes(&self) -> &[u8; NONCE_LEN]
        ensures { result.now ≡ issued_bytes self.now }
    {
        &self.bytes
    }
}

// A book is neither copied nor cloned: two of one name and count would issue one nonce twice.
#[derive(Drop)]
pub struct NonceBook {
    name: [u8; NAME_LEN],
    count: u32,
}

impl NonceBook {
    // The book of a bench, from a first count on; a name that is not 12 bytes is refused.
    pub fn new(name: &[u8], count: u32) -> Result<NonceBook, Refusal>
        ensures { BookMade name.now count result }
    {
        let name = <[u8; NAME_LEN]>::try_from(name).map_err(|_| Refusal::NameLength)?;
        Ok(NonceBook { name, count })
    }

    // The next nonce; at the last count the book is used up, and refuses.
    pub fn issue(&mut self) -> Result<IssuedNonce, Refusal>
        ensures { Issued self.old result self.new }
    {
        let NonceBook { name, count } = self;
        let next = count.checked_add(1).ok_or(Refusal::BookUsedUp)?;
        let bytes = nonce_bytes(name, *count);
        *count = next;
        Ok(IssuedNonce { bytes })
    }

    // The name of the bench.
    pub fn name(&self) -> &[u8; NAME_LEN]
        ensures { result.now ≡ self.now.name }
    {
        &self.name
    }

    // The count of the next nonce.
    pub fn count(&self) -> u32
        ensures { result ≡ self.now.count }
    {
        self.count
    }
}

// The name, then the count as four bytes, lowest first.
fn nonce_bytes(name: &[u8; NAME_LEN], count: u32) -> [u8; NONCE_LEN]
    ensures bytes { result ≡ nonce_of name.now count }
    ensures sole { (k : ℕ) → k < last_count → result ≡ nonce_of name.now k → k ≡ count }
{
    let mut bytes = [0; NONCE_LEN];
    bytes[..NAME_LEN].copy_from_slice(name);
    bytes[NAME_LEN..].copy_from_slice(&count.to_le_bytes());
    bytes
}
