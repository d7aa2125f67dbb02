// A key: 32 bytes.
ghost use Rattle.std.specs.Prelude.{◌≡◌};
ghost use Rattle.cipher.specs.Keys.{key_bytes, KeyMade};

use engine::refusal::Refusal;

// The number of bytes in a key.
pub const KEY_LEN: usize = 32;

// A key is neither copied nor cloned: each call borrows it.
#[derive(Drop)]
pub struct Key {
    bytes: [u8; KEY_LEN],
}

impl Key {
    // The key of a string; one that is not 32 bytes is refused. `new` and no TryFrom, for which an array is no slice.
    pub fn new(string: &[u8]) -> Result<Key, Refusal>
        ensures { KeyMade string.now result }
    {
        let bytes = <[u8; KEY_LEN]>::try_from(string).map_err(|_| Refusal::KeyLength)?;
        Ok(Key { bytes })
    }

    // The key's string.
    pub(crate) fn bytes(&self) -> &[u8; KEY_LEN]
        ensures { result.now ≡ key_bytes self.now }
    {
        &self.bytes
    }
}
