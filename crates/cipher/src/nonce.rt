// A box nonce: the 16 bytes that came with a box. It opens and never seals.
ghost use Rattle.std.specs.Prelude.{◌≡◌};
ghost use Rattle.cipher.specs.Nonces.{box_nonce_bytes, BoxNonceMade};

use engine::refusal::Refusal;

// The number of bytes in a nonce.
pub const NONCE_LEN: usize = 16;

#[derive(Clone, Copy)]
pub struct BoxNonce {
    bytes: [u8; NONCE_LEN],
}

impl BoxNonce {
    // The nonce of a string; one that is not 16 bytes is refused. `new` and no TryFrom, for which an array is no slice.
    pub fn new(string: &[u8]) -> Result<BoxNonce, Refusal>
        ensures { BoxNonceMade string.now result }
    {
        let bytes = <[u8; NONCE_LEN]>::try_from(string).map_err(|_| Refusal::NonceLength)?;
        Ok(BoxNonce { bytes })
    }

    // The nonce's string.
    pub fn bytes(&self) -> &[u8; NONCE_LEN]
        ensures { result.now ≡ box_nonce_bytes self.now }
    {
        &self.bytes
    }
}
