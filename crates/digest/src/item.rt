// An item of a record: a string that can be told from any other of its kind, wherever it stands.
ghost use Rattle.std.specs.Prelude.{◌≡◌, ℕ, ◌<◌, List, ◌++◌, length};
ghost use Rattle.engine.specs.Strings.{Bytes};
ghost use Rattle.digest.specs.Items.{ByteAt};

pub trait Item {
    // the item's string
    ghost bytes: { Self → List ℕ };

    fn len(&self) -> usize
        ensures { result ≡ length (bytes self.now) };

    // The byte at a place, or None past the end.
    fn byte(&self, place: usize) -> Option<u8>
        ensures { ByteAt (bytes self.now) place result };

    ghost nonempty: { (a : Self) → 0 < length (bytes a) };

    ghost each_byte: { (a : Self) → Bytes (bytes a) };

    // no item's string begins another's, unless the two strings are equal:
    // so a list of items can be told from its joined string
    ghost prefix_free: { (a b : Self) (t : List ℕ) → bytes a ++ t ≡ bytes b → bytes a ≡ bytes b };
}
