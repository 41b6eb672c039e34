//! The trait of entries: a small value with a key.

ghost use Rattle.std.specs.Prelude.{◌≡◌, ℕ};

use dmr_pdu::Address;

/// A small value with a key, for a [`KeyedTable`](crate::KeyedTable).
pub trait Keyed: Copy {
    ghost key_of: { Self → ℕ };

    /// The key. Other values may have the same.
    fn key(&self) -> u32
        ensures { result ≡ key_of self.now };
}

/// The key of a radio or talkgroup is its address.
impl Keyed for Address {
    ghost key_of = { λ address. address };

    fn key(&self) -> u32 {
        self.get()
    }
}
