//! A list of bytes with a bound.

ghost use Rattle.std.specs.Prelude.{◌≡◌, ◌<◌, ◌≤◌, ◌++◌, ◌∷◌, ◌+◌, ◌↔◌, [], false, length};
ghost use Rattle.std.specs.Bool.{OnTrue, OnFalse};

use arrayvec::ArrayVec;
use std::marker::Model;

/// A list of at most `N` bytes, which lie in the value itself, so that no memory is taken for them (own).
///
/// A contract sees the list. The body of a frame is such a list, and so are the bytes that a line of a schedule writes.
#[derive(Clone, Debug, Drop, PartialEq, Eq)]
pub struct Bytes<const N: usize> {
    items: ArrayVec<u8, N>,
}

impl<const N: usize> Model for Bytes<N> {
    ghost use Rattle.std.specs.Prelude.{ℕ, List, ◌≤◌, length};

    ghost Value = { List ℕ };

    ghost view = { λ bytes. bytes.items.items };

    ghost invariant = { λ bytes. length bytes.items.items ≤ N };

    ghost inverse = { λ bytes. record { items = record { items = bytes } } };
}

impl<const N: usize> Bytes<N> {
    /// The list of no byte.
    pub fn new() -> Self
        ensures empty { result ≡ [] }
    {
        Bytes {
            items: ArrayVec::new(),
        }
    }

    /// Appends a byte. It answers false, and changes nothing, exactly where `N` bytes stand already.
    pub fn push(&mut self, byte: u8) -> bool
        ensures taken { OnTrue result (self.new ≡ self.old ++ byte ∷ []) }
        ensures unchanged { OnFalse result (self.new ≡ self.old) }
        ensures full { (result ≡ false) ↔ (length self.old ≡ N) }
    {
        self.items.try_push(byte).is_ok()
    }

    /// Appends bytes that there is room for.
    pub fn append(&mut self, bytes: &[u8])
        requires room { length self.old + length bytes.now ≤ N }
        ensures appended { self.new ≡ self.old ++ bytes.now }
    {
        let _fits = self.items.try_extend_from_slice(bytes);
    }

    pub(crate) fn of(bytes: &[u8]) -> Self
        requires few { length bytes.now ≤ N }
        ensures bytes { result ≡ bytes.now }
    {
        let mut all = Bytes::new();
        all.append(bytes);
        all
    }

    /// The bytes, in order.
    pub fn as_slice(&self) -> &[u8]
        ensures bytes { result.now ≡ self.now }
        ensures few { length result.now ≤ N }
    {
        self.items.as_slice()
    }
}

#[cfg(test)]
mod tests {
    use super::*;
    use std::test::Fail;

    // A byte that is pushed onto at most two, whether it is taken, and what stands then.
    #[test]
    fn no_more_bytes_than_room(rt: HostRuntime) -> Result<(), Fail> {
        let mut bytes = Bytes::<2>::new();
        let cases: [(u8, bool, &[u8]); 4] = [
            (7, true, &[7]),
            (0, true, &[7, 0]),
            (9, false, &[7, 0]),
            (7, false, &[7, 0]),
        ];
        for (byte, taken, left) in cases {
            assert_eq!(rt; bytes.push(byte), taken, "byte {byte}");
            assert_eq!(rt; bytes.as_slice(), left, "byte {byte}");
        }
        assert_eq!(rt; bytes.clone()?, bytes);
        assert_ne!(rt; bytes, Bytes::new());
        Ok(())
    }
}
