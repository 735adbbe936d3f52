// A list of bytes in memory of a fixed size.
ghost use Rattle.std.specs.Prelude.{◌≡◌, ◌+◌, ◌<◌, ◌≤◌, [], ◌∷◌, ◌++◌, length};

use std::marker::Model;

// At most N bytes, which lie at the start of an array.
#[derive(Drop)]
pub struct List<const N: usize> {
    bytes: [u8; N],
    len: usize,
}

// Clauses see the bytes of the list.
impl<const N: usize> Model for List<N> {
    ghost use Rattle.std.specs.Prelude.{◌≤◌, take};
    ghost use Rattle.text.specs.Inner.Items.{Items};

    ghost Value = { Items };

    ghost view = { λ l. record { items = take l.len l.bytes } };

    ghost invariant = { λ l. l.len ≤ N };
}

impl<const N: usize> List<N> {
    // A list of no bytes.
    pub fn new() -> Self
        ensures { result.items ≡ [] }
    {
        List {
            bytes: [0; N],
            len: 0,
        }
    }

    // How many bytes it has.
    pub fn len(&self) -> usize
        ensures value { result ≡ length self.now.items }
        ensures bound { result ≤ N }
    {
        self.len
    }

    // Its bytes.
    pub fn as_slice(&self) -> &[u8]
        ensures value { result.now ≡ self.now.items }
        ensures bound { length result.now ≤ N }
    {
        &self.bytes[..self.len]
    }

    // Puts a byte after the others.
    pub fn push(&mut self, byte: u8)
        requires { length self.old.items < N }
        ensures items { self.new.items ≡ self.old.items ++ byte ∷ [] }
        ensures len { length self.new.items ≡ length self.old.items + 1 }
    {
        self.bytes[self.len] = byte;
        self.len += 1;
    }

    // Puts bytes after the others.
    pub fn extend_from_slice(&mut self, bytes: &[u8])
        requires { length self.old.items + length bytes.now ≤ N }
        ensures items { self.new.items ≡ self.old.items ++ bytes.now }
        ensures len { length self.new.items ≡ length self.old.items + length bytes.now }
    {
        let end = self.len + bytes.len();
        let all = &mut self.bytes[..];
        all[self.len..end].copy_from_slice(bytes);
        self.len = end;
    }

    // Takes all bytes away.
    pub fn clear(&mut self)
        ensures { self.new.items ≡ [] }
    {
        self.len = 0;
    }
}
