//! A few bytes: of a title that is not whole, or of one that is to be written.

ghost use Rattle.std.specs.Prelude.{◌≡◌, ◌+◌, ◌<◌, ◌≤◌, ◌++◌, [], ◌∷◌, length, take, drop};
ghost use Rattle.ciborium_ll_grammar.specs.Parts.{IsMinor, minor_affix};
ghost use Rattle.ciborium_ll_grammar.specs.Title.{IsInRange, shortest_title};
ghost use Rattle.ciborium_ll_grammar.specs.declared.limits.TheConstants.{LONGEST_TITLE};

use ciborium_ll_grammar::hdr::{Header, Minor, shortest};
use ciborium_ll_grammar::limits::LONGEST_TITLE;
use std::marker::Model;

/// At most nine bytes, which is the length of the longest title. A copy takes two moves.
#[derive(Drop)]
pub struct Few {
    bytes: [u8; LONGEST_TITLE],
    len: u8,
}

impl Model for Few {
    ghost use Rattle.std.specs.Prelude.{ℕ, ◌≤◌, List, take};
    ghost use Rattle.ciborium_ll_grammar.specs.declared.limits.TheConstants.{LONGEST_TITLE};

    ghost Value = { List ℕ };

    ghost view = { λ a. take a.len a.bytes };

    ghost invariant = { λ a. a.len ≤ LONGEST_TITLE };
}

impl Few {
    /// Returns no bytes.
    #[inline(always)]
    pub fn new() -> Few
        ensures { result ≡ [] }
    {
        Few {
            bytes: [0; LONGEST_TITLE],
            len: 0,
        }
    }

    /// Returns one byte.
    pub fn one(byte: u8) -> Few
        ensures { result ≡ byte ∷ [] }
    {
        let mut bytes = Few::new();
        bytes.push(byte);
        bytes
    }

    /// Returns how many bytes there are.
    #[inline(always)]
    pub fn len(&self) -> usize
        ensures { result ≡ length self.now }
    {
        usize::from(self.len)
    }

    /// Removes all bytes.
    #[inline(always)]
    pub fn clear(&mut self)
        ensures { self.new ≡ [] }
    {
        self.len = 0;
    }

    /// Returns a copy.
    #[inline(always)]
    pub fn copy(&self) -> Few
        ensures { result ≡ self.now }
    {
        Few {
            bytes: self.bytes,
            len: self.len,
        }
    }

    /// Returns the bytes, and keeps none.
    pub fn take(&mut self) -> Few
        ensures taken { result ≡ self.old }
        ensures none { self.new ≡ [] }
    {
        let taken = self.copy();
        self.clear();
        taken
    }

    /// Adds a byte at the end.
    #[inline(always)]
    pub fn push(&mut self, byte: u8)
        requires { length self.old < LONGEST_TITLE }
        ensures { self.new ≡ self.old ++ byte ∷ [] }
    {
        self.bytes[usize::from(self.len)] = byte;
        self.len += 1;
    }

    /// Adds bytes at the end.
    #[inline(always)]
    fn put(&mut self, bytes: &[u8])
        requires { length self.old + length bytes.now ≤ LONGEST_TITLE }
        ensures { self.new ≡ self.old ++ bytes.now }
    {
        let start = usize::from(self.len);
        let end = start + bytes.len();
        self.bytes[start..end].copy_from_slice(bytes);
        self.len = end as u8;
    }

    /// Adds the affix of a title (RFC 7049, 2.1).
    #[inline(always)]
    fn put_affix(&mut self, minor: Minor)
        requires minor { IsMinor minor }
        requires room { length self.old ≤ 1 }
        ensures { self.new ≡ self.old ++ minor_affix minor }
    {
        match minor {
            Minor::Small(_) | Minor::Open => {}
            Minor::One(n) => self.push(n as u8),
            Minor::Two(n) => self.put(&(n as u16).to_be_bytes()),
            Minor::Four(n) => self.put(&(n as u32).to_be_bytes()),
            Minor::Eight(n) => self.put(&n.to_be_bytes()),
        }
    }

    /// Returns the shortest title of a header (RFC 7049, 3.9): `19 03 e8` for the number 1000.
    #[inline(always)]
    pub fn title(header: Header) -> Few
        ensures title { result ≡ shortest_title header }
        ensures range { IsInRange header }
    {
        let title = shortest(header);
        let mut bytes = Few::new();
        bytes.push(title.first_byte());
        bytes.put_affix(title.minor);
        bytes
    }

    /// Returns the first `len` bytes of `bytes`.
    pub fn restore(bytes: &[u8; LONGEST_TITLE], len: usize) -> Few
        requires { len ≤ LONGEST_TITLE }
        ensures { result ≡ take len bytes.now }
    {
        Few {
            bytes: *bytes,
            len: len as u8,
        }
    }

    /// Becomes the first `len` bytes of `bytes`. The call writes them in place.
    #[inline(always)]
    pub fn load(&mut self, bytes: &[u8; LONGEST_TITLE], len: usize)
        requires { len ≤ LONGEST_TITLE }
        ensures { self.new ≡ take len bytes.now }
    {
        self.bytes = *bytes;
        self.len = len as u8;
    }

    /// Returns the bytes at the start of an array of zeros, and how many they are.
    pub fn save(&self) -> ([u8; LONGEST_TITLE], usize)
        ensures saved { take result.1 result.0 ≡ self.now }
        ensures len { result.1 ≡ length self.now }
        ensures most { result.1 ≤ LONGEST_TITLE }
    {
        let mut bytes = [0; LONGEST_TITLE];
        let len = usize::from(self.len);
        bytes[..len].copy_from_slice(&self.bytes[..len]);
        (bytes, len)
    }

    /// Writes the bytes to the start of `bytes`, and returns how many they are. The bytes after them mean nothing.
    #[inline(always)]
    pub fn save_into(&self, bytes: &mut [u8; LONGEST_TITLE]) -> usize
        ensures saved { take result bytes.new ≡ self.now }
        ensures len { result ≡ length self.now }
    {
        *bytes = self.bytes;
        usize::from(self.len)
    }

    /// Returns the bytes after the first `given`.
    pub fn rest(&self, given: usize) -> Few
        requires { given ≤ length self.now }
        ensures { result ≡ drop given self.now }
    {
        let mut rest = Few::new();
        rest.put(&self.bytes[given..self.len()]);
        rest
    }

    /// Returns the bytes.
    #[inline(always)]
    pub fn bytes(&self) -> &[u8]
        ensures { result.now ≡ self.now }
    {
        &self.bytes[..usize::from(self.len)]
    }
}
