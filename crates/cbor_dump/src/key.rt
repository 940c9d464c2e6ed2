//! The key of a pair of a map, kept to be shown at the pair's value.

ghost use Rattle.std.specs.Prelude.{◌≡◌, ◌≤◌, []};

/// How many bytes a string has at most that is kept as a key.
pub const MOST_KEY: usize = 24;

/// The body of a string that is the key of a pair: at most [`MOST_KEY`] bytes.
#[derive(Debug, Clone, Copy)]
pub struct KeyBody {
    bytes: [u8; MOST_KEY],
    len: usize,
    ghost few: { len ≤ 24 },
}

impl KeyBody {
    ghost use Rattle.std.specs.Prelude.{◌+◌, ◌++◌, length};
    ghost use Rattle.cbor_dump.specs.Keys.{body_bytes, most_key};

    /// Makes a body that has no byte yet.
    pub(crate) fn new() -> KeyBody
        ensures { body_bytes result ≡ [] }
    {
        KeyBody {
            bytes: [0; MOST_KEY],
            len: 0,
        }
    }

    /// Returns the bytes.
    pub fn bytes(&self) -> &[u8]
        ensures { result.now ≡ body_bytes self.now }
    {
        &self.bytes[..self.len]
    }

    /// Adds bytes at the end, as many as there is room for.
    pub(crate) fn push(&mut self, bytes: &[u8])
        ensures { length (body_bytes self.old) + length bytes.now ≤ most_key
            → body_bytes self.new ≡ body_bytes self.old ++ bytes.now }
    {
        let count = bytes.len().min(MOST_KEY - self.len);
        let end = self.len + count;
        self.bytes[self.len..end].copy_from_slice(&bytes[..count]);
        self.len = end;
    }
}

/// The key of a pair of a map (RFC 8949, 3.1).
#[derive(Debug, Clone, Copy)]
pub enum Key {
    /// The integer of this value.
    Positive(u64),
    /// The integer -1 - n.
    Negative(u64),
    /// A text string of definite length, which has at most [`MOST_KEY`] bytes.
    Text(KeyBody),
    /// A byte string of definite length, which has at most [`MOST_KEY`] bytes.
    Bytes(KeyBody),
    /// Any other item.
    Other,
}
