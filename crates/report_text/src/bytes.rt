ghost use Rattle.std.specs.Prelude.{◌≡◌};

use std::marker::Model;

/// A text as its bytes. Contracts see it as the list of them.
#[derive(Drop)]
pub struct Bytes {
    bytes: Vec<u8>,
}

impl Model for Bytes {
    ghost use Rattle.std.specs.Prelude.{List, ℕ};

    ghost Value = { List ℕ };

    ghost view = { λ whole. whole.bytes.items };
}

impl Bytes {
    /// From these bytes, with no memory taken.
    pub fn new(bytes: Vec<u8>) -> Bytes
        ensures { result ≡ bytes.items }
    {
        Bytes { bytes }
    }

    pub fn as_slice(&self) -> &[u8]
        ensures { result.now ≡ self.now }
    {
        &self.bytes
    }

    /// The bytes, with no memory taken.
    pub fn into_vec(self) -> Vec<u8>
        ensures { result.items ≡ self }
    {
        self.bytes
    }
}

/// Lines of text, without their line feeds. Contracts see them as the list of their bytes.
#[derive(Drop)]
pub struct Lines {
    lines: Vec<Bytes>,
}

impl Model for Lines {
    ghost use Rattle.std.specs.Prelude.{List, ℕ};

    ghost Value = { List (List ℕ) };

    ghost view = { λ whole. whole.lines.items };
}

impl Lines {
    /// From these lines, with no memory taken.
    pub fn new(lines: Vec<Bytes>) -> Lines
        ensures { result ≡ lines.items }
    {
        Lines { lines }
    }

    pub fn as_slice(&self) -> &[Bytes]
        ensures { result.now ≡ self.now }
    {
        &self.lines
    }

    /// The lines, with no memory taken.
    pub fn into_vec(self) -> Vec<Bytes>
        ensures { result.items ≡ self }
    {
        self.lines
    }
}
