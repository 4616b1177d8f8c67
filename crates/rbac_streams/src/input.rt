//! The bytes of one input.

ghost use Rattle.std.specs.Prelude.{◌≡◌};

use std::marker::Model;

/// The bytes of one input, which is a file or standard input, read whole. They may be any bytes.
#[derive(Clone, Debug, Drop)]
pub struct Input {
    bytes: Vec<u8>,
}

impl Model for Input {
    ghost use Rattle.std.specs.Prelude.{ℕ, List};

    ghost Value = { List ℕ };

    ghost view = { λ i. i.bytes.items };
}

impl Input {
    /// An input of these bytes. Doesn't allocate.
    pub fn from_bytes(bytes: Vec<u8>) -> Input
        ensures { result ≡ bytes.items }
    {
        Input { bytes }
    }

    /// The bytes, in the order in which they were read.
    pub fn as_bytes(&self) -> &[u8]
        ensures { result.now ≡ self.now }
    {
        self.bytes.as_slice()
    }
}
