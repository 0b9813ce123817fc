//! `Compiled`: the bytes of the file and the number of its bits.

use std::marker::Model;

/// The file that a table compiles to. Contracts see its bytes and the bits of its code.
#[derive(Debug, Drop)]
pub struct Compiled {
    pub(crate) bytes: Vec<u8>,
    pub(crate) bits: u64,
}

impl Model for Compiled {
    ghost use Rattle.asmap_compile.specs.File.{CodeFile};

    ghost Value = { CodeFile };

    ghost view = { λ c. record { bytes = c.bytes.items; bits = c.bits } };
}

impl Compiled {
    ghost use Rattle.std.specs.Prelude.{◌≡◌};

    /// Returns the bytes of the file.
    pub fn code(&self) -> &[u8]
        ensures { result.now ≡ self.now.bytes }
    {
        self.bytes.as_slice()
    }

    /// Returns how many bits the code has, without the zero-bits after it.
    pub fn bits(&self) -> u64
        ensures { result ≡ self.now.bits }
    {
        self.bits
    }
}
