ghost use Rattle.std.specs.Prelude.{◌≡◌};

use arrayvec::ArrayVec;
use std::marker::Model;

/// At most 32 bytes that were read one after another.
#[derive(Debug, Drop, PartialEq, Eq)]
pub struct Dump {
    bytes: ArrayVec<u8, 32>,
}

impl Model for Dump {
    ghost use Rattle.std.specs.Prelude.{ℕ, List};

    ghost Value = { List ℕ };

    ghost view = { λ dump. dump.bytes.items };

    ghost inverse = { λ items. record { bytes = record { items = items } } };
}

impl Dump {
    /// The dump that has these bytes.
    pub fn new(bytes: ArrayVec<u8, 32>) -> Dump
        ensures { result ≡ bytes.items }
    {
        Dump { bytes }
    }

    /// The bytes, in the order in which they were read.
    pub fn bytes(&self) -> &[u8]
        ensures { result.now ≡ self.now }
    {
        self.bytes.as_slice()
    }
}

/// What a command answers.
#[derive(Debug, Default, Drop, PartialEq, Eq)]
pub enum Answer {
    /// The word that was read.
    Value(u16),
    /// The value of a register, below 2^20.
    Register(u32),
    /// The bytes that were read.
    Bytes(Dump),
    /// The command was carried out, and has nothing to tell.
    #[default]
    Accepted,
    /// Refused: the debug port is closed.
    Closed,
    /// Refused: power is off, or the boot isn't done.
    Booting,
    /// Refused: the processor isn't halted.
    Running,
}
