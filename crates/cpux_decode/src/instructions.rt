use crate::operations::{Op1, Op2, OpA, OpS};
use crate::places::Place;
use chip_words::Size;

/// How many times an operation is done.
#[derive(Clone, Copy, Debug, PartialEq, Eq)]
pub enum Count {
    /// This many times, 1 to 16.
    Fixed(u8),
    /// One more than the lower four bits of this register.
    InReg(u8),
}

/// What an extension word says of the operation behind it.
#[derive(Clone, Copy, Debug, PartialEq, Eq)]
pub struct Rep {
    /// The carry that goes into the operation is 0 each time.
    pub zero_carry: bool,
    pub count: Count,
}

/// An instruction, with its operands. A register is a number from 0 to 15.
#[derive(Clone, Copy, Debug, PartialEq, Eq)]
pub enum Decoded {
    /// A word that is no instruction.
    Reserved,
    Reti,
    /// `long` says that there is an extension word.
    Two {
        op: Op2,
        size: Size,
        from: Place,
        to: Place,
        rep: Rep,
        long: bool,
    },
    /// `long` says that there is an extension word.
    One {
        op: Op1,
        size: Size,
        place: Place,
        rep: Rep,
        long: bool,
    },
    /// A condition from 0 to 7, and a distance in words from the next address.
    Jump {
        cond: u8,
        offset: i16,
    },
    /// MOVA.
    Move {
        from: Place,
        to: Place,
    },
    Addr {
        op: OpA,
        from: Place,
        to: u8,
    },
    /// A count from 1 to 4.
    Shift {
        op: OpS,
        size: Size,
        count: u8,
        reg: u8,
    },
    /// A count from 1 to 16; `reg` is pushed first, and then those below it, numbered modulo 16.
    PushMany {
        size: Size,
        count: u8,
        reg: u8,
    },
    /// A count from 1 to 16; `reg` is popped first, and then those above it, numbered modulo 16.
    PopMany {
        size: Size,
        count: u8,
        reg: u8,
    },
    CallA {
        to: Place,
    },
}
