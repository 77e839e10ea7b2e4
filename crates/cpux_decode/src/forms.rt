use crate::operations::{Op1, Op2, OpA};

/// The form of an instruction: what the fields of its words mean.
#[derive(Clone, Copy)]
pub enum Form {
    Reserved,
    /// MOVA @Rs, Rd
    MoveAt,
    /// MOVA @Rs+, Rd
    MoveAtPlus,
    /// MOVA &abs20, Rd
    MoveAbsolute,
    /// MOVA X(Rs), Rd
    MoveIndexed,
    /// MOVA Rs, &abs20
    MoveToAbsolute,
    /// MOVA Rs, X(Rd)
    MoveToIndexed,
    /// MOVA #imm20, Rd
    MoveImm,
    /// MOVA Rs, Rd
    MoveReg,
    /// CMPA, ADDA and SUBA #imm20, Rd
    AddrImm(OpA),
    /// CMPA, ADDA and SUBA Rs, Rd
    AddrReg(OpA),
    /// RRCM, RRAM, RLAM and RRUM
    ShiftMany,
    /// An operation of one operand.
    One(Op1),
    Reti,
    /// CALLA Rn
    CallReg,
    /// CALLA X(Rn)
    CallIndexed,
    /// CALLA @Rn
    CallAt,
    /// CALLA @Rn+
    CallAtPlus,
    /// CALLA &abs20
    CallAbsolute,
    /// CALLA to the address that stands at a distance from the index word
    CallSymbolic,
    /// CALLA #imm20
    CallImm,
    /// PUSHM
    PushMany,
    /// POPM
    PopMany,
    /// An extension word and an operation of one operand.
    LongOne(Op1),
    /// An extension word and an operation of two operands.
    LongTwo(Op2),
    Jump,
    /// An operation of two operands.
    Two(Op2),
}

/// What the table says of a pair of words.
#[derive(Clone, Copy)]
pub struct Shape {
    pub form: Form,
    /// The words that the instruction has whatever its addressing modes are, 1 or 2.
    pub words: u8,
}

/// What one look at the first two words of an instruction tells.
#[derive(Clone, Copy)]
pub struct Look {
    pub form: Form,
    /// The words of the instruction, 1 to 4.
    pub count: u32,
}
