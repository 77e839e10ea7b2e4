ghost use Rattle.std.specs.Prelude.{◌≡◌};

/// The operations of two operands.
#[derive(Clone, Copy, Debug, PartialEq, Eq)]
pub enum Op2 {
    Mov,
    Add,
    Addc,
    Subc,
    Sub,
    Cmp,
    Dadd,
    Bit,
    Bic,
    Bis,
    Xor,
    And,
}

impl Op2 {
    ghost use Rattle.cpux_decode.specs.Operations.{reads_destination as reads_destination_of, writes_destination as writes_destination_of};

    /// Says whether the operation reads its destination: all but MOV do.
    #[tactic(auto, unfolding(crate::specs::Operations::reads_destination))]
    pub fn reads_destination(self) -> bool
        ensures { result ≡ reads_destination_of self }
    {
        !matches!(self, Op2::Mov)
    }

    /// Says whether the operation writes its destination: all but CMP and BIT do.
    #[tactic(auto, unfolding(crate::specs::Operations::writes_destination))]
    pub fn writes_destination(self) -> bool
        ensures { result ≡ writes_destination_of self }
    {
        !matches!(self, Op2::Cmp | Op2::Bit)
    }
}

/// The operations of one operand.
#[derive(Clone, Copy, Debug, PartialEq, Eq)]
pub enum Op1 {
    Rrc,
    Swpb,
    Rra,
    Sxt,
    Push,
    Call,
}

/// The 20-bit operations on a register: CMPA, ADDA and SUBA.
#[derive(Clone, Copy, Debug, PartialEq, Eq)]
pub enum OpA {
    Cmp,
    Add,
    Sub,
}

/// The shifts by one to four places: RRCM, RRAM, RLAM and RRUM.
#[derive(Clone, Copy, Debug, PartialEq, Eq)]
pub enum OpS {
    Rrc,
    Rra,
    Rla,
    Rru,
}
