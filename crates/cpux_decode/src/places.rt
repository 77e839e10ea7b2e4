ghost use Rattle.std.specs.Prelude.{◌≡◌};

use chip_words::PC;

/// A place that an instruction reads or writes.
///
/// Registers are numbered 0 to 15. Where the base of an index is R0, the address is counted from that of the
/// word that holds the index.
#[derive(Clone, Copy, Debug, PartialEq, Eq)]
pub enum Place {
    /// The register itself.
    Reg(u8),
    /// A value of the constant generator. All ones is FFFFFh, of which a smaller size takes its low bits.
    Const(u32),
    /// A register and a 16-bit index, which stays in the lower 64 KB where the register lies there.
    Near(u8, u16),
    /// A register and a 20-bit index, whose sum is taken modulo 2^20.
    Far(u8, u32),
    /// An address of at most 20 bits.
    Absolute(u32),
    /// Where the register points.
    At(u8),
    /// Where the register points; it is increased after that.
    AtPlus(u8),
    /// A value of at most 20 bits from the instruction's own words.
    Imm(u32),
}

impl Place {
    ghost use Rattle.cpux_decode.specs.Places.{is_memory as is_memory_of, is_pc as is_pc_of, is_register as is_register_of, is_register_source as is_register_source_of};

    /// Says whether the operand lies in memory, where an immediate does not.
    #[tactic(auto, unfolding(crate::specs::Places::is_memory))]
    pub fn is_memory(self) -> bool
        ensures { result ≡ is_memory_of self }
    {
        !matches!(self, Place::Reg(_) | Place::Const(_) | Place::Imm(_))
    }

    /// Says whether the place is PC.
    #[tactic(auto, unfolding(crate::specs::Places::is_pc))]
    pub fn is_pc(self) -> bool
        ensures { result ≡ is_pc_of self }
    {
        matches!(self, Place::Reg(PC))
    }

    /// Says whether the place is a register.
    #[tactic(auto, unfolding(crate::specs::Places::is_register))]
    pub fn is_register(self) -> bool
        ensures { result ≡ is_register_of self }
    {
        matches!(self, Place::Reg(_))
    }

    /// Says whether a source is a register, R3 with its constant 0 too.
    #[tactic(auto, unfolding(crate::specs::Places::is_register_source))]
    pub fn is_register_source(self) -> bool
        ensures { result ≡ is_register_source_of self }
    {
        matches!(self, Place::Reg(_) | Place::Const(0))
    }
}
