ghost use Rattle.std.specs.Prelude.{◌≡◌};

use chip_words::Size;

/// What one item of a release list tells: something that leaves the seal.
///
/// A private step is an instruction or an entry into an interrupt that the processor makes in private phase.
#[derive(Clone, Debug, Drop, PartialEq, Eq)]
pub enum Item {
    /// A private step was an entry into an interrupt, with the address of its vector.
    Entry(u32),
    /// A private step fetched a word outside the seal, at this address.
    Fetch(u32),
    /// A private step read outside the seal: the address and the width.
    Read(u32, Size),
    /// A private step wrote outside the seal: the address, the width and the value.
    Write(u32, Size, u32),
    /// A private step made violations: all their bits of MPUCTL1.
    Flags(u8),
    /// A private step requested a reset, with the least of its causes.
    Reset(u8),
    /// A private step changed bits 7:4 of SR: the new ones, in their places.
    Power(u8),
    /// A boot read a word of the structure: its index, from 0 to 3, and the word.
    Struct(u8, u16),
    /// A boot ended, and the bytes of an interval are kept secret no more: from the first address up to
    /// the second, which isn't in it.
    Opened(u32, u32),
    /// The phase was private, and is public behind the tick: the registers R0 to R15, and how many more
    /// ticks the processor is busy.
    Exit([u32; 16], u64),
}

impl Default for Item {
    ghost use Rattle.trace_print.specs.declared.releases.Item.TheVariants.{Flags};

    ghost is_default = { λ item. item ≡ Flags 0 };

    /// An item that tells nothing, for places of a list that aren't in use.
    fn default() -> Item {
        Item::Flags(0)
    }
}
