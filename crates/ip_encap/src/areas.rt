ghost use Rattle.std.specs.Prelude.{◌≡◌, ◌<◌};
ghost use Rattle.chip_words.specs.Seals.{between as between_of, is_in, is_never_sealed as is_never_sealed_at, nowhere};
ghost use Rattle.chip_words.specs.Segments.{border as border_of, border_bits as border_bits_of};

use chip_words::Seal;
use memory_map::{MAIN_END, MAIN_START};

/// No address at all.
pub const NOWHERE: Seal = Seal { low: 0, high: 0 };

/// The bits of a border that are kept, 15:6.
const BORDER_BITS: u16 = 0xFFC0;

/// The signatures and the interrupt vectors, which are never sealed, begin here.
pub const SIGNATURES: u32 = 0xFF80;

/// And they end with this byte.
pub const LAST_VECTOR: u32 = 0xFFFF;

/// What a register of a border keeps of a word.
pub fn border_bits(word: u16) -> u16
    ensures { result ≡ border_bits_of word }
{
    word & BORDER_BITS
}

/// The address of a border.
pub fn border(register: u16) -> u32
    ensures address { result ≡ border_of register }
    ensures small { result < 0x100000 }
{
    u32::from(border_bits(register)) * 16
}

/// Main FRAM from one address up to and without another.
pub fn between(low: u32, high: u32) -> Seal
    ensures { result ≡ between_of low high }
{
    let low = low.max(MAIN_START);
    let high = high.min(MAIN_END);
    if low < high {
        Seal { low, high }
    } else {
        NOWHERE
    }
}

/// An address is one of the signatures and the interrupt vectors.
pub fn is_never_sealed(at: u32) -> bool
    ensures { result ≡ is_never_sealed_at at }
{
    (SIGNATURES..=LAST_VECTOR).contains(&at)
}

/// The seal holds an address.
#[tactic(auto, unfolding(chip_words::specs::Seals::is_in))]
pub fn holds(seal: Seal, at: u32) -> bool
    ensures { result ≡ is_in seal at }
{
    seal.low <= at && at < seal.high && (MAIN_START..MAIN_END).contains(&at) && !is_never_sealed(at)
}
