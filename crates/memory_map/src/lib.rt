//! The memory map as calls. No crate above spells a region's bounds: they are constants here.
#![tactic(auto)]

ghost use Rattle.std.specs.Prelude.{◌≡◌, ◌<◌, IsTrue};
ghost use Rattle.chip_words.specs.Map.{region_at, has_bytes, is_fram as is_fram_at, aligned as aligned_at};

pub use chip_words::{Region, Size};

#[cfg(test)]
mod tests;

/// The first address of information FRAM.
pub const INFO_START: u32 = 0x01800;
/// The address behind information FRAM.
pub const INFO_END: u32 = 0x01A00;
/// The first address of SRAM.
pub const SRAM_START: u32 = 0x01C00;
/// The address behind SRAM.
pub const SRAM_END: u32 = 0x02400;
/// The first address of main FRAM.
pub const MAIN_START: u32 = 0x04400;
/// The address behind main FRAM, and so behind all memory.
pub const MAIN_END: u32 = 0x14000;

/// The row of the memory map that holds an address. Main FRAM is asked for first, which most accesses reach.
#[inline]
#[tactic(auto, unfolding(chip_words::specs::Map::region_at))]
pub fn region_of(at: u32) -> Region
    ensures region { result ≡ region_at at }

    // All memory lies below its end.
    ensures memory { IsTrue (has_bytes result) → at < MAIN_END }
{
    if (MAIN_START..MAIN_END).contains(&at) {
        return Region::Main;
    }
    match at {
        0x00000..0x01000 => Region::Periph,
        INFO_START..INFO_END => Region::Info,
        INFO_END..0x01B00 => Region::Descriptor,
        SRAM_START..SRAM_END => Region::Sram,
        _ => Region::Vacant,
    }
}

/// Says whether an address lies in FRAM, which holds its bytes without power.
#[tactic(auto, unfolding(chip_words::specs::Map::is_fram))]
pub fn is_fram(at: u32) -> bool
    ensures { result ≡ is_fram_at at }
{
    matches!(region_of(at), Region::Info | Region::Main)
}

/// The address that an access of a width reaches: for a byte the address itself, else the even one.
pub fn aligned(at: u32, size: Size) -> u32
    ensures { result ≡ aligned_at size at }
{
    match size {
        Size::Byte => at,
        Size::Word | Size::Addr => at & !1,
    }
}
