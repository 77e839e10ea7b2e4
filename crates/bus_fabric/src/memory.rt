//! All of memory at once: before the first tick, and after many of its bytes were written.

ghost use Rattle.std.specs.Prelude.{◌≡◌, ℕ, ◌<◌, ◌≤◌, IfOk, slice_index, length, vec_len};
ghost use Rattle.memory_map.specs.declared.TheConstants.{MAIN_END};
ghost use Rattle.bus_fabric.specs.Memory.{AgreeWithin, first_memory as first_memory_of, fram_copied, no_bytes, sram_filled};

use chip_words::{NoMemory, fill_within, memory_size};
use memory_map::{INFO_END, INFO_START, MAIN_END, MAIN_START, SRAM_END, SRAM_START};
use std::alloc::Global;

/// What FRAM holds where nothing was written.
const ERASED: u8 = 0xFF;

/// A memory that is 0 all over.
fn blank_memory(alloc: Global) -> Result<Vec<u8>, NoMemory>
    ensures blank { IfOk result (λ memory. memory.items ≡ no_bytes) }
    ensures whole { IfOk result (λ memory. vec_len memory ≡ MAIN_END) }
{
    match vec![in alloc; 0; memory_size()] {
        Ok(memory) => Ok(memory),
        Err(_) => Err(NoMemory),
    }
}

/// Memory where nothing was written: FRAM is erased, and SRAM is the fill.
pub fn first_memory(alloc: Global, fill: u8) -> Result<Vec<u8>, NoMemory>
    ensures memory { IfOk result (λ memory. memory.items ≡ first_memory_of fill) }
    ensures whole { IfOk result (λ memory. vec_len memory ≡ MAIN_END) }
{
    match blank_memory(alloc) {
        Ok(blank) => {
            let mut memory = blank;
            write_first(memory.as_mut_slice(), fill);
            Ok(memory)
        }
        Err(e) => Err(e),
    }
}

/// Writes what a memory holds before the first tick into one that is 0 all over.
fn write_first(memory: &mut [u8], fill: u8)
    requires blank { memory.old ≡ no_bytes }
    requires whole { length memory.old ≡ MAIN_END }
    ensures memory { memory.new ≡ first_memory_of fill }
{
    fill_within(memory, INFO_START, INFO_END, ERASED);
    fill_within(memory, SRAM_START, SRAM_END, fill);
    fill_within(memory, MAIN_START, MAIN_END, ERASED);
}

/// Fills SRAM.
pub fn fill_sram(memory: &mut [u8], fill: u8)
    requires whole { length memory.old ≡ MAIN_END }
    ensures sram { memory.new ≡ sram_filled fill memory.old }
{
    fill_within(memory, SRAM_START, SRAM_END, fill);
}

/// Gives FRAM the bytes of another memory.
pub fn copy_fram(memory: &mut [u8], bytes: &[u8])
    requires whole { length memory.old ≡ MAIN_END }
    requires bytes { length bytes.now ≡ MAIN_END }
    ensures fram { memory.new ≡ fram_copied bytes.now memory.old }
{
    copy_within(memory, bytes, INFO_START, INFO_END);
    copy_within(memory, bytes, MAIN_START, MAIN_END);
}

/// Copies the bytes at the addresses from `low` up to and without `high`.
fn copy_within(memory: &mut [u8], bytes: &[u8], low: u32, high: u32)
    requires order { low ≤ high }
    requires room { high ≤ length memory.old }
    requires bytes { length bytes.now ≡ length memory.old }
    ensures inside { AgreeWithin low high bytes.now memory.new }
    ensures below { (at : ℕ) → at < low → slice_index memory.new at ≡ slice_index memory.old at }
    ensures above { (at : ℕ) → high ≤ at → slice_index memory.new at ≡ slice_index memory.old at }
{
    let (low, high) = (low as usize, high as usize);
    memory[low..high].copy_from_slice(&bytes[low..high]);
}
