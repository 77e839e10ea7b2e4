ghost use Rattle.std.specs.Prelude.{◌≡◌, ◌<◌, ◌≤◌, ◌+◌, ◌^◌, ℕ, drop, length, max, min, take};
ghost use Rattle.elf_image.specs.Fram.{Keeps, OffFram, OnFram};

use crate::headers::{PROGRAM_HEADER_SIZE, ProgramHeader};
use memory_map::{INFO_END, INFO_START, MAIN_END, MAIN_START};
use std::marker::Model;
use std::ops::Range;

/// A segment that is loaded: the address of its first byte, and its bytes.
#[derive(Debug, Drop)]
pub struct LoadSegment<'a> {
    at: u32,
    bytes: &'a [u8],
}

impl<'a> Model for LoadSegment<'a> {
    ghost use Rattle.std.specs.Prelude.{◌<◌, ◌^◌, length};
    ghost use Rattle.elf_image.specs.Image.{Segment};

    ghost Value = { Segment };

    ghost view = { λ segment. record { at = segment.at; bytes = segment.bytes.now } };

    ghost invariant = { λ segment. length segment.bytes.now < 2 ^ 32 };
}

/// The bytes from an offset on, and of them no more than `size`.
fn part(file: &[u8], offset: usize, size: usize) -> &[u8]
    ensures { result.now ≡ take size (drop offset file.now) }
{
    let rest = file.get(offset..).unwrap_or(&[]);
    rest.get(..size).unwrap_or(rest)
}

impl<'a> LoadSegment<'a> {
    ghost use Rattle.elf_image.specs.Elf.{header_of};
    ghost use Rattle.elf_image.specs.Image.{Loads, byte_in, segment_of, skipped_in};

    /// What a program header loads, if it is of the type that loads.
    #[tactic(auto, unfolding(crate::specs::Image::segment_of))]
    pub fn of(file: &'a [u8], header: &[u8; PROGRAM_HEADER_SIZE]) -> Option<Self>
        ensures { result ≡ segment_of file.now (header_of header.now) }
    {
        let header = ProgramHeader::read(header);
        if !header.is_load() {
            return None;
        }
        Some(LoadSegment {
            at: header.p_paddr,
            bytes: part(file, header.p_offset as usize, header.p_filesz as usize),
        })
    }

    /// The byte that the segment gives an address, if it names it.
    #[tactic(auto, unfolding(crate::specs::Image::byte_in))]
    pub fn byte(&self, at: u32) -> Option<u8>
        ensures { result ≡ byte_in self.now at }
    {
        let place = at.checked_sub(self.at)?;
        self.bytes.get(place as usize).copied()
    }

    /// The addresses from `low` up to `high` that the segment names.
    fn within(&self, low: u32, high: u32) -> Range<usize>
        ensures start { result.start ≡ max self.now.at low }
        ensures end { result.end ≡ min (self.now.at + length self.now.bytes) high }
    {
        let start = self.at.max(low) as usize;
        let end = (self.at as usize + self.bytes.len()).min(high as usize);
        start..end
    }

    /// How many bytes of the segment lie off FRAM.
    pub fn skipped(&self) -> u64
        ensures value { result ≡ skipped_in self.now }
        ensures small { result < 2 ^ 32 }
    {
        let info = self.within(INFO_START, INFO_END).len();
        let main = self.within(MAIN_START, MAIN_END).len();
        (self.bytes.len() - info - main) as u64
    }

    /// Writes the bytes that lie from `low` up to `high` into a memory by address.
    fn load_within(&self, memory: &mut [u8], low: u32, high: u32)
        requires { high ≤ length memory.old }
        ensures inside { (at : ℕ) → low ≤ at → at < high → Loads self.now memory.old memory.new at }
        ensures below { (at : ℕ) → at < low → Keeps memory.old memory.new at }
        ensures above { (at : ℕ) → high ≤ at → Keeps memory.old memory.new at }
    {
        let range = self.within(low, high);
        if range.start < range.end {
            let first = self.at as usize;
            let bytes = &self.bytes[range.start - first..range.end - first];
            memory[range.start..range.end].copy_from_slice(bytes);
        }
    }

    /// Writes the bytes that lie in FRAM into a memory by address.
    #[tactic(auto, using(crate::proofs::FramLemmas::is_fram_tells))]
    pub fn load(&self, memory: &mut [u8])
        requires { length memory.old ≡ MAIN_END }
        ensures fram { OnFram (Loads self.now memory.old memory.new) }
        ensures others { OffFram (Keeps memory.old memory.new) }
    {
        self.load_within(memory, INFO_START, INFO_END);
        self.load_within(memory, MAIN_START, MAIN_END);
    }
}
