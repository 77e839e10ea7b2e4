ghost use Rattle.std.specs.Prelude.{◌≡◌, ◌<◌, ◌≤◌, IfErr, IfOk, IsTrue, length, map, position, slice_index};
ghost use Rattle.chip_words.specs.Map.{is_fram};
ghost use Rattle.elf_image.specs.Elf.{header_of, header_table};
ghost use Rattle.elf_image.specs.Fram.{Keeps, OffFram, OnFram};
ghost use Rattle.elf_image.specs.Image.{erased_byte, image_of, leaves, table_loaded};

use crate::headers::{
    ELF_HEADER_SIZE, FileHeader, PROGRAM_HEADER_SIZE, ProgramHeader, begins_as_elf,
};
use crate::refusals::ImageRefused;
use crate::segments::LoadSegment;
use chip_words::fill_within;
use memory_map::{INFO_END, INFO_START, MAIN_END, MAIN_START};
use std::marker::Model;

/// What FRAM holds where nothing was written.
const ERASED: u8 = 0xFF;

/// An executable file.
const ET_EXEC: u16 = 2;
/// The number of the MSP430.
const EM_MSP430: u16 = 105;

/// The program that a file holds: the bytes of FRAM when the chip leaves the programmer.
///
/// Contracts see its segments, in the order of the program headers.
#[derive(Debug, Drop)]
pub struct Image<'a> {
    file: &'a [u8],
    headers: &'a [[u8; PROGRAM_HEADER_SIZE]],
}

impl<'a> Model for Image<'a> {
    ghost use Rattle.std.specs.Prelude.{List, ◌≤◌, length, map};
    ghost use Rattle.elf_image.specs.Image.{Segment, segments_of};
    ghost use Rattle.elf_image.specs.Elf.{header_of};

    ghost Value = { List Segment };

    ghost view = { λ image. segments_of image.file.now (map header_of image.headers.now) };

    ghost invariant = { λ image. length image.headers.now ≤ 0xFFFF };
}

impl<'a> Image<'a> {
    ghost use Rattle.elf_image.specs.Image.{byte_of, skipped_of};

    /// The byte of an address of FRAM: the last segment that names the address gives it, and FRAM
    /// that none names is erased.
    pub fn byte(&self, at: u32) -> u8
        requires { IsTrue (is_fram at) }
        ensures { result ≡ byte_of self.now at }
    {
        let mut byte = ERASED;
        for header in self.headers {
            if let Some(segment) = LoadSegment::of(self.file, header) {
                byte = segment.byte(at).unwrap_or(byte);
            }
        }
        byte
    }

    /// How many bytes of the segments lie off FRAM and are passed over. A byte that several
    /// segments give counts for each.
    pub fn skipped(&self) -> u64
        ensures { result ≡ skipped_of self.now }
    {
        let mut skipped = 0;
        for header in self.headers {
            if let Some(segment) = LoadSegment::of(self.file, header) {
                skipped += segment.skipped();
            }
        }
        skipped
    }

    /// Writes FRAM as the image gives it into a memory by address, and leaves the rest.
    pub fn load(&self, memory: &mut [u8])
        requires { length memory.old ≡ MAIN_END }
        ensures fram { OnFram (λ at. slice_index memory.new at ≡ byte_of self.now at) }
        ensures others { OffFram (Keeps memory.old memory.new) }
    {
        erase(memory);
        for header in self.headers {
            if let Some(segment) = LoadSegment::of(self.file, header) {
                segment.load(memory);
            }
        }
    }
}

/// Makes FRAM what it is where nothing was written.
#[tactic(auto, using(crate::proofs::FramLemmas::is_fram_tells))]
fn erase(memory: &mut [u8])
    requires { length memory.old ≡ MAIN_END }
    ensures fram { OnFram (λ at. slice_index memory.new at ≡ erased_byte) }
    ensures others { OffFram (Keeps memory.old memory.new) }
{
    fill_within(memory, INFO_START, INFO_END, ERASED);
    fill_within(memory, MAIN_START, MAIN_END, ERASED);
}

/// The program headers of a file that nothing but a segment can refuse any more, or the refusal.
#[tactic(auto, unfolding(crate::specs::Image::image_of, crate::specs::Elf::header_table))]
fn read_headers<'a>(file: &'a [u8]) -> Result<&'a [[u8; PROGRAM_HEADER_SIZE]], ImageRefused>
    ensures refused { IfErr result (λ refused. image_of file.now ≡ Err refused) }
    ensures table { IfOk result (λ headers. map header_of headers.now ≡ header_table file.now) }
    ensures few { IfOk result (λ headers. length headers.now ≤ 0xFFFF) }
    ensures judged { IfOk result (λ _. image_of file.now ≡ table_loaded file.now) }
{
    let have = file.len();
    if have < ELF_HEADER_SIZE {
        return Err(ImageRefused::Short(ELF_HEADER_SIZE as u64, have as u64));
    }
    if !begins_as_elf(file) {
        return Err(ImageRefused::NotElf);
    }
    let header = FileHeader::read(file);
    if header.e_machine != EM_MSP430 {
        return Err(ImageRefused::NotMsp430(header.e_machine));
    }
    if header.e_type != ET_EXEC {
        return Err(ImageRefused::NotExec(header.e_type));
    }
    if header.e_phnum == 0 {
        return Ok(&[]);
    }
    if header.e_phentsize as usize != PROGRAM_HEADER_SIZE {
        return Err(ImageRefused::BadTable(header.e_phentsize));
    }
    let start = header.e_phoff as usize;
    let need = start + PROGRAM_HEADER_SIZE * header.e_phnum as usize;
    if have < need {
        return Err(ImageRefused::Short(need as u64, have as u64));
    }
    let (headers, _) = file[start..need].as_chunks();
    Ok(headers)
}

/// The index of the first header that loads bytes from behind the end of the file.
fn first_leaving(headers: &[[u8; PROGRAM_HEADER_SIZE]], end: usize) -> Option<usize>
    ensures { result ≡ position (λ bytes. leaves end (header_of bytes)) headers.now }
{
    headers
        .iter()
        .position(|bytes| ProgramHeader::read(bytes).leaves(end))
}

/// The image that a file holds, or the first refusal in the order of `ImageRefused`.
pub fn read_image<'a>(bytes: &'a [u8]) -> Result<Image<'a>, ImageRefused>
    ensures { result ≡ image_of bytes.now }
{
    let headers = read_headers(bytes)?;
    match first_leaving(headers, bytes.len()) {
        Some(index) => Err(ImageRefused::BadSegment(index as u32)),
        None => Ok(Image {
            file: bytes,
            headers,
        }),
    }
}
