ghost use Rattle.std.specs.Prelude.{◌≡◌, ◌+◌, ◌≤◌, length};
ghost use Rattle.elf_image.specs.Elf.{e_machine, e_phentsize, e_phnum, e_phoff, e_type, half, is_elf, word};

use byteorder::{ByteOrder, LittleEndian};

/// The length of the ELF header.
pub const ELF_HEADER_SIZE: usize = 52;
/// The length of a program header.
pub const PROGRAM_HEADER_SIZE: usize = 32;

/// The type of a program header whose segment is loaded.
const PT_LOAD: u32 = 1;

/// What a 32-bit little-endian ELF file begins with: the magic, the class and the byte order.
const IDENTIFICATION: [u8; 6] = [0x7F, b'E', b'L', b'F', 1, 1];

/// The fields of the ELF header that decide what is loaded.
#[derive(Clone, Copy, Debug, PartialEq, Eq)]
pub struct FileHeader {
    /// What kind of file it is. 2 is an executable.
    pub e_type: u16,
    /// The machine that it is for. 105 is the MSP430.
    pub e_machine: u16,
    /// The place of the program headers in the file.
    pub e_phoff: u32,
    /// The length of a program header.
    pub e_phentsize: u16,
    /// How many program headers there are.
    pub e_phnum: u16,
}

/// The fields of a program header that decide what is loaded.
///
/// A field that is not here decides nothing: the virtual address, the size in memory, the flags.
#[derive(Clone, Copy, Debug, PartialEq, Eq)]
pub struct ProgramHeader {
    /// What the header describes. 1 is a segment that is loaded.
    pub p_type: u32,
    /// The place of the segment's bytes in the file.
    pub p_offset: u32,
    /// The address of the first of them.
    pub p_paddr: u32,
    /// How many they are.
    pub p_filesz: u32,
}

/// The field of two bytes at an offset.
#[tactic(auto, unfolding(crate::specs::Elf::half))]
fn read_half(bytes: &[u8], offset: usize) -> u16
    requires { offset + 2 ≤ length bytes.now }
    ensures { result ≡ half offset bytes.now }
{
    LittleEndian::read_u16(&bytes[offset..])
}

/// The field of four bytes at an offset.
#[tactic(auto, unfolding(crate::specs::Elf::word))]
fn read_word(bytes: &[u8], offset: usize) -> u32
    requires { offset + 4 ≤ length bytes.now }
    ensures { result ≡ word offset bytes.now }
{
    LittleEndian::read_u32(&bytes[offset..])
}

/// Says whether a file begins as a 32-bit little-endian ELF file.
#[tactic(auto, unfolding(crate::specs::Elf::is_elf))]
pub fn begins_as_elf(file: &[u8]) -> bool
    ensures { result ≡ is_elf file.now }
{
    file.starts_with(&IDENTIFICATION)
}

impl FileHeader {
    /// The header that a file begins with.
    pub fn read(file: &[u8]) -> Self
        requires { ELF_HEADER_SIZE ≤ length file.now }
        ensures kind { result.e_type ≡ e_type file.now }
        ensures machine { result.e_machine ≡ e_machine file.now }
        ensures place { result.e_phoff ≡ e_phoff file.now }
        ensures size { result.e_phentsize ≡ e_phentsize file.now }
        ensures count { result.e_phnum ≡ e_phnum file.now }
    {
        FileHeader {
            e_type: read_half(file, 16),
            e_machine: read_half(file, 18),
            e_phoff: read_word(file, 28),
            e_phentsize: read_half(file, 42),
            e_phnum: read_half(file, 44),
        }
    }
}

impl ProgramHeader {
    ghost use Rattle.elf_image.specs.Elf.{header_of, is_load};
    ghost use Rattle.elf_image.specs.Image.{leaves};

    /// The program header in its 32 bytes.
    #[tactic(auto, unfolding(crate::specs::Elf::header_of))]
    pub fn read(bytes: &[u8; PROGRAM_HEADER_SIZE]) -> Self
        ensures { result ≡ header_of bytes.now }
    {
        ProgramHeader {
            p_type: read_word(bytes, 0),
            p_offset: read_word(bytes, 4),
            p_paddr: read_word(bytes, 12),
            p_filesz: read_word(bytes, 16),
        }
    }

    /// Says whether the header describes a segment that is loaded.
    pub fn is_load(&self) -> bool
        ensures { result ≡ is_load self.now }
    {
        self.p_type == PT_LOAD
    }

    /// Says whether the header loads bytes from behind the end of the file.
    #[tactic(auto, unfolding(crate::specs::Image::leaves))]
    pub fn leaves(&self, end: usize) -> bool
        ensures { result ≡ leaves end self.now }
    {
        self.is_load()
            && self.p_filesz != 0
            && self.p_offset as usize + self.p_filesz as usize > end
    }
}
