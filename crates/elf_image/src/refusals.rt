use std::error::Error;
use std::fmt;

/// Why a file is no image. Where several hold, the first in this order is given.
#[derive(Clone, Copy, Debug, PartialEq, Eq)]
pub enum ImageRefused {
    /// The file needs so many bytes for its header or its table of headers, and has so many.
    Short(u64, u64),
    /// The file is no 32-bit little-endian ELF file.
    NotElf,
    /// The file is for another machine, with this number.
    NotMsp430(u16),
    /// The file is of another type than an executable.
    NotExec(u16),
    /// The program headers have another size than 32 bytes.
    BadTable(u16),
    /// The program header of this index loads bytes from behind the end of the file.
    BadSegment(u32),
}

impl fmt::Display for ImageRefused {
    fn fmt<W: fmt::Write>(&self, f: &mut fmt::Formatter<W>) -> fmt::Result {
        match self {
            ImageRefused::Short(need, have) => {
                write!(f, "the file has {have} bytes and needs {need}")
            }
            ImageRefused::NotElf => f.write_str("not a 32-bit little-endian ELF file"),
            ImageRefused::NotMsp430(machine) => write!(f, "machine {machine} is not the MSP430"),
            ImageRefused::NotExec(kind) => write!(f, "type {kind} is not an executable"),
            ImageRefused::BadTable(size) => write!(f, "a program header of {size} bytes"),
            ImageRefused::BadSegment(index) => {
                write!(
                    f,
                    "program header {index} names bytes behind the end of the file"
                )
            }
        }
    }
}

impl Error for ImageRefused {}
