ghost use Rattle.std.specs.Prelude.{◌≡◌};
ghost use Rattle.capsule.specs.Exits.{exit_of};

use elf_image::ImageRefused;
use std::fmt;
use stimulus::BenchRefused;

/// How a call of the program ended.
#[derive(Clone, Copy, Debug, PartialEq, Eq)]
pub enum Status {
    /// All files were read, and the whole text was written. Two images that were compared gave away the same.
    Done,
    /// As Done, but the images that were compared differ, or what they gave away does.
    Differ,
    /// The words are none that the program knows.
    Usage,
    /// The shelf has no file of a name.
    Absent,
    /// The shelf failed to find or to read a file.
    ReadFault,
    /// A file is longer than its limit.
    TooLong,
    /// A file is no image, and why.
    Image(ImageRefused),
    /// A file is no bench, and why.
    Bench(BenchRefused),
    /// The sink failed; a front of the text may be written.
    WriteFault,
    /// There was no memory; nothing was written.
    NoMemory,
}

impl Status {
    /// The number that the process ends with.
    pub fn exit_number(self) -> u8
        ensures { result ≡ exit_of self }
    {
        match self {
            Status::Done => 0,
            Status::Differ => 1,
            Status::Usage => 2,
            Status::Absent => 3,
            Status::ReadFault => 4,
            Status::TooLong => 5,
            Status::Image(_) => 6,
            Status::Bench(_) => 7,
            Status::WriteFault => 8,
            Status::NoMemory => 9,
        }
    }
}

impl fmt::Display for Status {
    fn fmt<W: fmt::Write>(&self, f: &mut fmt::Formatter<W>) -> fmt::Result {
        f.write_str(match self {
            Status::Done => "done",
            Status::Differ => "differ",
            Status::Usage => "usage",
            Status::Absent => "absent",
            Status::ReadFault => "read fault",
            Status::TooLong => "too long",
            Status::Image(_) => "bad image",
            Status::Bench(_) => "bad bench",
            Status::WriteFault => "write fault",
            Status::NoMemory => "no memory",
        })
    }
}
