use chip_words::NoMemory;
use std::error::Error;
use std::fmt;

/// A key at the root of a bench.
#[derive(Clone, Copy, Debug, PartialEq, Eq)]
pub enum RootField {
    /// `version`, the number of the format: 1.
    Version,
    /// `end`, the number of ticks of the run.
    End,
    /// `fill`, the byte that SRAM is filled with.
    Fill,
    /// `event`, the array of events.
    Event,
    /// `cut`, the array of cuts.
    Cut,
    /// Any other key.
    Unknown,
}

/// Why a file is no bench. Where several hold, the first in this order is given; of the root's keys
/// the first in the order of `RootField`.
#[derive(Clone, Copy, Debug, PartialEq, Eq)]
pub enum BenchRefused {
    /// The bytes are no TOML document. Bytes that are no UTF-8 are none.
    NotToml,
    /// This key of the root is absent though needed, of another type or out of its range.
    /// `Unknown`: a key stands there that a bench doesn't have.
    Field(RootField),
    /// The bench has this many events, which is more than `MAX_EVENTS`, or else this many cuts, which is
    /// more than `MAX_CUTS`.
    TooMany(u32),
    /// The event of this index is the first that breaks a rule.
    Event(u32),
    /// The cut of this index is the first that breaks a rule.
    Cut(u32),
}

/// Why a bench wasn't read.
#[derive(Clone, Copy, Debug, PartialEq, Eq)]
pub enum BenchError {
    /// The bytes are no bench.
    Refused(BenchRefused),
    /// There was no memory for it.
    NoMemory,
}

impl From<NoMemory> for BenchError {
    ghost use Rattle.std.specs.Prelude.{◌≡◌};
    ghost use Rattle.stimulus.specs.declared.refusals.BenchError.TheVariants as error;

    ghost from_gives = { λ _ e. e ≡ error.NoMemory };

    fn from(_: NoMemory) -> BenchError {
        BenchError::NoMemory
    }
}

impl fmt::Display for RootField {
    fn fmt<W: fmt::Write>(&self, f: &mut fmt::Formatter<W>) -> fmt::Result {
        f.write_str(match self {
            RootField::Version => "version",
            RootField::End => "end",
            RootField::Fill => "fill",
            RootField::Event => "event",
            RootField::Cut => "cut",
            RootField::Unknown => "an unknown key",
        })
    }
}

impl fmt::Display for BenchRefused {
    fn fmt<W: fmt::Write>(&self, f: &mut fmt::Formatter<W>) -> fmt::Result {
        match self {
            BenchRefused::NotToml => f.write_str("not a TOML document"),
            BenchRefused::Field(RootField::Unknown) => f.write_str("an unknown key at the root"),
            BenchRefused::Field(field) => write!(
                f,
                "`{field}` is missing, of another type or out of its range"
            ),
            BenchRefused::TooMany(count) => write!(f, "{count} events or cuts, which are too many"),
            BenchRefused::Event(index) => write!(f, "event {index} breaks a rule"),
            BenchRefused::Cut(index) => write!(f, "cut {index} breaks a rule"),
        }
    }
}

impl fmt::Display for BenchError {
    fn fmt<W: fmt::Write>(&self, f: &mut fmt::Formatter<W>) -> fmt::Result {
        match self {
            BenchError::Refused(refused) => write!(f, "{refused}"),
            BenchError::NoMemory => NoMemory.fmt(f),
        }
    }
}

impl Error for BenchRefused {}

impl Error for BenchError {}
