use chip_words::NoMemory;
use std::error::Error;
use std::fmt;

/// Why some cuts make no schedule.
#[derive(Clone, Copy, Debug, PartialEq, Eq)]
pub enum ScheduleRefused {
    /// The cut of this index is the first whose tick isn't behind the ticks without power of the cut
    /// before it. The first cut has the index 0.
    BadCut(u32),
    /// There was no memory for it.
    NoMemory,
}

impl fmt::Display for ScheduleRefused {
    fn fmt<W: fmt::Write>(&self, f: &mut fmt::Formatter<W>) -> fmt::Result {
        match self {
            ScheduleRefused::BadCut(index) => write!(f, "cut {index} comes too early"),
            ScheduleRefused::NoMemory => NoMemory.fmt(f),
        }
    }
}

impl Error for ScheduleRefused {}
