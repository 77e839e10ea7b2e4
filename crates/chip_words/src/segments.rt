ghost use Rattle.std.specs.Prelude.{◌≡◌, ◌<◌};
ghost use Rattle.chip_words.specs.Segments.{flag_of};

/// A place whose right an access may lack: a segment of main FRAM, information FRAM, or the sealed area.
#[derive(Clone, Copy, Debug, PartialEq, Eq)]
pub enum Segment {
    /// Segment 1: main FRAM below the first border.
    One,
    /// Segment 2: main FRAM from the first border up to the second.
    Two,
    /// Segment 3: main FRAM from the second border on.
    Three,
    /// Information FRAM.
    Info,
    /// The area of IP Encapsulation.
    Sealed,
}

impl Segment {
    /// The bit of the place's flag in MPUCTL1.
    pub fn flag(self) -> u32
        ensures bit { result ≡ flag_of self }
        ensures small { result < 5 }
    {
        match self {
            Segment::One => 0,
            Segment::Two => 1,
            Segment::Three => 2,
            Segment::Info => 3,
            Segment::Sealed => 4,
        }
    }
}

/// Whether an access may be made.
#[derive(Clone, Copy, Debug, PartialEq, Eq)]
pub enum Right {
    Yes,
    /// The place refuses it.
    No(Segment),
}
