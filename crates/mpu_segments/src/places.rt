ghost use Rattle.std.specs.Prelude.{◌≡◌, ◌<◌, ◌≤◌};
ghost use Rattle.chip_words.specs.Bits.{has_bit};
ghost use Rattle.chip_words.specs.Mpu.{first_violation as first_violation_of, right_bit as right_bit_of, violation_number as violation_number_of};
ghost use Rattle.chip_words.specs.Segments.{cause_of_violation as cause_of, flag_of as flag_of_place, rights_of as rights_of_place};

use chip_words::{
    INFO_VIOLATION, Kind, SEALED_VIOLATION, SEGMENT_1_VIOLATION, SEGMENT_2_VIOLATION,
    SEGMENT_3_VIOLATION, Segment,
};

/// The bit of a place's flag in MPUCTL1, 0 to 4.
pub fn flag_of(place: Segment) -> u32
    ensures bit { result ≡ flag_of_place place }
    ensures small { result < 5 }
{
    match place {
        Segment::One => 0,
        Segment::Two => 1,
        Segment::Three => 2,
        Segment::Info => 3,
        Segment::Sealed => 4,
    }
}

/// The bit of MPUSAM where the rights of a segment begin; the sealed area has none there.
pub fn rights_of(place: Segment) -> u32
    ensures bit { result ≡ rights_of_place place }
    ensures most { result ≤ 16 }
{
    match place {
        Segment::One => 0,
        Segment::Two => 4,
        Segment::Three => 8,
        Segment::Info => 12,
        Segment::Sealed => 16,
    }
}

/// The bit of a kind's right among the four of a segment.
pub fn right_bit(kind: Kind) -> u32
    ensures bit { result ≡ right_bit_of kind }
    ensures small { result < 3 }
{
    match kind {
        Kind::Read => 0,
        Kind::Write => 1,
        Kind::Fetch => 2,
    }
}

/// The cause of the reset that a violation asks for.
pub fn cause_of_violation(place: Segment) -> u8
    ensures cause { result ≡ cause_of place }
    ensures number { result < 65 }
{
    match place {
        Segment::Sealed => SEALED_VIOLATION,
        Segment::Info => INFO_VIOLATION,
        Segment::One => SEGMENT_1_VIOLATION,
        Segment::Two => SEGMENT_2_VIOLATION,
        Segment::Three => SEGMENT_3_VIOLATION,
    }
}

/// The place whose flag SYSSNIV tells, of those that are set in MPUCTL1.
pub fn first_violation(flags: u16) -> Option<Segment>
    ensures { result ≡ first_violation_of flags }
{
    if is_set(flags, Segment::Sealed) {
        Some(Segment::Sealed)
    } else if is_set(flags, Segment::Info) {
        Some(Segment::Info)
    } else if is_set(flags, Segment::One) {
        Some(Segment::One)
    } else if is_set(flags, Segment::Two) {
        Some(Segment::Two)
    } else if is_set(flags, Segment::Three) {
        Some(Segment::Three)
    } else {
        None
    }
}

/// The flag of a place is set.
fn is_set(flags: u16, place: Segment) -> bool
    ensures { result ≡ has_bit flags (flag_of_place place) }
{
    (flags >> flag_of(place)) & 1 == 1
}

/// What SYSSNIV reads: the number of a violation, 08h to 10h, or 0.
pub fn violation_number(place: Option<Segment>) -> u16
    ensures { result ≡ violation_number_of place }
{
    match place {
        Some(Segment::Sealed) => 0x08,
        Some(Segment::Info) => 0x0A,
        Some(Segment::One) => 0x0C,
        Some(Segment::Two) => 0x0E,
        Some(Segment::Three) => 0x10,
        None => 0,
    }
}
