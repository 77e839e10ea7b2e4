ghost use Rattle.std.specs.Prelude.{◌≡◌, ◌<◌, ◌%◌, IfSome, Some, true};
ghost use Rattle.chip_words.specs.Addresses.{MPUCTL0 as MPUCTL0_ADDRESS, SYSSNIV as SYSSNIV_ADDRESS, register_address};
ghost use Rattle.chip_words.specs.Bits.{has_bit, part_of};
ghost use Rattle.chip_words.specs.Map.{is_fram as is_in_fram};
ghost use Rattle.chip_words.specs.Mpu.{MPUENA as MPUENA_BIT, MPULOCK as MPULOCK_BIT, Mpu, control_after, first_mpu, gives, mpu_at_reset, mpu_cause, mpu_flagged, mpu_touched, mpu_word, mpu_written, segment_at as segment_at_address, segment_right};
ghost use Rattle.chip_words.specs.Segments.{border as border_of};
ghost use Rattle.chip_words.specs.Sizes.{IsByteOrWord, span};
ghost use Rattle.mpu_segments.specs.Notes.{IfReset, noted_of, vs_of};

use crate::noted::Noted;
use crate::places::{cause_of_violation, first_violation, right_bit, rights_of, violation_number};
use chip_words::{
    Kind, Latch, MPU_PASSWORD, MPUCTL0, MPUCTL1, MPUSAM, MPUSEGB1, MPUSEGB2, PASSWORD_READS, Right,
    SYSSNIV, Segment, Size, is_wrong_password, part, word_with_part,
};
use memory_map::{MAIN_START, is_fram};
use std::marker::Model;

// The bits of MPUCTL0's lower byte.

const MPUENA: u32 = 0;

const MPULOCK: u32 = 1;

const MPUSEGIE: u32 = 4;

/// The bits of MPUCTL0's lower byte that are kept.
const KEPT_OF_MPUCTL0: u8 = 0x13;

/// The bits of a border that are kept, 15:6.
const BORDER_BITS: u16 = 0xFFC0;

/// The bit of VS among the four of a segment in MPUSAM: a violation asks for a reset.
const VS: u32 = 3;

/// Every right, and no reset at a violation.
const ALL_RIGHTS: u16 = 0x7777;

/// The segments of the memory protection unit (SLAU367, MPU).
#[derive(Debug, Drop)]
pub struct MpuSegments {
    mpuctl0: u8,
    latch: Latch,
    mpuctl1: u16,
    mpusegb2: u16,
    mpusegb1: u16,
    mpusam: u16,
}

impl Model for MpuSegments {
    ghost Value = { Mpu };

    ghost view = { λ m. record {
      mpuctl0 = m.mpuctl0;
      is_open = m.latch;
      mpuctl1 = m.mpuctl1;
      mpusegb2 = m.mpusegb2;
      mpusegb1 = m.mpusegb1;
      mpusam = m.mpusam;
    } };
}

impl MpuSegments {
    /// The values after a BOR.
    pub fn new() -> MpuSegments
        ensures { result ≡ first_mpu }
    {
        MpuSegments {
            mpuctl0: 0,
            latch: Latch::new(),
            mpuctl1: 0,
            mpusegb2: 0,
            mpusegb1: 0,
            mpusam: ALL_RIGHTS,
        }
    }

    /// The unit's part of a BOR, or else of a PUC, which closes the latch alone.
    pub fn reset(&mut self, bor: bool)
        ensures { self.new ≡ mpu_at_reset bor self.old }
    {
        if bor {
            *self = MpuSegments::new();
        } else {
            self.latch = Latch::new();
        }
    }

    /// Reads at an address of this unit.
    #[tactic(auto, unfolding(chip_words::specs::Mpu::mpu_word, chip_words::specs::Mpu::mpu_touched))]
    pub fn read(&mut self, at: u32, size: Size) -> u32
        requires { IsByteOrWord size }
        ensures value { result ≡ part_of size at (mpu_word self.old (register_address at)) }
        ensures small { result < span size }
        ensures mpu { self.new ≡ mpu_touched self.old at }
    {
        let word = match at - at % 2 {
            SYSSNIV => self.take_violation(),
            MPUCTL0 => PASSWORD_READS + u16::from(self.mpuctl0),
            MPUCTL1 => self.mpuctl1,
            MPUSEGB2 => self.mpusegb2,
            MPUSEGB1 => self.mpusegb1,
            MPUSAM => self.mpusam,
            _ => 0,
        };
        part(size, at, word)
    }

    /// The number of the first violation, whose flag is cleared.
    #[tactic(auto, unfolding(chip_words::specs::Mpu::mpu_word, chip_words::specs::Mpu::mpu_touched))]
    fn take_violation(&mut self) -> u16
        ensures number { result ≡ mpu_word self.old SYSSNIV_ADDRESS }
        ensures mpu { self.new ≡ mpu_touched self.old SYSSNIV_ADDRESS }
    {
        let place = first_violation(self.mpuctl1);
        if let Some(place) = place {
            self.mpuctl1 &= !(1 << place.flag());
        }
        violation_number(place)
    }

    /// Writes at an address of this unit, and answers the cause of the reset that the write asks for.
    #[tactic(auto, unfolding(chip_words::specs::Mpu::mpu_written, chip_words::specs::Mpu::mpu_touched))]
    pub fn write(&mut self, at: u32, size: Size, value: u32) -> Option<u8>
        requires width { IsByteOrWord size }
        requires fits { value < span size }
        ensures mpu { self.new ≡ mpu_written self.old at size value }
        ensures cause { result ≡ mpu_cause at size value }
        ensures number { IfSome result (λ cause. cause < 65) }
    {
        let value = value as u16;
        let takes = self.latch.is_open() && !self.is_locked();
        match at - at % 2 {
            SYSSNIV => {
                self.take_violation();
            }
            MPUCTL0 => return self.write_control(at, size, value),
            MPUCTL1 if self.latch.is_open() => {
                self.mpuctl1 &= word_with_part(size, at, self.mpuctl1, value);
            }
            MPUSEGB2 if takes => {
                self.mpusegb2 = word_with_part(size, at, self.mpusegb2, value) & BORDER_BITS;
            }
            MPUSEGB1 if takes => {
                self.mpusegb1 = word_with_part(size, at, self.mpusegb1, value) & BORDER_BITS;
            }
            MPUSAM if takes => self.mpusam = word_with_part(size, at, self.mpusam, value),
            _ => {}
        }
        None
    }

    /// Writes MPUCTL0, which has the password.
    #[tactic(auto, unfolding(chip_words::specs::Mpu::mpu_written, chip_words::specs::Mpu::mpu_touched))]
    fn write_control(&mut self, at: u32, size: Size, value: u16) -> Option<u8>
        requires width { IsByteOrWord size }
        requires fits { value < span size }
        requires control { register_address at ≡ MPUCTL0_ADDRESS }
        ensures mpu { self.new ≡ mpu_written self.old at size value }
        ensures cause { result ≡ mpu_cause at size value }
        ensures number { IfSome result (λ cause. cause < 65) }
    {
        if let Some(byte) = self.latch.write(at, size, value) {
            self.control(byte);
        }
        is_wrong_password(size, value).then_some(MPU_PASSWORD)
    }

    /// Sets the lower byte of MPUCTL0, where LOCK doesn't keep it.
    fn control(&mut self, byte: u8)
        ensures { self.new ≡ record self.old {
          mpuctl0 = control_after (self.old).mpuctl0 (Some byte);
        } }
    {
        if !self.is_locked() {
            self.mpuctl0 = byte & KEPT_OF_MPUCTL0;
        }
    }

    /// LOCK is set.
    fn is_locked(&self) -> bool
        ensures { result ≡ has_bit (self.now).mpuctl0 MPULOCK_BIT }
    {
        (self.mpuctl0 >> MPULOCK) & 1 == 1
    }

    /// The latch of MPUCTL0's password is open, which opens the other registers too.
    pub fn is_open(&self) -> bool
        ensures { result ≡ (self.now).is_open }
    {
        self.latch.is_open()
    }

    /// The right of an access by the segments: where ENA is set, an address of FRAM is judged by its
    /// segment.
    #[inline(always)]
    #[tactic(auto, unfolding(chip_words::specs::Mpu::segment_right))]
    pub fn right(&self, kind: Kind, at: u32) -> Right
        requires { at < 0x100000 }
        ensures { result ≡ segment_right self.now kind at }
    {
        if (self.mpuctl0 >> MPUENA) & 1 == 0 || !is_fram(at) {
            return Right::Yes;
        }
        self.judge(kind, at)
    }

    /// The right at an address of FRAM, while the unit is enabled. It stands apart so that its callers hold the test alone.
    #[inline(never)]
    #[tactic(auto, unfolding(chip_words::specs::Mpu::segment_right))]
    fn judge(&self, kind: Kind, at: u32) -> Right
        requires enabled { has_bit (self.now).mpuctl0 MPUENA_BIT ≡ true }
        requires fram { is_in_fram at ≡ true }
        ensures { result ≡ segment_right self.now kind at }
    {
        let place = self.segment_at(at);
        if self.gives(kind, place) {
            Right::Yes
        } else {
            Right::No(place)
        }
    }

    /// The segment of an address of FRAM.
    fn segment_at(&self, at: u32) -> Segment
        ensures { result ≡ segment_at_address self.now at }
    {
        if at < MAIN_START {
            Segment::Info
        } else if at >= border(self.mpusegb2) {
            Segment::Three
        } else if at >= border(self.mpusegb1) {
            Segment::Two
        } else {
            Segment::One
        }
    }

    /// A segment gives the right of a kind.
    fn gives(&self, kind: Kind, place: Segment) -> bool
        ensures { result ≡ gives self.now kind place }
    {
        (u32::from(self.mpusam) >> (rights_of(place) + right_bit(kind))) & 1 == 1
    }

    /// Sets the flag of a place that was violated, and says what this asks for. VS of the sealed area,
    /// whose rights aren't here, is handed in.
    pub fn note(&mut self, place: Segment, ip_vs: bool) -> Noted
        ensures noted { result ≡ noted_of ip_vs self.old place }
        ensures mpu { self.new ≡ mpu_flagged place self.old }
        ensures number { IfReset result (λ cause. cause < 65) }
    {
        self.mpuctl1 |= 1 << place.flag();
        if self.vs(place, ip_vs) {
            Noted::Reset(cause_of_violation(place))
        } else if (self.mpuctl0 >> MPUSEGIE) & 1 == 1 {
            Noted::Nmi
        } else {
            Noted::Nothing
        }
    }

    /// VS of a place.
    fn vs(&self, place: Segment, ip_vs: bool) -> bool
        ensures { result ≡ vs_of ip_vs self.now place }
    {
        match place {
            Segment::Sealed => ip_vs,
            _ => (u32::from(self.mpusam) >> (rights_of(place) + VS)) & 1 == 1,
        }
    }
}

/// The address of a border.
fn border(register: u16) -> u32
    ensures { result ≡ border_of register }
{
    u32::from(register & BORDER_BITS) * 16
}
