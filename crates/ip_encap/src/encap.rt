ghost use Rattle.std.specs.Prelude.{◌≡◌, ◌+◌, ◌<◌, ◌&&◌, not, bit_and};
ghost use Rattle.chip_words.specs.Addresses.{register_address};
ghost use Rattle.chip_words.specs.Bits.{has_bit, part_of};
ghost use Rattle.chip_words.specs.Encap.{Encap as EncapRegisters, MPUIPVS as MPUIPVS_BIT, allows as allows_access, area as area_of, bytes_without_data, encap_at_reset, encap_word, encap_written, first_encap, installed, is_enabled as is_enabled_of, is_locked as is_locked_of, kept_of_mpuipc0 as kept_bits, seal as seal_of};
ghost use Rattle.chip_words.specs.Seals.{is_in};
ghost use Rattle.chip_words.specs.Segments.{border as border_of};
ghost use Rattle.chip_words.specs.Sizes.{IsByteOrWord, span};

use crate::areas::{NOWHERE, between, border, border_bits, is_never_sealed};
use chip_words::{Agent, Kind, MPUIPC0, MPUIPSEGB1, MPUIPSEGB2, Seal, Size, part, word_with_part};
use std::marker::Model;

// The bits of MPUIPC0.

const MPUIPVS: u32 = 5;

const MPUIPENA: u32 = 6;

const MPUIPLOCK: u32 = 7;

/// The bits of MPUIPC0 that are kept.
const KEPT_OF_MPUIPC0: u16 = 0xE0;

/// The area begins with so many bytes whose code has no right to data of the area.
const BYTES_WITHOUT_DATA: u32 = 8;

/// The words that a boot found for the three registers.
#[derive(Clone, Copy, Debug, PartialEq, Eq)]
pub struct Borders {
    /// That of MPUIPC0.
    pub c0: u16,
    /// That of MPUIPSEGB2, the second border.
    pub b2: u16,
    /// That of MPUIPSEGB1, the first border.
    pub b1: u16,
}

/// What the three registers say, decoded.
#[derive(Clone, Copy, Debug, PartialEq, Eq)]
pub struct Bounds {
    /// The control bits: VS, ENA and LOCK in their places in MPUIPC0.
    pub control: u8,
    /// The addresses of the borders.
    pub first: u32,
    pub second: u32,
}

/// IP Encapsulation (SLAU367, MPU, IP Encapsulation segment).
#[derive(Debug, Drop)]
pub struct Encap {
    /// The lower byte of MPUIPC0, whose upper one has no bits.
    mpuipc0: u8,
    mpuipsegb2: u16,
    mpuipsegb1: u16,
    // What the registers mean: each access asks for it, and few writes change it.
    area: Seal,
    /// The instructions of the area from this address on may read and write there.
    data_start: u32,
}

impl Model for Encap {
    ghost Value = { EncapRegisters };

    ghost view = { λ e. record {
      mpuipc0 = e.mpuipc0;
      mpuipsegb2 = e.mpuipsegb2;
      mpuipsegb1 = e.mpuipsegb1;
    } };

    ghost invariant = { λ e.
        (e.area ≡ area_of (record {
          mpuipc0 = e.mpuipc0;
          mpuipsegb2 = e.mpuipsegb2;
          mpuipsegb1 = e.mpuipsegb1;
        })) × (e.data_start ≡ border_of e.mpuipsegb1 + bytes_without_data) };
}

impl Encap {
    /// The values after a BOR.
    pub fn new() -> Encap
        ensures { result ≡ first_encap }
    {
        Encap::decoded(0, 0, 0)
    }

    /// The unit with these words in its registers, and what they mean.
    #[tactic(auto, unfolding(chip_words::specs::Encap::area))]
    fn decoded(mpuipc0: u8, mpuipsegb2: u16, mpuipsegb1: u16) -> Encap
        ensures { result ≡ record {
          mpuipc0 = mpuipc0;
          mpuipsegb2 = mpuipsegb2;
          mpuipsegb1 = mpuipsegb1;
        } }
    {
        let area = if is_set(mpuipc0, MPUIPENA) {
            between(border(mpuipsegb1), border(mpuipsegb2))
        } else {
            NOWHERE
        };
        Encap {
            mpuipc0,
            mpuipsegb2,
            mpuipsegb1,
            area,
            data_start: border(mpuipsegb1) + BYTES_WITHOUT_DATA,
        }
    }

    /// The unit's part of a BOR, or else of a PUC, which changes nothing.
    pub fn reset(&mut self, bor: bool)
        ensures { self.new ≡ encap_at_reset bor self.old }
    {
        if bor {
            *self = Encap::new();
        }
    }

    /// Takes the words that a boot found, of which each register keeps its own bits, whatever LOCK is.
    pub fn install(&mut self, borders: Borders)
        ensures { self.new ≡ installed borders.c0 borders.b2 borders.b1 }
    {
        *self = Encap::decoded(
            kept_of_mpuipc0(borders.c0),
            border_bits(borders.b2),
            border_bits(borders.b1),
        );
    }

    /// Reads at an address of this unit.
    #[tactic(auto, unfolding(chip_words::specs::Encap::encap_word))]
    pub fn read(&self, at: u32, size: Size) -> u32
        requires { IsByteOrWord size }
        ensures value { result ≡ part_of size at (encap_word self.now (register_address at)) }
        ensures small { result < span size }
    {
        let word = match at - at % 2 {
            MPUIPC0 => u16::from(self.mpuipc0),
            MPUIPSEGB2 => self.mpuipsegb2,
            MPUIPSEGB1 => self.mpuipsegb1,
            _ => 0,
        };
        part(size, at, word)
    }

    /// Writes at an address of this unit, where the latch of the MPU's password is open. Answers whether this set LOCK,
    /// which was clear.
    #[tactic(auto, unfolding(chip_words::specs::Encap::encap_written))]
    pub fn write(&mut self, at: u32, size: Size, value: u32, latch: bool) -> bool
        requires width { IsByteOrWord size }
        requires fits { value < span size }
        ensures encap { self.new ≡ encap_written self.old latch at size value }
        ensures locked { result ≡ (not (is_locked_of self.old) && is_locked_of self.new) }
    {
        if !latch || self.is_locked() {
            return false;
        }
        let value = value as u16;
        match at - at % 2 {
            MPUIPC0 => {
                let word = word_with_part(size, at, u16::from(self.mpuipc0), value);
                *self = Encap::decoded(kept_of_mpuipc0(word), self.mpuipsegb2, self.mpuipsegb1);
            }
            MPUIPSEGB2 => {
                let word = border_bits(word_with_part(size, at, self.mpuipsegb2, value));
                *self = Encap::decoded(self.mpuipc0, word, self.mpuipsegb1);
            }
            MPUIPSEGB1 => {
                let word = border_bits(word_with_part(size, at, self.mpuipsegb1, value));
                *self = Encap::decoded(self.mpuipc0, self.mpuipsegb2, word);
            }
            _ => {}
        }
        self.is_locked()
    }

    /// The area, where it is enabled and locked.
    pub fn seal(&self) -> Seal
        ensures { result ≡ seal_of self.now }
    {
        if self.is_locked() { self.area } else { NOWHERE }
    }

    /// Whether an agent has the right to an access, by the area alone.
    #[tactic(auto, unfolding(chip_words::specs::Encap::allows))]
    pub fn allows(&self, who: Agent, at: u32, kind: Kind) -> bool
        ensures { result ≡ allows_access self.now who kind at }
    {
        if !self.holds(at) {
            return true;
        }
        match who {
            Agent::Cpu(ia) => self.holds(ia) && (kind == Kind::Fetch || ia >= self.data_start),
            Agent::Boot => true,
            Agent::Entry | Agent::Dma | Agent::Debug => false,
        }
    }

    /// The area holds an address. It lies in main FRAM, so its ends are all that is asked, and its end first: an empty
    /// one has the end 0.
    #[tactic(auto, unfolding(chip_words::specs::Encap::area, chip_words::specs::Seals::is_in))]
    fn holds(&self, at: u32) -> bool
        ensures { result ≡ is_in (area_of self.now) at }
    {
        at < self.area.high && self.area.low <= at && !is_never_sealed(at)
    }

    /// The seal holds an address.
    #[tactic(auto, unfolding(chip_words::specs::Seals::is_in))]
    pub fn is_sealed(&self, at: u32) -> bool
        ensures { result ≡ is_in (seal_of self.now) at }
    {
        self.is_locked() && self.holds(at)
    }

    /// What the registers bound: the control bits, which are the lower byte of MPUIPC0, and the addresses of both borders.
    pub fn bounds(&self) -> Bounds
        ensures control { result.control ≡ (self.now).mpuipc0 }
        ensures first { result.first ≡ border_of (self.now).mpuipsegb1 }
        ensures second { result.second ≡ border_of (self.now).mpuipsegb2 }
        ensures small { (result.first < 0x100000) × (result.second < 0x100000) }
    {
        Bounds {
            control: self.mpuipc0,
            first: border(self.mpuipsegb1),
            second: border(self.mpuipsegb2),
        }
    }

    /// VS: a violation of the area asks for a reset.
    pub fn vs(&self) -> bool
        ensures { result ≡ has_bit (self.now).mpuipc0 MPUIPVS_BIT }
    {
        is_set(self.mpuipc0, MPUIPVS)
    }

    /// ENA: the area is there.
    pub fn is_enabled(&self) -> bool
        ensures { result ≡ is_enabled_of self.now }
    {
        is_set(self.mpuipc0, MPUIPENA)
    }

    /// LOCK: no write changes the registers.
    fn is_locked(&self) -> bool
        ensures { result ≡ is_locked_of self.now }
    {
        is_set(self.mpuipc0, MPUIPLOCK)
    }
}

/// What MPUIPC0 keeps of a word: bits of its lower byte alone.
fn kept_of_mpuipc0(word: u16) -> u8
    ensures { result ≡ bit_and word kept_bits }
{
    (word & KEPT_OF_MPUIPC0) as u8
}

/// A bit of a byte, 0 to 7, is set.
fn is_set(byte: u8, bit: u32) -> bool
    requires { bit < 8 }
    ensures { result ≡ has_bit byte bit }
{
    (byte >> bit) & 1 == 1
}
