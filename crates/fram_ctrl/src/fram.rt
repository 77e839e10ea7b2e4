ghost use Rattle.std.specs.Prelude.{◌≡◌, ◌<◌, ◌≤◌, IfSome};
ghost use Rattle.chip_words.specs.Addresses.{FRCTL0 as FRCTL0_ADDRESS, register_address};
ghost use Rattle.chip_words.specs.Bits.{part_of};
ghost use Rattle.chip_words.specs.Fram.{FramControl, first_fram, fram_cause, fram_word, fram_written, waits_of};
ghost use Rattle.chip_words.specs.Sizes.{IsByteOrWord, span};

use chip_words::{
    FRAM_PASSWORD, FRCTL0, GCCTL0, GCCTL1, Latch, PASSWORD_READS, Size, is_wrong_password, part,
    word_with_part,
};
use std::marker::Model;

/// NWAITS of FRCTL0 has three bits from this one on.
const NWAITS: u32 = 4;

/// The bits of FRCTL0's lower byte that are kept: those of NWAITS.
const KEPT_OF_FRCTL0: u8 = 0x70;

/// The FRAM controller (SLAU367, FRCTL_A).
#[derive(Debug, Drop)]
pub struct FramCtrl {
    frctl0: u8,
    latch: Latch,
    gcctl0: u16,
    gcctl1: u16,
}

impl Model for FramCtrl {
    ghost Value = { FramControl };

    ghost view = { λ f. record {
      frctl0 = f.frctl0;
      is_open = f.latch;
      gcctl0 = f.gcctl0;
      gcctl1 = f.gcctl1;
    } };
}

impl FramCtrl {
    /// The values after a reset of either kind.
    pub fn new() -> FramCtrl
        ensures { result ≡ first_fram }
    {
        FramCtrl {
            frctl0: 0,
            latch: Latch::new(),
            gcctl0: 0,
            gcctl1: 0,
        }
    }

    /// The unit's part of a BOR, or else of a PUC, which is the same.
    pub fn reset(&mut self, bor: bool)
        ensures { self.new ≡ first_fram }
    {
        *self = FramCtrl::new();
    }

    /// The wait states: each access to FRAM takes so many cycles of MCLK more, 0 to 7.
    pub fn waits(&self) -> u32
        ensures value { result ≡ waits_of self.now }
        ensures most { result ≤ 7 }
    {
        u32::from((self.frctl0 >> NWAITS) & 7)
    }

    /// Reads at an address of this unit.
    pub fn read(&self, at: u32, size: Size) -> u32
        requires { IsByteOrWord size }
        ensures value { result ≡ part_of size at (fram_word self.now (register_address at)) }
        ensures small { result < span size }
    {
        let word = match at - at % 2 {
            FRCTL0 => PASSWORD_READS + u16::from(self.frctl0),
            GCCTL0 => self.gcctl0,
            GCCTL1 => self.gcctl1,
            _ => 0,
        };
        part(size, at, word)
    }

    /// Writes at an address of this unit, and answers the cause of the reset that the write asks for.
    #[tactic(auto, unfolding(chip_words::specs::Fram::fram_written))]
    pub fn write(&mut self, at: u32, size: Size, value: u32) -> Option<u8>
        requires width { IsByteOrWord size }
        requires fits { value < span size }
        ensures fram { self.new ≡ fram_written self.old at size value }
        ensures cause { result ≡ fram_cause at size value }
        ensures number { IfSome result (λ cause. cause < 65) }
    {
        let value = value as u16;
        match at - at % 2 {
            FRCTL0 => return self.write_control(at, size, value),
            GCCTL0 if self.latch.is_open() => {
                self.gcctl0 = word_with_part(size, at, self.gcctl0, value);
            }
            GCCTL1 if self.latch.is_open() => {
                self.gcctl1 = word_with_part(size, at, self.gcctl1, value);
            }
            _ => {}
        }
        None
    }

    /// Writes FRCTL0, which has the password.
    #[tactic(auto, unfolding(chip_words::specs::Fram::fram_written))]
    fn write_control(&mut self, at: u32, size: Size, value: u16) -> Option<u8>
        requires width { IsByteOrWord size }
        requires fits { value < span size }
        requires control { register_address at ≡ FRCTL0_ADDRESS }
        ensures fram { self.new ≡ fram_written self.old at size value }
        ensures cause { result ≡ fram_cause at size value }
        ensures number { IfSome result (λ cause. cause < 65) }
    {
        if let Some(byte) = self.latch.write(at, size, value) {
            self.frctl0 = byte & KEPT_OF_FRCTL0;
        }
        is_wrong_password(size, value).then_some(FRAM_PASSWORD)
    }
}
