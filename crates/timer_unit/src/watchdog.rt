ghost use Rattle.std.specs.Prelude.{◌≡◌, ◌^◌, ◌<◌, ◌≤◌, IfSome};
ghost use Rattle.chip_words.specs.Sizes.{IsByteOrWord, span};
ghost use Rattle.chip_words.specs.Bits.{has_bit};
ghost use Rattle.chip_words.specs.Watchdog.{Watchdog as WatchdogRegisters, WDTHOLD as WDTHOLD_BIT, asks_for_reset, counts, ends_interval, first_watchdog, interval_of, watchdog_cause, watchdog_ticked, watchdog_word, watchdog_written};

use chip_words::{Size, WATCHDOG_PASSWORD};
use std::marker::Model;

/// The upper byte of a word that is written to WDTCTL.
const PASSWORD: u32 = 0x5A;

/// The lower byte of WDTCTL after a reset: 2^15 edges of SMCLK.
const WDTCTL_AT_RESET: u8 = 0x04;

// The numbers of the bits of WDTCTL that stand alone.

const WDTCNTCL: u32 = 3;

const WDTTMSEL: u32 = 4;

const WDTHOLD: u32 = 7;

/// The watchdog (SLAU367, WDT_A).
#[derive(Debug, Drop)]
pub struct Watchdog {
    wdtctl: u8,
    /// Clock edges since the counter was 0.
    counter: u32,
}

impl Model for Watchdog {
    ghost Value = { WatchdogRegisters };

    ghost view = { λ w. record { wdtctl = w.wdtctl; counter = w.counter } };

    ghost invariant = { λ w. w.counter < 0x80000000 };
}

impl Watchdog {
    /// The values after a reset of either kind.
    pub fn new() -> Watchdog
        ensures { result ≡ first_watchdog }
    {
        Watchdog {
            wdtctl: WDTCTL_AT_RESET,
            counter: 0,
        }
    }

    /// WDTCTL, which reads 69h in its upper byte.
    pub fn word(&self) -> u16
        ensures { result ≡ watchdog_word self.now }
    {
        0x6900 + u16::from(self.wdtctl)
    }

    /// Writes WDTCTL, and answers the cause of the reset that a write without the password asks for.
    pub fn write(&mut self, size: Size, value: u32) -> Option<u8>
        requires width { IsByteOrWord size }
        requires fits { value < span size }
        ensures watchdog { self.new ≡ watchdog_written self.old size value }
        ensures cause { result ≡ watchdog_cause size value }
        ensures number { IfSome result (λ cause. cause < 65) }
    {
        match size {
            Size::Byte => Some(WATCHDOG_PASSWORD),
            Size::Word | Size::Addr => {
                if value >> 8 != PASSWORD {
                    return Some(WATCHDOG_PASSWORD);
                }
                self.wdtctl = (value & (0xFF - (1 << WDTCNTCL))) as u8;
                if (value >> WDTCNTCL) & 1 == 1 {
                    self.counter = 0;
                }
                None
            }
        }
    }

    /// Takes the clock edges of a tick, and says whether an interval ends.
    #[tactic(auto, unfolding(chip_words::specs::Watchdog::watchdog_ticked))]
    pub fn tick(&mut self, smclk: bool, aclk: bool) -> bool
        ensures ends { result ≡ ends_interval self.old smclk aclk }
        ensures watchdog { self.new ≡ watchdog_ticked self.old smclk aclk }
    {
        if !self.counts(smclk, aclk) {
            return false;
        }
        let counter = self.counter + 1;
        let is_end = counter >= self.interval();
        self.counter = if is_end { 0 } else { counter };
        is_end
    }

    /// WDTTMSEL is clear: an interval that ends asks for a reset.
    pub fn asks_for_reset(&self) -> bool
        ensures { result ≡ asks_for_reset self.now }
    {
        (self.wdtctl >> WDTTMSEL) & 1 == 0
    }

    /// Says whether the clock that WDTSSEL selects has an edge that is counted.
    #[inline]
    pub fn counts(&self, smclk: bool, aclk: bool) -> bool
        ensures { result ≡ counts self.now smclk aclk }
    {
        let has_edge = if (self.wdtctl >> 5) & 3 == 0 {
            smclk
        } else {
            aclk
        };
        !self.is_held() && has_edge
    }

    /// WDTHOLD is set.
    #[inline]
    pub fn is_held(&self) -> bool
        ensures { result ≡ has_bit (self.now).wdtctl WDTHOLD_BIT }
    {
        (self.wdtctl >> WDTHOLD) & 1 == 1
    }

    /// How many edges an interval has, by WDTIS.
    fn interval(&self) -> u32
        ensures value { result ≡ interval_of self.now }
        ensures most { result ≤ 0x80000000 }
    {
        match self.wdtctl & 7 {
            0 => 1 << 31,
            1 => 1 << 27,
            2 => 1 << 23,
            3 => 1 << 19,
            4 => 1 << 15,
            5 => 1 << 13,
            6 => 1 << 9,
            7 => 1 << 6,
            _ => unreachable!(),
        }
    }
}
