ghost use Rattle.std.specs.Prelude.{◌≡◌, ◌<◌, ◌≤◌, ◌^◌, Option, Some, None, IfSome, IsTrue};
ghost use Rattle.chip_words.specs.Addresses.{register_address};
ghost use Rattle.chip_words.specs.Bits.{part_of};
ghost use Rattle.chip_words.specs.Causes.{least_cause};
ghost use Rattle.chip_words.specs.InterruptLines.{WATCHDOG_LINE};
ghost use Rattle.chip_words.specs.Sizes.{IsByteOrWord, span};
ghost use Rattle.chip_words.specs.Sys.{Sys as SysRegisters, clock_number as clock_number_of, first_sys, is_of_clocks, sys_at_reset, sys_requested, sys_taken, sys_word, sys_touched, sys_written, software_cause, sys_cause, sys_lines, sys_at_interval, sys_entered};

use crate::causes::Causes;
use chip_words::{
    CSCTL0, CSCTL6, Latch, PASSWORD_READS, PM5CTL0, PMMCTL0, POWER_PASSWORD, SFRIE1, SFRIFG1,
    SOFTWARE_BOR, SOFTWARE_POR, SYSCTL, SYSRSTIV, Size, is_wrong_password, part, word_with_part,
};
use std::marker::Model;
use std::mem;

// The numbers of bits: of the watchdog in SFRIE1 and in SFRIFG1, and of PMMCTL0's lower byte.

const WDTIE: u32 = 0;

const WDTIFG: u32 = 0;

const PMMSWBOR: u32 = 2;

const PMMSWPOR: u32 = 3;

/// The registers of the system unit and of the power management, and the causes of resets that are
/// requested in a tick (SLAU367, SYS and PMM).
#[derive(Debug, Drop)]
pub struct Sys {
    sfrie1: u16,
    sfrifg1: u16,
    latch: Latch,
    locked: bool,
    csctl: [u16; 7],
    sysctl: u16,
    sysrstiv: u8,
    requested: Causes,
}

impl Model for Sys {
    ghost Value = { SysRegisters };

    ghost view = { λ s. record {
      sfrie1 = s.sfrie1;
      sfrifg1 = s.sfrifg1;
      is_open = s.latch;
      locked = s.locked;
      csctl = s.csctl;
      sysctl = s.sysctl;
      sysrstiv = s.sysrstiv;
      requested = s.requested;
    } };
}

impl Sys {
    /// The values before any reset, with no request.
    pub fn new() -> Sys
        ensures { result ≡ first_sys }
    {
        Sys {
            sfrie1: 0,
            sfrifg1: 0,
            latch: Latch::new(),
            locked: true,
            csctl: [0; 7],
            sysctl: 0,
            sysrstiv: 0,
            requested: Causes::new(),
        }
    }

    /// The unit's part of a BOR, or else of a PUC.
    pub fn reset(&mut self, bor: bool)
        ensures { self.new ≡ sys_at_reset bor self.old }
    {
        self.sfrie1 = 0;
        self.sfrifg1 = 0;
        self.latch = Latch::new();
        self.locked = self.locked || bor;
        self.csctl = [0; 7];
        self.sysctl = 0;
        self.sysrstiv = 0;
    }

    /// Requests a reset, besides those that are requested already.
    pub fn request(&mut self, cause: u8)
        requires { cause < 65 }
        ensures { self.new ≡ sys_requested (Some cause) self.old }
    {
        self.requested.request(cause);
    }

    /// The cause that a reset takes now.
    pub fn pending(&self) -> Option<u8>
        ensures cause { result ≡ least_cause (self.now).requested }
        ensures number { IfSome result (λ cause. cause < 65) }
    {
        self.requested.least()
    }

    /// SYSRSTIV gets the cause of a reset, and all requests are dropped.
    pub fn taken(&mut self, cause: u8)
        ensures { self.new ≡ sys_taken cause self.old }
    {
        self.sysrstiv = cause;
        self.requested.clear();
    }

    /// Reads at an address of this unit.
    pub fn read(&mut self, at: u32, size: Size) -> u32
        requires { IsByteOrWord size }
        ensures value { result ≡ part_of size at (sys_word self.old (register_address at)) }
        ensures small { result < span size }
        ensures sys { self.new ≡ sys_touched self.old at }
    {
        let word = match at - at % 2 {
            SFRIE1 => self.sfrie1,
            SFRIFG1 => self.sfrifg1,
            PMMCTL0 => PASSWORD_READS,
            PM5CTL0 => u16::from(self.locked),
            CSCTL0..=CSCTL6 => self.csctl[clock_number(at)],
            SYSCTL => self.sysctl,
            SYSRSTIV => u16::from(mem::take(&mut self.sysrstiv)),
            _ => 0,
        };
        part(size, at, word)
    }

    /// Writes at an address of this unit, and answers the cause of the reset that the write requests.
    pub fn write(&mut self, at: u32, size: Size, value: u32) -> Option<u8>
        requires width { IsByteOrWord size }
        requires fits { value < span size }
        ensures sys { self.new ≡ sys_written self.old at size value }
        ensures cause { result ≡ sys_cause self.old at size value }
        ensures number { IfSome result (λ cause. cause < 65) }
    {
        let value = value as u16;
        match at - at % 2 {
            SFRIE1 => self.sfrie1 = word_with_part(size, at, self.sfrie1, value),
            SFRIFG1 => self.sfrifg1 = word_with_part(size, at, self.sfrifg1, value),
            PMMCTL0 => return self.write_power(at, size, value),
            PM5CTL0 => self.locked = word_with_part(size, at, u16::from(self.locked), value) & 1
                == 1,
            CSCTL0..=CSCTL6 => {
                let clock = &mut self.csctl[clock_number(at)];
                *clock = word_with_part(size, at, *clock, value);
            }
            SYSCTL => self.sysctl = word_with_part(size, at, self.sysctl, value),
            SYSRSTIV => self.sysrstiv = 0,
            _ => {}
        }
        None
    }

    /// Writes PMMCTL0, which has the password.
    fn write_power(&mut self, at: u32, size: Size, value: u16) -> Option<u8>
        requires width { IsByteOrWord size }
        requires fits { value < span size }
        requires power { register_address at ≡ PMMCTL0 }
        ensures sys { self.new ≡ sys_written self.old at size value }
        ensures cause { result ≡ sys_cause self.old at size value }
        ensures number { IfSome result (λ cause. cause < 65) }
    {
        let byte = self.latch.write(at, size, value);
        if is_wrong_password(size, value) {
            return Some(POWER_PASSWORD);
        }
        match byte {
            Some(byte) => software_reset(byte),
            None => None,
        }
    }

    /// The interrupt lines of this unit that stand: bit i is line i.
    pub fn lines(&self) -> u16
        ensures lines { result ≡ sys_lines self.now }
        ensures within { result ≤ 2 ^ WATCHDOG_LINE }
    {
        if self.sfrie1 >> WDTIE & 1 == 1 && self.sfrifg1 >> WDTIFG & 1 == 1 {
            1 << chip_words::WATCHDOG_LINE
        } else {
            0
        }
    }

    /// The watchdog ended an interval: sets WDTIFG.
    pub fn interval(&mut self)
        ensures { self.new ≡ sys_at_interval self.old }
    {
        self.sfrifg1 |= 1 << WDTIFG;
    }

    /// Clears the flag that an interrupt entry for a line of this unit clears.
    pub fn entered(&mut self, line: u8)
        requires { line ≡ WATCHDOG_LINE }
        ensures { self.new ≡ sys_entered self.old }
    {
        self.sfrifg1 &= !(1 << WDTIFG);
    }

    /// LOCKLPM5: the pins are locked.
    pub fn locked(&self) -> bool
        ensures { result ≡ (self.now).locked }
    {
        self.locked
    }
}

/// Which of the clock system's registers an address is of.
fn clock_number(at: u32) -> usize
    requires { IsTrue (is_of_clocks at) }
    ensures number { result ≡ clock_number_of at }
    ensures within { result < 7 }
{
    ((at - CSCTL0) / 2) as usize
}

/// The cause that the lower byte of PMMCTL0 requests: a BOR where both bits are set.
fn software_reset(byte: u8) -> Option<u8>
    ensures cause { result ≡ software_cause (Some byte) }
    ensures number { IfSome result (λ cause. cause < 65) }
{
    if byte >> PMMSWBOR & 1 == 1 {
        Some(SOFTWARE_BOR)
    } else if byte >> PMMSWPOR & 1 == 1 {
        Some(SOFTWARE_POR)
    } else {
        None
    }
}
