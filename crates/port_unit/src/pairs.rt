ghost use Rattle.std.specs.Prelude.{◌≡◌, ◌==◌, ◌+◌, ◌<◌, ◌≤◌, ◌-◌, ◌%◌, ◌⊎◌, IfSome, bit_and};
ghost use Rattle.chip_words.specs.Bits.{has_bit};
ghost use Rattle.chip_words.specs.Ports.{PortPair as PairRegisters, inputs, is_edge, least_pin, no_pair, pair_at_reset, pair_driven, pair_touched, pair_with_level, pair_word, pair_written, pins, vector_number, waiting_pin, with_pair_word, without_flag};
ghost use Rattle.chip_words.specs.Sizes.{IsByteOrWord, span};

use chip_words::{Size, word_with_part};
use std::marker::Model;

// The distances of the registers from the first address of their pair.

const IN: u32 = 0x00;

const OUT: u32 = 0x02;

const DIR: u32 = 0x04;

const REN: u32 = 0x06;

const SEL0: u32 = 0x0A;

const SEL1: u32 = 0x0C;

/// IV of the odd-numbered port.
const LOW_IV: u32 = 0x0E;

const SELC: u32 = 0x16;

const IES: u32 = 0x18;

const IE: u32 = 0x1A;

const IFG: u32 = 0x1C;

/// IV of the even-numbered port.
const HIGH_IV: u32 = 0x1E;

/// Where the pins of the odd-numbered port begin in each word.
pub const LOW_PORT: u8 = 0;

/// Where the pins of the even-numbered port begin in each word.
pub const HIGH_PORT: u8 = 8;

/// The registers of two ports that share their even addresses, and the external levels of their pins
/// (SLAU367, digital I/O). In each word the odd-numbered port is bits 7:0.
#[derive(Debug, Drop)]
pub struct PortPair {
    levels: u16,
    out: u16,
    dir: u16,
    ren: u16,
    sel0: u16,
    sel1: u16,
    selc: u16,
    ies: u16,
    ie: u16,
    ifg: u16,
}

impl Model for PortPair {
    ghost Value = { PairRegisters };

    ghost view = { λ p. record {
      levels = p.levels;
      out = p.out;
      dir = p.dir;
      ren = p.ren;
      sel0 = p.sel0;
      sel1 = p.sel1;
      selc = p.selc;
      ies = p.ies;
      ie = p.ie;
      ifg = p.ifg;
    } };
}

impl PortPair {
    pub fn new() -> PortPair
        ensures { result ≡ no_pair }
    {
        PortPair {
            levels: 0,
            out: 0,
            dir: 0,
            ren: 0,
            sel0: 0,
            sel1: 0,
            selc: 0,
            ies: 0,
            ie: 0,
            ifg: 0,
        }
    }

    /// Sets the registers to their values after a reset.
    pub fn reset(&mut self)
        ensures { self.new ≡ pair_at_reset self.old }
    {
        self.out = 0;
        self.dir = 0;
        self.ren = 0;
        self.sel0 = 0;
        self.sel1 = 0;
        self.selc = 0;
        self.ies = 0;
        self.ie = 0;
        self.ifg = 0;
    }

    pub fn out(&self) -> u16
        ensures { result ≡ (self.now).out }
    {
        self.out
    }

    pub fn dir(&self) -> u16
        ensures { result ≡ (self.now).dir }
    {
        self.dir
    }

    /// Reads the word at a distance from the first address of the pair.
    pub fn read(&mut self, at: u32, locked: bool) -> u16
        ensures value { result ≡ pair_word self.old locked at }
        ensures pair { self.new ≡ pair_touched self.old at }
    {
        let word = self.word(at, locked);
        self.touch(at);
        word
    }

    /// Writes at a distance from the first address of the pair.
    pub fn write(&mut self, at: u32, size: Size, value: u16)
        requires width { IsByteOrWord size }
        requires fits { value < span size }
        ensures { self.new ≡ pair_written self.old at size value }
    {
        let even = at - at % 2;
        // Only IN depends on the lock, and IN isn't written.
        let word = word_with_part(size, at, self.word(even, true), value);
        self.set_word(even, word);
    }

    fn word(&self, at: u32, locked: bool) -> u16
        ensures { result ≡ pair_word self.now locked at }
    {
        match at {
            IN => self.inputs(locked),
            OUT => self.out,
            DIR => self.dir,
            REN => self.ren,
            SEL0 => self.sel0,
            SEL1 => self.sel1,
            LOW_IV => self.vector(LOW_PORT),
            SELC => self.selc,
            IES => self.ies,
            IE => self.ie,
            IFG => self.ifg,
            HIGH_IV => self.vector(HIGH_PORT),
            _ => 0,
        }
    }

    /// What every access to a word does, even one of a single byte: IV clears the flag that it tells of.
    fn touch(&mut self, at: u32)
        ensures { self.new ≡ pair_touched self.old at }
    {
        match at {
            LOW_IV => self.clear_waiting(LOW_PORT),
            HIGH_IV => self.clear_waiting(HIGH_PORT),
            _ => {}
        }
    }

    fn set_word(&mut self, at: u32, word: u16)
        ensures { self.new ≡ with_pair_word self.old at word }
    {
        match at {
            OUT => self.out = word,
            DIR => self.dir = word,
            REN => self.ren = word,
            SEL0 => self.sel0 = word,
            SEL1 => self.sel1 = word,
            SELC => self.selc = word,
            IES => self.ies = word,
            IE => self.ie = word,
            IFG => self.ifg = word,
            _ => self.touch(at),
        }
    }

    fn inputs(&self, locked: bool) -> u16
        ensures { result ≡ inputs self.now locked }
    {
        if locked {
            self.levels
        } else {
            (self.out & self.dir) | (self.levels & !self.dir)
        }
    }

    /// IV of the port whose pins begin at a place.
    fn vector(&self, place: u8) -> u16
        requires { (place ≡ LOW_PORT) ⊎ (place ≡ HIGH_PORT) }
        ensures { result ≡ vector_number (waiting_pin self.now place) }
    {
        match self.waiting(place) {
            Some(pin) => 2 * (u16::from(pin) + 1),
            None => 0,
        }
    }

    /// Clears the flag that IV tells of.
    fn clear_waiting(&mut self, place: u8)
        requires { (place ≡ LOW_PORT) ⊎ (place ≡ HIGH_PORT) }
        ensures { self.new ≡ record self.old {
          ifg = without_flag (waiting_pin self.old place) place (self.old).ifg;
        } }
    {
        if let Some(pin) = self.waiting(place) {
            self.ifg &= !(1 << (place + pin));
        }
    }

    /// No flag meets its enable, so that no pin of either port waits. Mostly it is so.
    #[inline]
    pub fn is_silent(&self) -> bool
        ensures { result ≡ (bit_and (self.now).ifg (self.now).ie == 0) }
    {
        self.ifg & self.ie == 0
    }

    /// The least pin, 0 to 7, whose flag and enable are set, of the port whose pins begin at a place.
    pub fn waiting(&self, place: u8) -> Option<u8>
        requires { (place ≡ LOW_PORT) ⊎ (place ≡ HIGH_PORT) }
        ensures pin { result ≡ waiting_pin self.now place }
        ensures number { IfSome result (λ pin. pin < 8) }
    {
        first_set(((self.ifg & self.ie) >> place) & 0xFF)
    }

    /// Sets the external level of the pin at a place. An edge of IN that IES waits for sets its flag.
    pub fn drive(&mut self, place: u8, level: bool, locked: bool)
        requires { place < 16 }
        ensures { self.new ≡ pair_driven self.old place level locked }
    {
        let before = is_set(self.inputs(locked), place);
        self.set_level(place, level);
        let after = is_set(self.inputs(locked), place);
        if !locked && is_awaited(is_set(self.ies, place), before, after) {
            self.ifg |= 1 << place;
        }
    }

    fn set_level(&mut self, place: u8, level: bool)
        requires { place < 16 }
        ensures { self.new ≡ pair_with_level self.old place level }
    {
        if level {
            self.levels |= 1 << place;
        } else {
            self.levels &= !(1 << place);
        }
    }
}

fn is_set(word: u16, place: u8) -> bool
    requires { place < 16 }
    ensures { result ≡ has_bit word place }
{
    (word >> place) & 1 == 1
}

/// The least of the bits 0 to 7 that is set.
fn first_set(byte: u16) -> Option<u8>
    requires { byte < 0x100 }
    ensures pin { result ≡ least_pin pins byte }
    ensures number { IfSome result (λ pin. pin < 8) }
{
    if byte == 0 {
        None
    } else {
        Some(byte.trailing_zeros() as u8)
    }
}

/// Whether a pin has the edge that its bit of IES waits for.
fn is_awaited(falls: bool, before: bool, after: bool) -> bool
    ensures { result ≡ is_edge falls before after }
{
    if falls {
        before && !after
    } else {
        !before && after
    }
}
