ghost use Rattle.std.specs.Prelude.{◌≡◌, ◌<◌, ◌^◌};
ghost use Rattle.chip_words.specs.Bits.{has_bit};
ghost use Rattle.chip_words.specs.Channel.{Channel as ChannelRegisters, channel_word, channel_written, controlled, enabled_by, first_channel, is_channel_waiting, is_enabled, mode, refilled, started, stored_word, triggered, with_channel_word, with_high_word, with_low_word};
ghost use Rattle.chip_words.specs.Dma.{fired_by, without_flag};
ghost use Rattle.chip_words.specs.Sizes.{IsByteOrWord, span};
ghost use Rattle.dma_unit.specs.Moves.{IsMove};
ghost use Rattle.dma_unit.specs.Transfers.{channel_passed, channel_transferred, counted, ended, has_bursts, is_channel_quiet, is_due, move_of, width_by};

use crate::transfers::{Move, stepped};
use chip_words::{Size, word_with_part};
use std::marker::Model;

// The distances of the registers from the channel's first address.

const CTL: u32 = 0x00;

const SA: u32 = 0x02;

const SA_HIGH: u32 = 0x04;

const DA: u32 = 0x06;

const DA_HIGH: u32 = 0x08;

const SZ: u32 = 0x0A;

// The bits of CTL that stand alone, and where its fields begin.

const DMAREQ: u32 = 0;

const DMAIE: u32 = 2;

const DMAIFG: u32 = 3;

const DMAEN: u32 = 4;

const DMASRCBYTE: u32 = 6;

const DMADSTBYTE: u32 = 7;

const DMASRCINCR: u32 = 8;

const DMADSTINCR: u32 = 10;

const DMADT: u32 = 12;

/// The bits of CTL that are kept: all but bit 15 and DMAREQ.
const KEPT_OF_CTL: u16 = 0x7FFE;

/// How many ticks a channel leaves to the processor behind a burst of four transfers.
const REST: u8 = 2;

/// A channel of DMA (SLAU367, DMA controller).
#[derive(Debug, Drop)]
pub struct Channel {
    /// The number of the trigger that DMACTL0 or DMACTL1 chooses.
    trigger: u8,
    ctl: u16,
    sa: u32,
    da: u32,
    sz: u16,
    // The working values, with which it transfers.
    source: u32,
    destination: u32,
    size: u16,
    /// How many transfers wait.
    waiting: u16,
    /// The transfers since DMAEN was set, modulo 4.
    transfers: u8,
    /// The ticks that are left to the processor before the next transfer of a burst.
    rest: u8,
}

impl Model for Channel {
    ghost Value = { ChannelRegisters };

    ghost view = { λ c. record {
      trigger = c.trigger;
      ctl = c.ctl;
      sa = c.sa;
      da = c.da;
      sz = c.sz;
      source = c.source;
      destination = c.destination;
      size = c.size;
      waiting = c.waiting;
      transfers = c.transfers;
      rest = c.rest;
    } };

    ghost invariant = { λ c. (c.trigger < 32) × (c.sa < 0x100000) × (c.da < 0x100000) ×
        (c.source < 0x100000) × (c.destination < 0x100000) × (c.transfers < 4) };
}

impl Channel {
    /// The values after a reset of either kind.
    #[tactic(auto, unfolding(chip_words::specs::Channel::first_channel))]
    pub fn new() -> Channel
        ensures { result ≡ first_channel }
    {
        Channel {
            trigger: 0,
            ctl: 0,
            sa: 0,
            da: 0,
            sz: 0,
            source: 0,
            destination: 0,
            size: 0,
            waiting: 0,
            transfers: 0,
            rest: 0,
        }
    }

    /// The word at an even distance from the channel's first address.
    #[tactic(auto, unfolding(chip_words::specs::Channel::channel_word))]
    pub fn word(&self, at: u32) -> u16
        ensures { result ≡ channel_word self.now at }
    {
        if at == SZ && self.is_enabled() {
            self.size
        } else {
            self.stored_word(at)
        }
    }

    /// Writes at a distance from the channel's first address.
    #[tactic(auto, unfolding(chip_words::specs::Channel::channel_written, chip_words::specs::Channel::stored_word))]
    pub fn write(&mut self, at: u32, size: Size, value: u16)
        requires width { IsByteOrWord size }
        requires fits { value < span size }
        ensures { self.new ≡ channel_written at size value self.old }
    {
        let even = at - at % 2;
        let word = word_with_part(size, at, self.stored_word(even), value);
        if even == CTL {
            self.control(word);
        } else {
            self.set_word(even, word);
        }
    }

    /// The word of a register as it is stored: SZ isn't the working size.
    #[tactic(auto, unfolding(chip_words::specs::Channel::stored_word))]
    fn stored_word(&self, at: u32) -> u16
        ensures { result ≡ stored_word self.now at }
    {
        match at {
            CTL => self.ctl,
            SA => (self.sa & 0xFFFF) as u16,
            SA_HIGH => (self.sa >> 16) as u16,
            DA => (self.da & 0xFFFF) as u16,
            DA_HIGH => (self.da >> 16) as u16,
            SZ => self.sz,
            _ => 0,
        }
    }

    /// Sets another register than CTL.
    fn set_word(&mut self, at: u32, word: u16)
        ensures { self.new ≡ with_channel_word at word self.old }
    {
        match at {
            SA => self.sa = with_low(self.sa, word),
            SA_HIGH => self.sa = with_high(self.sa, word),
            DA => self.da = with_low(self.da, word),
            DA_HIGH => self.da = with_high(self.da, word),
            SZ => self.sz = word,
            _ => {}
        }
    }

    /// Sets CTL. DMAREQ acts behind DMAEN.
    #[tactic(auto, unfolding(chip_words::specs::Channel::controlled))]
    fn control(&mut self, word: u16)
        ensures { self.new ≡ controlled word self.old }
    {
        self.enable(word);
        if is_set(word, DMAREQ) && self.trigger == 0 {
            self.request();
        }
    }

    /// Sets CTL but for DMAREQ. DMAEN starts the channel where it was 0, and drops what waits where it is 0.
    fn enable(&mut self, word: u16)
        ensures { self.new ≡ enabled_by word self.old }
    {
        if !is_set(word, DMAEN) {
            self.waiting = 0;
        } else if !self.is_enabled() {
            self.start();
        }
        self.ctl = word & KEPT_OF_CTL;
    }

    fn start(&mut self)
        ensures { self.new ≡ started self.old }
    {
        self.refill();
        self.waiting = 0;
        self.transfers = 0;
        self.rest = 0;
    }

    /// Copies the registers to the working values.
    fn refill(&mut self)
        ensures { self.new ≡ refilled self.old }
    {
        self.source = self.sa;
        self.destination = self.da;
        self.size = self.sz;
    }

    /// The number of the trigger.
    pub fn trigger(&self) -> u8
        ensures value { result ≡ (self.now).trigger }
        ensures small { result < 32 }
    {
        self.trigger
    }

    pub fn set_trigger(&mut self, trigger: u8)
        requires { trigger < 32 }
        ensures { self.new ≡ record self.old { trigger = trigger } }
    {
        self.trigger = trigger;
    }

    /// Takes the triggers that came: bit i is trigger number i.
    pub fn fire(&mut self, triggers: u16)
        ensures { self.new ≡ fired_by triggers self.old }
    {
        if (u32::from(triggers) >> self.trigger) & 1 == 1 {
            self.request();
        }
    }

    /// Takes a trigger, which does nothing while transfers wait.
    #[tactic(auto, unfolding(chip_words::specs::Channel::triggered))]
    fn request(&mut self)
        ensures { self.new ≡ triggered self.old }
    {
        if self.is_enabled() && self.size > 0 && self.waiting == 0 {
            self.waiting = if self.mode() % 4 == 0 { 1 } else { self.size };
        }
    }

    /// DMAIE and DMAIFG are set.
    #[inline]
    pub fn is_waiting(&self) -> bool
        ensures { result ≡ is_channel_waiting self.now }
    {
        is_set(self.ctl, DMAIE) && is_set(self.ctl, DMAIFG)
    }

    pub fn clear_flag(&mut self)
        ensures { self.new ≡ without_flag self.old }
    {
        self.ctl &= !(1 << DMAIFG);
    }

    /// Transfers wait, the channel is enabled, and it doesn't rest.
    pub fn is_due(&self) -> bool
        ensures { result ≡ is_due self.now }
    {
        self.waiting > 0 && self.is_enabled() && !(self.has_bursts() && self.rest > 0)
    }

    /// Does all of a transfer but its two accesses, which the answer tells.
    #[tactic(auto, unfolding(crate::specs::Transfers::channel_transferred))]
    pub fn transfer(&mut self) -> Move
        ensures value { result ≡ move_of self.old }
        ensures range { IsMove result }
        ensures channel { self.new ≡ channel_transferred self.old }
    {
        let accesses = self.next_move();
        self.count();
        if self.size == 0 {
            self.end();
        }
        if self.has_bursts() && self.transfers == 0 {
            self.rest = REST;
        }
        accesses
    }

    /// The two accesses of the next transfer.
    fn next_move(&self) -> Move
        ensures value { result ≡ move_of self.now }
        ensures range { IsMove result }
    {
        Move {
            from: self.source,
            to: self.destination,
            read: self.width(DMASRCBYTE),
            write: self.width(DMADSTBYTE),
        }
    }

    /// Steps the working addresses, and counts the transfer.
    fn count(&mut self)
        ensures { self.new ≡ counted self.old }
    {
        let read = self.width(DMASRCBYTE);
        let write = self.width(DMADSTBYTE);
        self.source = stepped((self.ctl >> DMASRCINCR) & 3, read, self.source);
        self.destination = stepped((self.ctl >> DMADSTINCR) & 3, write, self.destination);
        self.size = self.size.saturating_sub(1);
        self.waiting = self.waiting.saturating_sub(1);
        self.transfers = (self.transfers + 1) % 4;
    }

    /// What the last transfer does: the flag is set, and a repeated mode goes on.
    fn end(&mut self)
        ensures { self.new ≡ ended self.old }
    {
        let mode = self.mode();
        self.refill();
        self.ctl |= 1 << DMAIFG;
        if mode < 4 {
            self.ctl &= !(1 << DMAEN);
        }
        if mode >= 6 {
            self.waiting = self.sz;
        }
    }

    /// A tick goes by that DMA doesn't own.
    pub fn pass(&mut self)
        ensures { self.new ≡ channel_passed self.old }
    {
        self.rest = self.rest.saturating_sub(1);
    }

    /// Nothing waits, and it doesn't rest.
    #[inline]
    pub fn is_quiet(&self) -> bool
        ensures { result ≡ is_channel_quiet self.now }
    {
        self.waiting == 0 && self.rest == 0
    }

    fn is_enabled(&self) -> bool
        ensures { result ≡ is_enabled self.now }
    {
        is_set(self.ctl, DMAEN)
    }

    /// DMADT: 0 single, 1 block, 2 and 3 burst-block, and from 4 on the same, repeated.
    fn mode(&self) -> u16
        ensures value { result ≡ mode self.now }
        ensures small { result < 8 }
    {
        (self.ctl >> DMADT) & 7
    }

    fn has_bursts(&self) -> bool
        ensures { result ≡ has_bursts self.now }
    {
        self.mode() % 4 >= 2
    }

    /// The width of an access, where a bit of CTL chooses bytes.
    fn width(&self, bit: u32) -> Size
        requires { bit < 16 }
        ensures { result ≡ width_by bit self.now }
    {
        if is_set(self.ctl, bit) {
            Size::Byte
        } else {
            Size::Word
        }
    }
}

#[inline]
fn is_set(word: u16, bit: u32) -> bool
    requires { bit < 16 }
    ensures { result ≡ has_bit word bit }
{
    (word >> bit) & 1 == 1
}

/// An address whose bits 15:0 were written.
fn with_low(address: u32, word: u16) -> u32
    requires { address < 0x100000 }
    ensures value { result ≡ with_low_word word address }
    ensures small { result < 0x100000 }
{
    (address >> 16) * 0x10000 + u32::from(word)
}

/// An address whose bits 19:16 were written.
fn with_high(address: u32, word: u16) -> u32
    ensures value { result ≡ with_high_word word address }
    ensures small { result < 0x100000 }
{
    u32::from(word % 0x10) * 0x10000 + (address & 0xFFFF)
}
