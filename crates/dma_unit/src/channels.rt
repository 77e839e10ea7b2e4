ghost use Rattle.std.specs.Prelude.{◌≡◌, ◌+◌, ◌*◌, ◌^◌, ◌<◌, IfSome, Some, None, [], ◌∷◌};
ghost use Rattle.chip_words.specs.Addresses.{register_address};
ghost use Rattle.chip_words.specs.Bits.{part_of};
ghost use Rattle.chip_words.specs.Dma.{Dma as DmaRegisters, channels_word, channels_written, dma_fired, dma_lines, dma_touched, dma_word, dma_written, first_dma, triggers_of, triggers_written, vector_number, waiting_channel, with_triggers};
ghost use Rattle.chip_words.specs.InterruptLines.{DMA_LINE as LAST_LINE};
ghost use Rattle.chip_words.specs.Sizes.{IsByteOrWord, span};
ghost use Rattle.dma_unit.specs.Moves.{IsMove};
ghost use Rattle.dma_unit.specs.Transfers.{are_quiet, due, is_quiet, move_at, passed, transferred};

use crate::channel::Channel;
use crate::transfers::Move;
use chip_words::{DMA_LINE, DMA0CTL, DMACTL0, DMACTL1, DMACTL4, DMAIV, Size, part, word_with_part};
use std::marker::Model;

/// How many bytes of addresses each channel has.
const CHANNEL_BYTES: u32 = 0x10;

/// The three channels of DMA (SLAU367, DMA controller).
#[derive(Debug, Drop)]
pub struct DmaUnit {
    first: Channel,
    second: Channel,
    third: Channel,
    dmactl4: u16,
    /// No transfer waits, and no channel rests. Each tick asks, and few accesses change it, so it is kept.
    is_quiet: bool,
}

impl Model for DmaUnit {
    ghost use Rattle.std.specs.Prelude.{◌≡◌, [], ◌∷◌};
    ghost use Rattle.chip_words.specs.Dma.{Dma as DmaRegisters};
    ghost use Rattle.dma_unit.specs.Transfers.{are_quiet};

    ghost Value = { DmaRegisters };

    ghost view = { λ d. record {
      channels = d.first ∷ d.second ∷ d.third ∷ [];
      dmactl4 = d.dmactl4;
    } };

    ghost invariant = { λ d. d.is_quiet ≡ are_quiet (d.first ∷ d.second ∷ d.third ∷ []) };
}

impl DmaUnit {
    /// The values after a BOR.
    #[tactic(auto, unfolding(chip_words::specs::Channel::first_channel))]
    pub fn new() -> DmaUnit
        ensures { result ≡ first_dma }
    {
        DmaUnit {
            first: Channel::new(),
            second: Channel::new(),
            third: Channel::new(),
            dmactl4: 0,
            is_quiet: true,
        }
    }

    /// The unit's part of a BOR, or else of a PUC, which is the same.
    #[tactic(auto, unfolding(chip_words::specs::Channel::first_channel))]
    pub fn reset(&mut self, _bor: bool)
        ensures { self.new ≡ first_dma }
    {
        self.first = Channel::new();
        self.second = Channel::new();
        self.third = Channel::new();
        self.dmactl4 = 0;
        self.is_quiet = true;
    }

    /// Reads at an address of this unit.
    pub fn read(&mut self, at: u32, size: Size) -> u32
        requires { IsByteOrWord size }
        ensures value { result ≡ part_of size at (dma_word self.old (register_address at)) }
        ensures small { result < span size }
        ensures dma { self.new ≡ dma_touched self.old at }
    {
        let word = self.word(at - at % 2);
        self.touch(at);
        part(size, at, word)
    }

    /// Writes at an address of this unit, which never requests a reset.
    #[tactic(auto, unfolding(chip_words::specs::Dma::dma_written))]
    pub fn write(&mut self, at: u32, size: Size, value: u32) -> Option<u8>
        requires width { IsByteOrWord size }
        requires fits { value < span size }
        ensures dma { self.new ≡ dma_written self.old at size value }
        ensures cause { result ≡ None }
    {
        let value = value as u16;
        if at >= DMA0CTL {
            self.write_channel(at - DMA0CTL, size, value);
        } else {
            let even = at - at % 2;
            match even {
                DMACTL0 | DMACTL1 => {
                    let word = word_with_part(size, at, self.word(even), value);
                    self.set_triggers(even, word);
                }
                DMACTL4 => self.dmactl4 = word_with_part(size, at, self.dmactl4, value),
                _ => self.touch(at),
            }
        }
        None
    }

    /// The word of the register at an even address.
    #[tactic(auto, unfolding(chip_words::specs::Dma::dma_word))]
    fn word(&self, at: u32) -> u16
        ensures { result ≡ dma_word self.now at }
    {
        if at >= DMA0CTL {
            return self.channel_word(at - DMA0CTL);
        }
        match at {
            DMACTL0 => {
                u16::from(self.first.trigger()) + u16::from(self.second.trigger()) * 0x100
            }
            DMACTL1 => u16::from(self.third.trigger()),
            DMACTL4 => self.dmactl4,
            DMAIV => self.vector(),
            _ => 0,
        }
    }

    /// What every access does, even one of a single byte: DMAIV clears the flag that it tells.
    #[tactic(auto, unfolding(chip_words::specs::Dma::dma_touched))]
    fn touch(&mut self, at: u32)
        ensures { self.new ≡ dma_touched self.old at }
    {
        if at - at % 2 == DMAIV {
            match self.waiting() {
                Some(0) => self.first.clear_flag(),
                Some(1) => self.second.clear_flag(),
                Some(_) => self.third.clear_flag(),
                None => {}
            }
        }
    }

    /// The word at an even distance from the first address of the channels.
    fn channel_word(&self, at: u32) -> u16
        ensures { result ≡ channels_word at (self.now).channels }
    {
        match at / CHANNEL_BYTES {
            0 => self.first.word(at),
            1 => self.second.word(at - CHANNEL_BYTES),
            2 => self.third.word(at - 2 * CHANNEL_BYTES),
            _ => 0,
        }
    }

    /// Writes at a distance from the first address of the channels.
    fn write_channel(&mut self, at: u32, size: Size, value: u16)
        requires width { IsByteOrWord size }
        requires fits { value < span size }
        ensures { self.new ≡ record self.old {
          channels = channels_written at size value (self.old).channels;
        } }
    {
        match at / CHANNEL_BYTES {
            0 => self.first.write(at, size, value),
            1 => self.second.write(at - CHANNEL_BYTES, size, value),
            2 => self.third.write(at - 2 * CHANNEL_BYTES, size, value),
            _ => return,
        }
        self.is_quiet = find_quiet(&self.first, &self.second, &self.third);
    }

    /// Sets DMACTL0, which has the triggers of the channels 0 and 1, or else DMACTL1, which has that of channel 2.
    fn set_triggers(&mut self, at: u32, word: u16)
        ensures { self.new ≡ record self.old {
          channels = with_triggers (triggers_written at word (triggers_of (self.old).channels))
              (self.old).channels;
        } }
    {
        if at == DMACTL0 {
            self.first.set_trigger((word % 0x20) as u8);
            self.second.set_trigger((word / 0x100 % 0x20) as u8);
        } else {
            self.third.set_trigger((word % 0x20) as u8);
        }
    }

    /// DMAIV: 2, 4 and 6 for the channels.
    fn vector(&self) -> u16
        ensures { result ≡ vector_number (waiting_channel self.now) }
    {
        match self.waiting() {
            Some(n) => 2 * (u16::from(n) + 1),
            None => 0,
        }
    }

    /// The number of the least channel whose flag and enable are set.
    fn waiting(&self) -> Option<u8>
        ensures channel { result ≡ waiting_channel self.now }
        ensures number { IfSome result (λ n. n < 3) }
    {
        if self.first.is_waiting() {
            Some(0)
        } else if self.second.is_waiting() {
            Some(1)
        } else if self.third.is_waiting() {
            Some(2)
        } else {
            None
        }
    }

    /// The interrupt lines of this unit that stand: bit i is line i.
    #[inline]
    pub fn lines(&self) -> u16
        ensures lines { result ≡ dma_lines self.now }
        ensures within { result < 2 ^ (LAST_LINE + 1) }
    {
        if self.first.is_waiting() || self.second.is_waiting() || self.third.is_waiting() {
            1 << DMA_LINE
        } else {
            0
        }
    }

    /// Takes the triggers that came in a tick, mostly none: bit i is trigger number i.
    #[inline]
    #[tactic(auto, using(crate::proofs::NoTrigger::nothing_fires), unfolding(chip_words::specs::Dma::dma_fired))]
    pub fn fire(&mut self, triggers: u16)
        ensures { self.new ≡ dma_fired triggers self.old }
    {
        if triggers != 0 {
            self.fire_some(triggers);
        }
    }

    /// Takes triggers where some came. It stands apart so that its callers hold the test alone.
    #[inline(never)]
    #[tactic(auto, unfolding(chip_words::specs::Dma::dma_fired))]
    fn fire_some(&mut self, triggers: u16)
        ensures { self.new ≡ dma_fired triggers self.old }
    {
        self.first.fire(triggers);
        self.second.fire(triggers);
        self.third.fire(triggers);
        self.is_quiet = find_quiet(&self.first, &self.second, &self.third);
    }

    /// The number of the least channel, 0 to 2, that is due to transfer.
    #[tactic(auto, unfolding(crate::specs::Transfers::due))]
    pub fn due(&self) -> Option<u8>
        ensures channel { result ≡ due self.now }
        ensures number { IfSome result (λ n. n < 3) }
    {
        if self.first.is_due() {
            Some(0)
        } else if self.second.is_due() {
            Some(1)
        } else if self.third.is_due() {
            Some(2)
        } else {
            None
        }
    }

    /// Does all of a transfer of a channel, 0 to 2, but its two accesses, which the answer tells.
    #[tactic(auto, unfolding(crate::specs::Transfers::transferred))]
    pub fn transfer(&mut self, channel: u8) -> Move
        requires { channel < 3 }
        ensures value { Some result ≡ move_at channel (self.old).channels }
        ensures range { IsMove result }
        ensures dma { self.new ≡ transferred channel self.old }
    {
        let accesses = match channel {
            0 => self.first.transfer(),
            1 => self.second.transfer(),
            _ => self.third.transfer(),
        };
        self.is_quiet = find_quiet(&self.first, &self.second, &self.third);
        accesses
    }

    /// A tick goes by that DMA doesn't own. Mostly nothing waits and none rests, and then nothing changes.
    #[inline]
    #[tactic(auto, using(crate::proofs::Quiet::nothing_passes), unfolding(crate::specs::Transfers::is_quiet))]
    pub fn pass(&mut self)
        ensures { self.new ≡ passed self.old }
    {
        if !self.is_quiet {
            self.pass_some();
        }
    }

    /// Such a tick where a transfer waits or a channel rests. It stands apart so that its callers hold the test alone.
    #[inline(never)]
    #[tactic(auto, unfolding(crate::specs::Transfers::passed))]
    fn pass_some(&mut self)
        ensures { self.new ≡ passed self.old }
    {
        self.first.pass();
        self.second.pass();
        self.third.pass();
        self.is_quiet = find_quiet(&self.first, &self.second, &self.third);
    }

    /// No transfer waits, and no channel rests.
    #[inline]
    #[tactic(auto, unfolding(crate::specs::Transfers::is_quiet))]
    pub fn quiet(&self) -> bool
        ensures { result ≡ is_quiet self.now }
    {
        self.is_quiet
    }
}

/// Asks each channel. It takes the channels alone, since the unit isn't whole before the answer is kept.
fn find_quiet(first: &Channel, second: &Channel, third: &Channel) -> bool
    ensures { result ≡ are_quiet (first.now ∷ second.now ∷ third.now ∷ []) }
{
    first.is_quiet() && second.is_quiet() && third.is_quiet()
}
