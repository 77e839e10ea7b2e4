ghost use Rattle.std.specs.Prelude.{◌≡◌, ◌<◌, ◌≤◌, ◌+◌, ◌^◌, Some, None, false, is_some};
ghost use Rattle.chip_words.specs.Addresses.{register_address, unit_at};
ghost use Rattle.chip_words.specs.Bits.{bit_word, part_of};
ghost use Rattle.chip_words.specs.InterruptLines.{P4_LINE as LAST_LINE};
ghost use Rattle.chip_words.specs.Ports.{Ports as PortRegisters, driven, first_place, first_ports, ports_at_reset, ports_lines, ports_touched, ports_word, ports_written};
ghost use Rattle.chip_words.specs.Sizes.{IsByteOrWord, span};
ghost use Rattle.port_unit.specs.Pins.{both, levels_of, pins_of};

use crate::levels::Level;
use crate::pairs::{HIGH_PORT, LOW_PORT, PortPair};
use crate::pins::Pins;
use chip_words::{P1_LINE, P2_LINE, P3_LINE, P4_LINE, PAIN, PBIN, Size, UnitName, part};
use std::marker::Model;

/// The registers of the ports P1 to P4, and the external levels of their pins (SLAU367, digital I/O).
#[derive(Debug, Drop)]
pub struct Ports {
    first: PortPair,
    second: PortPair,
    /// The pins while they aren't locked. Each step asks for them twice, and few writes change them, so they are kept.
    shown: Pins,
}

impl Model for Ports {
    ghost use Rattle.std.specs.Prelude.{◌≡◌, false};
    ghost use Rattle.chip_words.specs.Ports.{Ports as PortRegisters};
    ghost use Rattle.port_unit.specs.Pins.{pins_of};

    ghost Value = { PortRegisters };

    ghost view = { λ p. record { first = p.first; second = p.second } };

    ghost invariant = { λ p. p.shown ≡ pins_of (record { first = p.first; second = p.second }) false };
}

impl Ports {
    /// All registers and all external levels 0.
    #[tactic(auto, unfolding(crate::specs::Pins::pins_of))]
    pub fn new() -> Ports
        ensures { result ≡ first_ports }
    {
        Ports {
            first: PortPair::new(),
            second: PortPair::new(),
            shown: Pins { driven: 0, high: 0 },
        }
    }

    /// The unit's part of a reset: a BOR and a PUC do the same here.
    #[tactic(auto, unfolding(crate::specs::Pins::pins_of))]
    pub fn reset(&mut self, _bor: bool)
        ensures { self.new ≡ ports_at_reset self.old }
    {
        self.first.reset();
        self.second.reset();
        self.shown = Pins { driven: 0, high: 0 };
    }

    /// Reads at an address of this unit; `locked` is LOCKLPM5.
    #[tactic(auto, using(chip_words::proofs::Addresses::in_ports), unfolding(crate::specs::Pins::pins_of, chip_words::specs::Ports::ports_word, chip_words::specs::Ports::ports_touched))]
    pub fn read(&mut self, at: u32, size: Size, locked: bool) -> u32
        requires unit { unit_at at ≡ Some UnitName.Ports }
        requires width { IsByteOrWord size }
        ensures word { result ≡ part_of size at (ports_word self.old locked (register_address at)) }
        ensures small { result < span size }
        ensures ports { self.new ≡ ports_touched self.old at }
    {
        let even = at - at % 2;
        let word = if at < PBIN {
            self.first.read(even - PAIN, locked)
        } else {
            self.second.read(even - PBIN, locked)
        };
        part(size, at, word)
    }

    /// Writes at an address of this unit, which never requests a reset.
    #[tactic(auto, using(chip_words::proofs::Addresses::in_ports), unfolding(chip_words::specs::Ports::ports_written))]
    pub fn write(&mut self, at: u32, size: Size, value: u32) -> Option<u8>
        requires unit { unit_at at ≡ Some UnitName.Ports }
        requires width { IsByteOrWord size }
        requires fits { value < span size }
        ensures ports { self.new ≡ ports_written self.old at size value }
        ensures cause { result ≡ None }
    {
        let value = value as u16;
        if at < PBIN {
            self.first.write(at - PAIN, size, value);
        } else {
            self.second.write(at - PBIN, size, value);
        }
        self.shown = find_shown(&self.first, &self.second);
        None
    }

    /// Sets the external level of pin `bit`, 0 to 7, of a port, 1 to 4; `locked` is LOCKLPM5.
    #[tactic(auto, unfolding(crate::specs::Pins::pins_of, chip_words::specs::Ports::driven))]
    pub fn drive(&mut self, port: u8, bit: u8, level: bool, locked: bool)
        requires port { (1 ≤ port) × (port ≤ 4) }
        requires bit { bit < 8 }
        ensures { self.new ≡ driven self.old port bit level locked }
    {
        let place = start_of(port) + bit;
        if port <= 2 {
            self.first.drive(place, level, locked);
        } else {
            self.second.drive(place, level, locked);
        }
    }

    /// The pins of all ports, as the outside sees them while power is on; `locked` is LOCKLPM5.
    #[tactic(auto, unfolding(crate::specs::Pins::pins_of))]
    pub fn pins(&self, locked: bool) -> Pins
        ensures { result ≡ pins_of self.now locked }
    {
        if locked {
            Pins { driven: 0, high: 0 }
        } else {
            self.shown
        }
    }

    /// The levels of a port, 1 to 4, entry i for bit i; `locked` is LOCKLPM5.
    pub fn levels(&self, port: u8, locked: bool) -> [Level; 8]
        requires { (1 ≤ port) × (port ≤ 4) }
        ensures { result ≡ levels_of (pins_of self.now locked) port }
    {
        self.pins(locked).levels(port)
    }

    /// The interrupt lines of this unit that stand: bit i is line i.
    #[inline]
    #[tactic(auto, using(crate::proofs::LeastPin::none_of_either), unfolding(chip_words::specs::Ports::ports_lines))]
    pub fn lines(&self) -> u16
        ensures lines { result ≡ ports_lines self.now }
        ensures within { result < 2 ^ (LAST_LINE + 1) }
    {
        if self.first.is_silent() && self.second.is_silent() {
            0
        } else {
            self.waiting_lines()
        }
    }

    /// The lines by the waiting pins of each port. It stands apart so that its callers hold the test alone.
    #[inline(never)]
    #[tactic(auto, unfolding(chip_words::specs::Ports::ports_lines))]
    fn waiting_lines(&self) -> u16
        ensures lines { result ≡ ports_lines self.now }
        ensures within { result < 2 ^ (LAST_LINE + 1) }
    {
        line(P1_LINE, self.first.waiting(LOW_PORT))
            + line(P2_LINE, self.first.waiting(HIGH_PORT))
            + line(P3_LINE, self.second.waiting(LOW_PORT))
            + line(P4_LINE, self.second.waiting(HIGH_PORT))
    }
}

/// Asks each pair. It takes the pairs alone, since the unit isn't whole before the answer is kept.
#[tactic(auto, unfolding(crate::specs::Pins::pins_of))]
fn find_shown(first: &PortPair, second: &PortPair) -> Pins
    ensures { result ≡ pins_of (record { first = first.now; second = second.now }) false }
{
    let driven = joined(first.dir(), second.dir());
    Pins {
        driven,
        high: joined(first.out(), second.out()) & driven,
    }
}

/// The line of a number, which stands where some pin waits.
fn line(number: u8, waiting: Option<u8>) -> u16
    requires { number < 16 }
    ensures line { result ≡ bit_word number (is_some waiting) }
    ensures within { result ≤ 2 ^ number }
{
    match waiting {
        Some(_) => 1 << number,
        None => 0,
    }
}

/// The words of both pairs as one.
fn joined(first: u16, second: u16) -> u32
    ensures { result ≡ both first second }
{
    u32::from(first) | u32::from(second) << 16
}

/// Where the pins of a port begin in the words of its pair.
fn start_of(port: u8) -> u8
    ensures { result ≡ first_place port }
{
    if port % 2 == 0 { HIGH_PORT } else { LOW_PORT }
}
