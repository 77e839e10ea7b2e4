//! The registers of the peripherals, and what comes to them and goes out from them besides accesses.

ghost use Rattle.std.specs.Prelude.{◌≡◌, ◌<◌, ◌≤◌, IfSome};
ghost use Rattle.chip_words.specs.Bits.{part_of};
ghost use Rattle.chip_words.specs.Causes.{least_cause};
ghost use Rattle.chip_words.specs.Interrupts.{units_lines};
ghost use Rattle.chip_words.specs.Sizes.{IsByteOrWord, span};
ghost use Rattle.chip_words.specs.Units.{units_cause, units_clocked, units_driven, units_touched, units_written, word_of};
ghost use Rattle.port_unit.specs.Pins.{pins_of};
ghost use Rattle.timer_unit.specs.Edges.{some_counts};

use crate::fabric::Fabric;
use chip_words::{
    NMI_VECTOR, Size, TA0_CCR0_LINE, TA1_CCR0_LINE, TB0_CCR0_LINE, UnitName, VECTORS,
    WATCHDOG_INTERVAL, WATCHDOG_LINE, unit_at,
};
use port_unit::Pins;

impl Fabric {
    ghost use Rattle.bus_fabric.specs.Fabric.{Changes, ChangesUnits, encapsulated, part_at_reset, part_entered, register_written, units_of};

    /// A BOR or a PUC of the peripherals, with its cause.
    pub fn reset(&mut self, bor: bool, cause: u8)
        ensures part { Changes (part_at_reset bor cause) self.old self.new }
    {
        self.sys.reset(bor);
        self.sys.taken(cause);
        self.ports.reset(bor);
        self.timers.reset(bor);
        self.dma.reset(bor);
        self.fram.reset(bor);
        self.mpu.reset(bor);
        self.encap.reset(bor);
        self.nmi = false;
    }

    /// The least cause that is requested.
    pub fn pending(&self) -> Option<u8>
        ensures cause { result ≡ least_cause ((units_of self.now).sys).requested }
    {
        self.sys.pending()
    }

    /// The interrupt lines, of which bit i is line i.
    #[tactic(auto, unfolding(chip_words::specs::Interrupts::units_lines, chip_words::specs::Ports::ports_lines, chip_words::specs::Timers::timers_lines))]
    pub fn lines(&self) -> u16
        ensures lines { result ≡ units_lines (units_of self.now) }
    {
        self.sys.lines() + self.timers.lines() + self.dma.lines() + self.ports.lines()
    }

    /// An interrupt was entered: a request of the NMI is cleared, or the flag of its line, where the line has a single
    /// one.
    #[tactic(auto, unfolding(chip_words::specs::Interrupts::units_entered))]
    pub fn entered(&mut self, vector: u32)
        ensures part { Changes (part_entered vector) self.old self.new }
    {
        if vector == NMI_VECTOR {
            self.nmi = false;
        } else if vector == VECTORS[WATCHDOG_LINE as usize] {
            self.sys.entered(WATCHDOG_LINE);
        } else if vector == VECTORS[TB0_CCR0_LINE as usize] {
            self.timers.entered(TB0_CCR0_LINE);
        } else if vector == VECTORS[TA0_CCR0_LINE as usize] {
            self.timers.entered(TA0_CCR0_LINE);
        } else if vector == VECTORS[TA1_CCR0_LINE as usize] {
            self.timers.entered(TA1_CCR0_LINE);
        }
    }

    /// Sets the external level of pin `bit`, 0 to 7, of a port, 1 to 4.
    pub fn drive(&mut self, port: u8, bit: u8, level: bool)
        requires port { (1 ≤ port) × (port ≤ 4) }
        requires bit { bit < 8 }
        ensures units { ChangesUnits (units_driven port bit level) self.old self.new }
    {
        self.ports.drive(port, bit, level, self.sys.locked());
    }

    /// The clock edges of a tick, each of which is there or isn't. Mostly nobody counts one.
    #[inline]
    pub fn clock(&mut self, smclk: bool, aclk: bool)
        ensures units { ChangesUnits (units_clocked smclk aclk) self.old self.new }
    {
        if self.counts(smclk, aclk) {
            self.count(smclk, aclk);
        }
    }

    /// Says whether the watchdog or a timer counts a clock edge of a tick.
    #[inline]
    pub fn counts(&self, smclk: bool, aclk: bool) -> bool
        ensures { result ≡ some_counts (units_of self.now).timers smclk aclk }
    {
        self.timers.counts(smclk, aclk)
    }

    /// The clock edges of a tick of which one is counted.
    #[inline(never)]
    fn count(&mut self, smclk: bool, aclk: bool)
        ensures units { ChangesUnits (units_clocked smclk aclk) self.old self.new }
    {
        let fired = self.timers.tick(smclk, aclk);
        if fired.interval {
            self.sys.interval();
        }
        if fired.reset {
            self.sys.request(WATCHDOG_INTERVAL);
        }
        self.dma.fire(fired.triggers);
    }

    /// The pins, as the outside sees them while power is on.
    pub fn pins(&self) -> Pins
        ensures pins { result ≡ pins_of (units_of self.now).ports ((units_of self.now).sys).locked }
    {
        self.ports.pins(self.sys.locked())
    }

    /// A read of a register.
    #[tactic(auto, unfolding(chip_words::specs::Units::word_of, chip_words::specs::Units::units_touched))]
    pub(crate) fn read_register(&mut self, at: u32, size: Size) -> u32
        requires width { IsByteOrWord size }
        ensures small { result < span size }
        ensures answer { result ≡ part_of size at (word_of (units_of self.old) at) }
        ensures units { ChangesUnits (λ units. units_touched units at) self.old self.new }
    {
        match unit_at(at) {
            Some(UnitName::Sys) => self.sys.read(at, size),
            Some(UnitName::Timers) => self.timers.read(at, size),
            Some(UnitName::Ports) => self.ports.read(at, size, self.sys.locked()),
            Some(UnitName::Dma) => self.dma.read(at, size),
            Some(UnitName::Fram) => self.fram.read(at, size),
            Some(UnitName::Mpu) => self.mpu.read(at, size),
            Some(UnitName::Encap) => self.encap.read(at, size),
            None => 0,
        }
    }

    /// A write of a register, and the cause of the reset that it asks for.
    #[tactic(auto, unfolding(chip_words::specs::Units::units_written, chip_words::specs::Units::units_cause))]
    pub(crate) fn write_register(&mut self, at: u32, size: Size, value: u32) -> Option<u8>
        requires width { IsByteOrWord size }
        requires fits { value < span size }
        ensures cause { result ≡ units_cause (units_of self.old) at size value }
        ensures number { IfSome result (λ cause. cause < 65) }
        ensures part { Changes (register_written at size value) self.old self.new }
    {
        match unit_at(at) {
            Some(UnitName::Sys) => self.sys.write(at, size, value),
            Some(UnitName::Timers) => self.timers.write(at, size, value),
            Some(UnitName::Ports) => self.ports.write(at, size, value),
            Some(UnitName::Dma) => self.dma.write(at, size, value),
            Some(UnitName::Fram) => self.fram.write(at, size, value),
            Some(UnitName::Mpu) => self.mpu.write(at, size, value),
            Some(UnitName::Encap) => {
                self.write_encap(at, size, value);
                None
            }
            None => None,
        }
    }

    /// A write of a register of the encapsulation: where it locks an enabled area, the addresses of the seal stay
    /// secret from now on.
    fn write_encap(&mut self, at: u32, size: Size, value: u32)
        requires width { IsByteOrWord size }
        requires fits { value < span size }
        ensures part { Changes (encapsulated at size value) self.old self.new }
    {
        let is_sealed = self.encap.write(at, size, value, self.mpu.is_open());
        if is_sealed && self.encap.is_enabled() {
            self.kept = self.encap.seal();
        }
    }
}
