ghost use Rattle.std.specs.Prelude.{false, ◌≡◌, ◌^◌, ◌+◌, ◌*◌, ◌<◌, ◌≤◌, IfSome};
ghost use Rattle.chip_words.specs.Addresses.{register_address};
ghost use Rattle.chip_words.specs.Bits.{bit_word, part_of};
ghost use Rattle.chip_words.specs.InterruptLines.{TA1_LINE as LAST_LINE};
ghost use Rattle.chip_words.specs.Sizes.{IsByteOrWord, span};
ghost use Rattle.chip_words.specs.Timers.{Timers as TimerRegisters, fired, first_timers, timers_cause, timers_entered, timers_lines, timers_ticked, timers_touched, timers_word, timers_written, is_of_timer, triggers_from};
ghost use Rattle.chip_words.specs.Timer.{timer_ticked};
ghost use Rattle.timer_unit.specs.Edges.{some_counts, some_runs};

use crate::timer::Timer;
use crate::watchdog::Watchdog;
use chip_words::{
    Fired, Size, TA0_CCR0_LINE, TA0_LINE, TA0CTL, TA1_CCR0_LINE, TA1_LINE, TA1CTL, TB0_CCR0_LINE,
    TB0_LINE, TB0CTL, WDTCTL, part,
};
use std::marker::Model;

/// How many bytes of addresses each of the timers TA0, TA1 and TB0 has.
const TIMER_BYTES: u32 = 0x30;

// The numbers of the DMA triggers of CCR0; the next number is that of CCR2.

const TA0_TRIGGER: u8 = 1;

const TA1_TRIGGER: u8 = 3;

const TB0_TRIGGER: u8 = 7;

/// The watchdog and the timers TA0, TA1 and TB0.
#[derive(Drop)]
pub struct Timers {
    watchdog: Watchdog,
    ta0: Timer<3>,
    ta1: Timer<3>,
    tb0: Timer<7>,
    /// The watchdog or a timer may count. Each tick asks, and it changes by writes alone, so it is kept. True says nothing.
    is_running: bool,
}

impl Model for Timers {
    ghost Value = { TimerRegisters };

    ghost view = { λ t. record { watchdog = t.watchdog; ta0 = t.ta0; ta1 = t.ta1; tb0 = t.tb0 } };

    ghost invariant = { λ t. t.is_running ≡ false → some_runs
        (record { watchdog = t.watchdog; ta0 = t.ta0; ta1 = t.ta1; tb0 = t.tb0 }) ≡ false };
}

impl Timers {
    /// The values after a BOR.
    pub fn new() -> Timers
        ensures { result ≡ first_timers }
    {
        Timers {
            watchdog: Watchdog::new(),
            ta0: Timer::new(),
            ta1: Timer::new(),
            tb0: Timer::new(),
            is_running: true,
        }
    }

    /// The unit's part of a BOR, or else of a PUC, which is the same.
    pub fn reset(&mut self, bor: bool)
        ensures { self.new ≡ first_timers }
    {
        self.is_running = true;
        self.watchdog = Watchdog::new();
        self.ta0 = Timer::new();
        self.ta1 = Timer::new();
        self.tb0 = Timer::new();
    }

    /// Reads at an address of this unit.
    #[tactic(auto, unfolding(chip_words::specs::Timers::timers_word, chip_words::specs::Timers::timers_touched))]
    pub fn read(&mut self, at: u32, size: Size) -> u32
        requires { IsByteOrWord size }
        ensures value { result ≡ part_of size at (timers_word self.old (register_address at)) }
        ensures small { result < span size }
        ensures timers { self.new ≡ timers_touched self.old at }
    {
        self.is_running = true;
        let even = at - at % 2;
        let word = if even == WDTCTL {
            self.watchdog.word()
        } else if is_within(TA0CTL, even) {
            self.ta0.read(even - TA0CTL)
        } else if is_within(TA1CTL, even) {
            self.ta1.read(even - TA1CTL)
        } else if is_within(TB0CTL, even) {
            self.tb0.read(even - TB0CTL)
        } else {
            0
        };
        self.note_running();
        part(size, at, word)
    }

    /// Writes at an address of this unit, and answers the cause of the reset that the write asks for.
    #[tactic(auto, unfolding(chip_words::specs::Timers::timers_written))]
    pub fn write(&mut self, at: u32, size: Size, value: u32) -> Option<u8>
        requires width { IsByteOrWord size }
        requires fits { value < span size }
        ensures timers { self.new ≡ timers_written self.old at size value }
        ensures cause { result ≡ timers_cause at size value }
        ensures number { IfSome result (λ cause. cause < 65) }
    {
        let cause = self.set_register(at, size, value);
        self.note_running();
        cause
    }

    /// Writes at an address of this unit, and leaves open whether something counts.
    #[tactic(auto, unfolding(chip_words::specs::Timers::timers_written))]
    fn set_register(&mut self, at: u32, size: Size, value: u32) -> Option<u8>
        requires width { IsByteOrWord size }
        requires fits { value < span size }
        ensures timers { self.new ≡ timers_written self.old at size value }
        ensures cause { result ≡ timers_cause at size value }
        ensures number { IfSome result (λ cause. cause < 65) }
    {
        self.is_running = true;
        if at - at % 2 == WDTCTL {
            return self.watchdog.write(size, value);
        }
        let value = value as u16;
        if is_within(TA0CTL, at) {
            self.ta0.write(at - TA0CTL, size, value);
        } else if is_within(TA1CTL, at) {
            self.ta1.write(at - TA1CTL, size, value);
        } else if is_within(TB0CTL, at) {
            self.tb0.write(at - TB0CTL, size, value);
        }
        None
    }

    /// Finds out whether the watchdog or a timer may count.
    fn note_running(&mut self)
        ensures { self.new ≡ self.old }
    {
        self.is_running = !self.watchdog.is_held()
            || !self.ta0.is_stopped()
            || !self.ta1.is_stopped()
            || !self.tb0.is_stopped();
    }

    /// Says whether the watchdog or a timer counts an edge of a tick. Mostly none does, and then the tick changes nothing
    /// here.
    #[inline]
    #[tactic(auto, using(crate::proofs::Still::nothing_runs))]
    pub fn counts(&self, smclk: bool, aclk: bool) -> bool
        ensures { result ≡ some_counts self.now smclk aclk }
    {
        self.is_running
            && (self.watchdog.counts(smclk, aclk)
                || self.ta0.counts(smclk, aclk)
                || self.ta1.counts(smclk, aclk)
                || self.tb0.counts(smclk, aclk))
    }

    /// Takes the edges that SMCLK and ACLK have in a tick.
    #[tactic(auto, unfolding(chip_words::specs::Timers::fired, chip_words::specs::Timers::timers_ticked, chip_words::specs::Watchdog::watchdog_ticked))]
    pub fn tick(&mut self, smclk: bool, aclk: bool) -> Fired
        ensures fired { result ≡ fired self.old smclk aclk }
        ensures timers { self.new ≡ timers_ticked self.old smclk aclk }
    {
        self.is_running = true;
        let interval = self.watchdog.tick(smclk, aclk);
        let ta0 = triggers(TA0_TRIGGER, &mut self.ta0, smclk, aclk);
        let ta1 = triggers(TA1_TRIGGER, &mut self.ta1, smclk, aclk);
        let tb0 = triggers(TB0_TRIGGER, &mut self.tb0, smclk, aclk);
        Fired {
            interval,
            reset: interval && self.watchdog.asks_for_reset(),
            triggers: ta0 + ta1 + tb0,
        }
    }

    /// The interrupt lines of this unit that stand: bit i is line i. Mostly no timer asks for an interrupt.
    #[inline]
    #[tactic(auto, unfolding(chip_words::specs::Timers::timers_lines))]
    pub fn lines(&self) -> u16
        ensures lines { result ≡ timers_lines self.now }
        ensures within { result < 2 ^ (LAST_LINE + 1) }
    {
        if !self.tb0.asks() && !self.ta0.asks() && !self.ta1.asks() {
            return 0;
        }
        self.waiting_lines()
    }

    /// The lines by what waits in each timer.
    #[inline(never)]
    #[tactic(auto, unfolding(chip_words::specs::Timers::timers_lines))]
    fn waiting_lines(&self) -> u16
        ensures lines { result ≡ timers_lines self.now }
        ensures within { result < 2 ^ (LAST_LINE + 1) }
    {
        bit(TB0_CCR0_LINE, self.tb0.is_first_waiting())
            + bit(TB0_LINE, self.tb0.is_waiting())
            + bit(TA0_CCR0_LINE, self.ta0.is_first_waiting())
            + bit(TA0_LINE, self.ta0.is_waiting())
            + bit(TA1_CCR0_LINE, self.ta1.is_first_waiting())
            + bit(TA1_LINE, self.ta1.is_waiting())
    }

    /// An entry by a line of this unit: the flag of CCTL0 is cleared, where the line is its own.
    #[tactic(auto, unfolding(chip_words::specs::Timers::timers_entered))]
    pub fn entered(&mut self, line: u8)
        ensures { self.new ≡ timers_entered line self.old }
    {
        self.is_running = true;
        match line {
            TA0_CCR0_LINE => self.ta0.entered(),
            TA1_CCR0_LINE => self.ta1.entered(),
            TB0_CCR0_LINE => self.tb0.entered(),
            _ => {}
        }
        self.note_running();
    }
}

/// Whether an address is one of the timer that begins at another.
fn is_within(first: u32, at: u32) -> bool
    requires { first < 0x1000 }
    ensures { result ≡ is_of_timer first at }
{
    first <= at && at < first + TIMER_BYTES
}

/// Hands a timer the edges of a tick, and tells the triggers that it sets off.
#[inline(always)]
fn triggers<const REGISTERS: usize>(
    number: u8,
    timer: &mut Timer<REGISTERS>,
    smclk: bool,
    aclk: bool,
) -> u16
    requires { number < 8 }
    ensures triggers { result ≡ triggers_from number timer.old smclk aclk }
    ensures within { result ≤ 3 * 2 ^ number }
    ensures timer { timer.new ≡ timer_ticked timer.old smclk aclk }
{
    if !timer.tick(smclk, aclk) {
        return 0;
    }
    bit(number, timer.is_at(0)) + bit(number + 1, timer.is_at(2))
}

/// The word of one bit alone, where it is set.
#[inline]
fn bit(number: u8, is_set: bool) -> u16
    requires { number < 16 }
    ensures { result ≡ bit_word number is_set }
{
    if is_set { 1 << number } else { 0 }
}
