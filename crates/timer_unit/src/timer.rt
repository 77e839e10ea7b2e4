ghost use Rattle.std.specs.Prelude.{false, ◌||◌, ◌≡◌, ◌↔◌, ◌+◌, ◌-◌, ◌*◌, ◌/◌, ◌^◌, ◌<◌, ◌≤◌, ◌==◌, IfSome, IsSome, Some, drop, is_some, length, true};
ghost use Rattle.chip_words.specs.Sizes.{IsByteOrWord, span};
ghost use Rattle.timer_unit.specs.Edges.{is_stopped};
ghost use Rattle.timer_unit.specs.Silence.{AsksNothing};
ghost use Rattle.chip_words.specs.Timer.{Timer as TimerRegisters, CTL as CTL_DISTANCE, ID as ID_PLACE, continuous_step as continuous_step_of, counts, divisor, field_at, first_timer, is_compare_waiting, is_at, is_first_waiting, is_overflow_waiting, is_timer_waiting, least_waiting as least_waiting_from, moves, next_step, stepped, timer_entered, timer_iv, timer_ticked, told_by, timer_touched, timer_word, timer_written, up_down_step as up_down_step_of, up_step as up_step_of, waiting_number, with_flags, with_timer_word};

use chip_words::{Size, TimerStep, word_with_part};
use std::marker::Model;

// The distances of the registers from the timer's first address.

const CTL: u32 = 0x00;

const CCTL0: u32 = 0x02;

const R: u32 = 0x10;

const CCR0: u32 = 0x12;

const EX0: u32 = 0x20;

const IV: u32 = 0x2E;

// The bits of CTL that stand alone, and where its fields of two bits begin.

const TAIFG: u32 = 0;

const TAIE: u32 = 1;

const TACLR: u32 = 2;

const MC: u32 = 4;

const ID: u32 = 6;

const TASSEL: u32 = 8;

/// The bits of CTL that are kept: TASSEL, ID, MC, TAIE and TAIFG.
const KEPT_OF_CTL: u16 = 0x03F3;

// Bits of a CCTL.

const CCIFG: u32 = 0;

const CCIE: u32 = 4;

/// IV where the overflow waits and no compare register does.
const OVERFLOW_NUMBER: u16 = 0x0E;

/// A timer with so many compare registers, 3 to 7 (SLAU367, Timer_A and Timer_B).
#[derive(Drop)]
pub struct Timer<const REGISTERS: usize> {
    ctl: u16,
    cctl: [u16; REGISTERS],
    r: u16,
    ccr: [u16; REGISTERS],
    ex0: u8,
    /// Clock edges since the last step.
    prescaler: u8,
    is_downward: bool,
    /// Nothing here asks for an interrupt. Each tick of a processor that sleeps asks, and a flag is seldom set, so this is
    /// kept and not searched for. False says nothing.
    is_silent: bool,
}

impl<const REGISTERS: usize> Model for Timer<REGISTERS> {
    ghost Value = { TimerRegisters };

    ghost view = { λ t. record {
      ctl = t.ctl;
      cctl = t.cctl;
      r = t.r;
      ccr = t.ccr;
      ex0 = t.ex0;
      prescaler = t.prescaler;
      is_downward = t.is_downward;
    } };

    ghost invariant = { λ t. (3 ≤ REGISTERS) × (REGISTERS ≤ 7) × (t.ex0 < 8) × (t.prescaler < 64) ×
        (t.is_silent ≡ true → AsksNothing t.ctl t.cctl) };
}

impl<const REGISTERS: usize> Timer<REGISTERS> {
    /// The values after a reset of either kind.
    #[tactic(auto, unfolding(chip_words::specs::Timer::first_timer))]
    pub fn new() -> Timer<REGISTERS>
        requires { (3 ≤ REGISTERS) × (REGISTERS ≤ 7) }
        ensures { result ≡ first_timer REGISTERS }
    {
        Timer {
            ctl: 0,
            cctl: [0; REGISTERS],
            r: 0,
            ccr: [0; REGISTERS],
            ex0: 0,
            prescaler: 0,
            is_downward: false,
            is_silent: true,
        }
    }

    /// Reads the word at an even distance from the timer's first address.
    pub fn read(&mut self, at: u32) -> u16
        ensures value { result ≡ timer_word self.old at }
        ensures timer { self.new ≡ timer_touched self.old at }
    {
        let word = self.word(at);
        self.touch(at);
        word
    }

    /// Writes at a distance from the timer's first address.
    #[tactic(auto, unfolding(chip_words::specs::Timer::timer_written))]
    pub fn write(&mut self, at: u32, size: Size, value: u16)
        requires width { IsByteOrWord size }
        requires fits { value < span size }
        ensures { self.new ≡ timer_written self.old at size value }
    {
        let even = at - at % 2;
        if even == IV {
            self.touch(even);
        } else {
            let word = word_with_part(size, at, self.word(even), value);
            self.set_word(even, word);
            self.note_silence();
        }
    }

    #[tactic(auto, unfolding(chip_words::specs::Timer::timer_word))]
    fn word(&self, at: u32) -> u16
        ensures { result ≡ timer_word self.now at }
    {
        match at {
            CTL => self.ctl,
            R => self.r,
            EX0 => u16::from(self.ex0),
            IV => self.vector(),
            _ => {
                if let Some(n) = number_from(CCTL0, REGISTERS, at) {
                    self.cctl[n]
                } else if let Some(n) = number_from(CCR0, REGISTERS, at) {
                    self.ccr[n]
                } else {
                    0
                }
            }
        }
    }

    /// What every access to a word does, even one of a single byte: IV clears the flag that it tells.
    #[tactic(auto, unfolding(chip_words::specs::Timer::timer_touched))]
    fn touch(&mut self, at: u32)
        ensures { self.new ≡ timer_touched self.old at }
    {
        if at == IV {
            self.tell();
            self.note_silence();
        }
    }

    /// Clears the flag that IV tells.
    fn tell(&mut self)
        ensures { self.new ≡ told_by (waiting_number self.old) self.old }
    {
        self.is_silent = false;
        match self.waiting() {
            Some(n) => self.cctl[n] &= !(1 << CCIFG),
            None => {
                if self.is_overflow_waiting() {
                    self.ctl &= !(1 << TAIFG);
                }
            }
        }
    }

    /// Finds out whether nothing here asks for an interrupt.
    #[inline(never)]
    fn note_silence(&mut self)
        ensures { self.new ≡ self.old }
    {
        let asks = is_waiting(self.cctl[0])
            || self.waiting().is_some()
            || self.is_overflow_waiting();
        self.is_silent = !asks;
    }

    #[tactic(auto, unfolding(chip_words::specs::Timer::with_timer_word))]
    fn set_word(&mut self, at: u32, word: u16)
        ensures { self.new ≡ with_timer_word self.old at word }
    {
        match at {
            CTL => self.control(word),
            R => self.r = word,
            EX0 => self.ex0 = (word % 8) as u8,
            _ => {
                if let Some(n) = number_from(CCTL0, REGISTERS, at) {
                    self.is_silent = false;
                    self.cctl[n] = word;
                } else if let Some(n) = number_from(CCR0, REGISTERS, at) {
                    self.ccr[n] = word;
                }
            }
        }
    }

    /// Sets CTL. A 1 for TACLR makes R and the prescaler 0, and the direction upward.
    #[tactic(auto, unfolding(chip_words::specs::Timer::with_timer_word))]
    fn control(&mut self, word: u16)
        ensures { self.new ≡ with_timer_word self.old CTL_DISTANCE word }
    {
        self.is_silent = false;
        self.ctl = word & KEPT_OF_CTL;
        if (word >> TACLR) & 1 == 1 {
            self.r = 0;
            self.prescaler = 0;
            self.is_downward = false;
        }
    }

    /// IV: twice the number of the least CCTL from 1 on that waits, and behind them the overflow's.
    fn vector(&self) -> u16
        ensures { result ≡ timer_iv self.now }
    {
        match self.waiting() {
            Some(n) => 2 * n as u16,
            None => {
                if self.is_overflow_waiting() {
                    OVERFLOW_NUMBER
                } else {
                    0
                }
            }
        }
    }

    /// The number of the least CCTL, from 1 on, whose flag and enable are set.
    fn waiting(&self) -> Option<usize>
        ensures number { result ≡ waiting_number self.now }
        ensures within { IfSome result (λ n. n < REGISTERS) }
        ensures most { IfSome result (λ n. n < 7) }
    {
        least_waiting(&self.cctl)
    }

    /// TAIFG and TAIE are set.
    fn is_overflow_waiting(&self) -> bool
        ensures { result ≡ is_overflow_waiting self.now }
    {
        (self.ctl >> TAIE) & 1 == 1 && (self.ctl >> TAIFG) & 1 == 1
    }

    /// IV isn't 0.
    #[inline]
    #[tactic(auto, using(crate::proofs::CompareRegisters::asks_nothing))]
    pub fn is_waiting(&self) -> bool
        ensures { result ≡ is_timer_waiting self.now }
    {
        !self.is_silent && (self.waiting().is_some() || self.is_overflow_waiting())
    }

    /// CCTL0 waits, which has an interrupt of its own.
    #[inline]
    #[tactic(auto, using(crate::proofs::CompareRegisters::asks_nothing))]
    pub fn is_first_waiting(&self) -> bool
        ensures { result ≡ is_first_waiting self.now }
    {
        !self.is_silent && is_waiting(self.cctl[0])
    }

    /// CCTL0 waits, or IV isn't 0.
    #[inline]
    #[tactic(auto, using(crate::proofs::CompareRegisters::asks_nothing))]
    pub fn asks(&self) -> bool
        ensures { result ≡ (is_first_waiting self.now || is_timer_waiting self.now) }
    {
        !self.is_silent && (self.is_first_waiting() || self.is_waiting())
    }

    /// The entry into the interrupt of CCTL0, which clears its flag.
    #[tactic(auto, unfolding(chip_words::specs::Timer::timer_entered))]
    pub fn entered(&mut self)
        ensures { self.new ≡ timer_entered self.old }
    {
        self.is_silent = false;
        self.cctl[0] &= !(1 << CCIFG);
        self.note_silence();
    }

    /// Takes the clock edges of a tick, and says whether they make a step that does something.
    #[inline(always)]
    #[tactic(auto, unfolding(chip_words::specs::Timer::timer_ticked, chip_words::specs::Timer::moves))]
    pub fn tick(&mut self, smclk: bool, aclk: bool) -> bool
        ensures step { result ≡ moves self.old smclk aclk }
        ensures timer { self.new ≡ timer_ticked self.old smclk aclk }
    {
        if !self.counts(smclk, aclk) {
            return false;
        }
        if self.prescaler + 1 < self.divisor() {
            self.prescaler += 1;
            return false;
        }
        self.prescaler = 0;
        self.step()
    }

    /// R is equal to the CCR of a number, 0 to 2.
    pub fn is_at(&self, n: usize) -> bool
        requires { n < 3 }
        ensures { result ≡ is_at n self.now }
    {
        self.ccr[n] == self.r
    }

    /// The timer isn't stopped, and the clock that TASSEL selects has an edge.
    #[inline]
    pub fn counts(&self, smclk: bool, aclk: bool) -> bool
        ensures { result ≡ counts self.now smclk aclk }
    {
        if self.is_stopped() {
            return false;
        }
        match (self.ctl >> TASSEL) & 3 {
            1 => aclk,
            2 => smclk,
            _ => false,
        }
    }

    /// MC is 0.
    #[inline]
    pub fn is_stopped(&self) -> bool
        ensures { result ≡ is_stopped self.now }
    {
        (self.ctl >> MC) & 3 == 0
    }

    /// So many edges make a step: 1 to 64.
    fn divisor(&self) -> u8
        ensures value { result ≡ divisor self.now }
        ensures most { result ≤ 64 }
    {
        self.input_divider() * (self.ex0 + 1)
    }

    /// The part of the divisor that ID chooses.
    fn input_divider(&self) -> u8
        ensures value { result ≡ 2 ^ field_at ID_PLACE (self.now).ctl }
        ensures most { result ≤ 8 }
    {
        match (self.ctl >> ID) & 3 {
            0 => 1,
            1 => 2,
            2 => 4,
            3 => 8,
            _ => unreachable!(),
        }
    }

    /// Does the step of the mode, and says whether it does something.
    fn step(&mut self) -> bool
        ensures some { result ≡ is_some (next_step self.old) }
        ensures timer { self.new ≡ stepped (next_step self.old) self.old }
    {
        let top = self.ccr[0];
        match (self.ctl >> MC) & 3 {
            1 if top != 0 => self.take(up_step(top, self.r, self.is_downward)),
            2 => self.take(continuous_step(self.r, self.is_downward)),
            3 if top != 0 => self.take(up_down_step(top, self.r, self.is_downward)),
            _ => return false,
        }
        true
    }

    /// Does a step, which sets the flag of each CCTL whose CCR is equal to R.
    fn take(&mut self, step: TimerStep)
        ensures { self.new ≡ stepped (Some step) self.old }
    {
        self.r = step.r;
        self.is_downward = step.is_downward;
        let is_flagged = set_flags(step.r, &self.ccr, &mut self.cctl);
        if step.overflows {
            self.ctl |= 1 << TAIFG;
        }
        if is_flagged || step.overflows {
            self.is_silent = false;
            self.note_silence();
        }
    }
}

/// Which of so many registers is at a distance, where the first of them is at another.
fn number_from(first: u32, registers: usize, at: u32) -> Option<usize>
    ensures among { IsSome result ↔ ((first ≤ at) × (at < first + 2 * registers)) }
    ensures number { IfSome result (λ n. (n ≡ (at - first) / 2) × (n < registers)) }
{
    if at < first {
        return None;
    }
    let n = ((at - first) / 2) as usize;
    (n < registers).then_some(n)
}

/// The number of the least CCTL, from 1 on, that waits.
fn least_waiting(cctl: &[u16]) -> Option<usize>
    ensures number { result ≡ least_waiting_from 1 (drop 1 cctl.now) }
    ensures within { IfSome result (λ n. n < length cctl.now) }
{
    for n in 1..cctl.len() {
        if is_waiting(cctl[n]) {
            return Some(n);
        }
    }
    None
}

/// Sets the flag of each CCTL whose CCR is equal to R, and says whether there is one.
#[tactic(auto, using(crate::proofs::CompareRegisters::flags))]
fn set_flags(r: u16, ccr: &[u16], cctl: &mut [u16]) -> bool
    requires { length ccr.now ≡ length cctl.old }
    ensures flags { cctl.new ≡ with_flags r ccr.now cctl.old }
    ensures none { result ≡ false → cctl.new ≡ cctl.old }
{
    let mut is_flagged = false;
    for n in 0..cctl.len() {
        if ccr[n] == r {
            cctl[n] |= 1 << CCIFG;
            is_flagged = true;
        }
    }
    is_flagged
}

/// The flag and the enable of a CCTL are set.
fn is_waiting(cctl: u16) -> bool
    ensures { result ≡ is_compare_waiting cctl }
{
    (cctl >> CCIE) & 1 == 1 && (cctl >> CCIFG) & 1 == 1
}

/// Up to the top, and then from 0 again.
fn up_step(top: u16, r: u16, is_downward: bool) -> TimerStep
    ensures { result ≡ up_step_of top r is_downward }
{
    if r >= top {
        to(0, is_downward, true)
    } else {
        to(r + 1, is_downward, false)
    }
}

/// Up to FFFFh, and then from 0 again.
fn continuous_step(r: u16, is_downward: bool) -> TimerStep
    ensures { result ≡ continuous_step_of r is_downward }
{
    match r.checked_add(1) {
        Some(next) => to(next, is_downward, false),
        None => to(0, is_downward, true),
    }
}

/// Up to the top, which isn't 0, then down to 0, and so on.
fn up_down_step(top: u16, r: u16, is_downward: bool) -> TimerStep
    requires { 0 < top }
    ensures { result ≡ up_down_step_of top r is_downward }
{
    if is_downward {
        if r <= 1 {
            to(0, false, true)
        } else {
            to(r - 1, true, false)
        }
    } else if r >= top {
        to(r - 1, true, false)
    } else {
        to(r + 1, false, false)
    }
}

fn to(r: u16, is_downward: bool, overflows: bool) -> TimerStep
    ensures { result ≡ record { r = r; is_downward = is_downward; overflows = overflows } }
{
    TimerStep {
        r,
        is_downward,
        overflows,
    }
}
