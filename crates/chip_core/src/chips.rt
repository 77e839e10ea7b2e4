ghost use Rattle.std.specs.Prelude.{◌≡◌, ◌+◌, ◌<◌, ◌≤◌, ◌++◌, [], All, IfOk, IfSome, slice_index, true};
ghost use Rattle.arrayvec.specs.ArrayVec.{array_vec_len};
ghost use Rattle.trace_print.specs.Lines.{IsPrintable};
ghost use Rattle.power_schedule.specs.declared.powers.Power.TheVariants.{On};
ghost use Rattle.stimulus.specs.Events.{IsAct};
ghost use Rattle.stimulus.specs.Stimulus.{IsPlainWithin};
ghost use Rattle.chip_words.specs.Bits.{has_bit};
ghost use Rattle.chip_words.specs.Causes.{is_of_bor as is_of_bor_cause};
ghost use Rattle.chip_words.specs.Registers.{SR as STATUS};
ghost use Rattle.chip_core.specs.Idle.{IsFree, given_from, is_undisturbed, plainly_ticked, shown_from, started};
ghost use Rattle.chip_core.specs.FirstState.{first_state};
ghost use Rattle.chip_core.specs.Items.{IsItem, items_of, stages_items};
ghost use Rattle.chip_core.specs.Lines.{event_lines, halted_since, lines_of, lines_with_power, power_lines, stage_lines, stimulus_lines};
ghost use Rattle.chip_core.specs.Pins.{pins_of};
ghost use Rattle.chip_core.specs.Tick.{aclk_edge, after_bor, after_event, after_puc, at_rest, budget_of, clocked, cut as cut_state, powered, reset as reset_of, smclk_edge, stages, stages_from, stimulated, taken_cause, ticked};

use crate::images::image_memory;
use crate::lines::{tell_halt, tell_reset};
use crate::pin_lines::tell_changes;
use crate::{Items, Lines};
use boot_code::{Boot, BootStep, Keep, image_seal};
use bus_fabric::Fabric;
use chip_words::{DEBUG_RESET, NoMemory, PC, POWER_ON, Regs, SOFTWARE_BOR, SR};
use cpux_extended::KnownWords;
use elf_image::Image;
use port_unit::Pins;
use power_schedule::Power;
use std::alloc::Global;
use std::marker::Model;
use stimulus::{Bench, EventAct};
use trace_print::TraceItem;

/// ACLK has an edge in each tick whose number is a multiple of this.
const TICKS_PER_ACLK: u32 = 32;

// Bits of SR.

const OSCOFF: u32 = 5;

const SCG1: u32 = 7;

/// The chip: the processor and its bus between two ticks.
///
/// Contracts see the record `State`.
#[derive(Drop)]
pub struct Chip {
    pub(crate) fabric: Fabric,
    pub(crate) regs: Regs,
    /// How many more ticks the processor is busy.
    pub(crate) busy: u64,
    pub(crate) powered: bool,
    /// The words besides FRAM that outlast a loss of power.
    pub(crate) keep: Keep,
    pub(crate) boot: Option<Boot>,
    pub(crate) dead: bool,
    /// The debugger halted the processor.
    pub(crate) halted: bool,
    /// The processor will be halted, once it may be.
    pub(crate) pending: bool,
    /// The second tick of a transfer of DMA is next.
    pub(crate) second_tick: bool,
    pub(crate) tick: u32,
    /// How many of the bench's events were done. It spares a search, and any number is right.
    events_done: usize,
    /// What the words of instructions say that were executed before. It spares a step their decoding.
    pub(crate) known: KnownWords,
}

impl Model for Chip {
    ghost use Rattle.chip_core.specs.State.{State};

    ghost Value = { State };

    ghost use Rattle.chip_core.specs.Inside.{state_of};

    ghost view = { state_of };
}

impl Chip {
    /// The chip before its first tick: power is off, FRAM is the image's, SRAM is the bench's fill, and what stays secret is
    /// what the image's first boot will seal.
    #[tactic(auto, using(crate::proofs::FirstMemory::is_first_memory))]
    pub fn build(alloc: Global, image: &Image<'_>, bench: &Bench) -> Result<Chip, NoMemory>
        ensures { IfOk result (λ chip. chip ≡ first_state image.now bench.now.fill) }
    {
        let mut fabric = match Fabric::build(alloc, 0, bench.fill()) {
            Ok(fabric) => fabric,
            Err(e) => return Err(e),
        };
        match image_memory(alloc, image) {
            Ok(memory) => fabric.load_fram(memory.as_slice()),
            Err(e) => return Err(e),
        }
        fabric.keep(image_seal(image));
        let known = match KnownWords::build(alloc) {
            Ok(known) => known,
            Err(e) => return Err(e),
        };
        Ok(Chip {
            fabric,
            regs: Regs::zero(),
            busy: 0,
            powered: false,
            keep: Keep::new(),
            boot: Some(boot_code::start()),
            dead: false,
            halted: false,
            pending: false,
            second_tick: false,
            tick: 0,
            events_done: 0,
            known,
        })
    }

    /// The pins, as the outside sees them: without power all are open.
    #[inline]
    #[tactic(auto, unfolding(crate::specs::Pins::pins_of))]
    pub(crate) fn pins(&self) -> Pins
        ensures { result ≡ pins_of self.now }
    {
        if self.powered {
            self.fabric.pins()
        } else {
            Pins { driven: 0, high: 0 }
        }
    }

    /// Does the next tick under a bench, and puts its lines and its items in place of those in `lines` and `items`.
    ///
    /// Most ticks are plain, and leave the stages of power and of the stimulus aside.
    pub fn tick(&mut self, bench: &Bench, lines: &mut Lines, items: &mut Items)
        requires { (self.old).tick < 10000000 }
        ensures chip { self.new ≡ ticked bench.now self.old }
        ensures lines { lines.new.items ≡ lines_of bench.now self.old }
        ensures items { items.new.items ≡ items_of bench.now self.old }
        ensures printable { All IsPrintable lines.new.items }
        ensures given { All IsItem items.new.items }
    {
        lines.clear();
        items.clear();
        let until = self.next_plain(bench);
        self.tick_until(until, bench, lines, items);
    }

    /// Does the next tick, where no line and no item stands yet, and the ticks from it on are plain up to `until`.
    #[inline(always)]
    #[tactic(auto, using(crate::proofs::PlainTicks::plain_chip, crate::proofs::PlainTicks::plain_lines, crate::proofs::PlainTicks::plain_items))]
    pub(crate) fn tick_until(
        &mut self,
        until: u32,
        bench: &Bench,
        lines: &mut Lines,
        items: &mut Items,
    )
        requires tick { (self.old).tick < 10000000 }
        requires plain { IsPlainWithin (self.old).tick until bench.now }
        requires no_line { lines.old.items ≡ [] }
        requires no_item { items.old.items ≡ [] }
        ensures chip { self.new ≡ ticked bench.now self.old }
        ensures lines { lines.new.items ≡ lines_of bench.now self.old }
        ensures items { items.new.items ≡ items_of bench.now self.old }
        ensures printable { All IsPrintable lines.new.items }
        ensures given { All IsItem items.new.items }
    {
        if self.powered && self.tick < until {
            self.tick_plainly(lines, items);
        } else {
            self.tick_whole(bench, lines, items);
        }
    }

    /// A tick up to which those from the next one on are plain: the first that isn't.
    #[inline(never)]
    pub(crate) fn next_plain(&self, bench: &Bench) -> u32
        ensures plain { IsPlainWithin (self.now).tick result bench.now }
    {
        bench.plain_until(self.tick, self.events_done)
    }

    /// Does the next tick, which is plain.
    #[inline(always)]
    #[tactic(auto, unfolding(crate::specs::Tick::timed))]
    fn tick_plainly(&mut self, lines: &mut Lines, items: &mut Items)
        requires tick { (self.old).tick < 10000000 }
        requires no_line { lines.old.items ≡ [] }
        requires no_item { items.old.items ≡ [] }
        ensures chip { self.new ≡ plainly_ticked self.old }
        ensures lines { lines.new.items ≡ shown_from (started self.old) }
        ensures items { items.new.items ≡ given_from (started self.old) }
        ensures printable { All IsPrintable lines.new.items }
        ensures given { All IsItem items.new.items }
    {
        let next = self.tick + 1;
        self.fabric.begin_tick(None);
        self.time();
        if self.is_undisturbed() {
            self.finish_undisturbed(lines, items);
        } else {
            self.finish(lines, items);
        }
        self.fabric.end_tick();
        self.tick = next;
    }

    /// Does the stages from the bus owner's turn on, where the processor owns the bus and no reset is due.
    ///
    /// Mostly it is busy with the cycles of its instruction, or sleeps, or makes a step in public phase.
    #[inline(always)]
    #[tactic(auto, using(crate::proofs::IdleTicks::public_items))]
    pub(crate) fn finish_undisturbed(&mut self, lines: &mut Lines, items: &mut Items)
        requires undisturbed { is_undisturbed self.old ≡ true }
        requires no_line { lines.old.items ≡ [] }
        requires no_item { items.old.items ≡ [] }
        ensures chip { self.new ≡ (stages_from On self.old).after }
        ensures lines { lines.new.items ≡ shown_from self.old }
        ensures items { items.new.items ≡ given_from self.old }
        ensures printable { All IsPrintable lines.new.items }
        ensures given { All IsItem items.new.items }
    {
        if self.busy > 0 {
            self.busy -= 1;
            return;
        }
        if self.makes_no_step() {
            return;
        }
        if self.pending || self.halted || self.dead || self.is_private() {
            self.finish(lines, items);
            return;
        }
        let pins = self.pins();
        self.step_publicly(lines);
        tell_changes(pins, self.pins(), lines);
    }

    /// Does a step of the processor in public phase, which gives nothing away.
    #[inline(never)]
    #[tactic(auto, using(crate::proofs::IdleTicks::free_after, crate::proofs::IdleTicks::free_lines))]
    fn step_publicly(&mut self, lines: &mut Lines)
        requires undisturbed { is_undisturbed self.old ≡ true }
        requires free { IsFree self.old }
        requires no_line { lines.old.items ≡ [] }
        ensures chip { self.new ≡ (stages_from On self.old).after }
        ensures lines { lines.new.items ≡ stage_lines On (stages_from On self.old) }
        ensures count { array_vec_len lines.new ≤ 13 }
        ensures printable { All IsPrintable lines.new.items }
    {
        self.turn_freely();
        self.end_stages(false, None, lines);
    }

    /// Does the stages from the bus owner's turn on, whoever it is.
    #[inline(never)]
    fn finish(&mut self, lines: &mut Lines, items: &mut Items)
        requires no_line { lines.old.items ≡ [] }
        requires no_item { items.old.items ≡ [] }
        ensures chip { self.new ≡ (stages_from On self.old).after }
        ensures lines { lines.new.items ≡ shown_from self.old }
        ensures items { items.new.items ≡ given_from self.old }
        ensures printable { All IsPrintable lines.new.items }
        ensures given { All IsItem items.new.items }
    {
        let pins = self.pins();
        self.do_turn(lines, items);
        tell_changes(pins, self.pins(), lines);
    }

    /// Does the next tick with all its stages, where no line and no item stands yet.
    #[inline(never)]
    #[tactic(auto, unfolding(crate::specs::Tick::ticked, crate::specs::Tick::moments, crate::specs::Lines::lines_of, crate::specs::Items::items_of))]
    fn tick_whole(&mut self, bench: &Bench, lines: &mut Lines, items: &mut Items)
        requires tick { (self.old).tick < 10000000 }
        requires no_line { lines.old.items ≡ [] }
        requires no_item { items.old.items ≡ [] }
        ensures chip { self.new ≡ ticked bench.now self.old }
        ensures lines { lines.new.items ≡ lines_of bench.now self.old }
        ensures items { items.new.items ≡ items_of bench.now self.old }
        ensures printable { All IsPrintable lines.new.items }
        ensures given { All IsItem items.new.items }
    {
        let next = self.tick + 1;
        let pins = self.pins();
        let power = bench.power(self.tick);
        self.supply(power, lines);
        self.stimulate(bench, lines);
        self.do_stages(power, lines, items);
        tell_changes(pins, self.pins(), lines);
        self.fabric.end_tick();
        self.tick = next;
    }

    /// The power of the tick: where it comes on, the chip is as after a BOR.
    #[tactic(auto, using(crate::proofs::Printable::power_lines_printable), unfolding(crate::specs::Tick::powered))]
    fn supply(&mut self, power: Power, lines: &mut Lines)
        requires empty { lines.old.items ≡ [] }
        ensures chip { self.new ≡ powered power self.old }
        ensures lines { lines.new.items ≡ power_lines power self.old }
        ensures count { array_vec_len lines.new ≤ 1 }
        ensures printable { All IsPrintable lines.new.items }
    {
        self.fabric.begin_tick(budget(power));
        if power != Power::Off && !self.powered {
            self.bor(POWER_ON);
            self.powered = true;
            lines.push(TraceItem::On);
        }
    }

    /// The stages behind the stimulus, with what they show but for the pins: the timers, the turn of the bus owner, and
    /// then the reset or the cut. Without power there are none.
    #[tactic(auto, using(crate::proofs::NoItems::no_items_without_power), unfolding(crate::specs::Tick::stages, crate::specs::Tick::timed, crate::specs::Turns::owned))]
    fn do_stages(&mut self, power: Power, lines: &mut Lines, items: &mut Items)
        requires room { array_vec_len lines.old ≤ 9 }
        requires printable { All IsPrintable lines.old.items }
        requires none { items.old.items ≡ [] }
        ensures chip { self.new ≡ (stages power self.old).after }
        ensures lines { lines.new.items ≡ lines.old.items ++ stage_lines power (stages power self.old) }
        ensures items { items.new.items ≡ stages_items power (stages power self.old) }
        ensures count { array_vec_len lines.new ≤ 13 }
        ensures printable { All IsPrintable lines.new.items }
        ensures given { All IsItem items.new.items }
    {
        match power {
            Power::Off => {}
            Power::Cut(_) => {
                self.time();
                let start = self.start();
                let owner = self.owner();
                let made = self.own(owner);
                self.note_step(power, &start, made.step, items);
                self.note_boot(power, &start, made.boot, items);
                self.cut();
                self.note_exit(&start, items);
                lines.push(TraceItem::Cut);
            }
            Power::On => {
                self.time();
                self.do_turn(lines, items);
            }
        }
    }

    /// The stages behind the clock edges, in a tick with power, but for what the pins show.
    fn do_turn(&mut self, lines: &mut Lines, items: &mut Items)
        requires room { array_vec_len lines.old ≤ 9 }
        requires printable { All IsPrintable lines.old.items }
        requires none { items.old.items ≡ [] }
        ensures chip { self.new ≡ (stages_from On self.old).after }
        ensures lines { lines.new.items ≡ lines.old.items ++ stage_lines On (stages_from On self.old) }
        ensures items { items.new.items ≡ stages_items On (stages_from On self.old) }
        ensures count { array_vec_len lines.new ≤ 13 }
        ensures printable { All IsPrintable lines.new.items }
        ensures given { All IsItem items.new.items }
    {
        let start = self.start();
        let was_halted = self.halted;
        let owner = self.owner();
        let made = self.own(owner);
        self.note_step(Power::On, &start, made.step, items);
        self.note_boot(Power::On, &start, made.boot, items);
        self.end_stages(was_halted, made.boot, lines);
        self.note_exit(&start, items);
    }

    /// Says whether neither a boot, nor DMA, nor a reset is due.
    #[inline]
    pub(crate) fn is_undisturbed(&self) -> bool
        ensures { result ≡ is_undisturbed self.now }
    {
        self.boot.is_none()
            && !self.second_tick
            && self.fabric.dma.quiet()
            && self.fabric.pending().is_none()
    }

    /// Shows what the turn did, and does the reset.
    #[inline(always)]
    fn end_stages(&mut self, was_halted: bool, step: Option<BootStep>, lines: &mut Lines)
        requires room { array_vec_len lines.old ≤ 9 }
        requires printable { All IsPrintable lines.old.items }
        ensures chip { self.new ≡ reset_of self.old }
        ensures lines { lines.new.items
            ≡ lines.old.items ++ lines_with_power was_halted step self.old (reset_of self.old) }
        ensures count { array_vec_len lines.new ≤ 13 }
        ensures printable { All IsPrintable lines.new.items }
    {
        tell_halt(self.halted_since(was_halted), lines);
        self.tell_boot(step, lines);
        let cause = self.reset();
        tell_reset(cause, lines);
        self.tell_dead(step, cause, lines);
    }

    /// Power is cut.
    #[tactic(auto, unfolding(crate::specs::Tick::cut))]
    fn cut(&mut self)
        ensures { self.new ≡ cut_state self.old }
    {
        self.fabric.lose_power();
        self.stand_still();
        self.powered = false;
    }

    /// A BOR with a cause.
    #[inline(never)]
    fn bor(&mut self, cause: u8)
        ensures { self.new ≡ after_bor cause self.old }
    {
        self.fabric.reset(true, cause);
        self.stand_still();
    }

    /// Drops what the processor, DMA and the debugger were about to do, so that a boot is next.
    fn stand_still(&mut self)
        ensures { self.new ≡ at_rest self.old }
    {
        self.regs = Regs::zero();
        self.busy = 0;
        self.boot = Some(boot_code::start());
        self.dead = false;
        self.halted = false;
        self.pending = false;
        self.second_tick = false;
    }

    /// A PUC with a cause.
    #[inline(never)]
    fn puc(&mut self, cause: u8)
        ensures { self.new ≡ after_puc cause self.old }
    {
        self.fabric.reset(false, cause);
        self.regs.set(SR, 0);
        self.busy = 0;
        self.second_tick = false;
        self.load_vector();
    }

    /// The reset: takes the least cause that was requested in the tick, if there is one, and gives it.
    #[inline]
    #[tactic(auto, unfolding(crate::specs::Tick::reset))]
    fn reset(&mut self) -> Option<u8>
        ensures cause { result ≡ taken_cause self.old }
        ensures chip { self.new ≡ reset_of self.old }
    {
        let cause = self.fabric.pending();
        if let Some(cause) = cause {
            if is_of_bor(cause) {
                self.bor(cause);
            } else {
                self.puc(cause);
            }
        }
        cause
    }

    /// Does the events of the tick, in the order of the bench, and adds what they show.
    #[tactic(auto, unfolding(crate::specs::Tick::stimulated))]
    fn stimulate(&mut self, bench: &Bench, lines: &mut Lines)
        requires room { array_vec_len lines.old ≤ 1 }
        requires printable { All IsPrintable lines.old.items }
        ensures chip { self.new ≡ stimulated bench.now self.old }
        ensures lines { lines.new.items ≡ lines.old.items ++ stimulus_lines bench.now self.old }
        ensures count { array_vec_len lines.new ≤ 9 }
        ensures printable { All IsPrintable lines.new.items }
    {
        let events = bench.next_events(self.tick, &mut self.events_done);
        for event in events {
            self.react(event.act, lines);
        }
    }

    /// Does one event, and adds what it shows.
    fn react(&mut self, act: EventAct, lines: &mut Lines)
        requires range { IsAct act }
        requires room { array_vec_len lines.old ≤ 31 }
        requires printable { All IsPrintable lines.old.items }
        ensures chip { self.new ≡ after_event act self.old }
        ensures lines { lines.new.items ≡ lines.old.items ++ event_lines act self.old }
        ensures count { array_vec_len lines.new ≤ array_vec_len lines.old + 1 }
        ensures printable { All IsPrintable lines.new.items }
    {
        match act {
            EventAct::Pin(port, bit, level) => self.fabric.drive(port, bit, level),
            EventAct::Debug(command) => self.debug(command, lines),
        }
    }

    /// The PC at which the processor was halted, where it wasn't before.
    fn halted_since(&self, was_halted: bool) -> Option<u32>
        ensures place { result ≡ halted_since was_halted self.now }
        ensures small { IfSome result (λ at. at < 0x100000) }
    {
        (self.halted && !was_halted).then_some(self.regs.get(PC))
    }

    /// The timers take the clock edges of the tick, once the boot is done.
    #[inline]
    fn time(&mut self)
        ensures { self.new ≡ clocked (self.old).boot self.old }
    {
        if self.boot.is_none() {
            let smclk = self.has_smclk();
            let aclk = self.has_aclk();
            self.fabric.clock(smclk, aclk);
        }
    }

    /// Says whether SMCLK has an edge in the tick.
    #[inline]
    fn has_smclk(&self) -> bool
        ensures edge { result ≡ smclk_edge self.now }
    {
        !self.has_status(SCG1)
    }

    /// Says whether ACLK has an edge in the tick.
    #[inline]
    fn has_aclk(&self) -> bool
        ensures edge { result ≡ aclk_edge self.now }
    {
        self.tick % TICKS_PER_ACLK == 0 && !self.has_status(OSCOFF)
    }

    /// Says whether a bit of SR is set.
    pub(crate) fn has_status(&self, bit: u32) -> bool
        requires bit { bit < 9 }
        ensures set { result ≡ has_bit (slice_index (self.now).registers STATUS) bit }
    {
        (self.regs.get(SR) >> bit) & 1 == 1
    }
}

/// How many writes of a tick are present, where its power is cut.
fn budget(power: Power) -> Option<u32>
    ensures { result ≡ budget_of power }
{
    match power {
        Power::Cut(writes) => Some(writes),
        Power::On | Power::Off => None,
    }
}

/// Says whether a cause is that of a BOR.
fn is_of_bor(cause: u8) -> bool
    ensures { result ≡ is_of_bor_cause cause }
{
    matches!(cause, POWER_ON | DEBUG_RESET | SOFTWARE_BOR)
}
