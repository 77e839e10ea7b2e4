//! The turn of the bus owner.

ghost use Rattle.std.specs.Prelude.{◌≡◌, ◌<◌, IfSome, Some};
ghost use Rattle.chip_words.specs.Causes.{least_cause, lesser_cause};
ghost use Rattle.chip_core.specs.Idle.{makes_no_step};
ghost use Rattle.chip_core.specs.Steps.{HasStep, IsStepOf};
ghost use Rattle.chip_core.specs.Owners.{IsChannel};
ghost use Rattle.chip_core.specs.Turns.{accepted_by, entered, free_turn, instructed, instruction_ended, is_off as is_off_state, owned, owner_of, processor_turn, reserved_cause, rested_by, step_owned, takes_interrupts as takes_interrupts_state, transfer_turn};

use crate::chips::Chip;
use crate::entries;
use crate::owners::{Made, Owner};
use crate::steps::Step;
use chip_words::RESERVED_WORD;
use cpux_extended::{Outcome, step};
use interrupt_reset::best;

/// The ticks of an entry behind its first.
const BUSY_ENTRY: u64 = 5;

// Bits of SR.

const GIE: u32 = 3;

const CPUOFF: u32 = 4;

impl Chip {
    /// The owner of the bus in this tick.
    #[tactic(auto, unfolding(crate::specs::Turns::owner_of))]
    pub(crate) fn owner(&self) -> Owner
        ensures owner { result ≡ owner_of self.now }
        ensures channel { IsChannel result }
    {
        if let Some(boot) = self.boot {
            return Owner::Boot(boot);
        }
        if self.second_tick {
            return Owner::SecondTick;
        }
        match self.fabric.dma.due() {
            Some(channel) => Owner::Transfer(channel),
            None => Owner::Processor,
        }
    }

    /// The turn of the owner of the bus, with the step that the processor or a boot made in it.
    #[tactic(auto, using(crate::proofs::StepEnds::transfer_is_no_step), unfolding(crate::specs::Turns::owned, crate::specs::Turns::step_owned))]
    pub(crate) fn own(&mut self, owner: Owner) -> Made
        requires channel { IsChannel owner }
        ensures chip { self.new ≡ (owned owner self.old).chip }
        ensures step { result.step ≡ (owned owner self.old).step }
        ensures boot { result.boot ≡ step_owned owner self.old }
        ensures made { HasStep result.step self.new }
    {
        self.rest_channels(&owner);
        let mut made = Made {
            step: None,
            boot: None,
        };
        match &owner {
            Owner::Nobody => {}
            Owner::Boot(boot) => made.boot = Some(self.step_boot(*boot)),
            Owner::SecondTick => self.second_tick = false,
            Owner::Transfer(channel) => self.transfer(*channel),
            Owner::Processor => made.step = self.turn(),
        }
        made
    }

    /// Lowers the rests of the channels of DMA, in a tick that DMA doesn't own.
    fn rest_channels(&mut self, owner: &Owner)
        ensures chip { self.new ≡ rested_by owner.now self.old }
    {
        match owner {
            Owner::Nobody | Owner::SecondTick | Owner::Transfer(_) => {}
            Owner::Boot(_) | Owner::Processor => self.fabric.dma.pass(),
        }
    }

    /// The first tick of a transfer, which makes both of its accesses.
    #[tactic(auto, unfolding(crate::specs::Turns::transfer_turn))]
    fn transfer(&mut self, channel: u8)
        requires { channel < 3 }
        ensures chip { self.new ≡ (transfer_turn channel self.old).chip }
    {
        let step = self.fabric.dma.transfer(channel);
        self.fabric.begin_step();
        dma_unit::make(step, &mut self.fabric);
        self.fabric.end_step();
        self.second_tick = true;
    }

    /// The processor's turn, with the step that it made. Who doesn't ask for the step doesn't pay for it.
    #[inline(always)]
    #[tactic(auto, unfolding(crate::specs::Turns::processor_turn))]
    pub(crate) fn turn(&mut self) -> Option<Step>
        ensures chip { self.new ≡ (processor_turn self.old).chip }
        ensures step { result ≡ (processor_turn self.old).step }
        ensures made { HasStep result self.new }
    {
        if self.busy > 0 {
            self.busy -= 1;
            None
        } else if self.pending && !self.is_private() {
            self.halted = true;
            self.pending = false;
            None
        } else if self.halted || self.dead {
            None
        } else {
            self.turn_freely()
        }
    }

    /// The turn of a processor that isn't busy: an interrupt, or an instruction.
    #[inline(always)]
    pub(crate) fn turn_freely(&mut self) -> Option<Step>
        ensures chip { self.new ≡ (free_turn (accepted_by self.old) self.old).chip }
        ensures step { result ≡ (free_turn (accepted_by self.old) self.old).step }
        ensures made { HasStep result self.new }
    {
        match self.accepted() {
            Some(vector) => Some(self.enter(vector)),
            None => {
                if self.is_off() {
                    None
                } else {
                    Some(self.instruct())
                }
            }
        }
    }

    /// Says whether the processor, where it isn't busy, makes no step.
    #[inline]
    pub(crate) fn makes_no_step(&self) -> bool
        ensures { result ≡ makes_no_step self.now }
    {
        !self.pending && (self.halted || self.dead || (self.is_off() && self.accepted().is_none()))
    }

    /// The vector of the interrupt that is accepted. The lines are asked for only where one of them may be.
    #[inline]
    #[tactic(auto, unfolding(chip_words::specs::Interrupts::accepted))]
    fn accepted(&self) -> Option<u32>
        ensures vector { result ≡ accepted_by self.now }
        ensures place { IfSome result (λ vector. vector < 0x100000) }
    {
        if !self.takes_interrupts() && !self.fabric.nmi {
            return None;
        }
        self.best_accepted()
    }

    /// The vector of the best interrupt by the lines that stand. It stands apart so that its callers hold the test alone.
    #[inline(never)]
    #[tactic(auto, unfolding(chip_words::specs::Interrupts::accepted))]
    fn best_accepted(&self) -> Option<u32>
        ensures vector { result ≡ accepted_by self.now }
        ensures place { IfSome result (λ vector. vector < 0x100000) }
    {
        best(
            self.fabric.lines(),
            self.takes_interrupts(),
            self.fabric.nmi,
        )
    }

    fn takes_interrupts(&self) -> bool
        ensures enable { result ≡ takes_interrupts_state self.now }
    {
        self.has_status(GIE)
    }

    fn is_off(&self) -> bool
        ensures off { result ≡ is_off_state self.now }
    {
        self.has_status(CPUOFF)
    }

    /// Executes one instruction.
    #[inline(always)]
    #[tactic(auto, using(crate::proofs::StepEnds::step_ended_few), unfolding(crate::specs::Turns::instructed))]
    fn instruct(&mut self) -> Step
        ensures chip { self.new ≡ (instructed self.old).chip }
        ensures step { Some result ≡ (instructed self.old).step }
        ensures made { IsStepOf self.new result }
    {
        self.fabric.begin_step();
        let outcome = step(&mut self.regs, &mut self.fabric, &mut self.known);
        let noted = self.fabric.noted();
        self.end_instruction(outcome);
        Step {
            vector: None,
            noted,
            cause: self.cause_of(outcome),
        }
    }

    /// Ends the step of an instruction, by how it ended.
    fn end_instruction(&mut self, outcome: Outcome)
        ensures chip { self.new ≡ instruction_ended outcome self.old }
    {
        match outcome {
            Outcome::Cycles(cycles) => {
                let waits = self.fabric.waits();
                self.busy = u64::from(cycles.saturating_sub(1)) + u64::from(waits);
            }
            Outcome::Reserved => {
                self.fabric.ask(RESERVED_WORD);
                self.busy = 0;
            }
        }
        self.fabric.end_step();
    }

    /// The least cause that an instruction requested, by how it ended: its accesses may have requested one.
    fn cause_of(&self, outcome: Outcome) -> Option<u8>
        ensures cause { result
            ≡ lesser_cause (least_cause (self.now).bus.causes) (reserved_cause outcome) }
    {
        match (self.fabric.caused(), outcome) {
            (None, Outcome::Reserved) => Some(RESERVED_WORD),
            (caused, _) => caused,
        }
    }

    /// Enters the interrupt of a vector.
    #[inline(never)]
    #[tactic(auto, using(crate::proofs::StepEnds::step_ended_few), unfolding(crate::specs::Turns::entered))]
    fn enter(&mut self, vector: u32) -> Step
        requires place { vector < 0x100000 }
        ensures chip { self.new ≡ (entered vector self.old).chip }
        ensures step { Some result ≡ (entered vector self.old).step }
        ensures made { IsStepOf self.new result }
    {
        self.fabric.begin_step();
        entries::enter(&mut self.regs, &mut self.fabric, vector);
        self.busy = BUSY_ENTRY + u64::from(self.fabric.waits());
        let noted = self.fabric.noted();
        self.fabric.entered(vector);
        self.fabric.end_step();
        Step {
            vector: Some(vector),
            noted,
            cause: self.fabric.caused(),
        }
    }
}
