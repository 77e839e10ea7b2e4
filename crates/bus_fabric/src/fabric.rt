ghost use Rattle.std.specs.Prelude.{◌≡◌, ◌%◌, ◌<◌, ◌≤◌, [], None, true, not, All, IfOk, IfSome, IsTrue, is_some, length, slice_index, slice_set, vec_len};
ghost use Rattle.memory_map.specs.declared.TheConstants.{MAIN_END};
ghost use Rattle.chip_words.specs.Access.{is_over, numbered, requested, sys_asked};
ghost use Rattle.chip_words.specs.Causes.{least_cause};
ghost use Rattle.chip_words.specs.Map.{has_bytes, region_at};
ghost use Rattle.chip_words.specs.Memory.{loaded};
ghost use Rattle.chip_words.specs.Steps.{begun, ended_at, step_ended, violation_ended, waits_in};
ghost use Rattle.bus_fabric.specs.Listable.{IsListable};
ghost use Rattle.bus_fabric.specs.FirstBus.{first_bus};
ghost use Rattle.bus_fabric.specs.Memory.{fram_copied, sram_filled};

use crate::memory::{copy_fram, fill_sram, first_memory};
use arrayvec::ArrayVec;
use chip_words::{Access, NoMemory, Seal, Segment, Size, load};
use dma_unit::DmaUnit;
use fram_ctrl::FramCtrl;
use interrupt_reset::{Causes, Sys};
use ip_encap::Encap;
use memory_map::is_fram;
use mpu_segments::{MpuSegments, Noted};
use port_unit::Ports;
use std::alloc::Global;
use timer_unit::Timers;

/// SYSRSTIV before any reset.
const NO_CAUSE: u8 = 0x00;

/// The address of the reset vector (SLAS704, interrupt vector table).
const RESET_VECTOR: u32 = 0xFFFE;

/// The bus part of the chip over one flat memory.
#[derive(Drop)]
pub struct Fabric {
    pub sys: Sys,
    pub ports: Ports,
    pub timers: Timers,
    pub dma: DmaUnit,
    pub fram: FramCtrl,
    pub mpu: MpuSegments,
    pub encap: Encap,
    /// An NMI is requested.
    pub nmi: bool,
    pub(crate) memory: Vec<u8>,
    pub(crate) kept: Seal,
    fill: u8,
    budget: Option<u32>,
    writes: u32,
    /// The places of the step's violations, by the bits of their flags.
    pub(crate) noted: u8,
    pub(crate) accesses: ArrayVec<Access, 64>,
    /// The causes that the accesses of the step have requested.
    causes: Causes,
    ghost whole: { vec_len memory ≡ MAIN_END },
    ghost listable: { All IsListable accesses.items },
}

impl Fabric {
    ghost use Rattle.bus_fabric.specs.Fabric.{Changes, ChangesMemory, ChangesUnits, RESET_VECTOR as reset_vector_at, bus_part_of, part_without_power, tick_begun, tick_ended};

    /// The bus part before the first tick: FRAM is erased, SRAM is the fill, and the units are as after a BOR.
    ///
    /// No marks are built yet.
    pub fn build(alloc: Global, marks: u32, fill: u8) -> Result<Fabric, NoMemory>
        requires marks { marks ≡ 0 }
        ensures first { IfOk result (λ fabric. bus_part_of fabric ≡ first_bus fill) }
    {
        let memory = match first_memory(alloc, fill) {
            Ok(memory) => memory,
            Err(e) => return Err(e),
        };
        Ok(Fabric {
            sys: Sys::new(),
            ports: Ports::new(),
            timers: Timers::new(),
            dma: DmaUnit::new(),
            fram: FramCtrl::new(),
            mpu: MpuSegments::new(),
            encap: Encap::new(),
            nmi: false,
            memory,
            kept: Seal { low: 0, high: 0 },
            fill,
            budget: None,
            writes: 0,
            noted: 0,
            accesses: ArrayVec::new(),
            causes: Causes::new(),
        })
    }

    // Ticks and steps.

    /// Begins a tick, in which so many writes are present where its power is cut.
    pub fn begin_tick(&mut self, budget: Option<u32>)
        ensures tick { Changes (tick_begun budget) self.old self.new }
    {
        self.budget = budget;
        self.writes = 0;
    }

    /// Says whether the power of the tick is cut.
    pub fn is_cut(&self) -> bool
        ensures cut { result ≡ is_some (bus_part_of self.now).budget }
    {
        self.budget.is_some()
    }

    /// Ends a tick: no write of it is counted any longer, and no step of it is told.
    pub fn end_tick(&mut self)
        ensures tick { Changes tick_ended self.old self.new }
    {
        self.begin_tick(None);
        self.begin_step();
    }

    /// Begins a step: no access is listed, and no cause is requested by one.
    pub fn begin_step(&mut self)
        ensures step { Changes begun self.old self.new }
    {
        empty(&mut self.accesses);
        self.causes.clear();
    }

    /// Ends a step: each place that was noted sets its flag, and asks for a reset or for the NMI.
    #[inline(always)]
    pub fn end_step(&mut self)
        ensures step { Changes step_ended self.old self.new }
    {
        if self.noted != 0 {
            self.end_violations();
        }
    }

    /// Ends a step in which a place was noted.
    #[inline(never)]
    #[tactic(auto, unfolding(chip_words::specs::Steps::ended_with))]
    fn end_violations(&mut self)
        ensures step { Changes step_ended self.old self.new }
    {
        let noted = self.noted;
        self.noted = 0;
        self.end_at(noted, Segment::Sealed);
        self.end_at(noted, Segment::Info);
        self.end_at(noted, Segment::One);
        self.end_at(noted, Segment::Two);
        self.end_at(noted, Segment::Three);
    }

    fn end_at(&mut self, noted: u8, place: Segment)
        ensures place { Changes (ended_at noted place) self.old self.new }
    {
        if (noted >> place.flag()) & 1 == 1 {
            self.end_violation(place);
        }
    }

    fn end_violation(&mut self, place: Segment)
        ensures place { Changes (violation_ended place) self.old self.new }
    {
        match self.mpu.note(place, self.encap.vs()) {
            Noted::Nothing => {}
            Noted::Nmi => self.nmi = true,
            Noted::Reset(cause) => self.request(cause),
        }
    }

    /// The places of the step's violations, by the bits of their flags in MPUCTL1.
    pub fn noted(&self) -> u8
        ensures places { result ≡ (bus_part_of self.now).noted }
    {
        self.noted
    }

    /// The cycles that the step's accesses to FRAM add: NWAITS for each.
    #[tactic(auto, unfolding(chip_words::specs::Steps::waits_in))]
    pub fn waits(&self) -> u32
        ensures cycles { result ≡ waits_in (bus_part_of self.now) }
        ensures most { result ≤ 448 }
    {
        let waits = self.fram.waits();
        if waits == 0 {
            return 0;
        }
        waits
            * self
                .accesses
                .iter()
                .filter(|access| is_fram(access.at))
                .count() as u32
    }

    /// Takes the number of the next write of the tick, and says whether that write is present.
    pub fn number(&mut self) -> bool
        ensures numbers { Changes numbered self.old self.new }
        ensures present { result ≡ not (is_over (bus_part_of self.new).budget (bus_part_of self.new).writes) }
    {
        self.writes = self.writes.saturating_add(1);
        match self.budget {
            Some(budget) => self.writes <= budget,
            None => true,
        }
    }

    /// The accesses of the step so far.
    pub fn accesses(&self) -> &ArrayVec<Access, 64>
        ensures list { result.now.items ≡ (bus_part_of self.now).accesses }
        ensures listable { All IsListable result.now.items }
    {
        &self.accesses
    }

    /// The least cause that the accesses of the step have requested.
    pub fn caused(&self) -> Option<u8>
        ensures cause { result ≡ least_cause (bus_part_of self.now).causes }
        ensures number { IfSome result (λ cause. cause < 65) }
    {
        self.causes.least()
    }

    // Requests.

    /// Requests a reset by an access of the step.
    pub(crate) fn request(&mut self, cause: u8)
        requires number { cause < 65 }
        ensures requests { Changes (requested (Some cause)) self.old self.new }
    {
        self.ask(cause);
        self.causes.request(cause);
    }

    /// Requests a reset behind the accesses of a step.
    pub fn ask(&mut self, cause: u8)
        requires number { cause < 65 }
        ensures asks { ChangesUnits (sys_asked (Some cause)) self.old self.new }
    {
        self.sys.request(cause);
    }

    /// The addresses that stay secret.
    pub fn kept(&self) -> Seal
        ensures kept { result ≡ (bus_part_of self.now).kept }
    {
        self.kept
    }

    /// Keeps these addresses secret, and no others.
    pub fn keep(&mut self, seal: Seal)
        ensures kept { Changes (λ part. record part { kept = seal }) self.old self.new }
    {
        self.kept = seal;
    }

    // Memory, with no access.

    /// The byte at an address of FRAM or SRAM.
    #[tactic(auto, using(crate::proofs::Places::memory_is_low))]
    pub fn get(&self, at: u32) -> u8
        requires place { IsTrue (has_bytes (region_at at)) }
        ensures byte { result ≡ slice_index (bus_part_of self.now).memory at }
    {
        self.memory[at as usize]
    }

    /// Writes a byte at an address of FRAM or SRAM.
    #[tactic(auto, using(crate::proofs::Places::memory_is_low))]
    pub fn set(&mut self, at: u32, value: u8)
        requires place { IsTrue (has_bytes (region_at at)) }
        ensures byte { ChangesMemory (λ memory. slice_set memory at value) self.old self.new }
    {
        self.memory[at as usize] = value;
    }

    /// The word at an even address of FRAM or SRAM.
    #[tactic(auto, using(crate::proofs::Places::words_are_low))]
    pub fn word(&self, at: u32) -> u32
        requires place { IsTrue (has_bytes (region_at at)) }
        requires even { at % 2 ≡ 0 }
        ensures value { result ≡ loaded (bus_part_of self.now).memory at Size.Word }
        ensures small { result < 0x10000 }
    {
        load(self.memory.as_slice(), at as usize, Size::Word)
    }

    /// The reset vector.
    #[tactic(auto, unfolding(chip_words::specs::Map::region_at))]
    pub fn reset_vector(&self) -> u32
        ensures value { result ≡ loaded (bus_part_of self.now).memory reset_vector_at Size.Word }
        ensures small { result < 0x10000 }
    {
        self.word(RESET_VECTOR)
    }

    /// Gives FRAM the bytes that its addresses have in a whole memory.
    pub fn load_fram(&mut self, bytes: &[u8])
        requires whole { length bytes.now ≡ MAIN_END }
        ensures fram { ChangesMemory (fram_copied bytes.now) self.old self.new }
    {
        copy_fram(self.memory.as_mut_slice(), bytes);
    }

    /// Power is lost: SRAM is the fill again, the units are as a BOR leaves them, but for its cause, and what was requested
    /// or noted is dropped.
    pub fn lose_power(&mut self)
        ensures part { Changes part_without_power self.old self.new }
    {
        self.lose_sram();
        self.reset(true, NO_CAUSE);
        self.noted = 0;
    }

    /// SRAM loses what it holds: it is the fill again.
    pub fn lose_sram(&mut self)
        ensures sram { ChangesMemory (sram_filled (bus_part_of self.old).fill) self.old self.new }
    {
        fill_sram(self.memory.as_mut_slice(), self.fill);
    }
}

/// Takes all accesses out of a list. Mostly they are few, and one by one they cost less than `clear`, which fills the room
/// that they took by a call.
#[inline(always)]
fn empty(accesses: &mut ArrayVec<Access, 64>)
    ensures { accesses.new.items ≡ [] }
{
    while accesses.pop().is_some() {}
}
