//! The items that a tick adds: what it gives away of what is sealed and of what stays secret.

ghost use Rattle.std.specs.Prelude.{◌≡◌, ◌+◌, ◌<◌, ◌≤◌, ◌++◌, All, length, map};
ghost use Rattle.arrayvec.specs.ArrayVec.{array_vec_len};
ghost use Rattle.bus_fabric.specs.Listable.{IsListable};
ghost use Rattle.ip_encap.specs.Opened.{LiesInMainFram};
ghost use Rattle.chip_core.specs.Items.{IsItem, access_item as access_item_of, access_items, all_registers, boot_items, entry_items, exit_items, flag_items, opened_item, power_bits as power_bits_of, power_items, reset_items, start_of, step_items, struct_items, whole_step_items};
ghost use Rattle.chip_core.specs.Steps.{HasStep, IsStepOf};

use crate::Items;
use crate::chips::Chip;
use crate::steps::Step;
use boot_code::{Act, BootStep};
use chip_words::{Access, Kind, SR, Seal};
use ip_encap::{Interval, holds, opened};
use power_schedule::Power;
use trace_print::Item;

/// CPUOFF, OSCOFF, SCG0 and SCG1 of SR, which switch clocks and the processor.
const POWER_BITS: u32 = 0xF0;

/// What the items of a tick are told by, when the bus owner acts.
#[derive(Clone, Copy, Debug, PartialEq, Eq)]
pub struct Start {
    /// The phase is private.
    pub private: bool,
    pub seal: Seal,
    /// The addresses that stay secret.
    pub kept: Seal,
    /// The bits of SR that switch clocks and the processor.
    pub power: u8,
}

impl Chip {
    /// What the items of this tick are told by.
    pub(crate) fn start(&self) -> Start
        ensures start { result ≡ start_of self.now }
    {
        Start {
            private: self.is_private(),
            seal: self.fabric.encap.seal(),
            kept: self.fabric.kept(),
            power: self.power_bits(),
        }
    }

    fn power_bits(&self) -> u8
        ensures bits { result ≡ power_bits_of self.now }
    {
        (self.regs.get(SR) & POWER_BITS) as u8
    }

    /// Adds what a step of the processor gives away.
    #[tactic(auto, using(crate::proofs::Given::with_item))]
    pub(crate) fn note_step(
        &self,
        power: Power,
        start: &Start,
        step: Option<Step>,
        items: &mut Items,
    )
        requires room { array_vec_len items.old ≤ 0 }
        requires given { All IsItem items.old.items }
        requires made { HasStep step self.now }
        ensures items { items.new.items ≡ items.old.items ++ step_items power start.now step self.now }
        ensures count { array_vec_len items.new ≤ 40 }
        ensures given { All IsItem items.new.items }
    {
        let Some(step) = step else { return };
        if !start.private {
            return;
        }
        match power {
            Power::Cut(_) => note_accesses(start.seal, self.fabric.accesses().as_slice(), items),
            Power::On | Power::Off => self.note_whole_step(start, step, items),
        }
    }

    /// Adds all of a private step, in a tick whose power isn't cut.
    #[tactic(auto, using(crate::proofs::Given::with_item))]
    fn note_whole_step(&self, start: &Start, step: Step, items: &mut Items)
        requires room { array_vec_len items.old ≤ 0 }
        requires given { All IsItem items.old.items }
        requires made { IsStepOf self.now step }
        ensures items { items.new.items ≡ items.old.items ++ whole_step_items start.now step self.now }
        ensures count { array_vec_len items.new ≤ 40 }
        ensures given { All IsItem items.new.items }
    {
        if let Some(vector) = step.vector {
            items.push(Item::Entry(vector));
        }
        note_accesses(start.seal, self.fabric.accesses().as_slice(), items);
        if step.noted != 0 {
            items.push(Item::Flags(step.noted));
        }
        if let Some(cause) = step.cause {
            items.push(Item::Reset(cause));
        }
        let power = self.power_bits();
        if power != start.power {
            items.push(Item::Power(power));
        }
    }

    /// Adds what a step of the boot gives away.
    #[tactic(auto, using(crate::proofs::Given::with_item))]
    pub(crate) fn note_boot(
        &self,
        power: Power,
        start: &Start,
        boot: Option<BootStep>,
        items: &mut Items,
    )
        requires room { array_vec_len items.old ≤ 40 }
        requires given { All IsItem items.old.items }
        ensures items { items.new.items ≡ items.old.items ++ boot_items power start.now boot self.now }
        ensures count { array_vec_len items.new ≤ array_vec_len items.old + 3 }
        ensures given { All IsItem items.new.items }
    {
        match (power, boot) {
            (_, Some(BootStep::Going(Act::Struct(index, word)))) => {
                items.push(Item::Struct(index, word));
            }
            (Power::On, Some(BootStep::Done(_))) => {
                note_opened(opened(start.kept, self.fabric.kept()).as_slice(), items);
            }
            _ => {}
        }
    }

    /// Adds the way out of the seal.
    #[tactic(auto, using(crate::proofs::Given::with_item))]
    pub(crate) fn note_exit(&self, start: &Start, items: &mut Items)
        requires room { array_vec_len items.old ≤ 60 }
        requires given { All IsItem items.old.items }
        ensures items { items.new.items ≡ items.old.items ++ exit_items start.now self.now }
        ensures given { All IsItem items.new.items }
    {
        if start.private && self.powered && !self.is_private() {
            items.push(Item::Exit(self.all_registers(), self.busy));
        }
    }

    /// R0 to R15.
    #[tactic(auto, unfolding(crate::specs::Items::all_registers))]
    fn all_registers(&self) -> [u32; 16]
        ensures values { result ≡ all_registers (self.now).registers }
        ensures small { All (λ register. register < 0x100000) result }
    {
        let regs = &self.regs;
        [
            regs.get(0),
            regs.get(1),
            regs.get(2),
            regs.get(3),
            regs.get(4),
            regs.get(5),
            regs.get(6),
            regs.get(7),
            regs.get(8),
            regs.get(9),
            regs.get(10),
            regs.get(11),
            regs.get(12),
            regs.get(13),
            regs.get(14),
            regs.get(15),
        ]
    }
}

/// Adds the accesses of a private step that were made and whose addresses aren't sealed.
#[tactic(auto, using(crate::proofs::Given::with_item))]
fn note_accesses(seal: Seal, accesses: &[Access], items: &mut Items)
    requires room { array_vec_len items.old + length accesses.now ≤ 40 }
    requires listable { All IsListable accesses.now }
    requires given { All IsItem items.old.items }
    ensures items { items.new.items ≡ items.old.items ++ access_items seal accesses.now }
    ensures count { array_vec_len items.new ≤ array_vec_len items.old + length accesses.now }
    ensures given { All IsItem items.new.items }
{
    for access in accesses {
        if access.done && !holds(seal, access.at) {
            items.push(access_item(access));
        }
    }
}

/// An access, by its kind.
#[tactic(auto, using(crate::proofs::Given::access_fits))]
fn access_item(access: &Access) -> Item
    requires listable { IsListable access.now }
    ensures item { result ≡ access_item_of access.now }
    ensures given { IsItem result }
{
    match access.kind {
        Kind::Fetch => Item::Fetch(access.at),
        Kind::Read => Item::Read(access.at, access.size),
        Kind::Write => Item::Write(access.at, access.size, access.value),
    }
}

/// Adds the intervals of addresses that stayed secret and do no longer.
#[tactic(auto, using(crate::proofs::Given::with_item))]
fn note_opened(intervals: &[Interval], items: &mut Items)
    requires room { array_vec_len items.old + length intervals.now ≤ 64 }
    requires in_main_fram { All LiesInMainFram intervals.now }
    requires given { All IsItem items.old.items }
    ensures items { items.new.items ≡ items.old.items ++ map opened_item intervals.now }
    ensures count { array_vec_len items.new ≤ array_vec_len items.old + length intervals.now }
    ensures given { All IsItem items.new.items }
{
    for interval in intervals {
        items.push(Item::Opened(interval.low, interval.high));
    }
}
