//! Many ticks in one call.

ghost use Rattle.std.specs.Prelude.{◌≡◌, ◌+◌, ◌-◌, ◌<◌, ◌≤◌, ◌⊎◌, All, [], true};
ghost use Rattle.bus_fabric.specs.Fabric.{tick_ended};
ghost use Rattle.power_schedule.specs.declared.powers.Power.TheVariants.{On};
ghost use Rattle.stimulus.specs.Stimulus.{IsPlainWithin};
ghost use Rattle.trace_print.specs.Lines.{IsPrintable};
ghost use Rattle.chip_core.specs.Idle.{given_from, is_alone, shown_from, waited};
ghost use Rattle.chip_core.specs.Items.{IsItem, items_of};
ghost use Rattle.chip_core.specs.Lines.{lines_of};
ghost use Rattle.chip_core.specs.Run.{AreSilent, IsTold, chip_after};
ghost use Rattle.chip_core.specs.Tick.{behind_tick, stages_from};

use crate::chips::Chip;
use crate::{Items, Lines};
use stimulus::Bench;

impl Chip {
    /// Does the next ticks under a bench up to the first that has a line or an item, but none from the tick `end` on, and
    /// says how many they are. The lines and the items of the last one are put in place of those in `lines` and `items`.
    ///
    /// Most ticks of a run have neither, and nobody looks at the chip between them.
    pub fn run(&mut self, bench: &Bench, end: u32, lines: &mut Lines, items: &mut Items) -> u32
        requires some { (self.old).tick < end }
        requires last { end ≤ 10000000 }
        ensures some { 1 ≤ result }
        ensures within { (self.old).tick + result ≤ end }
        ensures silent { AreSilent (result - 1) bench.now self.old }
        ensures stop { (self.old).tick + result < end
            → IsTold bench.now (chip_after (result - 1) bench.now self.old) }
        ensures chip { self.new ≡ chip_after result bench.now self.old }
        ensures lines { lines.new.items ≡ lines_of bench.now (chip_after (result - 1) bench.now self.old) }
        ensures items { items.new.items ≡ items_of bench.now (chip_after (result - 1) bench.now self.old) }
        ensures printable { All IsPrintable lines.new.items }
        ensures given { All IsItem items.new.items }
    {
        self.tick(bench, lines, items);
        let mut done = 1;
        let mut until = self.tick;
        while self.tick != end && lines.is_empty() && items.is_empty() {
            until = self.plain_until(until, end, bench);
            done += self.advance(until, bench, lines, items);
        }
        done
    }

    /// A tick, not behind `end`, up to which those from the next one on are plain: that in `known`, where it is later.
    #[inline(always)]
    fn plain_until(&self, known: u32, end: u32, bench: &Bench) -> u32
        requires known { IsPlainWithin (self.now).tick known bench.now }
        requires before { known ≤ end }
        ensures plain { IsPlainWithin (self.now).tick result bench.now }
        ensures within { result ≤ end }
    {
        if self.tick < known {
            known
        } else {
            self.next_plain(bench).min(end)
        }
    }

    /// Does the next tick, and before it those in which a processor that acts alone is busy, and says how many they are.
    /// Those from the next one on are plain up to `until`.
    #[inline(always)]
    fn advance(&mut self, until: u32, bench: &Bench, lines: &mut Lines, items: &mut Items) -> u32
        requires tick { (self.old).tick < 10000000 }
        requires most { until ≤ 10000000 }
        requires plain { IsPlainWithin (self.old).tick until bench.now }
        requires ended { tick_ended (self.old).bus ≡ (self.old).bus }
        requires no_line { lines.old.items ≡ [] }
        requires no_item { items.old.items ≡ [] }
        ensures some { 1 ≤ result }
        ensures within { 1 < result → (self.old).tick + result ≤ until }
        ensures silent { AreSilent (result - 1) bench.now self.old }
        ensures chip { self.new ≡ chip_after result bench.now self.old }
        ensures lines { lines.new.items ≡ lines_of bench.now (chip_after (result - 1) bench.now self.old) }
        ensures items { items.new.items ≡ items_of bench.now (chip_after (result - 1) bench.now self.old) }
        ensures printable { All IsPrintable lines.new.items }
        ensures given { All IsItem items.new.items }
    {
        if !self.powered || until <= self.tick || !self.is_alone() {
            self.tick_until(until, bench, lines, items);
            return 1;
        }
        let waits = self.wait(until - 1);
        self.tick_alone(lines, items);
        waits + 1
    }

    /// Says whether nothing acts but the processor.
    #[inline(always)]
    fn is_alone(&self) -> bool
        ensures { result ≡ is_alone self.now }
    {
        !self.fabric.counts(true, true) && self.is_undisturbed()
    }

    /// Lets the ticks go by in which the processor is busy, but none from the tick `end` on, and says how many they are.
    #[inline(always)]
    fn wait(&mut self, end: u32) -> u32
        requires { (self.old).tick ≤ end }
        ensures busy { result ≤ (self.old).busy }
        ensures within { (self.old).tick + result ≤ end }
        ensures whole { (result ≡ (self.old).busy) ⊎ ((self.old).tick + result ≡ end) }
        ensures chip { self.new ≡ waited result self.old }
    {
        let left = end - self.tick;
        if self.busy <= u64::from(left) {
            let waits = self.busy as u32;
            self.busy = 0;
            self.tick += waits;
            waits
        } else {
            self.busy -= u64::from(left);
            self.tick = end;
            left
        }
    }

    /// Does the next tick, in which the processor owns the bus and no reset is due, and no timer counts.
    #[inline(always)]
    fn tick_alone(&mut self, lines: &mut Lines, items: &mut Items)
        requires tick { (self.old).tick < 10000000 }
        requires alone { is_alone self.old ≡ true }
        requires no_line { lines.old.items ≡ [] }
        requires no_item { items.old.items ≡ [] }
        ensures chip { self.new ≡ behind_tick (self.old).tick (stages_from On self.old).after }
        ensures lines { lines.new.items ≡ shown_from self.old }
        ensures items { items.new.items ≡ given_from self.old }
        ensures printable { All IsPrintable lines.new.items }
        ensures given { All IsItem items.new.items }
    {
        let next = self.tick + 1;
        self.finish_undisturbed(lines, items);
        self.fabric.end_tick();
        self.tick = next;
    }
}
