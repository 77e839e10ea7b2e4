ghost use Rattle.std.specs.Prelude.{◌≡◌, ◌≤◌, ◌<◌, [], All, IfOk, IsTrue, OnErr, OnOk, length};
ghost use Rattle.power_schedule.specs.Cuts.{AreOrdered, most_cuts};
ghost use Rattle.power_schedule.specs.Powers.{no_tick, power_at};
ghost use Rattle.stimulus.specs.Cuts.{IsCut};
ghost use Rattle.stimulus.specs.Events.{IsEvent, may_follow, most_on_tick, on_tick};
ghost use Rattle.stimulus.specs.Stimulus.{IsBench, IsPlainTick, IsPlainWithin, greatest_end, with_event};

use crate::EVENTS_PER_TICK;
use crate::cuts::build_schedule;
use crate::events::{Event, events_on_tick, none_after, none_until};
use chip_words::NoMemory;
use power_schedule::{Cut, Power, Schedule};
use std::alloc::Global;
use std::marker::Model;

/// What comes to a chip from outside, tick by tick.
///
/// Contracts see its end, its fill, and its events and its cuts in the order of the file.
#[derive(Debug, Drop)]
pub struct Bench {
    end: u32,
    fill: u8,
    events: Vec<Event>,
    schedule: Schedule,
}

impl Model for Bench {
    ghost use Rattle.stimulus.specs.Inside.{stimulus_of};
    ghost use Rattle.stimulus.specs.Stimulus.{IsBench, Stimulus};

    ghost Value = { Stimulus };

    ghost view = { stimulus_of };

    ghost invariant = { λ bench. IsBench (stimulus_of bench) };
}

impl Bench {
    /// The bench of a file that has no event.
    pub fn plain(alloc: Global, end: u32, fill: u8, cuts: &[Cut]) -> Result<Self, NoMemory>
        requires some_ticks { 1 ≤ end }
        requires few_ticks { end ≤ greatest_end }
        requires few_cuts { length cuts.now ≤ most_cuts }
        requires cuts_in_range { All (IsCut end) cuts.now }
        requires cuts_in_order { AreOrdered cuts.now }
        ensures { IfOk result (λ bench.
            bench ≡ record { end = end; fill = fill; events = []; cuts = cuts.now }) }
    {
        let schedule = build_schedule(alloc, end, cuts)?;
        Ok(Bench {
            end,
            fill,
            events: Vec::new(alloc),
            schedule,
        })
    }

    /// The number of ticks of the run, which are 0 up to and without it.
    pub fn end(&self) -> u32
        ensures end { result ≡ self.now.end }
        ensures sound { IsBench self.now }
    {
        self.end
    }

    /// The byte that SRAM is filled with.
    pub fn fill(&self) -> u8
        ensures { result ≡ self.now.fill }
    {
        self.fill
    }

    /// What the supply does in a tick.
    #[inline]
    pub fn power(&self, tick: u32) -> Power
        ensures power { result ≡ power_at self.now.cuts tick }
    {
        self.schedule.at(tick)
    }

    /// The events of a tick, in the order of the file.
    pub fn events(&self, tick: u32) -> &[Event]
        ensures events { result.now ≡ on_tick tick self.now.events }
        ensures few { length result.now ≤ most_on_tick }
        ensures in_range { All IsEvent result.now }
    {
        events_on_tick(&self.events, tick, &mut 0)
    }

    /// The events of a tick, in the order of the file, for who asks for one tick after another: where `done` is what the
    /// call for the tick before left there, the first of them isn't searched for. It may be any number.
    #[inline]
    pub fn next_events(&self, tick: u32, done: &mut usize) -> &[Event]
        ensures events { result.now ≡ on_tick tick self.now.events }
        ensures few { length result.now ≤ most_on_tick }
        ensures in_range { All IsEvent result.now }
    {
        events_on_tick(&self.events, tick, done)
    }

    /// The first tick, from one on, that isn't plain: power isn't on all through it, or it has an event. Where there is
    /// none, the greatest number. `done` as in `next_events`.
    pub fn plain_until(&self, tick: u32, done: usize) -> u32
        ensures least { tick ≤ result }
        ensures plain { IsPlainWithin tick result self.now }
        ensures stops { result < no_tick → ¬ IsPlainTick self.now result }
    {
        let on = self.schedule.on_until(tick);
        let none = none_until(&self.events, tick, done);
        on.min(none)
    }

    /// Says whether an event may stand behind those that the bench has.
    pub(crate) fn may_add(&self, event: Event) -> bool
        ensures { result ≡ may_follow self.now.events event }
    {
        none_after(&self.events, event.tick) && self.events(event.tick).len() < EVENTS_PER_TICK
    }

    /// Puts an event behind the others.
    pub(crate) fn add(&mut self, event: Event) -> Result<(), NoMemory>
        requires follows { IsTrue (may_follow self.old.events event) }
        requires before_end { event.tick < self.old.end }
        requires in_range { IsEvent event }
        ensures ok { OnOk result (self.new ≡ with_event self.old event) }
        ensures err { OnErr result (self.new ≡ self.old) }
    {
        match self.events.push(event) {
            Ok(()) => Ok(()),
            Err(_) => Err(NoMemory),
        }
    }

    /// Cuts the power by a schedule, in place of the cuts that the bench has.
    pub(crate) fn supply(&mut self, schedule: Schedule)
        requires in_range { All (IsCut self.old.end) schedule }
        requires in_order { AreOrdered schedule }
        ensures { self.new ≡ record self.old { cuts = schedule } }
    {
        self.schedule = schedule;
    }
}
