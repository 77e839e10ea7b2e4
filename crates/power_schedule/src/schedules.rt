ghost use Rattle.std.specs.Prelude.{◌≡◌, ◌≢◌, ◌↔◌, ◌<◌, ◌≤◌, [], ◌∷◌, All, IfOk, IsTrue, length};
ghost use Rattle.power_schedule.specs.Cuts.{AreOrdered, HaveBegun, IsInReach, last_tick, most_cuts, schedule_of};
ghost use Rattle.power_schedule.specs.Powers.{IsOnWithin, no_tick, power_at};

use crate::cuts::Cut;
use crate::powers::Power;
use crate::refusals::ScheduleRefused;
use std::alloc::Global;
use std::marker::Model;

/// The cuts of a run.
///
/// Contracts see it as the list of its cuts, which are in order.
#[derive(Debug, Drop)]
pub struct Schedule {
    cuts: Vec<Cut>,
}

impl Model for Schedule {
    ghost use Rattle.std.specs.Prelude.{List};
    ghost use Rattle.power_schedule.specs.Cuts.{AreOrdered};
    ghost use Rattle.power_schedule.specs.declared.cuts.Cut.{Cut};

    ghost Value = { List Cut };

    ghost view = { λ schedule. schedule.cuts.items };

    ghost invariant = { λ schedule. AreOrdered schedule.cuts.items };
}

impl Schedule {
    /// The schedule of some cuts, or the refusal of the first one that comes too early.
    pub fn build(alloc: Global, cuts: &[Cut]) -> Result<Schedule, ScheduleRefused>
        requires few { length cuts.now ≤ most_cuts }
        requires in_reach { All IsInReach cuts.now }
        ensures schedule { result ≢ Err ScheduleRefused.NoMemory
            → result ≡ schedule_of cuts.now }
        ensures ordered { IfOk result AreOrdered }
    {
        for index in 1..cuts.len() {
            let before = cuts[index - 1];
            if cuts[index].tick <= before.tick + before.off {
                return Err(ScheduleRefused::BadCut(index as u32));
            }
        }
        match cuts.to_vec(alloc) {
            Ok(cuts) => Ok(Schedule { cuts }),
            Err(_) => Err(ScheduleRefused::NoMemory),
        }
    }

    /// What the supply does in a tick.
    #[inline]
    pub fn at(&self, tick: u32) -> Power
        ensures power { result ≡ power_at self.now tick }
        ensures ordered { AreOrdered self.now }
    {
        power_of(&self.cuts, tick)
    }

    /// The first tick, from one on, in which power isn't on all through, or the greatest number where there is none.
    pub fn on_until(&self, tick: u32) -> u32
        ensures least { tick ≤ result }
        ensures on { IsOnWithin tick result self.now }
        ensures stops { result < no_tick → power_at self.now result ≢ Power.On }
    {
        power_until(&self.cuts, tick)
    }
}

/// How many cuts have begun by a tick, which are the first ones.
fn count_begun(cuts: &[Cut], tick: u32) -> usize
    requires { AreOrdered cuts.now }
    ensures within { result ≤ length cuts.now }
    ensures begun { HaveBegun tick cuts.now result }
{
    cuts.partition_point(|cut| cut.tick <= tick)
}

/// What the supply does in a tick.
#[inline]
fn power_of(cuts: &[Cut], tick: u32) -> Power
    requires { AreOrdered cuts.now }
    ensures { result ≡ power_at cuts.now tick }
{
    match cuts[..count_begun(cuts, tick)].last() {
        Some(cut) => power_behind(cut, tick),
        None => Power::On,
    }
}

/// What the supply does in a tick, by the one cut that has begun last.
#[tactic(auto, unfolding(crate::specs::Powers::power_at))]
fn power_behind(cut: &Cut, tick: u32) -> Power
    requires begun { (cut.now).tick ≤ tick }
    ensures { result ≡ power_at (cut.now ∷ []) tick }
{
    if tick == cut.tick {
        Power::Cut(cut.writes)
    } else if is_within(cut, tick) {
        Power::Off
    } else {
        Power::On
    }
}

/// Says whether a tick is within the stretch of a cut that has begun by it.
#[inline]
fn is_within(cut: &Cut, tick: u32) -> bool
    requires begun { (cut.now).tick ≤ tick }
    ensures { IsTrue result ↔ (tick ≤ last_tick cut.now) }
{
    tick - cut.tick <= cut.off
}

/// The first tick, from one on, in which power isn't on all through, or the greatest number where there is none.
fn power_until(cuts: &[Cut], tick: u32) -> u32
    requires { AreOrdered cuts.now }
    ensures least { tick ≤ result }
    ensures on { IsOnWithin tick result cuts.now }
    ensures stops { result < no_tick → power_at cuts.now result ≢ Power.On }
{
    let begun = count_begun(cuts, tick);
    if begun > 0 && is_within(&cuts[begun - 1], tick) {
        return tick;
    }
    match cuts.get(begun) {
        Some(next) => next.tick,
        None => u32::MAX,
    }
}
