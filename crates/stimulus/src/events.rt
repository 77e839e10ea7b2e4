ghost use Rattle.std.specs.Prelude.{◌≡◌, ◌≢◌, ◌-◌, ◌<◌, ◌≤◌, [], IsTrue, get_or, length};
ghost use Rattle.std.specs.List.{AllWithin};
ghost use Rattle.std.specs.List.Sorted.{IsNonDecreasingBy};
ghost use Rattle.power_schedule.specs.Powers.{no_tick};
ghost use Rattle.stimulus.specs.Events.{HasNoneWithin, IsEnd, IsStart, none_after, on_tick};

use debug_port::Command;

/// What comes to the chip from outside.
#[derive(Clone, Copy, Debug, PartialEq, Eq)]
pub enum EventAct {
    /// A level on a pin: the port, from 1 to 4, its bit, from 0 to 7, and whether it is high.
    Pin(u8, u8, bool),
    /// A command of the debugger, with addresses, values and counts in the ranges that `Command` tells.
    Debug(Command),
}

/// Something that comes to the chip in one tick.
#[derive(Clone, Copy, Debug, PartialEq, Eq)]
pub struct Event {
    /// The number of the tick, from 0.
    pub tick: u32,
    /// What comes.
    pub act: EventAct,
}

/// Says whether there are so many events, and the last of them comes before a tick.
#[inline]
fn ends_before(events: &[Event], count: usize, tick: u32) -> bool
    ensures within { IsTrue result → count ≤ length events.now }
    ensures last { IsTrue result → (d : Event) → 0 < count
        → (get_or events.now (count - 1) d).tick < tick }
{
    if count == 0 {
        return true;
    }
    match events.get(count - 1) {
        Some(last) => last.tick < tick,
        None => false,
    }
}

/// Says whether the event behind so many doesn't come before a tick, where there is one.
fn goes_on_from(events: &[Event], count: usize, tick: u32) -> bool
    ensures next { IsTrue result → (d : Event) → count < length events.now
        → tick ≤ (get_or events.now count d).tick }
{
    match events.get(count) {
        Some(next) => tick <= next.tick,
        None => true,
    }
}

/// How many events come before a tick, of events whose ticks don't fall. Where it is `guess` nothing is searched.
#[tactic(auto, using(crate::proofs::OnTick::start_is))]
fn count_before(events: &[Event], tick: u32, guess: usize) -> usize
    requires sorted { IsNonDecreasingBy (λ (event : Event). event.tick) events.now }
    ensures within { result ≤ length events.now }
    ensures start { IsStart tick events.now result }
{
    if ends_before(events, guess, tick) && goes_on_from(events, guess, tick) {
        guess
    } else {
        events.partition_point(|event| event.tick < tick)
    }
}

/// How many events come up to a tick, of events whose ticks don't fall. Mostly the first comes behind it.
fn count_up_to(events: &[Event], tick: u32) -> usize
    requires sorted { IsNonDecreasingBy (λ (event : Event). event.tick) events.now }
    ensures within { result ≤ length events.now }
    ensures end { IsEnd tick events.now result }
{
    match events.first() {
        Some(first) if tick < first.tick => 0,
        _ => events.partition_point(|event| event.tick <= tick),
    }
}

/// The events of one tick, of events whose ticks don't fall. `done` is how many come before it, if it is right, and then
/// how many come up to it.
pub fn events_on_tick<'a>(events: &'a [Event], tick: u32, done: &mut usize) -> &'a [Event]
    requires { IsNonDecreasingBy (λ (event : Event). event.tick) events.now }
    ensures { result.now ≡ on_tick tick events.now }
{
    let start = count_before(events, tick, *done);
    let rest = &events[start..];
    let count = count_up_to(rest, tick);
    *done = start + count;
    &rest[..count]
}

/// The first tick, from one on, that has an event, of events whose ticks don't fall, or the greatest number where there
/// is none. `done` is how many come before it, if it is right.
pub fn none_until(events: &[Event], tick: u32, done: usize) -> u32
    requires { IsNonDecreasingBy (λ (event : Event). event.tick) events.now }
    ensures least { tick ≤ result }
    ensures none { HasNoneWithin tick result events.now }
    ensures stops { result < no_tick → on_tick result events.now ≢ [] }
{
    match events.get(count_before(events, tick, done)) {
        Some(next) => next.tick,
        None => u32::MAX,
    }
}

/// Says whether none of the events, whose ticks don't fall, comes after a tick.
pub fn none_after(events: &[Event], tick: u32) -> bool
    requires { IsNonDecreasingBy (λ (event : Event). event.tick) events.now }
    ensures { result ≡ none_after tick events.now }
{
    match events.last() {
        Some(last) => last.tick <= tick,
        None => true,
    }
}
