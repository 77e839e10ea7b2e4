ghost use Rattle.std.specs.Prelude.{◌≡◌, ◌≢◌, ◌<◌, ◌≤◌, [], IfSome, IsTrue, length, map, option_map};
ghost use Rattle.power_schedule.specs.Cuts.{most_cuts};
ghost use Rattle.stimulus.specs.Events.{IsAct, IsEvent, IsPin, act_in, event_in, event_of, event_rules, may_follow, pin_act_in, pin_in, pin_named};
ghost use Rattle.stimulus.specs.Rules.{next_item};
ghost use Rattle.stimulus.specs.Stimulus.{bench_in, bench_of_file, bench_with, count_in_32_bits, fill_in, greatest_end, most_events, values_in, with_error};
ghost use Rattle.toml.specs.View.{table_view, view};

use crate::benches::Bench;
use crate::commands::command_in;
use crate::cuts::schedule_in;
use crate::events::{Event, EventAct};
use crate::refusals::{BenchError, BenchRefused, RootField};
use crate::trees::{has_key_beside, number_at, number_within, value_at};
use crate::{MAX_CUTS, MAX_END, MAX_EVENTS};
use std::alloc::Global;
use toml::{Table, Value};

/// The port and the bit that a text names.
#[tactic(auto, unfolding(crate::specs::Events::pin_named))]
fn pin_named(text: &str) -> Option<(u8, u8)>
    ensures pin { result ≡ pin_named text.now }
    ensures exists { IfSome result (λ pin. IsPin pin.0 pin.1) }
{
    match text.as_bytes() {
        [b'P', port @ b'1'..=b'4', b'.', bit @ b'0'..=b'7'] => Some((port - b'0', bit - b'0')),
        _ => None,
    }
}

/// The pin that an event names.
fn pin_in(event: &Table) -> Option<(u8, u8)>
    ensures pin { result ≡ pin_in (table_view event.now) }
    ensures exists { IfSome result (λ pin. IsPin pin.0 pin.1) }
{
    pin_named(value_at(event, "pin")?.as_str()?)
}

/// The level on a pin that a table is, if it is one.
#[tactic(auto, unfolding(crate::specs::Events::pin_act_in))]
fn pin_act_in(event: &Table) -> Option<EventAct>
    ensures act { result ≡ pin_act_in (table_view event.now) }
    ensures in_range { IfSome result IsAct }
{
    if has_key_beside(event, &["tick", "pin", "level"]) {
        return None;
    }
    let (port, bit) = pin_in(event)?;
    let level = number_at(event, "level", 0, 1)?;
    Some(EventAct::Pin(port, bit, level == 1))
}

/// What a table brings, if it is an event.
fn act_in(event: &Table) -> Option<EventAct>
    ensures act { result ≡ act_in (table_view event.now) }
    ensures in_range { IfSome result IsAct }
{
    match value_at(event, "debug") {
        Some(debug) => Some(EventAct::Debug(command_in(debug, event)?)),
        None => pin_act_in(event),
    }
}

/// The event that a table is, if it is one of a bench with this end.
fn event_in(table: &Table, end: u32) -> Option<Event>
    requires { 1 ≤ end }
    ensures event { result ≡ event_in end (table_view table.now) }
    ensures before_end { IfSome result (λ event. event.tick < end) }
    ensures in_range { IfSome result IsEvent }
{
    let tick = number_at(table, "tick", 0, end - 1)?;
    let act = act_in(table)?;
    Some(Event { tick, act })
}

/// The event that a value is, if it is one of a bench with this end.
fn event_of(value: &Value, end: u32) -> Option<Event>
    requires { 1 ≤ end }
    ensures event { result ≡ event_of end (view value.now) }
    ensures before_end { IfSome result (λ event. event.tick < end) }
    ensures in_range { IfSome result IsEvent }
{
    event_in(value.as_table()?, end)
}

/// The event that a value is, if it is one that may stand behind those of a bench.
fn next_event(bench: &Bench, value: &Value) -> Option<Event>
    ensures event { result ≡ next_item (event_rules bench.now.end) bench.now.events
        (view value.now) }
    ensures follows { IfSome result (λ event. IsTrue (may_follow bench.now.events event)) }
    ensures before_end { IfSome result (λ event. event.tick < bench.now.end) }
    ensures in_range { IfSome result IsEvent }
{
    let event = event_of(value, bench.end())?;
    if bench.may_add(event) {
        Some(event)
    } else {
        None
    }
}

/// The bench with the events that values are, or the refusal of the first value that breaks a rule.
fn with_events(alloc: Global, end: u32, fill: u8, values: &[Value]) -> Result<Bench, BenchError>
    requires some_ticks { 1 ≤ end }
    requires few_ticks { end ≤ greatest_end }
    requires few_events { length values.now ≤ most_events }
    ensures { result ≢ Err BenchError.NoMemory
        → result ≡ with_error (bench_with end fill (map view values.now) []) }
{
    let mut bench = Bench::plain(alloc, end, fill, &[])?;
    for (index, value) in values.iter().enumerate() {
        let Some(event) = next_event(&bench, value) else {
            return Err(BenchError::Refused(BenchRefused::Event(index as u32)));
        };
        bench.add(event)?;
    }
    Ok(bench)
}

/// The bench with these events and cuts, or the refusal of the first value that breaks a rule.
fn judge(
    alloc: Global,
    end: u32,
    fill: u8,
    events: &[Value],
    cuts: &[Value],
) -> Result<Bench, BenchError>
    requires some_ticks { 1 ≤ end }
    requires few_ticks { end ≤ greatest_end }
    requires few_events { length events.now ≤ most_events }
    requires few_cuts { length cuts.now ≤ most_cuts }
    ensures { result ≢ Err BenchError.NoMemory
        → result ≡ with_error (bench_with end fill (map view events.now) (map view cuts.now)) }
{
    let mut bench = with_events(alloc, end, fill, events)?;
    bench.supply(schedule_in(alloc, end, cuts)?);
    Ok(bench)
}

/// The number at `fill`, or what it is where it isn't there.
fn fill_in(root: &Table) -> Option<u8>
    ensures { result ≡ fill_in (table_view root.now) }
{
    match value_at(root, "fill") {
        Some(value) => Some(number_within(value, 0, 255)? as u8),
        None => Some(0),
    }
}

/// The values of the array at a key, or none where it isn't there.
fn values_in<'a>(root: &'a Table, key: &str) -> Option<&'a [Value]>
    ensures { option_map (λ values. map view values.now) result
        ≡ values_in key.now (table_view root.now) }
{
    match value_at(root, key) {
        Some(value) => {
            let values = value.as_array()?;
            Some(values.as_slice())
        }
        None => Some(&[]),
    }
}

/// The refusal of a field of the root.
fn refuse(field: RootField) -> Result<Bench, BenchError>
    ensures { result ≡ Err (BenchError.Refused (BenchRefused.Field field)) }
{
    Err(BenchError::Refused(BenchRefused::Field(field)))
}

/// The refusal of so many events or cuts.
fn refuse_count(count: usize) -> Result<Bench, BenchError>
    ensures { result
        ≡ Err (BenchError.Refused (BenchRefused.TooMany (count_in_32_bits count))) }
{
    let count = u32::try_from(count).unwrap_or(u32::MAX);
    Err(BenchError::Refused(BenchRefused::TooMany(count)))
}

/// The bench that a root is, or its first refusal.
#[tactic(auto, unfolding(crate::specs::Stimulus::bench_in))]
fn bench_in(alloc: Global, root: &Table) -> Result<Bench, BenchError>
    ensures { result ≢ Err BenchError.NoMemory
        → result ≡ with_error (bench_in (table_view root.now)) }
{
    let Some(_) = number_at(root, "version", 1, 1) else {
        return refuse(RootField::Version);
    };
    let Some(end) = number_at(root, "end", 1, MAX_END) else {
        return refuse(RootField::End);
    };
    let Some(fill) = fill_in(root) else {
        return refuse(RootField::Fill);
    };
    let Some(events) = values_in(root, "event") else {
        return refuse(RootField::Event);
    };
    let Some(cuts) = values_in(root, "cut") else {
        return refuse(RootField::Cut);
    };
    if has_key_beside(root, &["version", "end", "fill", "event", "cut"]) {
        return refuse(RootField::Unknown);
    }
    if events.len() > MAX_EVENTS {
        return refuse_count(events.len());
    }
    if cuts.len() > MAX_CUTS {
        return refuse_count(cuts.len());
    }
    judge(alloc, end, fill, events, cuts)
}

/// The bench that a file is, or the first refusal in the order of `BenchRefused`.
pub fn read_bench(alloc: Global, bytes: &[u8]) -> Result<Bench, BenchError>
    ensures bench { result ≢ Err BenchError.NoMemory
        → result ≡ with_error (bench_of_file bytes.now) }
{
    match toml::table_from_slice(alloc, bytes) {
        Ok(root) => bench_in(alloc, &root),
        Err(error) => {
            if error.is_memory() {
                Err(BenchError::NoMemory)
            } else {
                Err(BenchError::Refused(BenchRefused::NotToml))
            }
        }
    }
}
