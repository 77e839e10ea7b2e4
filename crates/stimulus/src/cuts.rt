ghost use Rattle.std.specs.Prelude.{◌≡◌, ◌≢◌, ◌≤◌, All, IfOk, IfSome, IsTrue, length, map};
ghost use Rattle.power_schedule.specs.Cuts.{AreOrdered, most_cuts};
ghost use Rattle.stimulus.specs.Cuts.{IsCut, comes_behind, cut_in, cut_of, cut_rules};
ghost use Rattle.stimulus.specs.Rules.{items_in, next_item};
ghost use Rattle.stimulus.specs.Stimulus.{greatest_end, with_error};
ghost use Rattle.toml.specs.View.{table_view, view};

use crate::refusals::{BenchError, BenchRefused};
use crate::trees::{has_key_beside, number_at};
use crate::{MAX_OFF, MAX_WRITES};
use chip_words::NoMemory;
use power_schedule::{Cut, Schedule, ScheduleRefused};
use std::alloc::Global;
use toml::{Table, Value};

/// The schedule of cuts that a bench may have.
pub fn build_schedule(alloc: Global, end: u32, cuts: &[Cut]) -> Result<Schedule, NoMemory>
    requires few_ticks { end ≤ greatest_end }
    requires few { length cuts.now ≤ most_cuts }
    requires in_range { All (IsCut end) cuts.now }
    requires in_order { AreOrdered cuts.now }
    ensures { IfOk result (λ schedule. schedule ≡ cuts.now) }
{
    match Schedule::build(alloc, cuts) {
        Ok(schedule) => Ok(schedule),
        Err(ScheduleRefused::BadCut(_)) => unreachable!(),
        Err(ScheduleRefused::NoMemory) => Err(NoMemory),
    }
}

/// The cut that a table is, if it is one of a bench with this end.
#[tactic(auto, unfolding(crate::specs::Cuts::cut_in))]
fn cut_in(table: &Table, end: u32) -> Option<Cut>
    requires { 1 ≤ end }
    ensures cut { result ≡ cut_in end (table_view table.now) }
    ensures in_range { IfSome result (IsCut end) }
{
    if has_key_beside(table, &["tick", "writes", "off"]) {
        return None;
    }
    let tick = number_at(table, "tick", 0, end - 1)?;
    let writes = number_at(table, "writes", 0, MAX_WRITES)?;
    let off = number_at(table, "off", 1, MAX_OFF)?;
    Some(Cut { tick, writes, off })
}

/// The cut that a value is, if it is one of a bench with this end.
fn cut_of(value: &Value, end: u32) -> Option<Cut>
    requires { 1 ≤ end }
    ensures cut { result ≡ cut_of end (view value.now) }
    ensures in_range { IfSome result (IsCut end) }
{
    cut_in(value.as_table()?, end)
}

/// Says whether a cut comes behind others.
#[tactic(auto, unfolding(crate::specs::Cuts::comes_behind))]
fn comes_behind(cuts: &[Cut], cut: Cut) -> bool
    ensures { result ≡ comes_behind cuts.now cut }
{
    match cuts.last() {
        Some(last) => last.tick.saturating_add(last.off) < cut.tick,
        None => true,
    }
}

/// The cut that a value is, if it is one that comes behind others.
fn next_cut(cuts: &[Cut], value: &Value, end: u32) -> Option<Cut>
    requires { 1 ≤ end }
    ensures cut { result ≡ next_item (cut_rules end) cuts.now (view value.now) }
    ensures behind { IfSome result (λ cut. IsTrue (comes_behind cuts.now cut)) }
    ensures in_range { IfSome result (IsCut end) }
{
    let cut = cut_of(value, end)?;
    if comes_behind(cuts, cut) {
        Some(cut)
    } else {
        None
    }
}

/// The schedule of the cuts that values are, or the refusal of the first value that breaks a rule.
pub fn schedule_in(alloc: Global, end: u32, values: &[Value]) -> Result<Schedule, BenchError>
    requires some_ticks { 1 ≤ end }
    requires few_ticks { end ≤ greatest_end }
    requires few_cuts { length values.now ≤ most_cuts }
    ensures schedule { result ≢ Err BenchError.NoMemory
        → result ≡ with_error (items_in (cut_rules end) BenchRefused.Cut (map view values.now)) }
    ensures in_range { IfOk result (All (IsCut end)) }
    ensures in_order { IfOk result AreOrdered }
{
    let mut cuts = Vec::new(alloc);
    for (index, value) in values.iter().enumerate() {
        let Some(cut) = next_cut(&cuts, value, end) else {
            return Err(BenchError::Refused(BenchRefused::Cut(index as u32)));
        };
        let Ok(()) = cuts.push(cut) else {
            return Err(BenchError::NoMemory);
        };
    }
    Ok(build_schedule(alloc, end, &cuts)?)
}
