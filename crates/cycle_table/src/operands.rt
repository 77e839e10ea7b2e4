ghost use Rattle.std.specs.Prelude.{◌≡◌, ◌+◌, ◌<◌, ◌≤◌};
ghost use Rattle.cycle_table.specs.Cycles.{change_cost as change_cost_of, destination_cost as destination_cost_of, extension_cost as extension_cost_of, is_repeatable as is_repeatable_of, one_accesses as one_accesses_of, one_cost as one_cost_of, one_cycles as one_cycles_of, push_cost as push_cost_of, repeat_cost as repeat_cost_of, source_cost as source_cost_of, two_accesses as two_accesses_of, two_cycles as two_cycles_of};

use cpux_decode::{Op1, Op2, PC, Place, Size};

/// The cycles of an operation of two operands.
#[inline(always)]
#[tactic(auto, unfolding(crate::specs::Cycles::two_cycles))]
pub fn two_cycles(op: Op2, size: Size, from: Place, to: Place, long: bool, reps: u32) -> u32
    requires low { 1 ≤ reps }
    requires high { reps ≤ 16 }
    ensures cycles { result ≡ two_cycles_of op size from to long reps }
    ensures least { 1 ≤ result }
    ensures most { result ≤ 25 }
{
    let repeated = long && from.is_register_source() && to.is_register();
    source_cost(from)
        + destination_cost(op, to)
        + extension_cost(long, size, two_accesses(op, from, to))
        + repeat_cost(repeated, reps)
}

/// The cycles of an operation of one operand.
#[tactic(auto, unfolding(crate::specs::Cycles::one_cycles))]
pub fn one_cycles(op: Op1, size: Size, place: Place, long: bool, reps: u32) -> u32
    requires low { 1 ≤ reps }
    requires high { reps ≤ 16 }
    ensures cycles { result ≡ one_cycles_of op size place long reps }
    ensures least { 1 ≤ result }
    ensures most { result ≤ 23 }
{
    let repeated = long && is_repeatable(op) && place.is_register();
    one_cost(op, place)
        + extension_cost(long, size, one_accesses(op, place))
        + repeat_cost(repeated, reps)
}

/// What a source costs.
#[tactic(auto, unfolding(crate::specs::Cycles::source_cost))]
fn source_cost(place: Place) -> u32
    ensures cost { result ≡ source_cost_of place }
    ensures most { result ≤ 2 }
{
    match place {
        Place::Reg(_) | Place::Const(_) => 0,
        Place::At(_) | Place::AtPlus(_) | Place::Imm(_) => 1,
        Place::Near(..) | Place::Far(..) | Place::Absolute(_) => 2,
    }
}

/// What a destination costs.
#[tactic(auto, unfolding(crate::specs::Cycles::destination_cost))]
fn destination_cost(op: Op2, place: Place) -> u32
    ensures cost { result ≡ destination_cost_of op place }
    ensures least { 1 ≤ result }
    ensures most { result ≤ 4 }
{
    match place {
        Place::Reg(PC) if op.writes_destination() => 3,
        Place::Reg(_) => 1,
        _ => match op {
            Op2::Mov | Op2::Bit | Op2::Cmp => 3,
            _ => 4,
        },
    }
}

/// How many operands in memory are read and are written.
#[tactic(auto, unfolding(crate::specs::Cycles::two_accesses))]
fn two_accesses(op: Op2, from: Place, to: Place) -> u32
    ensures count { result ≡ two_accesses_of op from to }
    ensures most { result ≤ 3 }
{
    let (read, written) = (op.reads_destination(), op.writes_destination());
    let stored = to.is_memory();
    from.is_memory() as u32 + (stored && read) as u32 + (stored && written) as u32
}

/// What an operation of one operand costs by itself.
#[tactic(auto, unfolding(crate::specs::Cycles::one_cost))]
fn one_cost(op: Op1, place: Place) -> u32
    ensures cost { result ≡ one_cost_of op place }
    ensures least { 1 ≤ result }
    ensures most { result ≤ 5 }
{
    match op {
        Op1::Push => push_cost(place),
        Op1::Call => push_cost(place) + 1,
        Op1::Rrc | Op1::Swpb | Op1::Rra | Op1::Sxt => change_cost(place),
    }
}

/// What RRC, RRA, SWPB and SXT cost by themselves.
#[tactic(auto, unfolding(crate::specs::Cycles::change_cost))]
fn change_cost(place: Place) -> u32
    ensures cost { result ≡ change_cost_of place }
    ensures least { 1 ≤ result }
    ensures most { result ≤ 4 }
{
    match place {
        Place::Reg(_) => 1,
        Place::At(_) | Place::AtPlus(_) => 3,
        _ => 4,
    }
}

/// What PUSH costs by itself.
#[tactic(auto, unfolding(crate::specs::Cycles::push_cost))]
fn push_cost(place: Place) -> u32
    ensures cost { result ≡ push_cost_of place }
    ensures least { 3 ≤ result }
    ensures most { result ≤ 4 }
{
    match place {
        Place::Near(..) | Place::Far(..) | Place::Absolute(_) => 4,
        _ => 3,
    }
}

/// How many times the operand is read from memory and written there.
#[tactic(auto, unfolding(crate::specs::Cycles::one_accesses))]
fn one_accesses(op: Op1, place: Place) -> u32
    ensures count { result ≡ one_accesses_of op place }
    ensures most { result ≤ 2 }
{
    let stored = place.is_memory() as u32;
    match op {
        Op1::Push | Op1::Call => stored,
        Op1::Rrc | Op1::Swpb | Op1::Rra | Op1::Sxt => 2 * stored,
    }
}

/// Says whether an operation is repeated behind an extension word.
#[tactic(auto, unfolding(crate::specs::Cycles::is_repeatable))]
fn is_repeatable(op: Op1) -> bool
    ensures { result ≡ is_repeatable_of op }
{
    !matches!(op, Op1::Push)
}

/// What an extension word adds: with 20 bits one more for each access to an operand in memory.
#[tactic(auto, unfolding(crate::specs::Cycles::extension_cost))]
fn extension_cost(long: bool, size: Size, accesses: u32) -> u32
    requires { accesses ≤ 3 }
    ensures cost { result ≡ extension_cost_of long size accesses }
    ensures most { result ≤ 1 + accesses }
{
    match size {
        _ if !long => 0,
        Size::Addr => 1 + accesses,
        Size::Byte | Size::Word => 1,
    }
}

/// What repeats add: each after the first.
#[tactic(auto, unfolding(crate::specs::Cycles::repeat_cost))]
fn repeat_cost(repeated: bool, reps: u32) -> u32
    requires low { 1 ≤ reps }
    requires high { reps ≤ 16 }
    ensures cost { result ≡ repeat_cost_of repeated reps }
    ensures most { result < 16 }
{
    if repeated { reps - 1 } else { 0 }
}
