ghost use Rattle.std.specs.Prelude.{◌≡◌, ◌+◌, ◌*◌, ◌≤◌};
ghost use Rattle.cycle_table.specs.Cycles.{addr_cycles as addr_cycles_of, address_cost as address_cost_of, calla_cycles as calla_cycles_of, load_cost as load_cost_of, many_cycles as many_cycles_of, move_cycles as move_cycles_of};

use cpux_decode::{OpA, PC, Place, Size};

/// What a write of PC adds to an address instruction.
const PC_WRITE_COST: u32 = 2;

/// The cycles of MOVA.
#[tactic(auto, unfolding(crate::specs::Cycles::move_cycles))]
pub fn move_cycles(from: Place, to: Place) -> u32
    ensures cycles { result ≡ move_cycles_of from to }
    ensures least { 1 ≤ result }
    ensures most { result ≤ 6 }
{
    if to.is_memory() {
        4
    } else if to.is_pc() {
        load_cost(from) + PC_WRITE_COST
    } else {
        load_cost(from)
    }
}

/// What MOVA into a register costs by its source.
#[tactic(auto, unfolding(crate::specs::Cycles::load_cost))]
fn load_cost(from: Place) -> u32
    ensures cost { result ≡ load_cost_of from }
    ensures least { 1 ≤ result }
    ensures most { result ≤ 4 }
{
    match from {
        Place::At(_) | Place::AtPlus(_) => 3,
        Place::Near(..) | Place::Far(..) | Place::Absolute(_) => 4,
        Place::Reg(_) | Place::Const(_) | Place::Imm(_) => address_cost(from),
    }
}

/// What an address instruction costs with an immediate or a register.
#[tactic(auto, unfolding(crate::specs::Cycles::address_cost))]
fn address_cost(from: Place) -> u32
    ensures cost { result ≡ address_cost_of from }
    ensures least { 1 ≤ result }
    ensures most { result ≤ 2 }
{
    if matches!(from, Place::Imm(_)) { 2 } else { 1 }
}

/// The cycles of CMPA, ADDA and SUBA.
#[tactic(auto, unfolding(crate::specs::Cycles::addr_cycles))]
pub fn addr_cycles(op: OpA, from: Place, to: u8) -> u32
    ensures cycles { result ≡ addr_cycles_of op from to }
    ensures least { 1 ≤ result }
    ensures most { result ≤ 4 }
{
    match op {
        OpA::Add | OpA::Sub if to == PC => address_cost(from) + PC_WRITE_COST,
        _ => address_cost(from),
    }
}

/// The cycles of PUSHM and POPM.
#[tactic(auto, unfolding(crate::specs::Cycles::many_cycles))]
pub fn many_cycles(size: Size, count: u8) -> u32
    ensures cycles { result ≡ many_cycles_of size count }
    ensures least { 2 ≤ result }
    ensures most { result ≤ 2 + 2 * count }
{
    match size {
        Size::Addr => 2 + 2 * count as u32,
        Size::Byte | Size::Word => 2 + count as u32,
    }
}

/// The cycles of CALLA.
#[tactic(auto, unfolding(crate::specs::Cycles::calla_cycles))]
pub fn calla_cycles(to: Place) -> u32
    ensures cycles { result ≡ calla_cycles_of to }
    ensures least { 5 ≤ result }
    ensures most { result ≤ 6 }
{
    match to {
        Place::Reg(_) | Place::Imm(_) => 5,
        _ => 6,
    }
}
