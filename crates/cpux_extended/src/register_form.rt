ghost use Rattle.std.specs.Prelude.{◌≡◌, ◌<◌, ◌≤◌};
ghost use Rattle.cpux_alu.specs.Operations.{GivesResult};
ghost use Rattle.cpux_decode.specs.Ranges.{IsCount, IsPlace};
ghost use Rattle.cpux_extended.specs.RegisterForm.{count_of, one_once, one_repeated, one_takes_carry as one_takes_carry_of, register_source, status_in, takes_carry as takes_carry_of, two_once, two_repeated};

use chip_words::{Regs, Size};
use cpux_alu::{one, two};
use cpux_decode::{Count, Op1, Op2, Place, Rep, SR};
use cpux_execute::{flag, register, width};

/// How many times an operation is done, 1 to 16. PC in the registers is the next address.
#[tactic(auto, unfolding(crate::specs::RegisterForm::count_of))]
pub fn count(count: Count, regs: &Regs) -> u8
    requires { IsCount count }
    ensures value { result ≡ count_of count regs.now }
    ensures least { 1 ≤ result }
    ensures most { result ≤ 16 }
{
    match count {
        Count::Fixed(n) => n,
        Count::InReg(r) => (regs.get(r) & 0xF) as u8 + 1,
    }
}

/// Says whether the carry of SR goes into an operation of two operands.
#[tactic(auto, unfolding(crate::specs::RegisterForm::takes_carry))]
fn takes_carry(op: Op2) -> bool
    ensures { result ≡ takes_carry_of op }
{
    matches!(op, Op2::Addc | Op2::Subc | Op2::Dadd)
}

/// Says whether the carry of SR goes into an operation of one operand.
#[tactic(auto, unfolding(crate::specs::RegisterForm::one_takes_carry))]
fn one_takes_carry(op: Op1) -> bool
    ensures { result ≡ one_takes_carry_of op }
{
    matches!(op, Op1::Rrc)
}

/// SR as it goes into an operation.
fn status(regs: &Regs, without_carry: bool) -> u16
    ensures { result ≡ status_in without_carry regs.now }
{
    let sr = regs.get(SR) as u16;
    if without_carry { sr & !1 } else { sr }
}

/// The value of a source, where PC stands at `pc`.
#[tactic(auto, unfolding(crate::specs::RegisterForm::register_source))]
fn source(regs: &Regs, pc: u32, from: Place) -> u32
    requires from { IsPlace from }
    requires pc { pc < 0x100000 }
    ensures { result ≡ register_source regs.now pc from }
{
    match from {
        Place::Reg(r) => register(regs, pc, r),
        _ => 0,
    }
}

/// Does an operation of two registers once.
#[tactic(auto, unfolding(crate::specs::RegisterForm::two_once))]
fn do_two_once(regs: &mut Regs, pc: u32, op: Op2, size: Size, from: Place, to: u8, zero_carry: bool)
    requires from { IsPlace from }
    requires to { to < 16 }
    requires pc { pc < 0x100000 }
    ensures { regs.new ≡ two_once op size from to zero_carry pc regs.old }
{
    let source = source(regs, pc, from);
    let sr = status(regs, zero_carry && takes_carry(op));
    let (value, after) = two(op, size, source, regs.get(to), sr);
    if op.writes_destination() {
        regs.set(to, value);
    }
    flag(regs, op.writes_destination(), Place::Reg(to), after);
}

/// Does an operation of one register once.
#[tactic(auto, unfolding(crate::specs::RegisterForm::one_once))]
fn do_one_once(regs: &mut Regs, op: Op1, size: Size, r: u8, zero_carry: bool)
    requires operation { GivesResult op }
    requires register { r < 16 }
    ensures { regs.new ≡ one_once op size r zero_carry regs.old }
{
    let sr = status(regs, zero_carry && one_takes_carry(op));
    let (value, after) = one(op, width(op, size, Place::Reg(r)), regs.get(r), sr);
    regs.set(r, value);
    flag(regs, true, Place::Reg(r), after);
}

/// Does the register form of an operation of two operands. PC as a source stands at `pc`.
pub fn repeat_two(regs: &mut Regs, pc: u32, op: Op2, size: Size, from: Place, to: u8, rep: Rep)
    requires from { IsPlace from }
    requires to { to < 16 }
    requires pc { pc < 0x100000 }
    requires rep { IsCount rep.count }
    ensures { regs.new ≡ two_repeated op size from to rep pc regs.old }
{
    for _ in 0..count(rep.count, regs) {
        do_two_once(regs, pc, op, size, from, to, rep.zero_carry);
    }
}

/// Does the register form of RRC, SWPB, RRA or SXT.
pub fn repeat_one(regs: &mut Regs, op: Op1, size: Size, r: u8, rep: Rep)
    requires operation { GivesResult op }
    requires register { r < 16 }
    requires rep { IsCount rep.count }
    ensures { regs.new ≡ one_repeated op size r rep regs.old }
{
    for _ in 0..count(rep.count, regs) {
        do_one_once(regs, op, size, r, rep.zero_carry);
    }
}
