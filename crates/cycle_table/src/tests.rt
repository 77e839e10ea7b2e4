//! Instructions whose cycles were added up by hand from the prose of the profile: the comments give the parts.

ghost use Rattle.cycle_table.specs.Cycles.{IsInstruction};

use super::*;
use cpux_decode::Place::{Absolute, At, AtPlus, Const, Far, Imm, Near, Reg};
use cpux_decode::Size::{Addr, Byte, Word};
use cpux_decode::{Count, Op1, Op2, OpA, OpS, Place, Rep, Size};
use std::process::Abort;

const ONCE: Rep = Rep {
    zero_carry: false,
    count: Count::Fixed(1),
};

fn two(op: Op2, from: Place, to: Place) -> Decoded
    ensures { IsInstruction result }
{
    Decoded::Two {
        op,
        size: Word,
        from,
        to,
        rep: ONCE,
        long: false,
    }
}

fn long_two(op: Op2, size: Size, from: Place, to: Place) -> Decoded
    ensures { IsInstruction result }
{
    Decoded::Two {
        op,
        size,
        from,
        to,
        rep: ONCE,
        long: true,
    }
}

fn one(op: Op1, place: Place) -> Decoded
    ensures { IsInstruction result }
{
    Decoded::One {
        op,
        size: Word,
        place,
        rep: ONCE,
        long: false,
    }
}

fn long_one(op: Op1, size: Size, place: Place) -> Decoded
    ensures { IsInstruction result }
{
    Decoded::One {
        op,
        size,
        place,
        rep: ONCE,
        long: true,
    }
}

fn mova(from: Place, to: Place) -> Decoded
    ensures { IsInstruction result }
{
    Decoded::Move { from, to }
}

fn addr(op: OpA, from: Place, to: u8) -> Decoded
    ensures { IsInstruction result }
{
    Decoded::Addr { op, from, to }
}

/// Compares the cycles of an instruction that is done once, without waits.
fn takes(rt: &impl Abort, d: Decoded, expected: u32)
    requires { IsInstruction d }
{
    assert_eq!(rt; cycles(&d, 1, 0), expected, "{d:?}");
}

#[test]
fn two_operands(rt: HostRuntime) {
    // a register 0, a register 1
    takes(&rt, two(Op2::Add, Reg(5), Reg(6)), 1);
    // an immediate 1, PC 3
    takes(&rt, two(Op2::Mov, Imm(0x4400), Reg(0)), 4);
    // CMP leaves PC: an immediate 1, a register 1
    takes(&rt, two(Op2::Cmp, Imm(0x4400), Reg(0)), 2);
    // an indexed source 2, memory 4
    takes(&rt, two(Op2::Xor, Near(5, 2), Absolute(0x202)), 6);
    // MOV only writes memory, which is 3, and BIT only reads it
    takes(&rt, two(Op2::Mov, AtPlus(5), Near(6, 0)), 4);
    takes(&rt, two(Op2::Bit, Const(8), Absolute(0x202)), 3);
}

#[test]
fn extension_words(rt: HostRuntime) {
    // two registers 1, the extension word 1, and four times is three more
    let repeated = long_two(Op2::Add, Addr, Reg(5), Reg(6));
    takes(&rt, repeated, 2);
    assert_eq!(rt; cycles(&repeated, 4, 0), 5);
    // PC 3, the extension word 1, and 15 more
    assert_eq!(rt;
        cycles(&long_two(Op2::Add, Word, Const(0), Reg(0)), 16, 0),
        19
    );
    // two indexed operands 6, the extension word 1, and 3 for two reads and a write of 20 bits
    takes(&rt, long_two(Op2::Add, Addr, Far(5, 0), Far(6, 0)), 10);
    // a word has no more than the extension word
    takes(&rt, long_two(Op2::Add, Word, Far(5, 0), Far(6, 0)), 7);
    // an immediate 1 is no operand in memory; memory 3, the extension word 1, and the write 1
    takes(
        &rt,
        long_two(Op2::Mov, Addr, Imm(0x12345), Absolute(0x1C00)),
        6,
    );
    // where a pointer points 1, memory 3, the extension word 1, and two reads
    takes(&rt, long_two(Op2::Cmp, Addr, At(5), Far(6, 0)), 7);
    // only a register form is repeated: a constant other than 0 is none
    assert_eq!(rt;
        cycles(&long_two(Op2::Add, Byte, Const(1), Reg(5)), 4, 0),
        2
    );
}

#[test]
fn one_operand(rt: HostRuntime) {
    takes(&rt, one(Op1::Rra, Reg(5)), 1);
    takes(&rt, one(Op1::Swpb, AtPlus(5)), 3);
    takes(&rt, one(Op1::Rrc, Absolute(0x1C00)), 4);
    takes(&rt, one(Op1::Push, Imm(5)), 3);
    takes(&rt, one(Op1::Push, Near(5, 2)), 4);
    takes(&rt, one(Op1::Call, Imm(0x4400)), 4);
    takes(&rt, one(Op1::Call, Absolute(0x4400)), 5);
    // a register 1, the extension word 1, and two more
    assert_eq!(rt; cycles(&long_one(Op1::Rrc, Addr, Reg(5)), 3, 0), 4);
    // an index 4, the extension word 1, and a read and a write of 20 bits
    takes(&rt, long_one(Op1::Rrc, Addr, Far(5, 0)), 7);
    // PUSH 3, the extension word 1, and the read; nothing for its own write
    takes(&rt, long_one(Op1::Push, Addr, At(5)), 5);
    // PUSH isn't repeated
    assert_eq!(rt; cycles(&long_one(Op1::Push, Addr, Reg(5)), 16, 0), 4);
}

#[test]
fn other_forms(rt: HostRuntime) {
    takes(&rt, Decoded::Reti, 5);
    takes(
        &rt,
        Decoded::Jump {
            cond: 7,
            offset: -1,
        },
        2,
    );
    // a load through a pointer 3, and PC 2 more
    takes(&rt, mova(AtPlus(1), Reg(0)), 5);
    takes(&rt, mova(Absolute(0x12345), Reg(5)), 4);
    takes(&rt, mova(Reg(5), Far(6, 2)), 4);
    takes(&rt, mova(Imm(0x12345), Reg(0)), 4);
    takes(&rt, addr(OpA::Sub, Reg(5), 0), 3);
    // CMPA leaves PC
    takes(&rt, addr(OpA::Cmp, Imm(0), 0), 2);
    takes(
        &rt,
        Decoded::Shift {
            op: OpS::Rla,
            size: Addr,
            count: 3,
            reg: 5,
        },
        3,
    );
    takes(
        &rt,
        Decoded::PushMany {
            size: Addr,
            count: 16,
            reg: 15,
        },
        34,
    );
    takes(
        &rt,
        Decoded::PopMany {
            size: Word,
            count: 4,
            reg: 4,
        },
        6,
    );
    takes(&rt, Decoded::CallA { to: Imm(0x12345) }, 5);
    takes(&rt, Decoded::CallA { to: At(5) }, 6);
    // waits come on top
    assert_eq!(rt; cycles(&two(Op2::Add, Reg(5), Reg(6)), 1, 1000), 1001);
}
