//! Instructions that were encoded by hand from the prose of the instruction set, field by field: the
//! comments give the fields. Words with an assembler line alone were read from the listing of a program.

use super::Place::{Absolute, At, AtPlus, Const, Far, Imm, Near, Reg};
use super::Size::{Addr, Byte, Word};
use super::*;

const ONCE: Rep = Rep {
    zero_carry: false,
    count: Count::Fixed(1),
};

fn two(op: Op2, size: Size, from: Place, to: Place) -> Decoded {
    Decoded::Two {
        op,
        size,
        from,
        to,
        rep: ONCE,
        long: false,
    }
}

fn long_two(op: Op2, size: Size, from: Place, to: Place, rep: Rep) -> Decoded {
    Decoded::Two {
        op,
        size,
        from,
        to,
        rep,
        long: true,
    }
}

fn one(op: Op1, size: Size, place: Place) -> Decoded {
    Decoded::One {
        op,
        size,
        place,
        rep: ONCE,
        long: false,
    }
}

fn long_one(op: Op1, size: Size, place: Place, rep: Rep) -> Decoded {
    Decoded::One {
        op,
        size,
        place,
        rep,
        long: true,
    }
}

fn mova(from: Place, to: Place) -> Decoded {
    Decoded::Move { from, to }
}

fn addr(op: OpA, from: Place, to: u8) -> Decoded {
    Decoded::Addr { op, from, to }
}

fn shift(op: OpS, size: Size, count: u8, reg: u8) -> Decoded {
    Decoded::Shift {
        op,
        size,
        count,
        reg,
    }
}

fn pushm(size: Size, count: u8, reg: u8) -> Decoded {
    Decoded::PushMany { size, count, reg }
}

fn popm(size: Size, count: u8, reg: u8) -> Decoded {
    Decoded::PopMany { size, count, reg }
}

fn calla(to: Place) -> Decoded {
    Decoded::CallA { to }
}

#[test]
fn decodes_listings(rt: HostRuntime) {
    let cases = [
        // JMP $
        (
            [0x3FFF, 0, 0, 0],
            Decoded::Jump {
                cond: 7,
                offset: -1,
            },
        ),
        // NOP, which is MOV #0, R3
        ([0x4303, 0, 0, 0], two(Op2::Mov, Word, Const(0), Reg(3))),
        // BIC #1, &0130h
        (
            [0xC392, 0x0130, 0, 0],
            two(Op2::Bic, Word, Const(1), Absolute(0x0130)),
        ),
        // MOV.B #-1, &0204h
        (
            [0x43F2, 0x0204, 0, 0],
            two(Op2::Mov, Byte, Const(0xFFFFF), Absolute(0x0204)),
        ),
        // MOV #5A80h, &015Ch
        (
            [0x40B2, 0x5A80, 0x015C, 0],
            two(Op2::Mov, Word, Imm(0x5A80), Absolute(0x015C)),
        ),
        // BR #440Eh, which is MOV #440Eh, PC
        (
            [0x4030, 0x440E, 0, 0],
            two(Op2::Mov, Word, Imm(0x440E), Reg(0)),
        ),
        // MOV.B R4, &0202h
        (
            [0x44C2, 0x0202, 0, 0],
            two(Op2::Mov, Byte, Reg(4), Absolute(0x0202)),
        ),
        // PUSHM.A #16, R15
        ([0x14FF, 0, 0, 0], pushm(Addr, 16, 15)),
    ];
    for (words, want) in cases {
        assert_eq!(rt; decode(words), want);
    }
}

#[test]
fn decodes_core_words(rt: HostRuntime) {
    let cases = [
        // JNE, condition 0, with the greatest distance, 1FFh
        (
            [0x21FF, 0, 0, 0],
            Decoded::Jump {
                cond: 0,
                offset: 511,
            },
        ),
        // JGE, condition 5, with the least distance, 200h
        (
            [0x3600, 0, 0, 0],
            Decoded::Jump {
                cond: 5,
                offset: -512,
            },
        ),
        // operation 4, source R2, As 10: the constant 4
        ([0x4226, 0, 0, 0], two(Op2::Mov, Word, Const(4), Reg(6))),
        // operation 8, source R2, B/W 1, As 11: the constant 8
        ([0x8276, 0, 0, 0], two(Op2::Sub, Byte, Const(8), Reg(6))),
        // operation 7, source R3, As 10: the constant 2
        ([0x7326, 0, 0, 0], two(Op2::Subc, Word, Const(2), Reg(6))),
        // operation F, source R7, As 11; Ad 1 on R3, with the index in the second word
        (
            [0xF7B3, 0x0010, 0, 0],
            two(Op2::And, Word, AtPlus(7), Near(3, 0x0010)),
        ),
        // operation 9, source R0, As 01, with the index first; Ad 1 on R2, with the address behind it
        (
            [0x9092, 0xFFF0, 0x8000, 0],
            two(Op2::Cmp, Word, Near(0, 0xFFF0), Absolute(0x8000)),
        ),
        // operation 5 of one operand, CALL, on an immediate
        ([0x12B0, 0x4400, 0, 0], one(Op1::Call, Word, Imm(0x4400))),
        // operation 4, PUSH, B/W 1, As 01 on R2
        (
            [0x1252, 0x0200, 0, 0],
            one(Op1::Push, Byte, Absolute(0x0200)),
        ),
        // operation 0, RRC, As 00 on R2, the status register
        ([0x1002, 0, 0, 0], one(Op1::Rrc, Word, Reg(2))),
        ([0x1300, 0, 0, 0], Decoded::Reti),
    ];
    for (words, want) in cases {
        assert_eq!(rt; decode(words), want);
    }
}

#[test]
fn decodes_extended_words(rt: HostRuntime) {
    let cases = [
        // ADDX.A R5, R6: A/L 0 and B/W 1
        (
            [0x1800, 0x5546, 0, 0],
            long_two(Op2::Add, Addr, Reg(5), Reg(6), ONCE),
        ),
        // MOVX.A #51234h, 3ABCDh(R6): 5 in bits 10:7 and 3 in 3:0; source R0, Ad 1, B/W 1, As 11
        (
            [0x1A83, 0x40F6, 0x1234, 0xABCD],
            long_two(Op2::Mov, Addr, Imm(0x51234), Far(6, 0x3ABCD), ONCE),
        ),
        // ADDX.W &2FFFEh, &F0000h: 2 in bits 10:7, A/L 1, F in 3:0; source R2, Ad 1, B/W 0, As 01
        (
            [0x194F, 0x5292, 0xFFFE, 0x0000],
            long_two(Op2::Add, Word, Absolute(0x2FFFE), Absolute(0xF0000), ONCE),
        ),
        // BICX.B 3FF01h(R4), R7: 3 in bits 10:7, which are no repeat where As is 01; A/L 1, B/W 1
        (
            [0x19C5, 0xC457, 0xFF01, 0],
            long_two(Op2::Bic, Byte, Far(4, 0x3FF01), Reg(7), ONCE),
        ),
        // DADDX.B #0, R7, 16 times: A/L 1, F in bits 3:0; source R3, B/W 1, As 00
        (
            [0x184F, 0xA347, 0, 0],
            long_two(
                Op2::Dadd,
                Byte,
                Const(0),
                Reg(7),
                Rep {
                    zero_carry: false,
                    count: Count::Fixed(16),
                },
            ),
        ),
        // RRCX.W R5, by R10, the carry taken as 0: bit 8, bit 7, A/L 1, A in bits 3:0
        (
            [0x19CA, 0x1005, 0, 0],
            long_one(
                Op1::Rrc,
                Word,
                Reg(5),
                Rep {
                    zero_carry: true,
                    count: Count::InReg(10),
                },
            ),
        ),
        // PUSHX.A R8 behind the same bits, which it ignores: A/L 0, B/W 1
        (
            [0x198A, 0x1248, 0, 0],
            long_one(Op1::Push, Addr, Reg(8), ONCE),
        ),
        // PUSHX.A 7FFFFh(R9): one operand has its bits 19:16 in 3:0
        (
            [0x1807, 0x1259, 0xFFFF, 0],
            long_one(Op1::Push, Addr, Far(9, 0x7FFFF), ONCE),
        ),
        // SXTX.W R5: A/L 1 and B/W 0, its one width
        (
            [0x1840, 0x1185, 0, 0],
            long_one(Op1::Sxt, Word, Reg(5), ONCE),
        ),
    ];
    for (words, want) in cases {
        assert_eq!(rt; decode(words), want);
    }
}

#[test]
fn decodes_address_words(rt: HostRuntime) {
    let cases = [
        // MOVA by bits 7:4, the source field in 11:8 and the destination field in 3:0
        ([0x0302, 0, 0, 0], mova(At(3), Reg(2))),
        ([0x0512, 0, 0, 0], mova(AtPlus(5), Reg(2))),
        ([0x0A2B, 0x0004, 0, 0], mova(Absolute(0xA0004), Reg(11))),
        // an index of -8000h and one of 7FFFh, at 20 bits
        ([0x0431, 0x8000, 0, 0], mova(Far(4, 0xF8000), Reg(1))),
        ([0x0278, 0x7FFF, 0, 0], mova(Reg(2), Far(8, 0x7FFF))),
        ([0x0C6D, 0xFFFF, 0, 0], mova(Reg(12), Absolute(0xDFFFF))),
        ([0x0F83, 0x0001, 0, 0], mova(Imm(0xF0001), Reg(3))),
        ([0x03C0, 0, 0, 0], mova(Reg(3), Reg(0))),
        // CMPA, ADDA and SUBA
        ([0x0392, 0x0000, 0, 0], addr(OpA::Cmp, Imm(0x30000), 2)),
        ([0x03E4, 0, 0, 0], addr(OpA::Add, Reg(3), 4)),
        ([0x0DFB, 0, 0, 0], addr(OpA::Sub, Reg(13), 11)),
        // the count less one in bits 11:10, the operation in 9:8: RRCM.W #3, R4; RLAM.A #1, R6; RRUM.A #4, R15
        ([0x0854, 0, 0, 0], shift(OpS::Rrc, Word, 3, 4)),
        ([0x0246, 0, 0, 0], shift(OpS::Rla, Addr, 1, 6)),
        ([0x0F4F, 0, 0, 0], shift(OpS::Rru, Addr, 4, 15)),
        // PUSHM.W #1, R2; POPM.A #2, from R9 on; POPM.W #16, from R0 on
        ([0x1502, 0, 0, 0], pushm(Word, 1, 2)),
        ([0x1619, 0, 0, 0], popm(Addr, 2, 9)),
        ([0x17F0, 0, 0, 0], popm(Word, 16, 0)),
        // CALLA, the register or bits 19:16 in 3:0
        ([0x1343, 0, 0, 0], calla(Reg(3))),
        ([0x1353, 0xFFFE, 0, 0], calla(Far(3, 0xFFFFE))),
        ([0x1367, 0, 0, 0], calla(At(7))),
        ([0x1372, 0, 0, 0], calla(AtPlus(2))),
        ([0x138A, 0x1234, 0, 0], calla(Absolute(0xA1234))),
        ([0x139F, 0xFFFE, 0, 0], calla(Far(0, 0xFFFFE))),
        ([0x13B1, 0x2345, 0, 0], calla(Imm(0x12345))),
    ];
    for (words, want) in cases {
        assert_eq!(rt; decode(words), want);
    }
}

#[test]
fn reserves_words(rt: HostRuntime) {
    let cases = [
        // beside RETI and CALLA
        (0x1301, 0),
        (0x133F, 0),
        (0x13A0, 0),
        (0x13C0, 0),
        (0x13FF, 0),
        // SWPB, SXT and CALL with B/W set
        (0x10C5, 0),
        (0x11C5, 0),
        (0x12C5, 0),
        // RRC on an immediate, RRA on R2 with As 10, SWPB on R3 with As 00, SXT on R3 with As 11
        (0x1030, 0),
        (0x1122, 0),
        (0x1083, 0),
        (0x11B3, 0),
        // an extension word before an address instruction, CALL, RETI, PUSHM, an extension word and a jump
        (0x1840, 0x00C5),
        (0x1840, 0x1285),
        (0x1840, 0x1300),
        (0x1840, 0x1405),
        (0x1840, 0x1840),
        (0x1840, 0x3FFF),
        // before RRC on R3, which is reserved alone
        (0x1840, 0x1003),
        // A/L 0 and B/W 0, on one operand and on two
        (0x1800, 0x1105),
        (0x1800, 0x4506),
        // SWPB and SXT with another width than A/L 1 and B/W 0
        (0x1800, 0x1085),
        (0x1800, 0x10C5),
        (0x1840, 0x11C5),
    ];
    for (w0, w1) in cases {
        let extended = if w1 == 0 { 1 } else { 2 };
        assert_eq!(rt; decode([w0, w1, 0, 0]), Decoded::Reserved, "{w0:x} {w1:x}");
        assert_eq!(rt; length(w0, w1), extended, "{w0:x} {w1:x}");
    }
}

#[test]
fn counts_words(rt: HostRuntime) {
    let cases = [
        // a jump; MOV R3, R3; the constants 1 and -1 take no word
        (0x3FFF, 0, 1),
        (0x4303, 0, 1),
        (0x4316, 0, 1),
        (0x4336, 0, 1),
        // an immediate; an immediate to an absolute address; indexed to indexed
        (0x4031, 0, 2),
        (0x40B2, 0, 3),
        (0x4596, 0, 3),
        // PUSH of an absolute address; CALL of a register
        (0x1252, 0, 2),
        (0x1285, 0, 1),
        // ADDX on registers; PUSHX indexed; MOVX of an immediate to an indexed place
        (0x1800, 0x5546, 2),
        (0x1807, 0x1259, 3),
        (0x1A83, 0x40F6, 4),
        // MOVA of a register; MOVA of an immediate; RRCM; POPM; CALLA of an immediate; RETI
        (0x03C0, 0, 1),
        (0x0F83, 0, 2),
        (0x0854, 0, 1),
        (0x17F0, 0, 1),
        (0x13B1, 0, 2),
        (0x1300, 0, 1),
    ];
    for (w0, w1, want) in cases {
        assert_eq!(rt; length(w0, w1), want, "{w0:x} {w1:x}");
    }
}
