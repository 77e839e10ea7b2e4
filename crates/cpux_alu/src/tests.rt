//! Cases that were worked by hand from the prose of the instruction set, at the edges of each width: the comments say how.

use super::Size::{Addr, Byte, Word};
use super::*;

/// The flags, named as in the family guide.
const C: u16 = 0x001;

const Z: u16 = 0x002;

const N: u16 = 0x004;

const V: u16 = 0x100;
/// All bits of the status register that are no flags.
const OTHERS: u16 = 0x0F8;

/// An operation of two operands: source, destination and status, and then result and status.
type TwoCase = (Op2, Size, u32, u32, u16, u32, u16);

#[test]
fn sums(rt: HostRuntime) {
    let cases: [TwoCase; 11] = [
        // FFFFF is -1: -1 + 1 is 0, and 100000 doesn't fit in 20 bits
        (Op2::Add, Addr, 0xFFFFF, 1, 0, 0, C | Z),
        // 127 + 1 is 128, which a byte can't say
        (Op2::Add, Byte, 1, 0x7F, 0, 0x80, N | V),
        // -128 - 128 is -256, and 80 + 80 is 100
        (Op2::Add, Byte, 0x80, 0x80, 0, 0, C | Z | V),
        // -32768 - 1 is below the range, and 8000 + FFFF is 17FFF
        (Op2::Add, Word, 0x8000, 0xFFFF, 0, 0x7FFF, C | V),
        // 524287 + 1 is 524288, one more than 20 bits can say
        (Op2::Add, Addr, 1, 0x7FFFF, 0, 0x80000, N | V),
        // only the lower eight bits count, and the bits that are no flags stay
        (Op2::Add, Byte, 0x1201, 0x3401, C | V | OTHERS, 2, OTHERS),
        // 0 + 127 + 1 is 128: the carry makes the overflow
        (Op2::Addc, Byte, 0x7F, 0, C, 0x80, N | V),
        // -128 - 1 + 1 is -128, which is in range, and 80 + FF + 1 is 180
        (Op2::Addc, Byte, 0x80, 0xFF, C, 0x80, C | N),
        // -1 + 0 + 1 is 0
        (Op2::Addc, Word, 0xFFFF, 0, C, 0, C | Z),
        // without a carry it is ADD
        (Op2::Addc, Addr, 0x7FFFF, 0, V, 0x7FFFF, 0),
        // 0 + 524287 + 1
        (Op2::Addc, Addr, 0x7FFFF, 0, C, 0x80000, N | V),
    ];
    for (op, size, src, dst, sr, value, status) in cases {
        assert_eq!(rt;
            two(op, size, src, dst, sr),
            (value, status),
            "{op:?} {src:X}, {dst:X}"
        );
    }
}

#[test]
fn differences(rt: HostRuntime) {
    let cases: [TwoCase; 9] = [
        // 0 - 1 borrows, so the carry is 0: 0 + FE + 1 is FF
        (Op2::Sub, Byte, 1, 0, 0, 0xFF, N),
        // -128 - 1 is below the range, and 80 + FE + 1 is 17F
        (Op2::Sub, Byte, 1, 0x80, 0, 0x7F, C | V),
        // 0 - -32768 is 32768, above the range, and 0 + 7FFF + 1 is 8000
        (Op2::Sub, Word, 0x8000, 0, 0, 0x8000, N | V),
        // equal numbers: the sum with the complement and 1 is 100000
        (Op2::Cmp, Addr, 0x12345, 0x12345, 0, 0, C | Z),
        // 1 - 2 is -1
        (Op2::Cmp, Word, 2, 1, C | V, 0xFFFF, N),
        // 0 - 0 and a borrow is -1: 0 + FF is FF
        (Op2::Subc, Byte, 0, 0, 0, 0xFF, N),
        // -32767 - 1 is -32768, in range, and 8001 + FFFE + 1 is 18000
        (Op2::Subc, Word, 1, 0x8001, C, 0x8000, C | N),
        // -32767 - 1 and a borrow is -32769, and 8001 + FFFE is 17FFF
        (Op2::Subc, Word, 1, 0x8001, 0, 0x7FFF, C | V),
        // 524287 - -1 is 524288, and 7FFFF + 0 + 1 is 80000
        (Op2::Sub, Addr, 0xFFFFF, 0x7FFFF, 0, 0x80000, N | V),
    ];
    for (op, size, src, dst, sr, value, status) in cases {
        assert_eq!(rt;
            two(op, size, src, dst, sr),
            (value, status),
            "{op:?} {src:X}, {dst:X}"
        );
    }
}

#[test]
fn decimal_sums(rt: HostRuntime) {
    let cases: [TwoCase; 7] = [
        // 999 + 1 is 1000
        (Op2::Dadd, Word, 0x0999, 1, 0, 0x1000, 0),
        (Op2::Dadd, Word, 0x0999, 1, V, 0x1000, 0),
        // 99 + 1 is 100
        (Op2::Dadd, Byte, 0x99, 1, 0, 0, C | Z),
        // 45 + 45 + 1 is 91, and bit 7 of 91 is set
        (Op2::Dadd, Byte, 0x45, 0x45, C, 0x91, N),
        // 9999 + 9999 + 1 is 19999
        (Op2::Dadd, Word, 0x9999, 0x9999, C, 0x9999, C | N),
        // 49999 + 30001 is 80000, and bit 19 of 80000 is set
        (Op2::Dadd, Addr, 0x49999, 0x30001, 0, 0x80000, N),
        // F and F are no ten digits: 30 gives (30 + 6) mod 16, which is 4, and a carry
        (Op2::Dadd, Byte, 0x0F, 0x0F, 0, 0x14, 0),
    ];
    for (op, size, src, dst, sr, value, status) in cases {
        assert_eq!(rt;
            two(op, size, src, dst, sr),
            (value, status),
            "{op:?} {src:X}, {dst:X}"
        );
    }
}

#[test]
fn logical_operations(rt: HostRuntime) {
    let cases: [TwoCase; 10] = [
        // no flag changes, and a byte is taken from the lower eight bits
        (
            Op2::Mov,
            Byte,
            0x1234,
            0,
            C | Z | V | OTHERS,
            0x34,
            C | Z | V | OTHERS,
        ),
        // a status register keeps all its bits, those that the chip hasn't too
        (Op2::Mov, Addr, 0xFFFF_FFFF, 0, 0xFFFF, 0xFFFFF, 0xFFFF),
        // FFFF without 00FF
        (Op2::Bic, Word, 0x00FF, 0xFFFF, C | Z, 0xFF00, C | Z),
        (Op2::Bis, Addr, 0x80000, 1, V, 0x80001, V),
        // F0F0 and 0F0F have no bit in common
        (Op2::And, Word, 0xF0F0, 0x0F0F, 0, 0, Z),
        // 80 and FF is 80
        (Op2::And, Byte, 0x80, 0xFF, Z | V, 0x80, C | N),
        (Op2::Bit, Word, 0x00FF, 0xFF00, C | N | V, 0, Z),
        // both are negative
        (Op2::Xor, Byte, 0x80, 0xFF, 0, 0x7F, C | V),
        (Op2::Xor, Addr, 0x80000, 0x80000, 0, 0, Z | V),
        // one is negative
        (Op2::Xor, Word, 0x7FFF, 0x8000, V, 0xFFFF, C | N),
    ];
    for (op, size, src, dst, sr, value, status) in cases {
        assert_eq!(rt;
            two(op, size, src, dst, sr),
            (value, status),
            "{op:?} {src:X}, {dst:X}"
        );
    }
}

#[test]
fn operations_of_one_operand(rt: HostRuntime) {
    // operation, width, operand and status, and then result and status
    let cases: [(Op1, Size, u32, u16, u32, u16); 11] = [
        // the carry enters at bit 7, and bit 0 becomes the carry
        (Op1::Rrc, Byte, 0x01, C | V, 0x80, C | N),
        (Op1::Rrc, Word, 0x0001, 0, 0, C | Z),
        (Op1::Rrc, Addr, 0x00002, C, 0x80001, N),
        // bit 7 stays
        (Op1::Rra, Byte, 0x81, 0, 0xC0, C | N),
        (Op1::Rra, Addr, 0x80000, C | V, 0xC0000, N),
        (Op1::Swpb, Word, 0x1234, C | Z | V, 0x3412, C | Z | V),
        // the bytes of the lower 16 bits, and nothing above them
        (Op1::Swpb, Addr, 0xF1234, N, 0x3412, N),
        // bit 7 of 80 is set
        (Op1::Sxt, Word, 0x0080, V, 0xFF80, C | N),
        (Op1::Sxt, Addr, 0x00180, 0, 0xFFF80, C | N),
        // bit 7 of 7F isn't
        (Op1::Sxt, Addr, 0xFF07F, 0, 0x0007F, C),
        (Op1::Sxt, Word, 0xFF00, C, 0, Z),
    ];
    for (op, size, x, sr, value, status) in cases {
        assert!(rt; !matches!(op, Op1::Push | Op1::Call), "no result");
        assert_eq!(rt; one(op, size, x, sr), (value, status), "{op:?} {x:X}");
    }
}

#[test]
fn shifts_by_several_places(rt: HostRuntime) {
    // operation, width, count, operand and status, and then result and status
    let cases: [(OpS, Size, u8, u32, u16, u32, u16); 6] = [
        // 18000, 30000, 60000, C0000, and then 80000 with the bit of C0000 out
        (OpS::Rla, Addr, 4, 0x18000, 0, 0x80000, C | N),
        (OpS::Rla, Word, 1, 0x8000, V, 0, C | Z),
        // the carry enters and 1 goes out, and then this 1 enters and 0 goes out
        (OpS::Rrc, Word, 2, 0x0001, C, 0xC000, N),
        // the highest bit four more times, and bit 3 goes out last
        (OpS::Rra, Addr, 4, 0x80008, 0, 0xF8000, C | N),
        // 8007 is 1000 times 8 and 7, and bit 2 goes out last
        (OpS::Rru, Word, 3, 0x8007, C, 0x1000, C),
        (OpS::Rru, Addr, 4, 0x0000F, 0, 0, C | Z),
    ];
    for (op, size, count, x, sr, value, status) in cases {
        assert!(rt; count > 0, "no place");
        assert_eq!(rt;
            shift_many(op, size, count, x, sr),
            (value, status),
            "{op:?} {x:X}"
        );
    }
}

#[test]
fn addresses(rt: HostRuntime) {
    // -524288 - 524288 is below the range
    assert_eq!(rt; addr(OpA::Add, 0x80000, 0x80000, 0), (0, C | Z | V));
    assert_eq!(rt; addr(OpA::Sub, 1, 0, V), (0xFFFFF, N));
    // 524287 - -524288 is above the range
    assert_eq!(rt; addr(OpA::Cmp, 0x80000, 0x7FFFF, 0), (0xFFFFF, N | V));

    // from the lower 64 KB the sum stays there
    assert_eq!(rt; near(0xFFFE, 4), 0x00002);
    assert_eq!(rt; near(0x0002, 0xFFFE), 0x00000);
    // from above them the index is signed
    assert_eq!(rt; near(0x10000, 4), 0x10004);
    assert_eq!(rt; near(0x10000, 0xFFFF), 0x0FFFF);
    assert_eq!(rt; near(0xFFFFF, 1), 0x00000);
}
