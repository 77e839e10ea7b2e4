use crate::{MpuSegments, Noted};
use chip_words::{Kind, MPUCTL0, MPUCTL1, MPUSAM, MPUSEGB1, MPUSEGB2, Right, Segment, Size};

/// The unit with the flags of segments 1 and 3, the borders 06000h and 08000h, and a lower byte of MPUCTL0;
/// the byte behind it opens the latch or closes it.
fn set_up(control: u8, latch: u8) -> MpuSegments {
    let mut mpu = MpuSegments::new();
    mpu.write(MPUCTL0, Size::Word, 0xA500);
    mpu.write(MPUSEGB1, Size::Word, 0x063F);
    mpu.write(MPUSEGB2, Size::Word, 0x083F);
    mpu.note(Segment::One, false);
    mpu.note(Segment::Three, false);
    mpu.write(MPUCTL0, Size::Byte, u32::from(control));
    mpu.write(MPUCTL0 + 1, Size::Byte, u32::from(latch));
    mpu
}

#[test]
fn the_password_opens_and_a_byte_closes(rt: HostRuntime) {
    // A write, the cause that it answers, and whether a unit that was closed or open is open then. LOCK is set.
    for (at, size, value, cause, closed, open) in [
        (MPUCTL0, Size::Word, 0xA5FF_u32, None, true, true),
        (MPUCTL0 + 1, Size::Byte, 0xA5, None, true, true),
        (MPUCTL0 + 1, Size::Byte, 0x96, None, false, false),
        (MPUCTL0, Size::Byte, 0xA5, None, false, true),
        (MPUCTL0, Size::Word, 0x9601, Some(0x22), false, true),
        (MPUCTL1, Size::Word, 0xA501, None, false, true),
    ] {
        let mut mpu = set_up(3, 0xA5);
        assert_eq!(rt; mpu.write(at, size, value), cause);
        assert_eq!(rt; mpu.is_open(), open);
        mpu.reset(false);
        assert_eq!(rt; mpu.write(at, size, value), cause);
        assert_eq!(rt; mpu.is_open(), closed);
        assert_eq!(rt; mpu.read(MPUCTL0, Size::Word), 0x9603);
    }
}

#[test]
fn writes_need_the_latch_and_no_lock(rt: HostRuntime) {
    // A byte, and the word of its register behind it: in a unit that is open, closed, or open with LOCK set.
    for (at, value, open, closed, locked) in [
        (MPUCTL0, 0xFF_u8, 0x9613_u32, 0x9601_u32, 0x9603_u32),
        (MPUCTL1, 0x01, 1, 5, 1),
        (MPUCTL1 + 1, 0, 5, 5, 5),
        (MPUSEGB2 + 1, 0xFF, 0xFF00, 0x0800, 0x0800),
        (MPUSEGB1, 0x7F, 0x0640, 0x0600, 0x0600),
        (MPUSAM + 1, 0, 0x0077, 0x7777, 0x7777),
    ] {
        for (control, latch, reads) in [(1, 0xA5, open), (1, 0x96, closed), (3, 0xA5, locked)] {
            let mut mpu = set_up(control, latch);
            assert_eq!(rt; mpu.write(at, Size::Byte, u32::from(value)), None);
            assert_eq!(rt; mpu.read(at - at % 2, Size::Word), reads);
        }
    }
}

#[test]
fn a_bor_alone_resets_the_registers(rt: HostRuntime) {
    for (at, kept, first) in [
        (0x05A0_u32, 0x9603_u32, 0x9600_u32),
        (0x05A2, 5, 0),
        (0x05A4, 0x0800, 0),
        (0x05A6, 0x0600, 0),
        (0x05A8, 0x7777, 0x7777),
    ] {
        let mut mpu = set_up(3, 0xA5);
        mpu.reset(false);
        assert_eq!(rt; mpu.read(at, Size::Word), kept);
        mpu.reset(true);
        assert_eq!(rt; mpu.read(at, Size::Word), first);
    }
}

#[test]
fn addresses_are_judged_by_their_segment(rt: HostRuntime) {
    // The borders, first and second, an address, and its segment, where it is of FRAM.
    for (first, second, at, segment) in [
        (0x0600_u16, 0x0800_u16, 0x04400_u32, Some(Segment::One)),
        (0x0600, 0x0800, 0x06000, Some(Segment::Two)),
        (0x0600, 0x0800, 0x08000, Some(Segment::Three)),
        (0x0800, 0x0600, 0x05FFF, Some(Segment::One)),
        (0x0800, 0x0600, 0x06000, Some(Segment::Three)),
        (0, 0, 0x01800, Some(Segment::Info)),
        (0, 0, 0x01A00, None),
        (0, 0, 0x14000, None),
    ] {
        let mut mpu = MpuSegments::new();
        mpu.write(MPUCTL0, Size::Word, 0xA500);
        mpu.write(MPUSEGB1, Size::Word, u32::from(first));
        mpu.write(MPUSEGB2, Size::Word, u32::from(second));
        assert!(rt; at < 0x100000);
        let judged = segment.map_or(Right::Yes, Right::No);
        // MPUCTL0, MPUSAM, the kind that its bits are of, and whether each segment has the right.
        for (control, rights, kind, gives) in [
            (0xA500_u32, 0xEEEE_u32, Kind::Read, true),
            (0xA501, 0xEEEE, Kind::Read, false),
            (0xA501, 0x1111, Kind::Read, true),
            (0xA501, 0xDDDD, Kind::Write, false),
            (0xA501, 0x2222, Kind::Write, true),
            (0xA501, 0xBBBB, Kind::Fetch, false),
            (0xA501, 0x4444, Kind::Fetch, true),
        ] {
            mpu.write(MPUSAM, Size::Word, rights);
            mpu.write(MPUCTL0, Size::Word, control);
            let right = if gives { Right::Yes } else { judged };
            assert_eq!(rt; mpu.right(kind, at), right);
        }
    }
}

#[test]
fn a_violation_is_noted_and_told(rt: HostRuntime) {
    // A place, its flag, its number, the bits of MPUSAM other than its VS, and its cause.
    for (place, flag, number, others, cause) in [
        (Segment::One, 0x01_u32, 0x0C_u32, 0xFFF7_u32, 0x2A_u8),
        (Segment::Two, 0x02, 0x0E, 0xFF7F, 0x2C),
        (Segment::Three, 0x04, 0x10, 0xF7FF, 0x2E),
        (Segment::Info, 0x08, 0x0A, 0x7FFF, 0x28),
        (Segment::Sealed, 0x10, 0x08, 0xFFFF, 0x26),
    ] {
        let is_sealed = place == Segment::Sealed;
        for (control, nothing) in [(0xA501_u32, Noted::Nothing), (0xA511, Noted::Nmi)] {
            let mut mpu = MpuSegments::new();
            mpu.write(MPUCTL0, Size::Word, control);
            mpu.write(MPUSAM, Size::Word, others);
            assert_eq!(rt; mpu.note(place, !is_sealed), nothing);
            mpu.write(MPUSAM, Size::Word, 0xFFFF - others);
            assert_eq!(rt; mpu.note(place, is_sealed), Noted::Reset(cause));
            assert_eq!(rt; mpu.read(MPUCTL1, Size::Word), flag);
            assert_eq!(rt; mpu.read(0x019C, Size::Word), number);
            assert_eq!(rt; mpu.read(MPUCTL1, Size::Word), 0);
        }
    }
}

#[test]
fn syssniv_tells_the_area_first(rt: HostRuntime) {
    let mut mpu = set_up(3, 0x96);
    for place in [Segment::Two, Segment::Info, Segment::Sealed] {
        mpu.note(place, false);
    }
    assert_eq!(rt; mpu.read(0x019C, Size::Word), 0x08);
    assert_eq!(rt; mpu.read(0x019D, Size::Byte), 0);
    assert_eq!(rt; mpu.read(0x019C, Size::Byte), 0x0C);
    assert_eq!(rt; mpu.write(0x019D, Size::Byte, 0xFF), None);
    assert_eq!(rt; mpu.read(MPUCTL1, Size::Word), 0x04);
    assert_eq!(rt; mpu.write(0x019C, Size::Word, 0), None);
    assert_eq!(rt; mpu.read(0x019C, Size::Word), 0);
}
