use crate::FramCtrl;
use chip_words::Size;

/// The four words of the unit, from FRCTL0 on.
fn words(fram: &FramCtrl) -> [u32; 4] {
    [
        fram.read(0x0140, Size::Word),
        fram.read(0x0142, Size::Word),
        fram.read(0x0144, Size::Word),
        fram.read(0x0146, Size::Word),
    ]
}

/// The unit with its latch open, and these values.
fn opened(nwaits: u8, gcctl0: u16, gcctl1: u16) -> FramCtrl {
    let mut fram = FramCtrl::new();
    fram.write(0x0140, Size::Word, 0xA500 + 16 * u32::from(nwaits));
    fram.write(0x0144, Size::Word, u32::from(gcctl0));
    fram.write(0x0146, Size::Word, u32::from(gcctl1));
    fram
}

#[test]
fn nwaits_is_what_frctl0_keeps(rt: HostRuntime) {
    for (word, reads, waits) in [
        (0xA500_u16, 0x9600, 0),
        (0xA510, 0x9610, 1),
        (0xA570, 0x9670, 7),
        (0xA58F, 0x9600, 0),
        (0xA5FF, 0x9670, 7),
    ] {
        let mut fram = FramCtrl::new();
        assert_eq!(rt; fram.write(0x0140, Size::Word, u32::from(word)), None);
        assert_eq!(rt; words(&fram), [reads, 0, 0, 0]);
        assert_eq!(rt; fram.read(0x0140, Size::Byte), reads - 0x9600);
        assert_eq!(rt; fram.read(0x0141, Size::Byte), 0x96);
        assert_eq!(rt; fram.waits(), waits);
    }
}

#[test]
fn the_password_opens_and_a_byte_closes(rt: HostRuntime) {
    // A write to a new unit, the cause that it answers, and what FRCTL0 and GCCTL0 hold behind a byte for each.
    for (at, size, value, cause, reads) in [
        (
            0x0140_u32,
            Size::Word,
            0xA510_u16,
            None,
            [0x9670, 0, 0x0055, 0],
        ),
        (0x0141, Size::Byte, 0xA5, None, [0x9670, 0, 0x0055, 0]),
        (0x0141, Size::Byte, 0x96, None, [0x9600, 0, 0, 0]),
        (0x0140, Size::Byte, 0xA5, None, [0x9600, 0, 0, 0]),
        (0x0140, Size::Word, 0x9610, Some(0x1A), [0x9600, 0, 0, 0]),
        (0x0140, Size::Word, 0x00A5, Some(0x1A), [0x9600, 0, 0, 0]),
        (0x0142, Size::Word, 0xA510, None, [0x9600, 0, 0, 0]),
        (0x0144, Size::Word, 0xA510, None, [0x9600, 0, 0, 0]),
    ] {
        let mut fram = FramCtrl::new();
        assert_eq!(rt; fram.write(at, size, u32::from(value)), cause);
        assert_eq!(rt; fram.write(0x0140, Size::Byte, 0xFF), None);
        assert_eq!(rt; fram.write(0x0144, Size::Byte, 0x55), None);
        assert_eq!(rt; words(&fram), reads);
    }
}

#[test]
fn an_open_unit_takes_writes(rt: HostRuntime) {
    for (at, size, value, cause, reads) in [
        (
            0x0140_u32,
            Size::Byte,
            0x30_u16,
            None,
            [0x9630_u32, 0, 0x1234, 0x5678],
        ),
        (
            0x0144,
            Size::Word,
            0xFEDC,
            None,
            [0x9620, 0, 0xFEDC, 0x5678],
        ),
        (0x0145, Size::Byte, 0xFE, None, [0x9620, 0, 0xFE34, 0x5678]),
        (0x0146, Size::Byte, 0xDC, None, [0x9620, 0, 0x1234, 0x56DC]),
        (
            0x0142,
            Size::Word,
            0xFFFF,
            None,
            [0x9620, 0, 0x1234, 0x5678],
        ),
        (0x0143, Size::Byte, 0xFF, None, [0x9620, 0, 0x1234, 0x5678]),
        // A wrong password changes nothing, the latch neither.
        (
            0x0140,
            Size::Word,
            0x0070,
            Some(0x1A),
            [0x9620, 0, 0x1234, 0x5678],
        ),
    ] {
        let mut fram = opened(2, 0x1234, 0x5678);
        assert_eq!(rt; fram.write(at, size, u32::from(value)), cause);
        assert_eq!(rt; words(&fram), reads);
        assert_eq!(rt; fram.write(0x0146, Size::Word, 0xABCD), None);
        assert_eq!(rt; fram.read(0x0146, Size::Word), 0xABCD);
    }
    // Closed again, it keeps what it has.
    let mut fram = opened(2, 0x1234, 0x5678);
    assert_eq!(rt; fram.write(0x0141, Size::Byte, 0), None);
    assert_eq!(rt; fram.write(0x0140, Size::Byte, 0x30), None);
    assert_eq!(rt; fram.write(0x0146, Size::Word, 0xABCD), None);
    assert_eq!(rt; words(&fram), [0x9620, 0, 0x1234, 0x5678]);
}

#[test]
fn a_reset_of_either_kind_clears_and_closes(rt: HostRuntime) {
    for bor in [false, true] {
        let mut fram = opened(7, 0xFFFF, 0xFFFF);
        assert_eq!(rt; words(&fram), [0x9670, 0, 0xFFFF, 0xFFFF]);
        fram.reset(bor);
        assert_eq!(rt; fram.write(0x0140, Size::Byte, 0x30), None);
        assert_eq!(rt; fram.write(0x0144, Size::Word, 1), None);
        assert_eq!(rt; words(&fram), [0x9600, 0, 0, 0]);
        assert_eq!(rt; fram.waits(), 0);
    }
}
