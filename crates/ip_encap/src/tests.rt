use crate::{Borders, Encap, opened};
use chip_words::{Agent, Kind, MPUIPC0, MPUIPSEGB1, MPUIPSEGB2, Seal, Size};

/// No address at all.
const NOWHERE: Seal = Seal { low: 0, high: 0 };

/// All of main FRAM.
const MAIN_FRAM: Seal = Seal {
    low: 0x04400,
    high: 0x14000,
};

/// What the borders 04800h and 05000h bound.
const AREA: Seal = Seal {
    low: 0x04800,
    high: 0x05000,
};

/// The unit with these words of MPUIPC0 and of the borders, second and first.
fn installed(c0: u16, b2: u16, b1: u16) -> Encap {
    let mut encap = Encap::new();
    encap.install(Borders { c0, b2, b1 });
    encap
}

/// The words of MPUIPC0, MPUIPSEGB2 and MPUIPSEGB1.
fn words(encap: &Encap) -> [u32; 3] {
    [
        encap.read(0x05AA, Size::Word),
        encap.read(0x05AC, Size::Word),
        encap.read(0x05AE, Size::Word),
    ]
}

#[test]
fn code_has_rights_by_where_it_stands(rt: HostRuntime) {
    let encap = installed(0x00C0, 0x0500, 0x0480);
    // Addresses round the area 04800h to 04FFFh, and whether it holds them.
    for (at, is_inside) in [
        (0x047FF_u32, false),
        (0x04800, true),
        (0x04807, true),
        (0x04808, true),
        (0x04FFF, true),
        (0x05000, false),
    ] {
        // The address of an instruction, and whether it may fetch in the area, and read and write there.
        for (ia, fetches, has_data) in [
            (0x047FE_u32, false, false),
            (0x04800, true, false),
            (0x04804, true, false),
            (0x04806, true, false),
            (0x04808, true, true),
            (0x04FFE, true, true),
            (0x05000, false, false),
            (0x01C00, false, false),
        ] {
            let cpu = Agent::Cpu(ia);
            assert_eq!(rt; encap.allows(cpu, at, Kind::Fetch), fetches || !is_inside);
            assert_eq!(rt; encap.allows(cpu, at, Kind::Read), has_data || !is_inside);
            assert_eq!(rt; encap.allows(cpu, at, Kind::Write), has_data || !is_inside);
        }
        for kind in [Kind::Fetch, Kind::Read, Kind::Write] {
            for who in [Agent::Entry, Agent::Dma, Agent::Debug] {
                assert_eq!(rt; encap.allows(who, at, kind), !is_inside);
            }
            assert!(rt; encap.allows(Agent::Boot, at, kind));
        }
    }
}

#[test]
fn the_area_lies_in_main_fram(rt: HostRuntime) {
    // The words of the borders, second and first, the seal, and an address with whether it is sealed.
    for (b2, b1, seal, at, is_sealed) in [
        (0x1400_u16, 0x0440_u16, MAIN_FRAM, 0x043FF_u32, false),
        (0x1400, 0x0440, MAIN_FRAM, 0x04400, true),
        (0x1400, 0x0440, MAIN_FRAM, 0x0FF7F, true),
        (0x1400, 0x0440, MAIN_FRAM, 0x0FF80, false),
        (0x1400, 0x0440, MAIN_FRAM, 0x0FFFF, false),
        (0x1400, 0x0440, MAIN_FRAM, 0x10000, true),
        (0x1400, 0x0440, MAIN_FRAM, 0x13FFF, true),
        (0x1400, 0x0440, MAIN_FRAM, 0x14000, false),
        // Borders below main FRAM and behind it are cut to it, so information FRAM is never in the area.
        (0xFFC0, 0x0000, MAIN_FRAM, 0x01800, false),
        (0xFFC0, 0x0000, MAIN_FRAM, 0x019FF, false),
        (0xFFC0, 0x0000, MAIN_FRAM, 0x04400, true),
        (0xFFC0, 0x0000, MAIN_FRAM, 0x14000, false),
        (0x0440, 0x0000, NOWHERE, 0x043FF, false),
        (0x0440, 0x0000, NOWHERE, 0x04400, false),
        (0x2000, 0x1400, NOWHERE, 0x14000, false),
        // Swapped and equal borders.
        (0x0480, 0x0500, NOWHERE, 0x04C00, false),
        (0x0500, 0x0500, NOWHERE, 0x05000, false),
        // Bits 5:0 of a border don't count.
        (0x053F, 0x04BF, AREA, 0x04800, true),
        (0x053F, 0x04BF, AREA, 0x05000, false),
    ] {
        let encap = installed(0x00C0, b2, b1);
        assert_eq!(rt; encap.seal(), seal);
        assert_eq!(rt; encap.allows(Agent::Debug, at, Kind::Read), !is_sealed);
    }
}

#[test]
fn the_first_bytes_are_told_from_the_border(rt: HostRuntime) {
    // The word of the first border, an instruction's address in the area, and whether it may read there.
    for (b1, ia, has_data) in [
        (0x0440_u16, 0x04400_u32, false),
        (0x0440, 0x04406, false),
        (0x0440, 0x04408, true),
        // The border 04000h lies below main FRAM, where the area begins.
        (0x0400, 0x04400, true),
        (0x0000, 0x04400, true),
        (0x0000, 0x04008, false),
    ] {
        let encap = installed(0x00C0, 0x0500, b1);
        assert_eq!(rt; encap.allows(Agent::Cpu(ia), 0x04900, Kind::Read), has_data);
    }
}

#[test]
fn the_seal_is_the_area_with_lock(rt: HostRuntime) {
    // A word of MPUIPC0, whether there is an area, the seal, and VS.
    for (c0, is_enabled, seal, vs) in [
        (0x0000_u16, false, NOWHERE, false),
        (0x0040, true, NOWHERE, false),
        (0x0080, false, NOWHERE, false),
        (0x00C0, true, AREA, false),
        (0x00E0, true, AREA, true),
        (0x0020, false, NOWHERE, true),
        (0xFF1F, false, NOWHERE, false),
    ] {
        let encap = installed(c0, 0x0500, 0x0480);
        assert_eq!(rt; encap.is_enabled(), is_enabled);
        assert_eq!(rt; encap.allows(Agent::Dma, 0x04900, Kind::Write), !is_enabled);
        assert_eq!(rt; encap.seal(), seal);
        assert_eq!(rt; encap.vs(), vs);
    }
}

#[test]
fn a_word_needs_the_latch_and_no_lock(rt: HostRuntime) {
    // A word, whether it sets LOCK, and the registers behind it.
    for (at, word, locks, after) in [
        (MPUIPC0, 0xFFFF_u16, true, [0x00E0_u32, 0x0500, 0x0480]),
        (MPUIPC0, 0xFF7F, false, [0x0060, 0x0500, 0x0480]),
        (MPUIPSEGB2, 0x067F, false, [0x0040, 0x0640, 0x0480]),
        (MPUIPSEGB1, 0x003F, false, [0x0040, 0x0500, 0x0000]),
    ] {
        let value = u32::from(word);
        let mut encap = installed(0x0040, 0x0500, 0x0480);
        assert!(rt; !encap.write(at, Size::Word, value, false));
        assert_eq!(rt; words(&encap), [0x0040, 0x0500, 0x0480]);
        assert_eq!(rt; encap.write(at, Size::Word, value, true), locks);
        assert_eq!(rt; words(&encap), after);
        let mut locked = installed(0x0080, 0x0500, 0x0480);
        assert!(rt; !locked.write(at, Size::Word, value, true));
        assert_eq!(rt; words(&locked), [0x0080, 0x0500, 0x0480]);
    }
}

#[test]
fn a_byte_needs_the_latch_and_no_lock(rt: HostRuntime) {
    // A byte, whether it sets LOCK, and the registers behind it.
    for (at, byte, locks, after) in [
        (MPUIPC0, 0x80_u8, true, [0x0080_u32, 0x0500, 0x0480]),
        (MPUIPC0 + 1, 0xFF, false, [0x0040, 0x0500, 0x0480]),
        (MPUIPSEGB2, 0xFF, false, [0x0040, 0x05C0, 0x0480]),
        (MPUIPSEGB2 + 1, 0x12, false, [0x0040, 0x1200, 0x0480]),
        (MPUIPSEGB1, 0x40, false, [0x0040, 0x0500, 0x0440]),
        (MPUIPSEGB1 + 1, 0x12, false, [0x0040, 0x0500, 0x1280]),
    ] {
        let value = u32::from(byte);
        let mut encap = installed(0x0040, 0x0500, 0x0480);
        assert!(rt; !encap.write(at, Size::Byte, value, false));
        assert_eq!(rt; words(&encap), [0x0040, 0x0500, 0x0480]);
        assert_eq!(rt; encap.write(at, Size::Byte, value, true), locks);
        assert_eq!(rt; words(&encap), after);
        let mut locked = installed(0x0080, 0x0500, 0x0480);
        assert!(rt; !locked.write(at, Size::Byte, value, true));
        assert_eq!(rt; words(&locked), [0x0080, 0x0500, 0x0480]);
    }
}

#[test]
fn a_written_border_moves_the_area(rt: HostRuntime) {
    let mut encap = Encap::new();
    let at = 0x04C00;
    encap.write(MPUIPSEGB1, Size::Word, 0x0480, true);
    encap.write(MPUIPSEGB2, Size::Word, 0x0500, true);
    assert!(rt; encap.allows(Agent::Debug, at, Kind::Read));
    encap.write(MPUIPC0, Size::Word, 0x0040, true);
    assert!(rt; !encap.allows(Agent::Debug, at, Kind::Read));
    encap.write(MPUIPSEGB2, Size::Word, 0x04C0, true);
    assert!(rt; encap.allows(Agent::Debug, at, Kind::Read));
    encap.write(MPUIPSEGB2, Size::Word, 0x0540, true);
    assert!(rt; encap.allows(Agent::Cpu(0x04808), at, Kind::Read));
    encap.write(MPUIPSEGB1, Size::Word, 0x04C0, true);
    assert!(rt; !encap.allows(Agent::Cpu(0x04808), at, Kind::Read));
    assert!(rt; !encap.allows(Agent::Cpu(0x04C06), at, Kind::Read));
    assert!(rt; encap.allows(Agent::Cpu(0x04C08), at, Kind::Read));
}

#[test]
fn a_bor_alone_resets_the_registers(rt: HostRuntime) {
    let mut encap = installed(0x00E0, 0x0500, 0x0480);
    encap.reset(false);
    assert_eq!(rt; words(&encap), [0x00E0, 0x0500, 0x0480]);
    assert!(rt; !encap.allows(Agent::Debug, 0x04900, Kind::Read));
    assert!(rt; !encap.write(MPUIPC0, Size::Word, 0, true));
    encap.reset(true);
    assert_eq!(rt; words(&encap), [0, 0, 0]);
    assert!(rt; encap.allows(Agent::Debug, 0x04900, Kind::Read));
    assert!(rt; encap.write(MPUIPC0, Size::Word, 0x00C0, true));
    assert_eq!(rt; encap.seal(), NOWHERE);
}

#[test]
fn registers_read_by_word_and_by_byte(rt: HostRuntime) {
    let encap = installed(0x00A0, 0x1FC0, 0x0480);
    for (at, byte) in [
        (0x05AA_u32, 0xA0_u32),
        (0x05AB, 0x00),
        (0x05AC, 0xC0),
        (0x05AD, 0x1F),
        (0x05AE, 0x80),
        (0x05AF, 0x04),
    ] {
        assert_eq!(rt; encap.read(at, Size::Byte), byte);
    }
    assert_eq!(rt; words(&encap), [0x00A0, 0x1FC0, 0x0480]);
}

/// The ends of a seal or an interval that isn't there.
const NONE: (u32, u32) = (0, 0);

/// The ends of the intervals that leave one seal for another, each given by its ends.
fn left(before: (u32, u32), after: (u32, u32)) -> [(u32, u32); 3] {
    let (low, high) = before;
    let before = Seal { low, high };
    let (low, high) = after;
    let after = Seal { low, high };
    let mut ends = [NONE; 3];
    for (end, interval) in ends.iter_mut().zip(opened(before, after).iter()) {
        *end = (interval.low, interval.high);
    }
    ends
}

#[test]
fn addresses_leave_a_seal_that_moves(rt: HostRuntime) {
    let before = (0x4800, 0x5000);
    // The ends of the seal that comes behind it, and those of what is left: it moves up, down and away, and vanishes.
    for (after, ends) in [
        ((0x4C00, 0x5400), (0x4800, 0x4C00)),
        ((0x4400, 0x4C00), (0x4C00, 0x5000)),
        ((0x6000, 0x6400), before),
        (NONE, before),
        // It stays, and grows on both sides.
        (before, NONE),
        ((0x4400, 0x5400), NONE),
    ] {
        assert_eq!(rt; left(before, after), [ends, NONE, NONE]);
    }
    // It comes, and shrinks on both sides.
    assert_eq!(rt; left(NONE, before), [NONE; 3]);
    let sides = [(0x4800, 0x4A00), (0x4C00, 0x5000), NONE];
    assert_eq!(rt; left(before, (0x4A00, 0x4C00)), sides);
}

#[test]
fn signatures_and_vectors_never_leave_a_seal(rt: HostRuntime) {
    // The ends of the seal behind 0F000h to 11FFFh, and of the intervals that are left.
    for (after, first, second, third) in [
        (NONE, (0xF000, 0xFF80), (0x10000, 0x12000), NONE),
        // The new one lies below the signatures, above the vectors, and round both.
        (
            (0xF400, 0xF800),
            (0xF000, 0xF400),
            (0xF800, 0xFF80),
            (0x10000, 0x12000),
        ),
        (
            (0x10400, 0x11000),
            (0xF000, 0xFF80),
            (0x10000, 0x10400),
            (0x11000, 0x12000),
        ),
        (
            (0xF800, 0x10400),
            (0xF000, 0xF800),
            (0x10400, 0x12000),
            NONE,
        ),
        // It holds nothing, among them.
        ((0xFF90, 0xFFA0), (0xF000, 0xFF80), (0x10000, 0x12000), NONE),
    ] {
        assert_eq!(rt; left((0xF000, 0x12000), after), [first, second, third]);
    }
}

#[test]
fn addresses_leave_seals_with_any_ends(rt: HostRuntime) {
    // The ends of both seals, which no registers give, and of the intervals that are left.
    for (before, after, first, second, third) in [
        // Ends outside main FRAM, and swapped ones.
        (
            (0, 0xFFFFF),
            (0x5000, 0x6000),
            (0x4400, 0x5000),
            (0x6000, 0xFF80),
            (0x10000, 0x14000),
        ),
        ((0x5000, 0x4800), NONE, NONE, NONE, NONE),
        (
            (0x4400, 0x6000),
            (0x5000, 0x4800),
            (0x4400, 0x6000),
            NONE,
            NONE,
        ),
        // Ends among the signatures and vectors.
        ((0xFF90, 0x10400), NONE, (0x10000, 0x10400), NONE, NONE),
        (
            (0xFF00, 0xFFA0),
            (0xFF60, 0xFF90),
            (0xFF00, 0xFF60),
            NONE,
            NONE,
        ),
    ] {
        assert_eq!(rt; left(before, after), [first, second, third]);
    }
}
