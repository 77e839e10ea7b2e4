use crate::{Causes, Sys, best};
use chip_words::Size;

/// The unit before any reset, with the latch of PMMCTL0.
fn with_latch(is_open: bool) -> Sys {
    let mut sys = Sys::new();
    if is_open {
        sys.write(0x0121, Size::Byte, 0xA5);
    }
    sys
}

/// Whether SWBOR requests a reset by a byte write, as it does where the latch is open.
fn is_open(sys: &mut Sys) -> bool {
    sys.write(0x0120, Size::Byte, 0x04).is_some()
}

#[test]
fn words_to_power_control(rt: HostRuntime) {
    for (open, word, cause, stays_open) in [
        (false, 0xA500_u16, None, true),
        (false, 0xA504, Some(0x06), true),
        (false, 0xA508, Some(0x14), true),
        (false, 0xA50C, Some(0x06), true),
        (false, 0x960C, Some(0x20), false),
        // A wrong password leaves an open latch open.
        (true, 0x0004, Some(0x20), true),
    ] {
        let mut sys = with_latch(open);
        assert_eq!(rt; sys.write(0x0120, Size::Word, u32::from(word)), cause);
        assert_eq!(rt; sys.read(0x0120, Size::Word), 0x9600);
        assert_eq!(rt; sys.read(0x0121, Size::Byte), 0x96);
        assert_eq!(rt; is_open(&mut sys), stays_open);
    }
}

#[test]
fn bytes_to_power_control(rt: HostRuntime) {
    for (open, at, byte, cause, stays_open) in [
        (false, 0x0121, 0xA5_u8, None, true),
        (true, 0x0121, 0xA4, None, false),
        (false, 0x0120, 0x0C, None, false),
        (true, 0x0120, 0x04, Some(0x06), true),
        (true, 0x0120, 0x08, Some(0x14), true),
        (true, 0x0120, 0x0C, Some(0x06), true),
        (true, 0x0120, 0xF3, None, true),
    ] {
        let mut sys = with_latch(open);
        assert_eq!(rt; sys.write(at, Size::Byte, u32::from(byte)), cause);
        assert_eq!(rt; is_open(&mut sys), stays_open);
    }
}

#[test]
fn the_last_cause_is_read_once(rt: HostRuntime) {
    for (at, size, value) in [
        (0x019E, Size::Word, 0x16),
        (0x019E, Size::Byte, 0x16),
        (0x019F, Size::Byte, 0),
    ] {
        let mut sys = Sys::new();
        sys.taken(0x16);
        assert_eq!(rt; sys.read(at, size), value);
        assert_eq!(rt; sys.read(0x019E, Size::Word), 0);
        sys.taken(0x16);
        assert_eq!(rt; sys.write(at, size, 0x55), None);
        assert_eq!(rt; sys.read(0x019E, Size::Word), 0);
    }
}

#[test]
fn the_watchdog_has_a_line(rt: HostRuntime) {
    let mut sys = Sys::new();
    sys.write(0x0100, Size::Word, 0xFFFF);
    assert_eq!(rt; sys.lines(), 0);
    sys.write(0x0103, Size::Byte, 0xFF);
    assert_eq!(rt; sys.lines(), 0);
    sys.write(0x0102, Size::Byte, 0x01);
    assert_eq!(rt; sys.lines(), 0x0004);
    sys.write(0x0100, Size::Byte, 0xFE);
    assert_eq!(rt; sys.lines(), 0);
    assert_eq!(rt; sys.read(0x0100, Size::Word), 0xFFFE);
    sys.write(0x0100, Size::Byte, 0x01);
    assert_eq!(rt; sys.lines(), 0x0004);
    sys.entered(2);
    assert_eq!(rt; sys.lines(), 0);
    assert_eq!(rt; sys.read(0x0102, Size::Word), 0xFF00);
    sys.interval();
    assert_eq!(rt; sys.lines(), 0x0004);
    assert_eq!(rt; sys.read(0x0102, Size::Word), 0xFF01);
}

#[test]
fn resets_close_and_a_bor_locks(rt: HostRuntime) {
    let mut sys = Sys::new();
    assert_eq!(rt; sys.locked(), true);
    assert_eq!(rt; sys.read(0x0130, Size::Word), 1);
    sys.write(0x0131, Size::Byte, 0);
    assert_eq!(rt; sys.locked(), true);
    sys.write(0x0130, Size::Word, 0xFFFE);
    assert_eq!(rt; sys.read(0x0130, Size::Word), 0);
    sys.write(0x0121, Size::Byte, 0xA5);
    sys.write(0x0180, Size::Word, 0x1234);
    assert_eq!(rt; sys.read(0x0181, Size::Byte), 0x12);
    sys.reset(false);
    assert_eq!(rt; sys.locked(), false);
    assert_eq!(rt; sys.read(0x0180, Size::Word), 0);
    assert_eq!(rt; sys.write(0x0120, Size::Byte, 0x04), None);
    sys.reset(true);
    assert_eq!(rt; sys.locked(), true);
}

#[test]
fn the_least_cause_is_taken(rt: HostRuntime) {
    let mut sys = Sys::new();
    assert_eq!(rt; sys.pending(), None);
    for (cause, least) in [(0x40, 0x40), (0x1A, 0x1A), (0x20, 0x1A), (0x02, 0x02)] {
        sys.request(cause);
        assert_eq!(rt; sys.pending(), Some(least));
    }
    sys.taken(0x02);
    assert_eq!(rt; sys.pending(), None);
    sys.request(0x16);
    assert_eq!(rt; sys.pending(), Some(0x16));
}

#[test]
fn requests_are_dropped_together(rt: HostRuntime) {
    let mut causes = Causes::new();
    causes.clear();
    assert_eq!(rt; causes.least(), None);
    for (cause, least) in [(0x40, 0x40), (0x16, 0x16), (0x1E, 0x16)] {
        causes.request(cause);
        assert_eq!(rt; causes.least(), Some(least));
    }
    causes.clear();
    assert_eq!(rt; causes.least(), None);
    causes.request(0x40);
    assert_eq!(rt; causes.least(), Some(0x40));
}

#[test]
fn the_greatest_vector_is_best(rt: HostRuntime) {
    for (lines, gie, nmi, vector) in [
        (0x0000, true, false, None),
        (0x0001, true, false, Some(0xFFF6)),
        (0x0004, true, false, Some(0xFFF2)),
        (0x0010, true, false, Some(0xFFEA)),
        (0x0040, true, false, Some(0xFFE4)),
        (0x0400, true, false, Some(0xFFD8)),
        (0x1000, true, false, Some(0xFFD0)),
        (0x1FFF, true, false, Some(0xFFF6)),
        (0x1E00, true, false, Some(0xFFDE)),
        // There are no lines 13 to 15.
        (0xE000, true, false, None),
        (0x1FFF, false, false, None),
        (0x0001, false, true, Some(0xFFFC)),
        (0x0001, true, true, Some(0xFFFC)),
    ] {
        assert_eq!(rt; best(lines, gie, nmi), vector);
    }
}

#[test]
fn the_clock_system_is_stored(rt: HostRuntime) {
    let mut sys = Sys::new();
    for (at, word) in [(0x0160, 0xA500_u16), (0x0162, 0x000D), (0x016C, 0x1234)] {
        assert_eq!(rt; sys.read(at, Size::Word), 0);
        assert_eq!(rt; sys.write(at, Size::Word, u32::from(word)), None);
    }
    sys.write(0x0161, Size::Byte, 0x5A);
    assert_eq!(rt; sys.read(0x0160, Size::Word), 0x5A00);
    assert_eq!(rt; sys.read(0x0162, Size::Byte), 0x0D);
    assert_eq!(rt; sys.read(0x016D, Size::Byte), 0x12);
    // There is no register at 016Eh.
    sys.write(0x016E, Size::Word, 0xFFFF);
    assert_eq!(rt; sys.read(0x016E, Size::Word), 0);
    sys.reset(false);
    assert_eq!(rt; sys.read(0x016C, Size::Word), 0);
}
