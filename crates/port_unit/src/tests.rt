#![tactic(auto, using(chip_words::proofs::Addresses::unit_at_ports))]

ghost use Rattle.std.specs.Prelude.{◌≡◌, Some};
ghost use Rattle.chip_words.specs.Addresses.{unit_at};

use crate::{Level, Pins, Ports};
use chip_words::{Size, UnitName};

/// The first addresses of both pairs.
const PAIRS: [u32; 2] = [0x0200, 0x0220];

/// The distances of the registers that are stored.
const STORED: [u32; 9] = [0x02, 0x04, 0x06, 0x0A, 0x0C, 0x16, 0x18, 0x1A, 0x1C];

fn word(ports: &mut Ports, at: u32) -> u32
    requires { unit_at at ≡ Some UnitName.Ports }
{
    ports.read(at, Size::Word, false)
}

#[test]
fn registers_are_words_and_bytes(rt: HostRuntime) {
    for (pair, other) in [(0x0200_u32, 0x0220_u32), (0x0220, 0x0200)] {
        for register in STORED {
            let mut ports = Ports::new();
            let at = pair + register;
            assert_eq!(rt; ports.write(at, Size::Word, 0xA5C3), None);
            assert_eq!(rt; ports.read(at, Size::Word, true), 0xA5C3);
            assert_eq!(rt; ports.read(at, Size::Byte, true), 0xC3);
            assert_eq!(rt; ports.read(at + 1, Size::Byte, true), 0xA5);
            assert_eq!(rt; ports.write(at + 1, Size::Byte, 0x5A), None);
            assert_eq!(rt; ports.read(at, Size::Word, false), 0x5AC3);
            assert_eq!(rt; ports.write(at, Size::Byte, 0x3C), None);
            assert_eq!(rt; ports.read(at, Size::Word, false), 0x5A3C);
            assert_eq!(rt; ports.read(other + register, Size::Word, false), 0);
        }
    }
}

#[test]
fn other_addresses_read_0(rt: HostRuntime) {
    for at in [
        0x0208, 0x0210, 0x0212, 0x0214, 0x0228, 0x0230, 0x0232, 0x0234,
    ] {
        let mut ports = Ports::new();
        ports.write(at, Size::Word, 0xFFFF);
        ports.write(at + 1, Size::Byte, 0xFF);
        assert_eq!(rt; ports.read(at, Size::Word, false), 0);
        assert_eq!(rt; ports.read(at, Size::Byte, false), 0);
        assert_eq!(rt; ports.read(at + 1, Size::Byte, false), 0);
    }
}

#[test]
fn inputs_are_outputs_or_levels(rt: HostRuntime) {
    for (pair, odd) in [(0x0200_u32, 1_u8), (0x0220, 3)] {
        let mut ports = Ports::new();
        ports.write(pair + 0x02, Size::Word, 0xF0F0);
        ports.write(pair + 0x04, Size::Word, 0xFF00);
        for (port, bit) in [(odd, 0), (odd, 4), (odd + 1, 1)] {
            ports.drive(port, bit, true, false);
        }
        assert_eq!(rt; ports.read(pair, Size::Word, false), 0xF011);
        assert_eq!(rt; ports.read(pair, Size::Byte, false), 0x11);
        assert_eq!(rt; ports.read(pair + 1, Size::Byte, false), 0xF0);
        assert_eq!(rt; ports.read(pair, Size::Word, true), 0x0211);
        ports.write(pair, Size::Word, 0x1234);
        ports.drive(odd, 4, false, false);
        assert_eq!(rt; ports.read(pair, Size::Word, true), 0x0201);
    }
}

#[test]
fn edges_set_flags(rt: HostRuntime) {
    for (port, bit, pair, pin) in [
        (1_u8, 0_u8, 0x0200_u32, 0x0001_u16),
        (2, 3, 0x0200, 0x0800),
        (3, 7, 0x0220, 0x0080),
        (4, 6, 0x0220, 0x4000),
    ] {
        for (edges, direction, locked, before, after, flag) in [
            (0_u16, 0_u16, false, false, true, pin),
            (0, 0, false, true, false, 0),
            (pin, 0, false, true, false, pin),
            (pin, 0, false, false, true, 0),
            (0, 0, false, true, true, 0),
            (pin, 0, false, false, false, 0),
            // No other pin's bits of IES and DIR count.
            (0xFFFF - pin, 0xFFFF - pin, false, false, true, pin),
            (0, 0, true, false, true, 0),
            (pin, 0, true, true, false, 0),
            (0, pin, false, false, true, 0),
            (pin, pin, false, true, false, 0),
        ] {
            let mut ports = Ports::new();
            ports.drive(port, bit, before, true);
            ports.write(pair + 0x18, Size::Word, u32::from(edges));
            ports.write(pair + 0x04, Size::Word, u32::from(direction));
            ports.drive(port, bit, after, locked);
            assert_eq!(rt; word(&mut ports, pair + 0x1C), u32::from(flag));
        }
    }
}

#[test]
fn the_least_pin_that_waits_is_told_once(rt: HostRuntime) {
    for (vector, pair, own, other) in [
        (0x020E_u32, 0x0200_u32, 0x0001_u32, 0x0100_u32),
        (0x021E, 0x0200, 0x0100, 0x0001),
        (0x022E, 0x0220, 0x0001, 0x0100),
        (0x023E, 0x0220, 0x0100, 0x0001),
    ] {
        let mut ports = Ports::new();
        ports.write(pair + 0x1A, Size::Word, 0xFFFF);
        ports.write(pair + 0x1C, Size::Word, own * 0x85 + other * 0x12);
        assert_eq!(rt; word(&mut ports, vector), 2);
        assert_eq!(rt; word(&mut ports, vector), 6);
        assert_eq!(rt; word(&mut ports, vector), 16);
        assert_eq!(rt; word(&mut ports, vector), 0);
        assert_eq!(rt; word(&mut ports, pair + 0x1C), other * 0x12);
        // Pin 0's flag stays where its bit of IE is 0.
        ports.write(pair + 0x1A, Size::Word, own * 0xFE + other * 0xFF);
        ports.write(pair + 0x1C, Size::Word, own * 0x03);
        assert_eq!(rt; word(&mut ports, vector), 4);
        assert_eq!(rt; word(&mut ports, vector), 0);
        assert_eq!(rt; word(&mut ports, pair + 0x1C), own);
    }
}

#[test]
fn each_access_to_a_vector_clears_its_flag(rt: HostRuntime) {
    for (vector, pair, own) in [
        (0x020E_u32, 0x0200_u32, 0x0001_u32),
        (0x021E, 0x0200, 0x0100),
        (0x022E, 0x0220, 0x0001),
        (0x023E, 0x0220, 0x0100),
    ] {
        for (half, size, value) in [(0, Size::Word, 6), (0, Size::Byte, 6), (1, Size::Byte, 0)] {
            let mut ports = Ports::new();
            ports.write(pair + 0x1A, Size::Word, 0xFFFF);
            ports.write(pair + 0x1C, Size::Word, 0x8484);
            assert_eq!(rt; ports.read(vector + half, size, false), value);
            assert_eq!(rt; word(&mut ports, pair + 0x1C), 0x8484 - own * 0x04);
            assert_eq!(rt; ports.write(vector + half, size, 0x55), None);
            assert_eq!(rt; word(&mut ports, pair + 0x1C), 0x8484 - own * 0x84);
        }
    }
}

#[test]
fn each_port_has_a_line(rt: HostRuntime) {
    for (flags, enables, second_flags, second_enables, lines) in [
        (0x0001, 0x0001, 0, 0, 0x0200),
        (0x8000, 0x8000, 0, 0, 0x0400),
        (0, 0, 0x0080, 0x0080, 0x0800),
        (0, 0, 0x0100, 0x0100, 0x1000),
        (0x00FF, 0xFF00, 0xFF00, 0x00FF, 0),
        (0xFFFF, 0xFFFF, 0xFFFF, 0xFFFF, 0x1E00),
    ] {
        let mut ports = Ports::new();
        ports.write(0x021A, Size::Word, enables);
        ports.write(0x021C, Size::Word, flags);
        ports.write(0x023A, Size::Word, second_enables);
        ports.write(0x023C, Size::Word, second_flags);
        assert_eq!(rt; ports.lines(), lines);
    }
}

#[test]
fn resets_leave_the_levels(rt: HostRuntime) {
    for bor in [false, true] {
        let mut ports = Ports::new();
        ports.drive(1, 0, true, false);
        ports.drive(4, 7, true, false);
        for pair in PAIRS {
            for register in STORED {
                ports.write(pair + register, Size::Word, 0xFFFF);
            }
        }
        ports.reset(bor);
        for pair in PAIRS {
            for register in STORED {
                assert_eq!(rt; word(&mut ports, pair + register), 0);
            }
        }
        assert_eq!(rt; word(&mut ports, 0x0200), 0x0001);
        assert_eq!(rt; word(&mut ports, 0x0220), 0x8000);
    }
}

#[test]
fn outputs_have_levels(rt: HostRuntime) {
    let mut ports = Ports::new();
    ports.write(0x0222, Size::Word, 0x8035);
    ports.write(0x0224, Size::Word, 0x800F);
    ports.write(0x0203, Size::Byte, 0x02);
    ports.write(0x0205, Size::Byte, 0x06);
    ports.drive(3, 1, true, false);
    let pins = ports.pins(false);
    assert_eq!(rt;
        pins,
        Pins {
            driven: 0x800F_0600,
            high: 0x8005_0200
        }
    );
    assert_eq!(rt;
        pins.of_port(2),
        Pins {
            driven: 0x06,
            high: 0x02
        }
    );
    assert_eq!(rt;
        pins.of_port(4),
        Pins {
            driven: 0x80,
            high: 0x80
        }
    );
    assert_eq!(rt; ports.pins(true), Pins { driven: 0, high: 0 });
    let open = Level::Open;
    let low = Level::Low;
    let high = Level::High;
    for (port, levels) in [
        (1, [open; 8]),
        (2, [open, high, low, open, open, open, open, open]),
        (3, [high, low, high, low, open, open, open, open]),
        (4, [open, open, open, open, open, open, open, high]),
    ] {
        assert_eq!(rt; ports.levels(port, false) == levels, true);
        assert_eq!(rt; pins.levels(port) == levels, true);
        assert_eq!(rt; ports.levels(port, true) == [open; 8], true);
    }
}

#[test]
fn only_levels_are_compared(rt: HostRuntime) {
    for (driven, high, other_driven, other_high, same) in [
        (0x0F00_u32, 0x0500_u32, 0x0F00_u32, 0x0500_u32, true),
        (0x0F00, 0x0500, 0x0F00, 0x0D00, false),
        (0x0F00, 0x0500, 0x8F00, 0x0500, false),
        // A pin that isn't driven is open, whatever its other bit is.
        (0x0F00, 0x0500, 0x0F00, 0xF500, true),
        // The pins are those of P2.
        (0x0F00, 0x0500, 0x0F0F, 0x0505, true),
    ] {
        let one = Pins { driven, high };
        let other = Pins {
            driven: other_driven,
            high: other_high,
        };
        assert_eq!(rt; one.has_same_levels(&other, 2), same);
        assert_eq!(rt; other.has_same_levels(&one, 2), same);
        assert_eq!(rt; one.levels(2) == other.levels(2), same);
    }
}
