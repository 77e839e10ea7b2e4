use crate::{Fired, Timers};
use chip_words::Size;

/// How many ticks with an edge of SMCLK in each, and one of ACLK in each of 32, it takes until something
/// fires, and what does; at most so many are tried.
fn ticks_until(timers: &mut Timers, most: u32) -> (u32, Fired) {
    for tick in 0..most {
        let fired = timers.tick(true, tick % 32 == 0);
        if fired.interval {
            return (tick + 1, fired);
        }
    }
    let nothing = Fired {
        interval: false,
        reset: false,
        triggers: 0,
    };
    (most, nothing)
}

#[test]
fn intervals_end(rt: HostRuntime) {
    let reset = Fired {
        interval: true,
        reset: true,
        triggers: 0,
    };
    let flag = Fired {
        interval: true,
        reset: false,
        triggers: 0,
    };
    let none = Fired {
        interval: false,
        reset: false,
        triggers: 0,
    };
    for (word, ticks, fired) in [
        // What it is after a reset: 2^15 edges of SMCLK.
        (0x5A04_u16, 32_768, reset),
        (0x5A05, 8192, reset),
        (0x5A06, 512, reset),
        (0x5A07, 64, reset),
        // As an interval timer.
        (0x5A17, 64, flag),
        // By ACLK: the 64th edge is in the tick behind 63 times 32, and so by the selects 2 and 3.
        (0x5A27, 2017, reset),
        (0x5A47, 2017, reset),
        (0x5A77, 2017, flag),
        // Held, and an interval that is longer than what is tried.
        (0x5A87, 40_000, none),
        (0x5A03, 40_000, none),
    ] {
        let mut timers = Timers::new();
        assert_eq!(rt; timers.write(0x015C, Size::Word, u32::from(word)), None);
        assert_eq!(rt; ticks_until(&mut timers, 40_000), (ticks, fired));
    }
}

#[test]
fn the_password_is_asked_for(rt: HostRuntime) {
    let mut timers = Timers::new();
    assert_eq!(rt; timers.read(0x015C, Size::Word), 0x6904);
    // CNTCL reads 0.
    assert_eq!(rt; timers.write(0x015C, Size::Word, 0x5A9F), None);
    assert_eq!(rt; timers.read(0x015C, Size::Word), 0x6997);
    assert_eq!(rt; timers.read(0x015C, Size::Byte), 0x97);
    assert_eq!(rt; timers.read(0x015D, Size::Byte), 0x69);
    for word in [0_u16, 0x6904, 0xA504] {
        assert_eq!(rt;
            timers.write(0x015C, Size::Word, u32::from(word)),
            Some(0x18)
        );
    }
    for byte in [0x5A_u8, 0] {
        assert_eq!(rt;
            timers.write(0x015C, Size::Byte, u32::from(byte)),
            Some(0x18)
        );
        assert_eq!(rt;
            timers.write(0x015D, Size::Byte, u32::from(byte)),
            Some(0x18)
        );
    }
    assert_eq!(rt; timers.read(0x015C, Size::Word), 0x6997);
    timers.reset(false);
    assert_eq!(rt; timers.read(0x015C, Size::Word), 0x6904);
}

#[test]
fn the_counter_is_cleared_by_cntcl_alone(rt: HostRuntime) {
    for (word, ticks) in [
        // 100 edges were counted, so the next edge ends an interval of 64.
        (0x5A07_u16, 1),
        (0x5A0F, 64),
        // A wrong password clears nothing.
        (0x690F, 32_668),
    ] {
        let mut timers = Timers::new();
        for _ in 0..100 {
            timers.tick(true, false);
        }
        timers.write(0x015C, Size::Word, u32::from(word));
        assert_eq!(rt; ticks_until(&mut timers, 40_000).0, ticks);
    }
}

/// Where a timer is after each of some edges of SMCLK, by R, and the edges after which the overflow's flag stands that
/// is cleared behind each.
#[derive(Clone, Copy)]
struct Course<'a> {
    control: u32,
    top: u32,
    start: u32,
    counts: &'a [u32],
    overflows: &'a [usize],
}

const TA0CTL: u32 = 0x0340;

const TA0R: u32 = 0x0350;

const TA0CCR0: u32 = 0x0352;

const TA0EX0: u32 = 0x0360;

const TA0IV: u32 = 0x036E;

#[test]
fn each_mode_has_its_steps(rt: HostRuntime) {
    for course in [
        // Up to CCR0, and then from 0: a period of CCR0 + 1 steps.
        Course {
            control: 0x0210,
            top: 3,
            start: 0,
            counts: &[1, 2, 3, 0, 1, 2, 3, 0],
            overflows: &[3, 7],
        },
        // R above CCR0.
        Course {
            control: 0x0210,
            top: 3,
            start: 9,
            counts: &[0, 1],
            overflows: &[0],
        },
        Course {
            control: 0x0210,
            top: 0,
            start: 9,
            counts: &[9, 9],
            overflows: &[],
        },
        // Continuous, whatever CCR0 is.
        Course {
            control: 0x0220,
            top: 0,
            start: 0xFFFD,
            counts: &[0xFFFE, 0xFFFF, 0, 1],
            overflows: &[2],
        },
        // Up/down: a period of twice CCR0.
        Course {
            control: 0x0230,
            top: 3,
            start: 0,
            counts: &[1, 2, 3, 2, 1, 0, 1, 2, 3, 2, 1, 0],
            overflows: &[5, 11],
        },
        // With CCR0 1 the turn at the top comes to 0, and one step more turns upward.
        Course {
            control: 0x0230,
            top: 1,
            start: 0,
            counts: &[1, 0, 0, 1, 0, 0],
            overflows: &[2, 5],
        },
        Course {
            control: 0x0230,
            top: 2,
            start: 5,
            counts: &[4, 3, 2, 1, 0, 1],
            overflows: &[4],
        },
        Course {
            control: 0x0230,
            top: 0,
            start: 5,
            counts: &[5, 5],
            overflows: &[],
        },
        // Stopped, and by the selects that give no edge.
        Course {
            control: 0x0200,
            top: 3,
            start: 1,
            counts: &[1, 1],
            overflows: &[],
        },
        Course {
            control: 0x0020,
            top: 3,
            start: 1,
            counts: &[1, 1],
            overflows: &[],
        },
        Course {
            control: 0x0320,
            top: 3,
            start: 1,
            counts: &[1, 1],
            overflows: &[],
        },
    ] {
        let mut timers = Timers::new();
        timers.write(TA0CCR0, Size::Word, course.top);
        timers.write(TA0R, Size::Word, course.start);
        timers.write(TA0CTL, Size::Word, course.control);
        let mut overflows = course.overflows.iter();
        for (i, count) in course.counts.iter().enumerate() {
            timers.tick(true, true);
            assert_eq!(rt; timers.read(TA0R, Size::Word), *count);
            let control = timers.read(TA0CTL, Size::Word);
            if control != course.control {
                assert_eq!(rt; control, course.control + 1);
                assert_eq!(rt; overflows.next(), Some(&i));
                timers.write(TA0CTL, Size::Word, course.control);
            }
        }
        assert_eq!(rt; overflows.next(), None);
    }
}

#[test]
fn edges_are_divided(rt: HostRuntime) {
    for (control, ex0, edges, count) in [
        (0x0220_u32, 0_u32, 5, 5),
        (0x0260, 0, 5, 2),
        (0x02A0, 0, 11, 2),
        (0x02E0, 0, 17, 2),
        (0x0220, 7, 17, 2),
        (0x0260, 2, 17, 2),
        (0x0260, 2, 18, 3),
        (0x02E0, 7, 127, 1),
        (0x02E0, 7, 128, 2),
    ] {
        let mut timers = Timers::new();
        timers.write(TA0EX0, Size::Word, ex0);
        timers.write(TA0CTL, Size::Word, control);
        for _ in 0..edges {
            // ACLK isn't the clock here.
            timers.tick(true, true);
            timers.tick(false, true);
        }
        assert_eq!(rt; timers.read(TA0R, Size::Word), count);
    }
    // Four edges of six were counted; a divisor of two gives a step at the next edge, and then at each second one.
    let mut timers = Timers::new();
    timers.write(TA0EX0, Size::Byte, 2);
    timers.write(TA0CTL, Size::Word, 0x0160);
    for (ex0, aclk, count) in [
        (2_u32, true, 0),
        (2, true, 0),
        (2, true, 0),
        (2, true, 0),
        (2, false, 0),
        (0, false, 0),
        (0, true, 1),
        (0, true, 1),
        (0, true, 2),
    ] {
        timers.write(TA0EX0, Size::Word, ex0);
        timers.tick(true, aclk);
        assert_eq!(rt; timers.read(TA0R, Size::Word), count);
    }
}

#[test]
fn registers_keep_their_bits(rt: HostRuntime) {
    for (at, word) in [
        (TA0CTL, 0x03F3_u32),
        (0x0342, 0xFFFF),
        (0x0346, 0xFFFF),
        // TA0 has no CCTL3, and no CCR3.
        (0x0348, 0),
        (TA0R, 0xFFFF),
        (TA0CCR0, 0xFFFF),
        (0x0356, 0xFFFF),
        (0x0358, 0),
        (TA0EX0, 7),
        (0x0362, 0),
        (0x03C8, 0xFFFF),
        (0x03CE, 0xFFFF),
        (0x03DE, 0xFFFF),
    ] {
        let mut timers = Timers::new();
        assert_eq!(rt; timers.read(at, Size::Word), 0);
        assert_eq!(rt; timers.write(at, Size::Word, 0xFFFF), None);
        assert_eq!(rt; timers.read(at, Size::Word), word);
        assert_eq!(rt; timers.write(at + 1, Size::Byte, 0), None);
        assert_eq!(rt; timers.read(at, Size::Word), word % 0x100);
        timers.reset(false);
        assert_eq!(rt; timers.read(at, Size::Word), 0);
    }
}

#[test]
fn clr_clears_the_count_and_no_flag(rt: HostRuntime) {
    for (at, size, value, count, control) in [
        (TA0CTL, Size::Word, 0x0235_u32, 0, 0x0231),
        (TA0CTL, Size::Byte, 0x34, 0, 0x0230),
        (TA0CTL + 1, Size::Byte, 0x06, 3, 0x0231),
    ] {
        let mut timers = Timers::new();
        timers.write(TA0CCR0, Size::Word, 4);
        timers.write(TA0R, Size::Word, 4);
        timers.write(TA0CTL, Size::Word, 0x0231);
        // One step down from CCR0.
        timers.tick(true, false);
        timers.write(at, size, value);
        assert_eq!(rt; timers.read(TA0R, Size::Word), count);
        assert_eq!(rt; timers.read(TA0CTL, Size::Word), control);
        timers.tick(true, false);
        // Upward from 0, or downward.
        assert_eq!(rt;
            timers.read(TA0R, Size::Word),
            if count == 0 { 1 } else { 2 }
        );
    }
}

#[test]
fn iv_tells_the_least_and_clears_it(rt: HostRuntime) {
    for size in [Size::Byte, Size::Word] {
        let mut timers = Timers::new();
        // CCTL0, CCTL1 without CCIE, CCTL2, and the overflow.
        timers.write(0x0342, Size::Word, 0x0011);
        timers.write(0x0344, Size::Word, 0x0001);
        timers.write(0x0346, Size::Word, 0x0011);
        timers.write(TA0CTL, Size::Word, 0x0003);
        // Lines 4 and 5 of TA0.
        assert_eq!(rt; timers.lines(), 0x0030);
        timers.entered(5);
        assert_eq!(rt; timers.lines(), 0x0030);
        timers.entered(4);
        assert_eq!(rt; timers.lines(), 0x0020);
        assert_eq!(rt; timers.read(TA0IV, size), 4);
        assert_eq!(rt; timers.read(0x0346, Size::Word), 0x0010);
        assert_eq!(rt; timers.read(TA0IV, size), 0x0E);
        assert_eq!(rt; timers.read(TA0CTL, Size::Word), 0x0002);
        assert_eq!(rt; timers.lines(), 0);
        assert_eq!(rt; timers.read(TA0IV, size), 0);
        timers.write(0x0344, Size::Word, 0x0011);
        timers.write(TA0CTL, Size::Word, 0x0003);
        timers.write(TA0IV, size, 0);
        assert_eq!(rt; timers.read(0x0344, Size::Word), 0x0010);
        timers.write(TA0IV + 1, Size::Byte, 0xFF);
        assert_eq!(rt; timers.read(TA0CTL, Size::Word), 0x0002);
    }
}

#[test]
fn compare_flags_set_off_triggers(rt: HostRuntime) {
    // The first address of a timer, the bits of the triggers of CCR0 and CCR2, and its lines.
    for (first, of_first, of_third, lines) in [
        (0x0340_u32, 1_u16 << 1, 1_u16 << 2, 0b01_0000_u16),
        (0x0380, 1 << 3, 1 << 4, 0b1000_0000),
        (0x03C0, 1 << 7, 1 << 8, 0b1),
    ] {
        let mut timers = Timers::new();
        timers.write(first + 0x12, Size::Word, 3);
        timers.write(first + 0x14, Size::Word, 2);
        timers.write(first + 0x16, Size::Word, 1);
        timers.write(first + 2, Size::Word, 0x0010);
        timers.write(first, Size::Word, 0x0210);
        // R is 1, 2, 3, 0 and 1. CCR1 has a flag and no trigger; a flag that is set already has its trigger again.
        for triggers in [of_third, 0, of_first, 0, of_third] {
            assert_eq!(rt; timers.tick(true, false).triggers, triggers);
        }
        assert_eq!(rt; timers.read(first + 4, Size::Word), 1);
        assert_eq!(rt; timers.read(first + 6, Size::Word), 1);
        assert_eq!(rt; timers.lines(), lines);
        // No edge, no trigger, though R is still equal to CCR2.
        assert_eq!(rt; timers.tick(false, true).triggers, 0);
    }
}
