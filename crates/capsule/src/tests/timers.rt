use super::cases::{BLINK, SHOW_P1, VECTOR, shows, shows_code};
use std::test::Fail;

#[test]
fn the_watchdog_ends_a_long_run(rt: HostRuntime) -> Result<(), Fail> {
    // It counts from tick 3 on, 2^15 edges. A PUC leaves the pins unlocked, and makes DIR and OUT 0.
    shows_code(
        &rt,
        &BLINK,
        "version = 1\nend = 33000\n",
        "7 PIN P1 zzzzzzz0\n10 PIN P1 zzzzzzz1\n32770 RST 16\n32770 PIN P1 zzzzzzzz\n32775 PIN P1 zzzzzzz0\n32778 PIN P1 zzzzzzz1\n33000 END\n",
    )
}

#[test]
fn a_timer_wakes_the_processor(rt: HostRuntime) -> Result<(), Fail> {
    let code = [
        0x4031, 0x2400, // MOV #2400h, SP           2 cycles, tick 3
        0x40B2, 0x5A80, 0x015C, // MOV #5A80h, &WDTCTL      4 cycles, tick 5
        0xC392, 0x0130, // BIC #1, &PM5CTL0         4 cycles, tick 9
        0xD3D2, 0x0204, // BIS.B #1, &P1DIR         4 cycles, tick 13
        0x40B2, 0x0063, 0x0352, // MOV #99, &TA0CCR0        4 cycles, tick 17
        0x40B2, 0x0010, 0x0342, // MOV #10h, &TA0CCTL0      4 cycles, tick 21: CCIE
        0x40B2, 0x0214, 0x0340, // MOV #0214h, &TA0CTL      4 cycles, tick 25: SMCLK, up, CLR
        0xD032, 0x0018, // BIS #18h, SR             2 cycles, tick 29: GIE and CPUOFF
        0x3FFF, // JMP $
    ];
    // The first edge is that of tick 26, so R is 99 in tick 124, and again each 100 ticks. The entry takes six.
    let toggle = [
        0xE3D2, 0x0202, // XOR.B #1, &P1OUT         4 cycles, ticks 130 and 230
        0x1300, // RETI
    ];
    shows(
        &rt,
        &[
            (0x4400, &code),
            (0x4430, &toggle),
            (0xFFEA, &[0x4430]),
            (0xFFFE, &VECTOR),
        ],
        "version = 1\nend = 300\n",
        "13 PIN P1 zzzzzzz0\n130 PIN P1 zzzzzzz1\n230 PIN P1 zzzzzzz0\n300 END\n",
    )
}

/// Code at 4408h, behind SHOW_P1, and the lines behind the boot's.
#[derive(Clone, Copy)]
struct Reading<'a> {
    code: &'a [u16],
    lines: &'a str,
}

#[test]
fn registers_of_a_timer_are_read(rt: HostRuntime) -> Result<(), Fail> {
    // Each begins in tick 10, with P1 an output.
    let continuous = [
        0x40B2, 0x0220, 0x0380, // MOV #0220h, &TA1CTL      4 cycles, tick 10: SMCLK, continuous
        0x42D2, 0x0390, 0x0202, // MOV.B &TA1R, &P1OUT      5 cycles, tick 14: R is 4, from the edges of 11 to 14
        0x42D2, 0x0390, 0x0202, // MOV.B &TA1R, &P1OUT      5 cycles, tick 19
        0x3FFF, // JMP $
    ];
    let up_down = [
        0x40B2, 0x0002, 0x03D2, // MOV #2, &TB0CCR0         4 cycles, tick 10: #2 as a word of its own
        0x40B2, 0x0230, 0x03C0, // MOV #0230h, &TB0CTL      4 cycles, tick 14: SMCLK, up/down
        0x42D2, 0x03D0, 0x0202, // MOV.B &TB0R, &P1OUT      5 cycles, tick 18: 1, 2, 1, 0
        0x42D2, 0x03D0, 0x0202, // MOV.B &TB0R, &P1OUT      5 cycles, tick 23: 1
        0x42D2, 0x03C0, 0x0202, // MOV.B &TB0CTL, &P1OUT    5 cycles, tick 28: MC and TBIFG
        0x3FFF, // JMP $
    ];
    let vector = [
        0x40B2, 0x0011, 0x03CE, // MOV #11h, &TB0CCTL6      4 cycles, tick 10: CCIE and CCIFG
        0x40B2, 0x0003, 0x03C0, // MOV #3, &TB0CTL          4 cycles, tick 14: TBIE and TBIFG
        0x42D2, 0x03EE, 0x0202, // MOV.B &TB0IV, &P1OUT     5 cycles, tick 18: CCTL6 comes first
        0x42D2, 0x03EF, 0x0202, // MOV.B &TB0IV+1, &P1OUT   5 cycles, tick 23: the upper byte, which clears TBIFG
        0x42D2, 0x03C0, 0x0202, // MOV.B &TB0CTL, &P1OUT    5 cycles, tick 28: TBIE alone
        0x3FFF, // JMP $
    ];
    for Reading { code, lines } in [
        Reading {
            code: &continuous,
            lines: "7 PIN P1 00000000\n14 PIN P1 00000100\n19 PIN P1 00001001\n40 END\n",
        },
        Reading {
            code: &up_down,
            lines: "7 PIN P1 00000000\n23 PIN P1 00000001\n28 PIN P1 00110001\n40 END\n",
        },
        Reading {
            code: &vector,
            lines: "7 PIN P1 00000000\n18 PIN P1 00001100\n23 PIN P1 00000000\n28 PIN P1 00000010\n40 END\n",
        },
    ] {
        shows(
            &rt,
            &[(0x4400, &SHOW_P1), (0x4408, code), (0xFFFE, &VECTOR)],
            "version = 1\nend = 40\n",
            lines,
        )?;
    }
    Ok(())
}
