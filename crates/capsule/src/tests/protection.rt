use super::cases::{VECTOR, shows, shows_code};
use std::test::Fail;

#[test]
fn fram_waits(rt: HostRuntime) -> Result<(), Fail> {
    let code = [
        0xC392, 0x0130, // BIC #1, &PM5CTL0         4 cycles, tick 3
        0x40B2, 0xA510, 0x0140, // MOV #A510h, &FRCTL0      4 cycles and 3 waits, tick 7: NWAITS is 1 from here on
        0x43D2, 0x0204, // MOV.B #1, &P1DIR         3 cycles and 2 waits, tick 14
        0x43D2, 0x0202, // MOV.B #1, &P1OUT         tick 19
        0x3FFF, // JMP $
    ];
    shows_code(
        &rt,
        &code,
        "version = 1\nend = 1000\n",
        "14 PIN P1 zzzzzzz0\n19 PIN P1 zzzzzzz1\n1000 END\n",
    )
}

#[test]
fn a_violation_resets(rt: HostRuntime) -> Result<(), Fail> {
    let code = [
        0x40B2, 0xA500, 0x05A0, // MOV #A500h, &MPUCTL0     4 cycles, tick 3: opens the unit
        0x40B2, 0x7D77, 0x05A8, // MOV #7D77h, &MPUSAM      4 cycles, tick 7: segment 3 has VS and no WE
        0x40B2, 0xA501, 0x05A0, // MOV #A501h, &MPUCTL0     4 cycles, tick 11: MPUENA
        0x4382, 0x4500, // MOV #0, &4500h           tick 15, and after the reset tick 28
    ];
    // The PUC leaves the segments and closes the unit, which the code opens again.
    shows_code(
        &rt,
        &code,
        "version = 1\nend = 30\n",
        "15 RST 2E\n28 RST 2E\n30 END\n",
    )
}

#[test]
fn a_violation_interrupts(rt: HostRuntime) -> Result<(), Fail> {
    // The first border is 8000h and the second 10000h: segment 1 has the code, and segment 2 may not be written.
    let stray = [
        0x4031, 0x2400, // MOV #2400h, SP           2 cycles, tick 3
        0xC392, 0x0130, // BIC #1, &PM5CTL0         4 cycles, tick 5
        0x43F2, 0x0204, // MOV.B #-1, &P1DIR        3 cycles, tick 9
        0x40B2, 0xA500, 0x05A0, // MOV #A500h, &MPUCTL0     4 cycles, tick 12
        0x40B2, 0x0800, 0x05A6, // MOV #0800h, &MPUSEGB1    4 cycles, tick 16
        0x40B2, 0x1000, 0x05A4, // MOV #1000h, &MPUSEGB2    4 cycles, tick 20
        0x40B2, 0x7757, 0x05A8, // MOV #7757h, &MPUSAM      4 cycles, tick 24: no WE in segment 2
        0x40B2, 0xA511, 0x05A0, // MOV #A511h, &MPUCTL0     4 cycles, tick 28: MPUENA and MPUSEGIE
        0x4382, 0x9000, // MOV #0, &9000h           3 cycles, tick 32: refused
        0x42D2, 0x9000, 0x0202, // MOV.B &9000h, &P1OUT     5 cycles, behind the handler
        0x3FFF, // JMP $
    ];
    // The NMI is accepted in tick 35, and entered in six ticks.
    let handler = [
        0x42D2, 0x019C, 0x0202, // MOV.B &SYSSNIV, &P1OUT   5 cycles, tick 41: segment 2 is 0Eh
        0x42D2, 0x05A2, 0x0202, // MOV.B &MPUCTL1, &P1OUT   5 cycles, tick 46: the read cleared the flag
        0x1300, // RETI                             5 cycles, tick 51
    ];
    shows(
        &rt,
        &[
            (0x4400, &stray),
            (0x4460, &handler),
            (0x9000, &[0x00A5]),
            (0xFFFC, &[0x4460]),
            (0xFFFE, &VECTOR),
        ],
        "version = 1\nend = 80\n",
        "9 PIN P1 00000000\n41 PIN P1 00001110\n46 PIN P1 00000000\n56 PIN P1 10100101\n80 END\n",
    )
}
