use super::cases::{VECTOR, shows, shows_code};
use std::test::Fail;

#[test]
fn enters_interrupts(rt: HostRuntime) -> Result<(), Fail> {
    // The routine alone makes P1.0 an output.
    let bare = [
        0x4031, 0x2400, 0xD392, 0x0100, 0xD392, 0x0102, 0xD232, 0x3FFF,
    ];
    let unlock = [0xC392, 0x0130, 0x43D2, 0x0204, 0x3FFF];
    shows(
        &rt,
        &[
            (0x4400, &bare),
            (0x4440, &unlock),
            (0xFFF2, &[0x4440]),
            (0xFFFE, &VECTOR),
        ],
        "version = 1\nend = 1000\n",
        "24 PIN P1 zzzzzzz0\n1000 END\n",
    )?;

    let sleeper = [
        0x4031, 0x2400, // MOV #2400h, SP           2 cycles, tick 3
        0xC392, 0x0130, // BIC #1, &PM5CTL0         4 cycles, tick 5
        0x43D2, 0x0204, // MOV.B #1, &P1DIR         3 cycles, tick 9
        0xD392, 0x0100, // BIS #1, &SFRIE1          4 cycles, tick 12
        0xD392, 0x0102, // BIS #1, &SFRIFG1         4 cycles, tick 16
        0xD032, 0x0018, // BIS #18h, SR             2 cycles, tick 20: GIE and CPUOFF
        0x3FFF, // JMP $
    ];
    let once = [
        0xE3D2, 0x0202, // XOR.B #1, &P1OUT         4 cycles, tick 28, behind the 6 of the entry
        0x1300, // RETI                             5 cycles; the entry cleared the flag
    ];
    let again = [
        0xE3D2, 0x0202, // XOR.B #1, &P1OUT         4 cycles, ticks 28, 47 and 66
        0xD392, 0x0102, // BIS #1, &SFRIFG1         4 cycles
        0x1300, // RETI                             5 cycles, ticks 36, 55 and 74
    ];
    shows(
        &rt,
        &[
            (0x4400, &sleeper),
            (0x4440, &once),
            (0xFFF2, &[0x4440]),
            (0xFFFE, &VECTOR),
        ],
        "version = 1\nend = 80\n",
        "9 PIN P1 zzzzzzz0\n28 PIN P1 zzzzzzz1\n80 END\n",
    )?;
    shows(
        &rt,
        &[
            (0x4400, &sleeper),
            (0x4440, &again),
            (0xFFF2, &[0x4440]),
            (0xFFFE, &VECTOR),
        ],
        "version = 1\nend = 80\n",
        "9 PIN P1 zzzzzzz0\n28 PIN P1 zzzzzzz1\n47 PIN P1 zzzzzzz0\n66 PIN P1 zzzzzzz1\n80 END\n",
    )?;
    Ok(())
}

#[test]
fn returns_above_64_kb(rt: HostRuntime) -> Result<(), Fail> {
    let code = [
        0x4031, 0x2400, // MOV #2400h, SP           2 cycles, tick 3
        0xC392, 0x0130, // BIC #1, &PM5CTL0         4 cycles, tick 5
        0x43D2, 0x0204, // MOV.B #1, &P1DIR         3 cycles, tick 9
        0xD392, 0x0100, // BIS #1, &SFRIE1          4 cycles, tick 12
        0xD392, 0x0102, // BIS #1, &SFRIFG1         4 cycles, tick 16
        0x0180, 0x0000, // MOVA #10000h, PC         4 cycles, tick 20
    ];
    let far = [
        0xD232, // BIS #8, SR                       1 cycle, tick 24
        0x43D2, 0x0202, // MOV.B #1, &P1OUT         tick 36, behind 6 ticks of the entry and 5 of RETI
        0x3FFF, // JMP $
    ];
    shows(
        &rt,
        &[
            (0x4400, &code),
            (0x4440, &[0x1300]),
            (0x1_0000, &far),
            (0xFFF2, &[0x4440]),
            (0xFFFE, &VECTOR),
        ],
        "version = 1\nend = 40\n",
        "9 PIN P1 zzzzzzz0\n36 PIN P1 zzzzzzz1\n40 END\n",
    )?;
    Ok(())
}

#[test]
fn follows_the_edges_of_pins(rt: HostRuntime) -> Result<(), Fail> {
    let sleeper = [
        0x4031, 0x2400, // MOV #2400h, SP           2 cycles, tick 3
        0xC392, 0x0130, // BIC #1, &PM5CTL0         4 cycles, tick 5
        0x43F2, 0x0205, // MOV.B #-1, &P2DIR        3 cycles, tick 9
        0x42F2, 0x021A, // MOV.B #8, &P1IE          3 cycles, tick 12
        0xD032, 0x0018, // BIS #18h, SR             2 cycles, tick 15: GIE and CPUOFF
        0x3FFF, // JMP $
    ];
    let routine = [
        0x52D2, 0x020E, 0x0203, // ADD.B &P1IV, &P2OUT  6 cycles, ticks 26 and 50: P1.3 is number 8
        0x1300, // RETI                             5 cycles
    ];
    // The second event is a fall, and the last a rise on a pin that isn't enabled.
    let bench = "version = 1
end = 70
event = [
    { tick = 20, pin = \"P1.3\", level = 1 },
    { tick = 40, pin = \"P1.3\", level = 0 },
    { tick = 44, pin = \"P1.3\", level = 1 },
    { tick = 60, pin = \"P1.0\", level = 1 },
]
";
    shows(
        &rt,
        &[
            (0x4400, &sleeper),
            (0x4440, &routine),
            (0xFFDE, &[0x4440]),
            (0xFFFE, &VECTOR),
        ],
        bench,
        "9 PIN P2 00000000\n26 PIN P2 00001000\n50 PIN P2 00010000\n70 END\n",
    )?;

    let upper_ports = [
        0xC392, 0x0130, // BIC #1, &PM5CTL0         4 cycles, tick 3
        0x43F2, 0x0224, // MOV.B #-1, &P3DIR        3 cycles, tick 7
        0x43B2, 0x0222, // MOV #-1, &P3OUT          3 cycles, tick 10: OUT of P4 too
        0x43F2, 0x0225, // MOV.B #-1, &P4DIR        3 cycles, tick 13
        0x3FFF, // JMP $
    ];
    let lines = "7 PIN P3 00000000\n10 PIN P3 11111111\n13 PIN P4 11111111\n20 END\n";
    shows_code(&rt, &upper_ports, "version = 1\nend = 20\n", lines)?;
    Ok(())
}
