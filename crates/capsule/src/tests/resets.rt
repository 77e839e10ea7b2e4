use super::cases::{VECTOR, shows, shows_code};
use std::test::Fail;

#[test]
fn takes_resets(rt: HostRuntime) -> Result<(), Fail> {
    // A reserved word, in the first tick behind the boot and behind each reset.
    shows_code(
        &rt,
        &[0x1301],
        "version = 1\nend = 6\n",
        "3 RST 40\n4 RST 40\n5 RST 40\n6 END\n",
    )?;
    // SWBOR, behind which the boot has its three ticks again; and both bits at once.
    let bor = "3 RST 06\n6 BOOT 00 00000 00000\n7 RST 06\n9 END\n";
    shows_code(
        &rt,
        &[0x40B2, 0xA504, 0x0120],
        "version = 1\nend = 9\n",
        bor,
    )?;
    shows_code(
        &rt,
        &[0x40B2, 0xA50C, 0x0120],
        "version = 1\nend = 9\n",
        bor,
    )?;
    // SWPOR, and a wrong password.
    shows_code(
        &rt,
        &[0x40B2, 0xA508, 0x0120],
        "version = 1\nend = 5\n",
        "3 RST 14\n4 RST 14\n5 END\n",
    )?;
    shows_code(
        &rt,
        &[0x40B2, 0x0008, 0x0120],
        "version = 1\nend = 5\n",
        "3 RST 20\n4 RST 20\n5 END\n",
    )?;
    // A jump into the peripherals: 4 cycles, and then the reset.
    shows_code(
        &rt,
        &[0x4030, 0x0100],
        "version = 1\nend = 13\n",
        "7 RST 1E\n12 RST 1E\n13 END\n",
    )?;

    // A PUC makes P1 an input again, and leaves the lock clear; the program sets it all the same.
    let directions = [
        0xC392, 0x0130, // BIC #1, &PM5CTL0         4 cycles, ticks 3 and 11
        0x43D2, 0x0204, // MOV.B #1, &P1DIR         3 cycles, ticks 7 and 15
        0x1301, // reserved                         ticks 10 and 18
    ];
    let lines =
        "7 PIN P1 zzzzzzz0\n10 RST 40\n10 PIN P1 zzzzzzzz\n15 PIN P1 zzzzzzz0\n18 RST 40\n18 PIN P1 zzzzzzzz\n19 END\n";
    shows_code(&rt, &directions, "version = 1\nend = 19\n", lines)?;

    // SYSRSTIV tells the cause once: 02h when power came on, and 40h behind the reserved word.
    let causes = [
        0xC392, 0x0130, // BIC #1, &PM5CTL0         4 cycles, ticks 3 and 21
        0x43F2, 0x0204, // MOV.B #-1, &P1DIR        3 cycles, ticks 7 and 25
        0x42D2, 0x019E, 0x0202, // MOV.B &SYSRSTIV, &P1OUT  5 cycles, ticks 10 and 28
        0x42D2, 0x019E, 0x0202, // the same         5 cycles, ticks 15 and 33
        0x1301, // reserved                         tick 20
    ];
    let lines =
        "7 PIN P1 00000000\n10 PIN P1 00000010\n15 PIN P1 00000000\n20 RST 40\n20 PIN P1 zzzzzzzz\n25 PIN P1 00000000\n28 PIN P1 01000000\n33 PIN P1 00000000\n34 END\n";
    shows_code(&rt, &causes, "version = 1\nend = 34\n", lines)?;

    // The program erases its reset vector, in 3 cycles.
    let erased = [0x43B2, 0xFFFE, 0x1301];
    shows_code(
        &rt,
        &erased,
        "version = 1\nend = 10\n",
        "6 RST 40\n6 DEAD\n10 END\n",
    )?;
    Ok(())
}

#[test]
fn the_watchdog_ends_its_intervals(rt: HostRuntime) -> Result<(), Fail> {
    // A reset leaves the lock clear, and makes P1 an input and the interval 2^15 again.
    let hasty = [
        0x40B2, 0x5A0D, 0x015C, // MOV #5A0Dh, &WDTCTL  4 cycles, tick 3: an interval of 8192 from tick 4 on
        0xC392, 0x0130, // BIC #1, &PM5CTL0         4 cycles, tick 7
        0x43D2, 0x0204, // MOV.B #1, &P1DIR         3 cycles, tick 11
        0x43D2, 0x0202, // MOV.B #1, &P1OUT         tick 14
        0x3FFF, // JMP $
    ];
    let lines = "11 PIN P1 zzzzzzz0
14 PIN P1 zzzzzzz1
8195 RST 16
8195 PIN P1 zzzzzzzz
8204 PIN P1 zzzzzzz0
8207 PIN P1 zzzzzzz1
8300 END
";
    shows_code(&rt, &hasty, "version = 1\nend = 8300\n", lines)?;
    // A wrong password.
    let wrong = [0x40B2, 0x0000, 0x015C];
    shows_code(
        &rt,
        &wrong,
        "version = 1\nend = 5\n",
        "3 RST 18\n4 RST 18\n5 END\n",
    )?;

    let sleeper = [
        0x4031, 0x2400, // MOV #2400h, SP           2 cycles, tick 3
        0xC392, 0x0130, // BIC #1, &PM5CTL0         4 cycles, tick 5
        0x43D2, 0x0204, // MOV.B #1, &P1DIR         3 cycles, tick 9
        0x40B2, 0x5A1F, 0x015C, // MOV #5A1Fh, &WDTCTL  4 cycles, tick 12: an interval of 64 from tick 13 on
        0xD392, 0x0100, // BIS #1, &SFRIE1          4 cycles, tick 16
        0xD032, 0x0018, // BIS #18h, SR             2 cycles, tick 20: GIE and CPUOFF
        0x3FFF, // JMP $
    ];
    let routine = [
        0xE3D2, 0x0202, // XOR.B #1, &P1OUT         4 cycles, ticks 82, 146 and 210
        0x1300, // RETI                             5 cycles
    ];
    // The flag is set in the ticks 76, 140 and 204, and an entry takes 6 ticks.
    shows(
        &rt,
        &[
            (0x4400, &sleeper),
            (0x4440, &routine),
            (0xFFF2, &[0x4440]),
            (0xFFFE, &VECTOR),
        ],
        "version = 1\nend = 215\n",
        "9 PIN P1 zzzzzzz0\n82 PIN P1 zzzzzzz1\n146 PIN P1 zzzzzzz0\n210 PIN P1 zzzzzzz1\n215 END\n",
    )?;
    Ok(())
}
