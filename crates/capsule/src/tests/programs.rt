use super::cases::{SHOW_P1, VECTOR, image, run_of};
use crate::Status;
use std::test::Fail;

#[test]
fn executes_calls_loops_and_the_stack(rt: HostRuntime) -> Result<(), Fail> {
    // SP is 2400h. R5 counts from 3 to 0 in a loop of DEC (SUB #1) and JNZ; the pins are toggled by a
    // routine that is called each time and saves R5 on the stack.
    let code = [
        0x4031, 0x2400, // 4400: MOV #2400h, SP     2 cycles, tick 3
        0xC392, 0x0130, // 4404: BIC #1, &PM5CTL0   4 cycles, tick 5
        0x43D2, 0x0204, // 4408: MOV.B #1, &P1DIR   3 cycles, tick 9
        0x4035, 0x0003, // 440C: MOV #3, R5         2 cycles, tick 12
        0x12B0, 0x4420, // 4410: CALL #4420h        4 cycles, ticks 14, 36, 58
        0x8315, // 4414: SUB #1, R5                 1 cycle
        0x23FC, // 4416: JNZ 4410h                  2 cycles
        0x3FFF, // 4418: JMP $
    ];
    let routine = [
        0x1205, // 4420: PUSH R5                    3 cycles
        0x4035, 0x0001, // 4422: MOV #1, R5         2 cycles
        0xE5C2, 0x0202, // 4426: XOR.B R5, &P1OUT   4 cycles
        0x4135, // 442A: MOV @SP+, R5               2 cycles
        0x4130, // 442C: MOV @SP+, PC               4 cycles
    ];
    let file = image(
        rt.alloc(),
        &[(0x4400, &code), (0x4420, &routine), (0xFFFE, &VECTOR)],
    )?;
    // A turn takes 4 + 3 + 2 + 4 + 2 + 4 + 1 + 2 = 22 ticks, and its XOR is in the tenth.
    let text =
        "0 ON\n2 BOOT 00 00000 00000\n9 PIN P1 zzzzzzz0\n23 PIN P1 zzzzzzz1\n45 PIN P1 zzzzzzz0\n67 PIN P1 zzzzzzz1\n1000 END\n";
    run_of(file.as_slice()).gives(&rt, Status::Done, text)?;
    Ok(())
}

/// Code at 4400h with the reset vector that leads to it, and words elsewhere; the lines behind the boot's.
#[derive(Clone, Copy)]
struct Program<'a> {
    code: &'a [u16],
    elsewhere: (u32, &'a [u16]),
    lines: &'a str,
}

#[test]
fn executes_the_msp430x(rt: HostRuntime) -> Result<(), Fail> {
    let repeated = [
        0x4035, 0x0003, // MOV #3, R5               2 cycles, tick 10
        0x4036, 0x0001, // MOV #1, R6               2 cycles, tick 12
        0x1843, 0x5506, // RPT #4: ADDX R5, R6      5 cycles, tick 14
        0x46C2, 0x0202, // MOV.B R6, &P1OUT         tick 19: 1 + 4 * 3
        0x3FFF, // JMP $
    ];
    let count_in_a_register = [
        0x0085, 0x8001, // MOVA #8001h, R5          2 cycles, tick 10
        0x0086, 0x0003, // MOVA #3, R6              2 cycles, tick 12
        0xD312, // BIS #1, SR                       1 cycle, tick 14
        0x19C6, 0x1005, // RPT R6: RRUX R5          5 cycles, tick 15: four times, and 0 enters each time
        0x1085, // SWPB R5                          1 cycle, tick 20
        0x45C2, 0x0202, // MOV.B R5, &P1OUT         tick 21: the upper byte of 0800h
        0x3FFF, // JMP $
    ];
    let stack = [
        0x0081, 0x2400, // MOVA #2400h, SP          2 cycles, tick 10
        0x0185, 0x2345, // MOVA #12345h, R5         2 cycles, tick 12
        0x0086, 0xABCD, // MOVA #0ABCDh, R6         2 cycles, tick 14
        0x1416, // PUSHM.A #2, R6                   6 cycles, tick 16
        0x1617, // POPM.A #2, R7                    6 cycles, tick 22: R7 is R5's value, and R8 is R6's
        0x48C2, 0x0202, // MOV.B R8, &P1OUT         3 cycles, tick 28: CDh
        0x0F47, // RRUM.A #4, R7                    4 cycles, tick 31
        0x0F47, // RRUM.A #4, R7                    4 cycles, tick 35
        0x0F47, // RRUM.A #4, R7                    4 cycles, tick 39
        0x0F47, // RRUM.A #4, R7                    4 cycles, tick 43
        0x47C2, 0x0202, // MOV.B R7, &P1OUT         tick 47: bits 19:16
        0x3FFF, // JMP $
    ];
    let far_call = [
        0x0081, 0x2400, // MOVA #2400h, SP          2 cycles, tick 10
        0x13B1, 0x0000, // CALLA #10000h            5 cycles, tick 12
        0x43E2, 0x0202, // MOV.B #2, &P1OUT         tick 25
        0x3FFF, // JMP $
    ];
    let far_routine = [
        0x43D2, 0x0202, // MOV.B #1, &P1OUT         3 cycles, tick 17
        0x0110, // MOVA @SP+, PC                    5 cycles, tick 20
    ];
    let memory = [
        0x0F85, 0x1234, // MOVA #F1234h, R5         2 cycles, tick 10
        0x0186, 0x0001, // MOVA #10001h, R6         2 cycles, tick 12
        0x1800, 0x45C2, 0x1C00, // MOVX.A R5, &1C00h  5 cycles, tick 14
        0x42D2, 0x1C02, 0x0202, // MOV.B &1C02h, &P1OUT  5 cycles, tick 19: bits 19:16 stand two bytes above
        0x1800, 0x5256, 0x1C00, // ADDX.A &1C00h, R6  5 cycles, tick 24: 101235h, which sets the carry
        0x2C01, // JC over the next word            2 cycles, tick 29
        0x3FFF, // JMP $
        0x46C2, 0x0202, // MOV.B R6, &P1OUT         tick 31: 35h
        0x3FFF, // JMP $
    ];
    for program in [
        Program {
            code: &repeated,
            elsewhere: (0x4800, &[]),
            lines: "19 PIN P1 00001101\n",
        },
        Program {
            code: &count_in_a_register,
            elsewhere: (0x4800, &[]),
            lines: "21 PIN P1 00001000\n",
        },
        Program {
            code: &stack,
            elsewhere: (0x4800, &[]),
            lines: "28 PIN P1 11001101\n47 PIN P1 00000001\n",
        },
        Program {
            code: &far_call,
            elsewhere: (0x1_0000, &far_routine),
            lines: "17 PIN P1 00000001\n25 PIN P1 00000010\n",
        },
        Program {
            code: &memory,
            elsewhere: (0x4800, &[]),
            lines: "19 PIN P1 00001111\n31 PIN P1 00110101\n",
        },
    ] {
        let alloc = rt.alloc();
        let file = image(
            alloc,
            &[
                (0x4400, &SHOW_P1),
                (0x4408, program.code),
                program.elsewhere,
                (0xFFFE, &VECTOR),
            ],
        )?;
        let mut text = String::from_str(alloc, "0 ON\n2 BOOT 00 00000 00000\n7 PIN P1 00000000\n")?;
        text.push_str(program.lines)?;
        text.push_str("1000 END\n")?;
        run_of(file.as_slice()).gives(&rt, Status::Done, text.as_str())?;
    }
    Ok(())
}

#[test]
fn adds_decimal_digits(rt: HostRuntime) -> Result<(), Fail> {
    // 0999 and 1 are 1000, with no carry, and SR stays 0.
    let code = [
        0x4035, 0x0001, // MOV #1, R5               2 cycles, tick 10
        0xA035, 0x0999, // DADD #0999h, R5          2 cycles, tick 12
        0x4206, // MOV SR, R6                       1 cycle, tick 14
        0x1085, // SWPB R5                          1 cycle, tick 15
        0x45C2, 0x0202, // MOV.B R5, &P1OUT         3 cycles, tick 16: the upper byte of 1000h
        0x46C2, 0x0202, // MOV.B R6, &P1OUT         3 cycles, tick 19: C, Z and N
        0x1086, // SWPB R6                          1 cycle, tick 22
        0x5316, // ADD #1, R6                       1 cycle, tick 23
        0x46C2, 0x0202, // MOV.B R6, &P1OUT         tick 24: one more than V
        0x3FFF, // JMP $
    ];
    let file = image(
        rt.alloc(),
        &[(0x4400, &SHOW_P1), (0x4408, &code), (0xFFFE, &VECTOR)],
    )?;
    let text =
        "0 ON\n2 BOOT 00 00000 00000\n7 PIN P1 00000000\n16 PIN P1 00010000\n19 PIN P1 00000000\n24 PIN P1 00000001\n1000 END\n";
    run_of(file.as_slice()).gives(&rt, Status::Done, text)?;
    Ok(())
}
