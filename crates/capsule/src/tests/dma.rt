use super::cases::{SHOW_P1, VECTOR, shows};
use std::test::Fail;

/// The bytes that DMA plays: A5h, 5Ah, FFh, 0 and 81h.
const TABLE: [u16; 3] = [0x5AA5, 0x00FF, 0x0081];

/// Code at 4408h, behind SHOW_P1, and the lines behind the boot's.
#[derive(Clone, Copy)]
struct Transfers<'a> {
    code: &'a [u16],
    lines: &'a str,
}

#[test]
fn dma_takes_the_bus(rt: HostRuntime) -> Result<(), Fail> {
    // Each begins in tick 10, and DMA writes P1OUT from a table at 4440h. The write of DMA0CTL takes four ticks, of which
    // those behind the first wait for DMA.
    let single = [
        0x40B2, 0x4440, 0x0512, // MOV #4440h, &DMA0SA      4 cycles, tick 10
        0x40B2, 0x0202, 0x0516, // MOV #0202h, &DMA0DA      4 cycles, tick 14
        0x4392, 0x051A, // MOV #1, &DMA0SZ          3 cycles, tick 18
        0x40B2, 0x00D1, 0x0510, // MOV #00D1h, &DMA0CTL     4 cycles, tick 21: bytes, EN and REQ
        0x43C2, 0x0202, // MOV.B #0, &P1OUT         tick 27
        0x3FFF, // JMP $
    ];
    let block = [
        0x40B2, 0x4440, 0x0512, // MOV #4440h, &DMA0SA      4 cycles, tick 10
        0x40B2, 0x0202, 0x0516, // MOV #0202h, &DMA0DA      4 cycles, tick 14
        0x40B2, 0x0003, 0x051A, // MOV #3, &DMA0SZ          4 cycles, tick 18
        0x40B2, 0x13D1, 0x0510, // MOV #13D1h, &DMA0CTL     4 cycles, tick 22: block, the source steps up
        0x43C2, 0x0202, // MOV.B #0, &P1OUT         tick 32, behind six ticks of DMA
        0x3FFF, // JMP $
    ];
    let burst = [
        0x40B2, 0x4440, 0x0512, // MOV #4440h, &DMA0SA      4 cycles, tick 10
        0x40B2, 0x0202, 0x0516, // MOV #0202h, &DMA0DA      4 cycles, tick 14
        0x40B2, 0x0005, 0x051A, // MOV #5, &DMA0SZ          4 cycles, tick 18
        0x40B2, 0x23D1, 0x0510, // MOV #23D1h, &DMA0CTL     4 cycles, tick 22: burst-block
        0x43C2, 0x0202, // MOV.B #0, &P1OUT         tick 36: ticks 31 and 32 between the bursts, and tick 35
        0x3FFF, // JMP $
    ];
    for Transfers { code, lines } in [
        Transfers {
            code: &single,
            lines: "7 PIN P1 00000000\n22 PIN P1 10100101\n27 PIN P1 00000000\n50 END\n",
        },
        Transfers {
            code: &block,
            lines: "7 PIN P1 00000000\n23 PIN P1 10100101\n25 PIN P1 01011010\n27 PIN P1 11111111\n32 PIN P1 00000000\n50 END\n",
        },
        Transfers {
            code: &burst,
            lines: "7 PIN P1 00000000\n23 PIN P1 10100101\n25 PIN P1 01011010\n27 PIN P1 11111111\n29 PIN P1 00000000\n33 PIN P1 10000001\n36 PIN P1 00000000\n50 END\n",
        },
    ] {
        shows(
            &rt,
            &[
                (0x4400, &SHOW_P1),
                (0x4408, code),
                (0x4440, &TABLE),
                (0xFFFE, &VECTOR),
            ],
            "version = 1\nend = 50\n",
            lines,
        )?;
    }
    Ok(())
}

#[test]
fn dma_interrupts(rt: HostRuntime) -> Result<(), Fail> {
    let code = [
        0x4031, 0x2400, // MOV #2400h, SP           2 cycles, tick 3
        0xC392, 0x0130, // BIC #1, &PM5CTL0         4 cycles, tick 5
        0x43F2, 0x0204, // MOV.B #-1, &P1DIR        3 cycles, tick 9
        0x40B2, 0x4400, 0x0512, // MOV #4400h, &DMA0SA      4 cycles, tick 12
        0x40B2, 0x1C00, 0x0516, // MOV #1C00h, &DMA0DA      4 cycles, tick 16
        0x4392, 0x051A, // MOV #1, &DMA0SZ          3 cycles, tick 20
        0xD232, // BIS #8, SR                       1 cycle, tick 23: GIE
        0x40B2, 0x0015, 0x0510, // MOV #0015h, &DMA0CTL     4 cycles, tick 24: EN, IE and REQ; DMA has 25 and 26
        0x3FFF, // JMP $
    ];
    // Entered in tick 30, in six ticks.
    let routine = [
        0x42D2, 0x050E, 0x0202, // MOV.B &DMAIV, &P1OUT     5 cycles, tick 36
        0x42D2, 0x050E, 0x0202, // MOV.B &DMAIV, &P1OUT     5 cycles, tick 41: the read cleared IFG
        0x1300, // RETI
    ];
    shows(
        &rt,
        &[
            (0x4400, &code),
            (0x4460, &routine),
            (0xFFE4, &[0x4460]),
            (0xFFFE, &VECTOR),
        ],
        "version = 1\nend = 60\n",
        "9 PIN P1 00000000\n36 PIN P1 00000010\n41 PIN P1 00000000\n60 END\n",
    )
}
