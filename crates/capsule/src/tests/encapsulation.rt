use super::cases::{VECTOR, shows};
use std::test::Fail;

/// Seals 04800h up to 05000h: opens the latch, sets the borders, and in tick 15 the lock.
const SEAL: [u16; 12] = [
    0x40B2, 0xA500, 0x05A0, // MOV #A500h, &MPUCTL0      4 cycles, tick 3
    0x40B2, 0x0480, 0x05AE, // MOV #0480h, &MPUIPSEGB1   4 cycles, tick 7
    0x40B2, 0x0500, 0x05AC, // MOV #0500h, &MPUIPSEGB2   4 cycles, tick 11
    0x40B2, 0x00C0, 0x05AA, // MOV #00C0h, &MPUIPC0      4 cycles, tick 15
];

/// JMP $
const WAIT: [u16; 1] = [0x3FFF];

#[test]
fn a_seal_hides_its_bytes(rt: HostRuntime) -> Result<(), Fail> {
    shows(
        &rt,
        &[
            (0x4400, &SEAL),
            (0x4418, &WAIT),
            (0x4900, &[0x1234]),
            (0xFFFE, &VECTOR),
        ],
        "version = 1\nend = 20\n\
        [[event]]\ntick = 15\ndebug = \"read\"\nat = 0x4900\n\
        [[event]]\ntick = 16\ndebug = \"read\"\nat = 0x4900\n",
        "15 DBG read 04900 1234\n16 DBG read 04900 3FFF\n20 END\n",
    )
}

#[test]
fn foreign_code_reads_nothing_of_a_seal(rt: HostRuntime) -> Result<(), Fail> {
    // The immediate word lies in the seal, and the instruction doesn't: it takes 3FFFh for it, and flag 4 is set.
    let border = [0x4034]; // MOV #.., R4         tick 23
    let inside = [0x5555, 0x3FFF]; // the word, and JMP $
    shows(
        &rt,
        &[
            (0x4400, &SEAL),
            (0x4418, &[0x4030, 0x47FE]), // BR #47FEh    4 cycles, tick 19
            (0x47FE, &border),
            (0x4800, &inside),
            (0xFFFE, &VECTOR),
        ],
        "version = 1\nend = 30\n\
        [[event]]\ntick = 23\ndebug = \"read\"\nat = 0x5A2\n\
        [[event]]\ntick = 24\ndebug = \"read\"\nat = 0x5A2\n",
        "23 DBG read 005A2 0000\n24 DBG read 005A2 0010\n30 END\n",
    )
}

#[test]
fn a_violation_of_the_area_resets(rt: HostRuntime) -> Result<(), Fail> {
    // With VS in MPUIPC0 too, a read from outside asks for a PUC, which leaves the lock.
    let vs = [
        0x40B2, 0xA500, 0x05A0, // MOV #A500h, &MPUCTL0      tick 3
        0x40B2, 0x0480, 0x05AE, // MOV #0480h, &MPUIPSEGB1   tick 7
        0x40B2, 0x0500, 0x05AC, // MOV #0500h, &MPUIPSEGB2   tick 11
        0x40B2, 0x00E0, 0x05AA, // MOV #00E0h, &MPUIPC0      tick 15
        0x4214, 0x4900, // MOV &4900h, R4            tick 19, and after the reset tick 36
    ];
    shows(
        &rt,
        &[(0x4400, &vs), (0xFFFE, &VECTOR)],
        "version = 1\nend = 40\n\
        [[event]]\ntick = 20\ndebug = \"read\"\nat = 0x19E\n\
        [[event]]\ntick = 21\ndebug = \"read\"\nat = 0x5AA\n",
        "19 RST 26\n20 DBG read 0019E 0026\n21 DBG read 005AA 00E0\n36 RST 26\n40 END\n",
    )
}

#[test]
fn a_halt_waits_until_sealed_code_is_left(rt: HostRuntime) -> Result<(), Fail> {
    let enter = [0x4030, 0x4820]; // BR #4820h            4 cycles, tick 19
    let stay = [
        0x4303, 0x4303, // NOP, NOP                  ticks 23 and 24
        0x4030, 0x4420, // BR #4420h                 4 cycles, tick 25
    ];
    shows(
        &rt,
        &[
            (0x4400, &SEAL),
            (0x4418, &enter),
            (0x4420, &WAIT),
            (0x4820, &stay),
            (0x4900, &[0x1234]),
            (0xFFFE, &VECTOR),
        ],
        "version = 1\nend = 32\n\
        [[event]]\ntick = 23\ndebug = \"halt\"\n\
        [[event]]\ntick = 24\ndebug = \"reg\"\nreg = 4\n\
        [[event]]\ntick = 24\ndebug = \"read\"\nat = 0x4900\n\
        [[event]]\ntick = 30\ndebug = \"reg\"\nreg = 0\n",
        "24 DBG reg 4 running\n24 DBG read 04900 3FFF\n29 HALT 04420\n30 DBG reg 0 04420\n32 END\n",
    )
}
