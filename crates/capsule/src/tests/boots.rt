use super::cases::{SIGNED, STRUCTURE, VECTOR, WAIT, traces};
use std::test::Fail;

#[test]
fn a_boot_installs_a_structure(rt: HostRuntime) -> Result<(), Fail> {
    traces(
        &rt,
        &[
            (0x4400, &WAIT),
            (0x4810, &STRUCTURE),
            (0x4900, &[0x1234]),
            (0xFF88, &SIGNED),
            (0xFFFE, &VECTOR),
        ],
        "version = 1\nend = 20\n\
        [[event]]\ntick = 12\ndebug = \"read\"\nat = 0x4900\n\
        [[event]]\ntick = 12\ndebug = \"read\"\nat = 0xFF88\n",
        "0 ON\n9 BOOT C0 04800 05000\n12 DBG read 04900 3FFF\n12 DBG read 0FF88 AAAA\n20 END\n",
    )
}

#[test]
fn a_damaged_structure_erases(rt: HostRuntime) -> Result<(), Fail> {
    traces(
        &rt,
        &[
            (0x4400, &WAIT),
            (0x4810, &[0x00C0, 0x0500, 0x0480, 0xFEBE]),
            (0x4900, &[0x1234]),
            (0xFF88, &SIGNED),
            (0xFFFE, &VECTOR),
        ],
        "version = 1\nend = 40000\n\
        [[event]]\ntick = 33000\ndebug = \"read\"\nat = 0x4400\n",
        "0 ON\n8 ERASE\n32521 BOOT 00 00000 00000\n32521 DEAD\n33000 DBG read 04400 FFFF\n40000 END\n",
    )
}

#[test]
fn foreign_code_reads_nothing_of_a_boots_seal(rt: HostRuntime) -> Result<(), Fail> {
    // MOV #.., R4 at the end of what isn't sealed takes 3FFFh for its word, and flag 4 of MPUCTL1 is set.
    traces(
        &rt,
        &[
            (0x47FE, &[0x4034]),
            (0x4800, &[0x5555, 0x3FFF]),
            (0x4810, &STRUCTURE),
            (0x4900, &[0x1234]),
            (0xFF88, &SIGNED),
            (0xFFFE, &[0x47FE]),
        ],
        "version = 1\nend = 20\n\
        [[event]]\ntick = 12\ndebug = \"read\"\nat = 0x5A2\n",
        "0 ON\n9 BOOT C0 04800 05000\n12 DBG read 005A2 0010\n20 END\n",
    )
}

#[test]
fn sealed_code_is_not_halted(rt: HostRuntime) -> Result<(), Fail> {
    // BR #4820h, and JMP $ there.
    traces(
        &rt,
        &[
            (0x4400, &[0x4030, 0x4820]),
            (0x4810, &STRUCTURE),
            (0x4820, &WAIT),
            (0x4900, &[0x1234]),
            (0xFF88, &SIGNED),
            (0xFFFE, &VECTOR),
        ],
        "version = 1\nend = 30\n\
        [[event]]\ntick = 20\ndebug = \"halt\"\n\
        [[event]]\ntick = 21\ndebug = \"reg\"\nreg = 4\n\
        [[event]]\ntick = 21\ndebug = \"read\"\nat = 0x4900\n",
        "0 ON\n9 BOOT C0 04800 05000\n21 DBG reg 4 running\n21 DBG read 04900 3FFF\n30 END\n",
    )
}

/// A command in the boot, and a halt with what a halted processor is asked.
const COMMANDS: &str = "version = 1\nend = 20\n\
    [[event]]\ntick = 1\ndebug = \"read\"\nat = 0x4400\n\
    [[event]]\ntick = 12\ndebug = \"halt\"\n\
    [[event]]\ntick = 13\ndebug = \"reg\"\nreg = 0\n\
    [[event]]\ntick = 13\ndebug = \"setreg\"\nreg = 4\nvalue = 74565\n\
    [[event]]\ntick = 13\ndebug = \"reg\"\nreg = 4\n\
    [[event]]\ntick = 14\ndebug = \"go\"\n";

#[test]
fn a_debugger_waits_for_the_boot(rt: HostRuntime) -> Result<(), Fail> {
    traces(
        &rt,
        &[
            (0x4400, &WAIT),
            (0x4810, &STRUCTURE),
            (0xFF88, &SIGNED),
            (0xFFFE, &VECTOR),
        ],
        COMMANDS,
        "0 ON\n1 DBG read 04400 booting\n9 BOOT C0 04800 05000\n12 HALT 04400\n13 DBG reg 0 04400\n\
        13 DBG setreg 4 ok\n13 DBG reg 4 12345\n14 DBG go ok\n20 END\n",
    )?;
    // With both words of the debug port's lock.
    traces(
        &rt,
        &[
            (0x4400, &WAIT),
            (0x4810, &STRUCTURE),
            (0xFF80, &[0x5555, 0x5555]),
            (0xFF88, &SIGNED),
            (0xFFFE, &VECTOR),
        ],
        COMMANDS,
        "0 ON\n1 DBG read 04400 booting\n9 BOOT C0 04800 05000\n12 DBG halt closed\n13 DBG reg 0 closed\n\
        13 DBG setreg 4 closed\n13 DBG reg 4 closed\n14 DBG go closed\n20 END\n",
    )
}

#[test]
fn a_debugger_erases(rt: HostRuntime) -> Result<(), Fail> {
    traces(
        &rt,
        &[
            (0x4400, &WAIT),
            (0x4810, &STRUCTURE),
            (0xFF88, &SIGNED),
            (0xFFFE, &VECTOR),
        ],
        "version = 1\nend = 40000\n\
        [[event]]\ntick = 12\ndebug = \"erase\"\n\
        [[event]]\ntick = 13\ndebug = \"reset\"\n",
        "0 ON\n9 BOOT C0 04800 05000\n12 DBG erase ok\n12 RST 04\n13 DBG reset booting\n14 ERASE\n\
        32527 BOOT 00 00000 00000\n32527 DEAD\n40000 END\n",
    )
}

#[test]
fn the_saved_pointer_counts(rt: HostRuntime) -> Result<(), Fail> {
    // The debugger makes the pointer in FRAM lead elsewhere, and resets. The pointer that is saved leads on to the structure,
    // and a boot by it has six steps.
    traces(
        &rt,
        &[
            (0x4400, &WAIT),
            (0x4810, &STRUCTURE),
            (0xFF88, &SIGNED),
            (0xFFFE, &VECTOR),
        ],
        "version = 1\nend = 30\n\
        [[event]]\ntick = 12\ndebug = \"write\"\nat = 0xFF88\nvalue = 0\n\
        [[event]]\ntick = 12\ndebug = \"write\"\nat = 0xFF8A\nvalue = 0x500\n\
        [[event]]\ntick = 12\ndebug = \"reset\"\n",
        "0 ON\n9 BOOT C0 04800 05000\n12 DBG write 0FF88 ok\n12 DBG write 0FF8A ok\n12 DBG reset ok\n12 RST 04\n\
        18 BOOT C0 04800 05000\n30 END\n",
    )
}
