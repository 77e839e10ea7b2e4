use super::cases::{VECTOR, image, run_under, shows_code};
use crate::Status;
use std::test::Fail;

#[test]
fn a_debugger_reads_registers_of_units(rt: HostRuntime) -> Result<(), Fail> {
    let code = [0x40B2, 0x0000, 0x015C]; // MOV #0, &WDTCTL   a wrong password, tick 3
    shows_code(
        &rt,
        &code,
        "version = 1\nend = 5\n\
        [[event]]\ntick = 4\ndebug = \"read\"\nat = 0x19E\n\
        [[event]]\ntick = 4\ndebug = \"read\"\nat = 0x19E\n",
        "3 RST 18\n4 DBG read 0019E 0018\n4 DBG read 0019E 0000\n4 RST 18\n5 END\n",
    )
}

/// Commands in the boot, a halt, and what a halted processor is asked.
const COMMANDS: &str = "version = 1\nend = 20\n\
    [[event]]\ntick = 1\ndebug = \"read\"\nat = 0x4400\n\
    [[event]]\ntick = 13\ndebug = \"halt\"\n\
    [[event]]\ntick = 14\ndebug = \"reg\"\nreg = 0\n\
    [[event]]\ntick = 14\ndebug = \"setreg\"\nreg = 4\nvalue = 74565\n\
    [[event]]\ntick = 14\ndebug = \"reg\"\nreg = 4\n\
    [[event]]\ntick = 15\ndebug = \"go\"\n\
    [[event]]\ntick = 16\ndebug = \"reg\"\nreg = 4\n";

#[test]
fn a_halted_processor_tells_its_registers(rt: HostRuntime) -> Result<(), Fail> {
    // JMP $ takes two ticks, from tick 3 on, so the processor isn't busy in tick 13.
    let file = image(rt.alloc(), &[(0x4400, &[0x3FFF]), (0xFFFE, &VECTOR)])?;
    run_under(file.as_slice(), COMMANDS).gives(
        &rt,
        Status::Done,
        "0 ON\n1 DBG read 04400 booting\n2 BOOT 00 00000 00000\n13 HALT 04400\n14 DBG reg 0 04400\n\
        14 DBG setreg 4 ok\n14 DBG reg 4 12345\n15 DBG go ok\n16 DBG reg 4 running\n20 END\n",
    )
}

#[test]
fn a_closed_port_refuses_all(rt: HostRuntime) -> Result<(), Fail> {
    let file = image(
        rt.alloc(),
        &[
            (0x4400, &[0x3FFF]),
            (0xFF80, &[0x5555, 0x5555]),
            (0xFFFE, &VECTOR),
        ],
    )?;
    run_under(file.as_slice(), COMMANDS).gives(
        &rt,
        Status::Done,
        "0 ON\n1 DBG read 04400 booting\n2 BOOT 00 00000 00000\n13 DBG halt closed\n14 DBG reg 0 closed\n\
        14 DBG setreg 4 closed\n14 DBG reg 4 closed\n15 DBG go closed\n16 DBG reg 4 closed\n20 END\n",
    )
}

#[test]
fn a_debugger_writes_dumps_and_resets(rt: HostRuntime) -> Result<(), Fail> {
    let file = image(rt.alloc(), &[(0x4400, &[0x3FFF]), (0xFFFE, &VECTOR)])?;
    // An odd address is printed as it is given, and a word is at the even one; behind the last address comes 0, where
    // peripherals without a register read 0, and vacant memory reads FFh. The reset comes at the end of its tick, a BOR.
    run_under(
        file.as_slice(),
        "version = 1\nend = 12\n\
        [[event]]\ntick = 4\ndebug = \"write\"\nat = 0x1C01\nvalue = 0xBEEF\n\
        [[event]]\ntick = 4\ndebug = \"dump\"\nat = 0x1C00\ncount = 3\n\
        [[event]]\ntick = 5\ndebug = \"dump\"\nat = 0xFFFFF\ncount = 2\n\
        [[event]]\ntick = 6\ndebug = \"reset\"\n\
        [[event]]\ntick = 6\ndebug = \"reg\"\nreg = 0\n",
    )
    .gives(
        &rt,
        Status::Done,
        "0 ON\n2 BOOT 00 00000 00000\n4 DBG write 01C01 ok\n4 DBG dump 01C00 EFBE00\n5 DBG dump FFFFF FF00\n\
        6 DBG reset ok\n6 DBG reg 0 running\n6 RST 04\n9 BOOT 00 00000 00000\n12 END\n",
    )
}
