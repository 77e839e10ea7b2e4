use super::cases::{Case, SIGNED, STRUCTURE, VECTOR, WAIT, image, run_of};
use crate::Status;
use std::process::Abort;
use std::test::Fail;

/// The words of a structure, as each boot of a sealed image reads them.
const STRUCTURE_LINES: &str =
    "3 STRUCT 0 00C0\n4 STRUCT 1 0500\n5 STRUCT 2 0480\n6 STRUCT 3 FEBF\n";

fn release_under<'a>(file: &'a [u8], bench: &'a str) -> Case<'a> {
    Case {
        words: &["release", "image", "bench"],
        bench,
        ..run_of(file)
    }
}

/// Runs an image of some stretches under a bench, and compares its release list behind the words of the structure.
fn releases(
    rt: &(impl Abort + AllocGlobal),
    stretches: &[(u32, &[u16])],
    bench: &str,
    lines: &str,
) -> Result<(), Fail> {
    let alloc = rt.alloc();
    let file = image(alloc, stretches)?;
    let mut text = String::from_str(alloc, STRUCTURE_LINES)?;
    text.push_str(lines)?;
    release_under(file.as_slice(), bench).gives(rt, Status::Done, text.as_str())
}

#[test]
fn a_boot_shows_the_structure(rt: HostRuntime) -> Result<(), Fail> {
    releases(
        &rt,
        &[
            (0x4400, &WAIT),
            (0x4810, &STRUCTURE),
            (0x4900, &[0x1234]),
            (0xFF88, &SIGNED),
            (0xFFFE, &VECTOR),
        ],
        "version = 1\nend = 20\n\
        [[event]]\ntick = 12\ndebug = \"read\"\nat = 0x4900\n\
        [[event]]\ntick = 12\ndebug = \"read\"\nat = 0xFF88\n",
        "20 END\n",
    )
}

#[test]
fn a_violation_leaves_the_seal(rt: HostRuntime) -> Result<(), Fail> {
    // A wrong password of the watchdog asks for a reset, which leads out of the seal.
    releases(
        &rt,
        &[
            (0x4400, &[0x4030, 0x4820]),
            (0x4810, &STRUCTURE),
            (0x4820, &[0x403A, 0x1111, 0x40B2, 0x0000, 0x015C]),
            (0x4900, &[0x1234]),
            (0xFF88, &SIGNED),
            (0xFFFE, &VECTOR),
        ],
        "version = 1\nend = 17\n",
        "16 W 0015C w 0000\n16 RESET 18\n\
        16 EXIT 0 04400 00000 00000 00000 00000 00000 00000 00000 00000 00000 01111 00000 00000 00000 00000 00000\n\
        17 END\n",
    )
}

#[test]
fn an_interrupt_leaves_the_seal(rt: HostRuntime) -> Result<(), Fail> {
    releases(
        &rt,
        &[
            (
                0x4400,
                &[
                    0x4031, 0x2400, 0xD392, 0x0100, 0xD392, 0x0102, 0x4030, 0x4820,
                ],
            ),
            (0x4440, &WAIT),
            (0x4450, &[0xC392, 0x0130, 0x43D2, 0x0204, 0x3FFF]),
            (0x4810, &STRUCTURE),
            (0x4820, &[0xD232, 0x4303, 0x4303, 0x4030, 0x4440]),
            (0x4900, &[0x1234]),
            (0xFF88, &SIGNED),
            (0xFFF2, &[0x4450]),
            (0xFFFE, &VECTOR),
        ],
        "version = 1\nend = 50\n",
        "25 ENTRY 0FFF2\n25 W 023FE w 4822\n25 W 023FC w 0008\n25 R 0FFF2 w\n\
        25 EXIT 5 04450 023FC 00000 00000 00000 00000 00000 00000 00000 00000 00000 00000 00000 00000 00000 00000\n\
        50 END\n",
    )
}

#[test]
fn a_border_that_moves_opens_its_bytes(rt: HostRuntime) -> Result<(), Fail> {
    // The structure lies outside, is written anew, and the boot behind a cut seals less by it.
    let alloc = rt.alloc();
    let file = image(
        alloc,
        &[
            (0x4400, &WAIT),
            (0x6000, &STRUCTURE),
            (0xFF88, &[0xAAAA, 0x0600]),
            (0xFFFE, &VECTOR),
            (0x4D00, &[0xA55A]),
        ],
    )?;
    let mut text = String::from_str(alloc, STRUCTURE_LINES)?;
    text.push_str("16 STRUCT 0 00C0\n17 STRUCT 1 04C0\n18 STRUCT 2 0480\n19 STRUCT 3 FF7F\n")?;
    // 04C00h up to 05000h, which the first boot sealed and the second doesn't: 64 rows.
    for page in ["C", "D", "E", "F"] {
        for row in [
            "0", "1", "2", "3", "4", "5", "6", "7", "8", "9", "A", "B", "C", "D", "E", "F",
        ] {
            text.push_str("20 OPEN 04")?;
            text.push_str(page)?;
            text.push_str(row)?;
            if page == "D" && row == "0" {
                text.push_str("0 5AA5FFFFFFFFFFFFFFFFFFFFFFFFFFFF\n")?;
            } else {
                text.push_str("0 FFFFFFFFFFFFFFFFFFFFFFFFFFFFFFFF\n")?;
            }
        }
    }
    text.push_str("30 END\n")?;
    release_under(
        file.as_slice(),
        "version = 1\nend = 30\n\
        [[event]]\ntick = 12\ndebug = \"write\"\nat = 0x6002\nvalue = 0x04C0\n\
        [[event]]\ntick = 12\ndebug = \"write\"\nat = 0x6006\nvalue = 0xFF7F\n\
        [[cut]]\ntick = 13\nwrites = 0\noff = 1\n",
    )
    .gives(&rt, Status::Done, text.as_str())
}
