use super::cases::{BLINK, Case, SIGNED, STRUCTURE, VECTOR, WAIT, image, run_of};
use crate::Status;
use elf_image::ImageRefused;
use std::alloc::{AllocError, Global};
use std::process::Abort;
use std::test::Fail;
use stimulus::{BenchRefused, RootField};

/// A call that compares two files under a bench.
fn pair_of<'a>(file: &'a [u8], other: &'a [u8], bench: &'a str) -> Case<'a> {
    Case {
        words: &["pair", "image", "other", "bench"],
        other,
        bench,
        ..run_of(file)
    }
}

/// A file whose last words are others.
fn with_last(alloc: Global, file: &[u8], words: &[u16]) -> Result<Vec<u8>, AllocError> {
    let kept = file.len().saturating_sub(words.len().saturating_mul(2));
    let mut other = Vec::new(alloc);
    other.extend_from_slice(file.get(..kept).unwrap_or(&[]))?;
    for word in words {
        other.extend_from_slice(&word.to_le_bytes())?;
    }
    Ok(other)
}

/// Compares an image of some stretches with the one whose last stretch has other words, and expects a status and a text.
fn compares(
    rt: &(impl Abort + AllocGlobal),
    stretches: &[(u32, &[u16])],
    words: &[u16],
    bench: &str,
    status: Status,
    text: &str,
) -> Result<(), Fail> {
    let alloc = rt.alloc();
    let one = image(alloc, stretches)?;
    let other = with_last(alloc, one.as_slice(), words)?;
    pair_of(one.as_slice(), other.as_slice(), bench).gives(rt, status, text)
}

/// Copies the byte at 4500h to P1OUT when its channel of DMA is started.
const COPY: &str = "version = 1\nend = 40\n\
    [[event]]\ntick = 12\ndebug = \"write\"\nat = 0x512\nvalue = 0x4500\n\
    [[event]]\ntick = 12\ndebug = \"write\"\nat = 0x514\nvalue = 0\n\
    [[event]]\ntick = 12\ndebug = \"write\"\nat = 0x516\nvalue = 0x202\n\
    [[event]]\ntick = 12\ndebug = \"write\"\nat = 0x518\nvalue = 0\n\
    [[event]]\ntick = 12\ndebug = \"write\"\nat = 0x51A\nvalue = 1\n\
    [[event]]\ntick = 22\ndebug = \"write\"\nat = 0x510\nvalue = 0xD1\n";

/// What `two_ways_through_a_seal` shows under `COPY`.
const COPIED: &str = "0 ON\n9 BOOT C0 04800 05000\n\
    12 DBG write 00512 ok\n12 DBG write 00514 ok\n12 DBG write 00516 ok\n\
    12 DBG write 00518 ok\n12 DBG write 0051A ok\n14 PIN P1 00000000\n\
    22 DBG write 00510 ok\n22 PIN P1 01010101\n40 END\nsame\n";

#[test]
fn two_ways_through_a_seal(rt: HostRuntime) -> Result<(), Fail> {
    // One takes four NOPs, the other clears bits of a byte in the seal for as many ticks, and DMA owns the bus in between.
    compares(
        &rt,
        &[
            (0x4400, &[0xC392, 0x0130, 0x43F2, 0x0204, 0x4030, 0x4820]),
            (0x4440, &WAIT),
            (0x4500, &[0x0055]),
            (0x4810, &STRUCTURE),
            (0x4900, &[0x1234]),
            (0xFF88, &SIGNED),
            (0xFFFE, &VECTOR),
            (0x4820, &[0x4303, 0x4303, 0x4303, 0x4303, 0x4030, 0x4440]),
        ],
        &[0xC382, 0x4900, 0x4030, 0x4440, 0xFFFF, 0xFFFF],
        COPY,
        Status::Done,
        COPIED,
    )
}

#[test]
fn a_register_that_leaves_a_seal(rt: HostRuntime) -> Result<(), Fail> {
    // R10 holds 1111h in one and 2222h in the other, when a wrong password of the watchdog resets.
    let bench = "version = 1\nend = 17\n";
    compares(
        &rt,
        &[
            (0x4400, &[0x4030, 0x4820]),
            (0x4810, &STRUCTURE),
            (0x4900, &[0x1234]),
            (0xFF88, &SIGNED),
            (0xFFFE, &VECTOR),
            (0x4820, &[0x403A, 0x1111, 0x40B2, 0x0000, 0x015C]),
        ],
        &[0x403A, 0x2222, 0x40B2, 0x0000, 0x015C],
        bench,
        Status::Differ,
        "0 ON\n9 BOOT C0 04800 05000\ndiffer release 16\n",
    )?;
    // A secret that the code doesn't look at.
    compares(
        &rt,
        &[
            (0x4400, &[0x4030, 0x4820]),
            (0x4810, &STRUCTURE),
            (0x4820, &[0x403A, 0x1111, 0x40B2, 0x0000, 0x015C]),
            (0xFF88, &SIGNED),
            (0xFFFE, &VECTOR),
            (0x4900, &[0x1234]),
        ],
        &[0x4321],
        bench,
        Status::Done,
        "0 ON\n9 BOOT C0 04800 05000\n16 RST 18\n17 END\nsame\n",
    )
}

#[test]
fn bytes_that_stay_secret_no_more(rt: HostRuntime) -> Result<(), Fail> {
    // The debugger moves the border in the structure, which lies outside the area: the next boot opens 4C00h to 4FFFh.
    let bench = "version = 1\nend = 30\n\
        [[event]]\ntick = 12\ndebug = \"write\"\nat = 0x6002\nvalue = 0x04C0\n\
        [[event]]\ntick = 12\ndebug = \"write\"\nat = 0x6006\nvalue = 0xFF7F\n\
        [[cut]]\ntick = 13\nwrites = 0\noff = 1\n";
    compares(
        &rt,
        &[
            (0x4400, &WAIT),
            (0x6000, &STRUCTURE),
            (0xFF88, &[0xAAAA, 0x0600]),
            (0xFFFE, &VECTOR),
            (0x4D00, &[0x1111]),
        ],
        &[0x2222],
        bench,
        Status::Differ,
        "0 ON\n9 BOOT C0 04800 05000\n12 DBG write 06002 ok\n12 DBG write 06006 ok\n13 CUT\n15 ON\n\
        differ release 20\n",
    )?;
    compares(
        &rt,
        &[
            (0x4400, &WAIT),
            (0x6000, &STRUCTURE),
            (0xFF88, &[0xAAAA, 0x0600]),
            (0xFFFE, &VECTOR),
            (0x4900, &[0x1111]),
        ],
        &[0x2222],
        bench,
        Status::Done,
        "0 ON\n9 BOOT C0 04800 05000\n12 DBG write 06002 ok\n12 DBG write 06006 ok\n13 CUT\n15 ON\n\
        20 BOOT C0 04800 04C00\n30 END\nsame\n",
    )
}

#[test]
fn images_differ_before_they_run(rt: HostRuntime) -> Result<(), Fail> {
    let bench = "version = 1\nend = 20\n";
    // The check of the second structure is bad.
    compares(
        &rt,
        &[
            (0x4400, &WAIT),
            (0x4900, &[0x1234]),
            (0xFF88, &SIGNED),
            (0xFFFE, &VECTOR),
            (0x4810, &STRUCTURE),
        ],
        &[0x00C0, 0x0500, 0x0480, 0xFEBE],
        bench,
        Status::Differ,
        "differ seal\n",
    )?;
    let mut other = BLINK;
    other[4] = 0x43E2;
    compares(
        &rt,
        &[(0xFFFE, &VECTOR), (0x4400, &BLINK)],
        &other,
        bench,
        Status::Differ,
        "differ outside 04408\n",
    )?;
    // Information FRAM comes before main FRAM, a byte at an odd address too.
    compares(
        &rt,
        &[(0x4400, &BLINK), (0x18FE, &[0x0101, 0x0101])],
        &[0x0201, 0x0102],
        bench,
        Status::Differ,
        "differ outside 018FF\n",
    )?;
    // What an image says of SRAM, and behind FRAM, doesn't count.
    compares(
        &rt,
        &[(0x1C00, &[1])],
        &[2],
        "version = 1\nend = 1\n",
        Status::Done,
        "0 ON\n1 END\nsame\n",
    )?;
    compares(
        &rt,
        &[(0x13FFE, &[1, 1])],
        &[1, 2],
        "version = 1\nend = 1\n",
        Status::Done,
        "0 ON\n1 END\nsame\n",
    )?;
    compares(
        &rt,
        &[(0x13FFE, &[1])],
        &[0x0101],
        bench,
        Status::Differ,
        "differ outside 13FFF\n",
    )
}

#[test]
fn files_decide_in_their_order(rt: HostRuntime) -> Result<(), Fail> {
    let alloc = rt.alloc();
    let blink = image(alloc, &[(0x4400, &BLINK), (0xFFFE, &VECTOR)])?;
    let file = blink.as_slice();
    let bench = "version = 1\nend = 1\n";
    let short = Status::Image(ImageRefused::Short(52, 0));
    pair_of(&[], &[], "").gives(&rt, short, "")?;
    pair_of(file, &[], "").gives(&rt, short, "")?;
    pair_of(file, file, "version = 1\n").gives(
        &rt,
        Status::Bench(BenchRefused::Field(RootField::End)),
        "",
    )?;
    for words in [
        ["pair", "none", "none", "none"],
        ["pair", "image", "none", "none"],
        ["pair", "image", "other", "none"],
    ] {
        Case {
            words: &words,
            ..pair_of(file, file, bench)
        }
        .gives(&rt, Status::Absent, "")?;
    }
    // One name may stand for both images, and is read twice.
    Case {
        words: &["pair", "image", "image", "bench"],
        ..pair_of(file, &[], bench)
    }
    .gives(&rt, Status::Done, "0 ON\n1 END\nsame\n")?;
    // Each file is a find, a read that gives its bytes, and one that meets its end.
    for shelf_fails in 1..=9 {
        Case {
            shelf_fails,
            ..pair_of(file, file, bench)
        }
        .gives(&rt, Status::ReadFault, "")?;
    }
    // Each line is a put.
    for (sink_fails, front) in [(1, ""), (2, "0 ON\n"), (3, "0 ON\n1 END\n")] {
        Case {
            sink_fails,
            ..pair_of(file, file, bench)
        }
        .gives(&rt, Status::WriteFault, front)?;
    }
    Case {
        room: 13,
        ..pair_of(file, file, bench)
    }
    .gives(&rt, Status::WriteFault, "0 ON\n1 END\nsa")
}
