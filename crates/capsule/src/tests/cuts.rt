use super::cases::{BLINK, SIGNED, STRUCTURE, VECTOR, WAIT, image, run_under, traces};
use crate::Status;
use chip_core::{Chip, Items, Lines};
use elf_image::read_image;
use std::test::Fail;
use stimulus::read_bench;

#[test]
fn a_cut_keeps_the_first_writes(rt: HostRuntime) -> Result<(), Fail> {
    // SP is 5000h, and PUSHM.A of 16 registers writes two words for each, from 4FFEh down: 17 of them stand.
    traces(
        &rt,
        &[(0x4400, &[0x4031, 0x5000, 0x14FF]), (0xFFFE, &VECTOR)],
        "version = 1\nend = 20\n\
        [[cut]]\ntick = 5\nwrites = 17\noff = 10\n\
        [[event]]\ntick = 19\ndebug = \"read\"\nat = 0x4FDE\n\
        [[event]]\ntick = 19\ndebug = \"read\"\nat = 0x4FDC\n",
        "0 ON\n2 BOOT 00 00000 00000\n5 CUT\n16 ON\n18 BOOT 00 00000 00000\n\
        19 DBG read 04FDE 0000\n19 DBG read 04FDC FFFF\n20 END\n",
    )
}

#[test]
fn a_cut_keeps_levels_and_drops_a_write(rt: HostRuntime) -> Result<(), Fail> {
    traces(
        &rt,
        &[(0x4400, &BLINK), (0xFFFE, &VECTOR)],
        "version = 1\nend = 30\n\
        [[event]]\ntick = 20\npin = \"P1.3\"\nlevel = 1\n\
        [[event]]\ntick = 20\ndebug = \"write\"\nat = 0x4500\nvalue = 0x1234\n\
        [[event]]\ntick = 29\ndebug = \"read\"\nat = 0x4500\n\
        [[event]]\ntick = 29\ndebug = \"read\"\nat = 0x200\n\
        [[cut]]\ntick = 20\nwrites = 0\noff = 5\n",
        "0 ON\n2 BOOT 00 00000 00000\n7 PIN P1 zzzzzzz0\n10 PIN P1 zzzzzzz1\n20 DBG write 04500 ok\n20 CUT\n\
        20 PIN P1 zzzzzzzz\n26 ON\n28 BOOT 00 00000 00000\n29 DBG read 04500 FFFF\n29 DBG read 00200 0008\n30 END\n",
    )
}

#[test]
fn a_cut_erase_begins_again(rt: HostRuntime) -> Result<(), Fail> {
    // The check is bad until the structure's first word is erased to FFFFh, which is when it would be good.
    traces(
        &rt,
        &[
            (0x4400, &WAIT),
            (0x4810, &[0x00C0, 0x0500, 0x0480, 0x0180]),
            (0xFF88, &SIGNED),
            (0xFFFE, &VECTOR),
        ],
        "version = 1\nend = 40000\n[[cut]]\ntick = 784\nwrites = 1\noff = 10\n",
        "0 ON\n8 ERASE\n784 CUT\n795 ON\n796 ERASE\n33309 BOOT 00 00000 00000\n33309 DEAD\n40000 END\n",
    )
}

#[test]
fn a_cut_drops_the_mark(rt: HostRuntime) -> Result<(), Fail> {
    // The pointer is written in tick 7, and the mark isn't in tick 8: the next boot goes by the signature again.
    traces(
        &rt,
        &[
            (0x4400, &WAIT),
            (0x4810, &STRUCTURE),
            (0xFF88, &SIGNED),
            (0xFFFE, &VECTOR),
        ],
        "version = 1\nend = 30\n[[cut]]\ntick = 8\nwrites = 0\noff = 4\n",
        "0 ON\n8 CUT\n13 ON\n22 BOOT C0 04800 05000\n30 END\n",
    )
}

#[test]
fn cuts_round_a_boot(rt: HostRuntime) -> Result<(), Fail> {
    let alloc = rt.alloc();
    let file = image(
        alloc,
        &[
            (0x4400, &WAIT),
            (0x4810, &STRUCTURE),
            (0x4900, &[0x1234]),
            (0xFF88, &SIGNED),
            (0xFFFE, &VECTOR),
        ],
    )?;
    // A boot has ten steps, until the mark is written in its ninth, which is tick 8; from then on it has six.
    for tick in 0..20 {
        for writes in 0..3 {
            let bench = format!(in alloc;
                "version = 1\nend = 60\n[[cut]]\ntick = {tick}\nwrites = {writes}\noff = 3\n"
            )?;
            let on = tick + 4;
            let is_marked = tick > 8 || (tick == 8 && writes > 0);
            let boot = if is_marked { tick + 9 } else { tick + 13 };
            let first = if tick > 9 {
                "9 BOOT C0 04800 05000\n"
            } else {
                ""
            };
            let text = format!(in alloc;
                "0 ON\n{first}{tick} CUT\n{on} ON\n{boot} BOOT C0 04800 05000\n60 END\n"
            )?;
            run_under(file.as_slice(), bench.as_str()).gives(&rt, Status::Done, text.as_str())?;
        }
    }
    Ok(())
}

#[test]
fn cuts_round_an_erase(rt: HostRuntime) -> Result<(), Fail> {
    let alloc = rt.alloc();
    let file = image(
        alloc,
        &[
            (0x4400, &WAIT),
            (0x4810, &[0x00C0, 0x0500, 0x0480, 0xFEBE]),
            (0x4900, &[0x1234]),
            (0xFF88, &SIGNED),
            (0xFFFE, &VECTOR),
        ],
    )?;
    // The mark of an erase is written in tick 7. Without it the next boot reads the structure again, for seven steps more.
    for tick in 7..127 {
        for writes in 0..2 {
            let bench = format!(in alloc;
                "version = 1\nend = 40000\n[[cut]]\ntick = {tick}\nwrites = {writes}\noff = 3\n"
            )?;
            let on = tick + 4;
            let boot = if tick == 7 && writes == 0 {
                32532
            } else {
                tick + 32518
            };
            let erase = boot - 32513;
            let first = if tick > 8 { "8 ERASE\n" } else { "" };
            let text = format!(in alloc;
                "0 ON\n{first}{tick} CUT\n{on} ON\n{erase} ERASE\n{boot} BOOT 00 00000 00000\n{boot} DEAD\n40000 END\n"
            )?;
            run_under(file.as_slice(), bench.as_str()).gives(&rt, Status::Done, text.as_str())?;
        }
    }
    Ok(())
}

#[test]
fn a_storm_of_cuts(rt: HostRuntime) -> Result<(), Fail> {
    let alloc = rt.alloc();
    let file = image(alloc, &[(0x4400, &BLINK), (0xFFFE, &VECTOR)])?;
    let mut bench = String::from_str(alloc, "version = 1\nend = 2000\n")?;
    let mut text = String::new(alloc);
    for tick in (0..2000).filter(|tick| tick % 2 == 0) {
        let cut = format!(in alloc; "[[cut]]\ntick = {tick}\nwrites = 0\noff = 1\n")?;
        bench.push_str(cut.as_str())?;
        let lines = format!(in alloc; "{tick} ON\n{tick} CUT\n")?;
        text.push_str(lines.as_str())?;
    }
    text.push_str("2000 END\n")?;
    let mut case = run_under(file.as_slice(), bench.as_str());
    case.room = 40_000;
    case.gives(&rt, Status::Done, text.as_str())
}

#[test]
#[tactic(auto, unfolding(chip_words::specs::Map::region_at))]
fn an_erase_that_is_cut_leaves_fram_blank(rt: HostRuntime) -> Result<(), Fail> {
    let alloc = rt.alloc();
    let file = image(
        alloc,
        &[
            (0x1800, &[0x1234]),
            (0x4810, &[0x00C0, 0x0500, 0x0480, 0xFEBE]),
            (0x13FFE, &[0x1234]),
            (0xFF88, &SIGNED),
            (0xFFFE, &VECTOR),
        ],
    )?;
    let image = read_image(file.as_slice())?;
    let bench = read_bench(
        alloc,
        b"version = 1\nend = 40000\n[[cut]]\ntick = 20000\nwrites = 0\noff = 3\n",
    )?;
    let mut chip = Chip::build(alloc, &image, &bench)?;
    let mut lines = Lines::new();
    let mut items = Items::new();
    for _ in 0..20_001 {
        if chip.view().tick < 40_000 {
            chip.tick(&bench, &mut lines, &mut items);
        }
    }
    // Power is off, the erase has begun, and what it hasn't reached stands.
    let view = chip.view();
    assert!(rt; !view.powered && !view.booted);
    assert_eq!(rt; view.keep.mark, 0x5A02);
    assert_eq!(rt; chip.byte(0x1800), 0xFF);
    assert_eq!(rt; chip.byte(0x13FFE), 0x34);
    // Power comes on in tick 20004, and the erase ends 32,514 ticks later, with nothing sealed or saved.
    for _ in 0..33_000 {
        if chip.view().tick < 9_999_999 {
            chip.tick(&bench, &mut lines, &mut items);
        }
    }
    let view = chip.view();
    assert!(rt; view.powered && view.booted && view.dead && !view.halted);
    assert_eq!(rt; view.keep.mark, 0xFFFF);
    assert_eq!(rt; view.seal.high, 0);
    assert_eq!(rt; view.kept.high, 0);
    for at in 0x1800..0x1A00 {
        assert_eq!(rt; chip.byte(at), 0xFF);
    }
    for at in 0x4400..0x14000 {
        assert_eq!(rt; chip.byte(at), 0xFF);
    }
    Ok(())
}
