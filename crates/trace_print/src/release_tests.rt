ghost use Rattle.trace_print.specs.Releases.{IsReleasable};

use crate::{Item, Verdict, open_line, release_line, verdict_line};
use arrayvec::ArrayVec;
use chip_words::Size;
use std::process::Abort;

/// Compares the line of an item with its text.
fn releases(rt: &impl Abort, tick: u32, item: Item, text: &str)
    requires { IsReleasable item }
{
    let line = release_line(tick, &item);
    assert_eq!(rt; line.as_slice(), text.as_bytes(), "not {text}");
}

#[test]
fn accesses_have_their_texts(rt: HostRuntime) {
    releases(&rt, 7, Item::Entry(0xFFEA), "7 ENTRY 0FFEA\n");
    releases(&rt, 7, Item::Fetch(0x5000), "7 F 05000\n");
    releases(&rt, 7, Item::Read(0x4500, Size::Word), "7 R 04500 w\n");
    releases(
        &rt,
        7,
        Item::Write(0x202, Size::Byte, 1),
        "7 W 00202 b 01\n",
    );
    // an entry from a sealed library
    releases(&rt, 25, Item::Entry(0xFFF2), "25 ENTRY 0FFF2\n");
    releases(
        &rt,
        25,
        Item::Write(0x23FE, Size::Word, 0x4822),
        "25 W 023FE w 4822\n",
    );
    releases(
        &rt,
        25,
        Item::Write(0x23FC, Size::Word, 8),
        "25 W 023FC w 0008\n",
    );
    releases(&rt, 25, Item::Read(0xFFF2, Size::Word), "25 R 0FFF2 w\n");
    releases(&rt, 9, Item::Read(0xFABCD, Size::Byte), "9 R FABCD b\n");
}

#[test]
fn other_items_have_their_texts(rt: HostRuntime) {
    releases(&rt, 7, Item::Flags(0x10), "7 FLAGS 10\n");
    releases(&rt, 7, Item::Reset(0x18), "7 RESET 18\n");
    releases(&rt, 7, Item::Power(0x10), "7 POWER 10\n");
    // the four words of a structure
    releases(&rt, 3, Item::Struct(0, 0x00C0), "3 STRUCT 0 00C0\n");
    releases(&rt, 4, Item::Struct(1, 0x0500), "4 STRUCT 1 0500\n");
    releases(&rt, 5, Item::Struct(2, 0x0480), "5 STRUCT 2 0480\n");
    releases(&rt, 6, Item::Struct(3, 0xFEBF), "6 STRUCT 3 FEBF\n");
}

#[test]
fn exits_have_their_texts(rt: HostRuntime) {
    let reset = [0x4400, 0, 0, 0, 0, 0, 0, 0, 0, 0, 0x1111, 0, 0, 0, 0, 0];
    releases(
        &rt,
        16,
        Item::Exit(reset, 0),
        "16 EXIT 0 04400 00000 00000 00000 00000 00000 00000 00000 00000 00000 01111 00000 00000 00000 00000 00000\n",
    );
    let entry = [0x4450, 0x23FC, 0, 0, 0, 0, 0, 0, 0, 0, 0, 0, 0, 0, 0, 0];
    releases(
        &rt,
        25,
        Item::Exit(entry, 5),
        "25 EXIT 5 04450 023FC 00000 00000 00000 00000 00000 00000 00000 00000 00000 00000 00000 00000 00000 00000\n",
    );
    // no line is longer
    releases(
        &rt,
        4_294_967_295,
        Item::Exit([0xFFFFF; 16], 18_446_744_073_709_551_615),
        "4294967295 EXIT 18446744073709551615 FFFFF FFFFF FFFFF FFFFF FFFFF FFFFF FFFFF FFFFF FFFFF FFFFF FFFFF FFFFF FFFFF FFFFF FFFFF FFFFF\n",
    );
}

/// Compares the line of a row in tick 20 with its text.
fn opens(rt: &impl Abort, at: u32, bytes: [u8; 16], text: &str) {
    let line = open_line(20, at, &bytes);
    assert_eq!(rt; line.as_slice(), text.as_bytes(), "not {text}");
}

#[test]
fn opened_rows_have_their_texts(rt: HostRuntime) {
    opens(
        &rt,
        0x4C00,
        [0xFF; 16],
        "20 OPEN 04C00 FFFFFFFFFFFFFFFFFFFFFFFFFFFFFFFF\n",
    );
    opens(
        &rt,
        0x4FF0,
        [0xFF; 16],
        "20 OPEN 04FF0 FFFFFFFFFFFFFFFFFFFFFFFFFFFFFFFF\n",
    );
    opens(
        &rt,
        0x12340,
        [
            0x34, 0x12, 0x00, 0x01, 0x0A, 0xB0, 0xC3, 0x92, 0xDE, 0xF7, 0x58, 0x69, 0x7F, 0x80,
            0x21, 0x43,
        ],
        "20 OPEN 12340 341200010AB0C392DEF758697F802143\n",
    );
}

/// A tick keeps its releases in a list of fixed room, which is emptied before the next.
#[test]
fn items_go_through_a_list(rt: HostRuntime) {
    let mut items: ArrayVec<Item, 64> = ArrayVec::new();
    items.push(Item::Fetch(0x5000));
    items.clear();
    items.push(Item::Opened(0x4C00, 0x5000));
    items.push(Item::Exit([0; 16], 0));
    assert_eq!(rt;
        items.as_slice(),
        [Item::Opened(0x4C00, 0x5000), Item::Exit([0; 16], 0)].as_slice()
    );
    for item in items.as_slice() {
        assert_ne!(rt; *item, Item::default(), "it tells something");
    }
}

#[test]
fn verdicts_have_their_texts(rt: HostRuntime) {
    for (verdict, text) in [
        (Verdict::Seal, "differ seal\n"),
        (Verdict::Outside(0x4408), "differ outside 04408\n"),
        (Verdict::Outside(0xFFFFF), "differ outside FFFFF\n"),
        (Verdict::Release(0), "differ release 0\n"),
        (
            Verdict::Release(4_294_967_295),
            "differ release 4294967295\n",
        ),
        (Verdict::Same, "same\n"),
    ] {
        let line = verdict_line(verdict);
        assert_eq!(rt; line.as_slice(), text.as_bytes(), "not {text}");
    }
}
