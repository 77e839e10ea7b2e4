use crate::same_items;
use chip_core::{Chip, Items};
use elf_image::read_image;
use std::alloc::Global;
use std::test::Fail;
use stimulus::Bench;
use trace_print::Item;

/// An ELF file whose program header puts one byte at an address.
fn image(at: u32, byte: u8) -> [u8; 85] {
    let [low, high, top, _] = at.to_le_bytes();
    [
        0x7F, b'E', b'L', b'F', 1, 1, 1, 0, 0, 0, 0, 0, 0, 0, 0, 0, // identification
        2, 0, 105, 0, 1, 0, 0, 0, 0, 0, 0, 0, // kind, machine, version, entry
        52, 0, 0, 0, 0, 0, 0, 0, 0, 0, 0, 0, // program headers, sections, flags
        52, 0, 32, 0, 1, 0, 0, 0, 0, 0, 0, 0, // sizes and counts
        1, 0, 0, 0, 84, 0, 0, 0, low, high, top, 0, low, high, top, 0, // type, offset, addresses
        1, 0, 0, 0, 1, 0, 0, 0, 0, 0, 0, 0, 2, 0, 0, 0, // sizes, flags, alignment
        byte,
    ]
}

/// A chip whose FRAM is blank but for one byte.
fn chip(alloc: Global, at: u32, byte: u8) -> Result<Chip, Fail> {
    let file = image(at, byte);
    let bench = Bench::plain(alloc, 1, 0, &[])?;
    Ok(Chip::build(alloc, &read_image(file.as_slice())?, &bench)?)
}

#[test]
fn compares_what_is_given_away(rt: HostRuntime) -> Result<(), Fail> {
    let mut opened = Items::new();
    opened.push(Item::Power(0x10));
    opened.push(Item::Opened(0x04800, 0x05000));
    let mut front = Items::new();
    front.push(Item::Power(0x10));
    let mut same = Items::new();
    same.push(Item::Power(0x10));
    same.push(Item::Opened(0x04800, 0x05000));
    let mut shorter = Items::new();
    shorter.push(Item::Power(0x10));
    shorter.push(Item::Opened(0x04800, 0x04FF0));
    let cases: [(&str, &Items, u32, u8, bool); 7] = [
        ("all is equal", &same, 0x04800, 0xFF, true),
        ("an item less", &front, 0x04800, 0xFF, false),
        ("another item", &shorter, 0x04800, 0xFF, false),
        ("the byte before", &same, 0x047FF, 0, true),
        ("the first byte", &same, 0x04800, 0, false),
        ("the last byte", &same, 0x04FFF, 0, false),
        ("the byte behind", &same, 0x05000, 0, true),
    ];
    let alloc = rt.alloc();
    let blank = chip(alloc, 0x04400, 0xFF)?;
    for (name, items, at, byte, want) in cases {
        let other = chip(alloc, at, byte)?;
        assert_eq!(rt; same_items(&opened, &blank, items, &other), want, "{name}");
    }
    assert!(rt;
        !same_items(&front, &blank, &opened, &blank),
        "an item more"
    );
    assert!(rt;
        same_items(&front, &blank, &front, &chip(alloc, 0x04800, 0)?),
        "nothing is opened"
    );
    Ok(())
}
