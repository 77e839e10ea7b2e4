use crate::{ImageRefused, read_image};
use memory_map::{MAIN_END, is_fram};
use std::alloc::{AllocError, Global};
use std::test::Fail;

/// The ELF header that a tool chain writes before one program header, the header, and eight bytes
/// that go to 4400h. The program runs with them at 1C00h, where they take sixteen.
const FILE: [u8; 92] = [
    0x7F, 0x45, 0x4C, 0x46, 0x01, 0x01, 0x01, 0xFF, 0, 0, 0, 0, 0, 0, 0, 0, // identification
    0x02, 0x00, 0x69, 0x00, 0x01, 0, 0, 0, 0x00, 0x44, 0, 0, // kind, machine, version, entry
    0x34, 0, 0, 0, 0x5C, 0, 0, 0, 0x2D, 0, 0, 0, // program headers, sections, flags
    0x34, 0, 0x20, 0, 0x01, 0, 0x28, 0, 0, 0, 0, 0, // sizes and counts
    0x01, 0, 0, 0, 0x54, 0, 0, 0, 0x00, 0x1C, 0, 0, 0x00, 0x44, 0, 0, // type, offset, addresses
    0x08, 0, 0, 0, 0x10, 0, 0, 0, 0x06, 0, 0, 0, 0x04, 0, 0, 0, // sizes, flags, alignment
    0x31, 0x40, 0x00, 0x24, 0xB2, 0x40, 0x80, 0x5A,
];

/// What a file is, of which some bytes were changed and so many are left: the number of bytes that
/// its image passes over, or the refusal.
fn read(edits: &[(usize, u8)], length: usize) -> Result<u64, ImageRefused> {
    let mut file = FILE;
    for (place, value) in edits {
        if let Some(byte) = file.get_mut(*place) {
            *byte = *value;
        }
    }
    Ok(read_image(file.get(..length).unwrap_or(&[]))?.skipped())
}

#[test]
fn reads_or_refuses(rt: HostRuntime) {
    let short = ImageRefused::Short;
    let cases: [(&str, &[(usize, u8)], usize, Result<u64, ImageRefused>); 23] = [
        ("nothing", &[], 0, Err(short(52, 0))),
        ("a cut header", &[], 51, Err(short(52, 51))),
        ("another magic", &[(3, b'G')], 92, Err(ImageRefused::NotElf)),
        ("64 bits", &[(4, 2)], 92, Err(ImageRefused::NotElf)),
        ("big endian", &[(5, 2)], 92, Err(ImageRefused::NotElf)),
        ("a library", &[(16, 3)], 92, Err(ImageRefused::NotExec(3))),
        (
            "another machine's library",
            &[(16, 3), (18, 62)],
            92,
            Err(ImageRefused::NotMsp430(62)),
        ),
        (
            "longer headers",
            &[(42, 33)],
            92,
            Err(ImageRefused::BadTable(33)),
        ),
        ("no headers, of any size", &[(42, 0), (44, 0)], 92, Ok(0)),
        (
            "no headers, at any place",
            &[(31, 0xFF), (44, 0)],
            92,
            Ok(0),
        ),
        ("no headers and no more", &[(44, 0)], 52, Ok(0)),
        ("a second header", &[(44, 2)], 92, Err(short(116, 92))),
        (
            "headers near 2^32",
            &[(28, 0xF0), (29, 0xFF), (30, 0xFF), (31, 0xFF)],
            92,
            Err(short(0x1_0000_0010, 92)),
        ),
        ("a cut segment", &[], 91, Err(ImageRefused::BadSegment(0))),
        (
            "a segment near 2^32",
            &[(56, 0xFC), (57, 0xFF), (58, 0xFF), (59, 0xFF)],
            92,
            Err(ImageRefused::BadSegment(0)),
        ),
        ("the whole segment", &[], 92, Ok(0)),
        ("no bytes, at any place", &[(59, 0xFF), (68, 0)], 92, Ok(0)),
        (
            "a header that does not load",
            &[(52, 4), (59, 0xFF)],
            92,
            Ok(0),
        ),
        (
            "from before main FRAM",
            &[(64, 0xFD), (65, 0x43)],
            92,
            Ok(3),
        ),
        (
            "to behind main FRAM",
            &[(64, 0xFD), (65, 0x3F), (66, 1)],
            92,
            Ok(5),
        ),
        (
            "from before information FRAM",
            &[(64, 0xFD), (65, 0x17)],
            92,
            Ok(3),
        ),
        (
            "to behind information FRAM",
            &[(64, 0xFD), (65, 0x19)],
            92,
            Ok(5),
        ),
        (
            "beyond 2^32",
            &[(64, 0xFC), (65, 0xFF), (66, 0xFF), (67, 0xFF)],
            92,
            Ok(8),
        ),
    ];
    for (name, edits, length, want) in cases {
        assert_eq!(rt; read(edits, length), want, "{name}");
    }
}

#[test]
fn says_why(rt: HostRuntime) -> Result<(), Fail> {
    for (refused, want) in [
        (
            ImageRefused::Short(52, 0),
            "the file has 0 bytes and needs 52",
        ),
        (ImageRefused::NotElf, "not a 32-bit little-endian ELF file"),
        (ImageRefused::NotMsp430(62), "machine 62 is not the MSP430"),
        (ImageRefused::NotExec(3), "type 3 is not an executable"),
        (ImageRefused::BadTable(33), "a program header of 33 bytes"),
        (
            ImageRefused::BadSegment(0),
            "program header 0 names bytes behind the end of the file",
        ),
    ] {
        assert_eq!(rt; format!(in rt.alloc(); "{refused}")?.as_str(), want);
    }
    Ok(())
}

/// The ELF header of a file with so many program headers, and with two section headers at some
/// place.
fn begin_file(alloc: Global, count: u16) -> Result<Vec<u8>, AllocError> {
    let mut file = Vec::new(alloc);
    let (start, _) = FILE.split_at(44);
    file.extend_from_slice(start)?;
    file.extend_from_slice(&count.to_le_bytes())?;
    file.extend_from_slice(&[0x28, 0, 2, 0, 1, 0])?;
    Ok(file)
}

/// A program header: type, offset, virtual address, address, size in the file, size in memory.
fn push_header(file: &mut Vec<u8>, fields: [u32; 6]) -> Result<(), AllocError> {
    for field in fields {
        file.extend_from_slice(&field.to_le_bytes())?;
    }
    file.extend_from_slice(&[7, 0, 0, 0, 2, 0, 0, 0])
}

#[test]
fn loads(rt: HostRuntime) -> Result<(), Fail> {
    // The headers of the file itself, which lie before main FRAM, as linkers put them; code, data
    // that the program copies to SRAM, vectors and information FRAM; behind them two bytes of debug
    // data and two section headers. The last header writes over one byte of the code.
    let headers = [
        [1, 0, 0x4000, 0x4000, 116, 116],
        [1, 276, 0x4400, 0x4400, 4, 4],
        [1, 280, 0x1C00, 0x4404, 2, 32],
        [1, 282, 0xFFFE, 0xFFFE, 2, 2],
        [4, 0, 0, 0x4406, 200, 0],
        [1, 284, 0x1800, 0x1800, 2, 2],
        [1, 286, 0x4401, 0x4401, 1, 1],
    ];
    let rest = [
        0x31, 0x40, 0x00, 0x24, 0xAB, 0xCD, 0x00, 0x44, 0x12, 0x34, 0x77, 0xDE, 0xAD,
    ];
    let mut file = begin_file(rt.alloc(), 7)?;
    for header in headers {
        push_header(&mut file, header)?;
    }
    file.extend_from_slice(&rest)?;
    file.extend_from_slice(&[0xEE; 80])?;
    let image = read_image(file.as_slice())?;
    let mut memory = vec![in rt.alloc(); 0x5A; MAIN_END as usize]?;
    image.load(memory.as_mut_slice());
    for (at, want) in [
        (0x17FF, 0x5A),
        (0x1800, 0x12),
        (0x1801, 0x34),
        (0x1802, 0xFF),
        (0x1C00, 0x5A),
        (0x43FF, 0x5A),
        (0x4400, 0x31),
        (0x4401, 0x77),
        (0x4402, 0x00),
        (0x4403, 0x24),
        (0x4404, 0xAB),
        (0x4405, 0xCD),
        (0x4406, 0xFF),
        (0xFFFD, 0xFF),
        (0xFFFE, 0x00),
        (0xFFFF, 0x44),
        (0x10000, 0xFF),
        (0x13FFF, 0xFF),
    ] {
        assert_eq!(rt; memory.get(at as usize).copied(), Some(want), "{at:05X}");
        if at < MAIN_END && is_fram(at) {
            assert_eq!(rt; image.byte(at), want, "{at:05X}");
        }
    }
    assert_eq!(rt; image.skipped(), 116);
    Ok(())
}

/// Headers that each name all of FRAM, or none of it, are loaded in well under a second.
#[test]
fn loads_the_worst_files(rt: HostRuntime) -> Result<(), Fail> {
    for (address, skipped) in [
        (0, 65_535 * (4_194_304 - 65_024)),
        (0x14000, 65_535 * 4_194_304),
    ] {
        let mut file = begin_file(rt.alloc(), 65_535)?;
        for _ in 0..65_535 {
            push_header(&mut file, [1, 0, 0, address, 4_194_304, 0])?;
        }
        file.resize(4_194_304, 0xA5)?;
        let image = read_image(file.as_slice())?;
        let mut memory = vec![in rt.alloc(); 0; MAIN_END as usize]?;
        image.load(memory.as_mut_slice());
        assert_eq!(rt; image.skipped(), skipped);
    }
    Ok(())
}
