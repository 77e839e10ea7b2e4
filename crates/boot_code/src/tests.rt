use crate::{Keep, image_seal};
use chip_words::Seal;
use elf_image::read_image;
use std::alloc::{AllocError, Global};
use std::test::Fail;

/// No address at all.
const NOWHERE: Seal = Seal { low: 0, high: 0 };

/// What the borders 04800h and 05000h bound.
const AREA: Seal = Seal {
    low: 0x04800,
    high: 0x05000,
};

/// An ELF file with a header for each stretch of words.
fn image(alloc: Global, stretches: &[(u32, &[u16])]) -> Result<Vec<u8>, AllocError> {
    let count = u8::try_from(stretches.len()).unwrap_or(0);
    let mut file = Vec::new(alloc);
    file.extend_from_slice(&[0x7F, b'E', b'L', b'F', 1, 1, 1, 0, 0, 0, 0, 0, 0, 0, 0, 0])?;
    file.extend_from_slice(&[2, 0, 105, 0, 1, 0, 0, 0, 0, 0, 0, 0])?;
    file.extend_from_slice(&[52, 0, 0, 0, 0, 0, 0, 0, 0, 0, 0, 0])?;
    file.extend_from_slice(&[52, 0, 32, 0, count, 0, 0, 0, 0, 0, 0, 0])?;
    let mut offset = 52 + 32 * u32::from(count);
    for (at, words) in stretches {
        let size = u32::try_from(words.len()).unwrap_or(0).wrapping_mul(2);
        for field in [1, offset, *at, *at, size, size, 0, 2] {
            file.extend_from_slice(&field.to_le_bytes())?;
        }
        offset = offset.wrapping_add(size);
    }
    for (_, words) in stretches {
        for word in *words {
            file.extend_from_slice(&word.to_le_bytes())?;
        }
    }
    Ok(file)
}

/// Signature and pointer, where a structure stands, its words, and the seal of an image that has no more.
type Case = (&'static str, [u16; 2], u32, [u16; 4], Seal);

#[test]
fn gives_an_image_its_seal(rt: HostRuntime) -> Result<(), Fail> {
    let whole = Seal {
        low: 0x04400,
        high: 0x14000,
    };
    let cases: [Case; 14] = [
        (
            "good",
            [0xAAAA, 0x0481],
            0x04810,
            [0x00C0, 0x0500, 0x0480, 0xFEBF],
            AREA,
        ),
        (
            "no signature",
            [0xAAAB, 0x0481],
            0x04810,
            [0x00C0, 0x0500, 0x0480, 0xFEBF],
            NOWHERE,
        ),
        (
            "a bad check",
            [0xAAAA, 0x0481],
            0x04810,
            [0x00C0, 0x0500, 0x0480, 0xFEBE],
            NOWHERE,
        ),
        (
            "the sum as the check",
            [0xAAAA, 0x0481],
            0x04810,
            [0x00C0, 0x0500, 0x0480, 0x0140],
            NOWHERE,
        ),
        (
            "in information FRAM",
            [0xAAAA, 0x0180],
            0x01800,
            [0x00C0, 0x0500, 0x0480, 0xFEBF],
            AREA,
        ),
        (
            "at the end of FRAM",
            [0xAAAA, 0x13FF],
            0x13FF0,
            [0x00C0, 0x0500, 0x0480, 0xFEBF],
            AREA,
        ),
        (
            "beside the pointer",
            [0xAAAA, 0x0480],
            0x04810,
            [0x00C0, 0x0500, 0x0480, 0xFEBF],
            NOWHERE,
        ),
        (
            "in SRAM",
            [0xAAAA, 0x01C0],
            0x04810,
            [0x00C0, 0x0500, 0x0480, 0xFEBF],
            NOWHERE,
        ),
        (
            "at the last pointer",
            [0xAAAA, 0xFFFF],
            0x04810,
            [0x00C0, 0x0500, 0x0480, 0xFEBF],
            NOWHERE,
        ),
        (
            "without LOCK",
            [0xAAAA, 0x0481],
            0x04810,
            [0x0040, 0x0500, 0x0480, 0xFE3F],
            NOWHERE,
        ),
        (
            "without ENA",
            [0xAAAA, 0x0481],
            0x04810,
            [0x0080, 0x0500, 0x0480, 0xFEFF],
            NOWHERE,
        ),
        (
            "the borders swapped",
            [0xAAAA, 0x0481],
            0x04810,
            [0x00C0, 0x0480, 0x0500, 0xFEBF],
            NOWHERE,
        ),
        (
            "with other bits",
            [0xAAAA, 0x0481],
            0x04810,
            [0xFFFF, 0x053F, 0x04BF, 0x0180],
            AREA,
        ),
        (
            "all of main FRAM",
            [0xAAAA, 0x0481],
            0x04810,
            [0x00C0, 0xFFC0, 0x0000, 0x00FF],
            whole,
        ),
    ];
    for (name, signed, at, words, want) in cases {
        let stretches: [(u32, &[u16]); 2] = [(0x0FF88, &signed), (at, &words)];
        let file = image(rt.alloc(), &stretches)?;
        assert_eq!(rt; image_seal(&read_image(file.as_slice())?), want, "{name}");
    }
    Ok(())
}

#[test]
fn an_image_without_bytes_has_no_seal(rt: HostRuntime) -> Result<(), Fail> {
    let file = image(rt.alloc(), &[])?;
    assert_eq!(rt; image_seal(&read_image(file.as_slice())?), NOWHERE);
    Ok(())
}

#[test]
fn a_new_chip_has_nothing_saved(rt: HostRuntime) {
    let want = Keep {
        mark: 0xFFFF,
        ptr: 0,
    };
    assert_eq!(rt; Keep::new(), want);
}
