use crate::{Status, capsule};
use bench_io::{MemShelf, MemSink};
use std::alloc::{AllocError, Global};
use std::process::Abort;
use std::test::Fail;

/// Clears the pin lock, makes P1.0 an output, sets it, and loops.
pub const BLINK: [u16; 7] = [0xC392, 0x0130, 0x43D2, 0x0204, 0x43D2, 0x0202, 0x3FFF];

/// The reset vector that leads to 4400h.
pub const VECTOR: [u16; 1] = [0x4400];

/// What BLINK does in 1,000 ticks: BIC on memory takes four ticks and MOV three.
pub const BLINK_TRACE: &str = "0 ON
2 BOOT 00 00000 00000
7 PIN P1 zzzzzzz0
10 PIN P1 zzzzzzz1
1000 END
";

/// Clears the pin lock in ticks 3 to 6, and makes P1 an output in ticks 7 to 9.
pub const SHOW_P1: [u16; 4] = [0xC392, 0x0130, 0x43F2, 0x0204];

/// An ELF file with a header for each stretch of words.
pub fn image(alloc: Global, stretches: &[(u32, &[u16])]) -> Result<Vec<u8>, AllocError> {
    headed_image(alloc, &[], stretches)
}

/// An ELF file with these headers, and behind them one for each stretch of words.
pub fn headed_image(
    alloc: Global,
    headers: &[[u32; 8]],
    stretches: &[(u32, &[u16])],
) -> Result<Vec<u8>, AllocError> {
    let count = u8::try_from(headers.len() + stretches.len()).unwrap_or(0);
    let mut file = Vec::new(alloc);
    file.extend_from_slice(&[0x7F, b'E', b'L', b'F', 1, 1, 1, 0, 0, 0, 0, 0, 0, 0, 0, 0])?;
    file.extend_from_slice(&[2, 0, 105, 0, 1, 0, 0, 0, 0, 0, 0, 0])?;
    file.extend_from_slice(&[52, 0, 0, 0, 0, 0, 0, 0, 0, 0, 0, 0])?;
    file.extend_from_slice(&[52, 0, 32, 0, count, 0, 0, 0, 0, 0, 0, 0])?;
    let mut offset = 52 + 32 * u32::from(count);
    for header in headers {
        for field in header {
            file.extend_from_slice(&field.to_le_bytes())?;
        }
    }
    for (at, words) in stretches {
        let size = u32::try_from(words.len()).unwrap_or(0).wrapping_mul(2);
        for field in [1, offset, *at, *at, size, size, 0, 2] {
            file.extend_from_slice(&field.to_le_bytes())?;
        }
        offset = offset.wrapping_add(size);
    }
    for (_, words) in stretches {
        for word in *words {
            file.extend_from_slice(&word.to_le_bytes())?;
        }
    }
    Ok(file)
}

/// What the program is called with: its words, the files of its shelf (an image, another one and a bench), the calls that
/// are to fail (0 for none), and the sink's room.
#[derive(Clone, Copy)]
pub struct Case<'a> {
    pub words: &'a [&'a str],
    pub file: &'a [u8],
    pub other: &'a [u8],
    pub bench: &'a str,
    pub shelf_fails: u64,
    pub sink_fails: u64,
    pub room: usize,
}

impl Case<'_> {
    /// Calls the program, and compares the status and the text.
    pub fn gives(
        &self,
        rt: &(impl Abort + AllocGlobal),
        status: Status,
        text: &str,
    ) -> Result<(), Fail> {
        let alloc = rt.alloc();
        let mut words = Vec::new(alloc);
        for word in self.words {
            words.push(String::from_str(alloc, word)?)?;
        }
        let mut shelf = MemShelf::build(alloc)?;
        shelf.add("image", self.file)?;
        shelf.add("other", self.other)?;
        shelf.add("bench", self.bench.as_bytes())?;
        shelf.fail(self.shelf_fails)?;
        let mut out = MemSink::build(alloc, self.room)?;
        out.fail(self.sink_fails)?;
        let answer = capsule(alloc, words.as_slice(), &mut shelf, &mut out);
        assert_eq!(rt; answer, status);
        assert_eq!(rt; out.bytes(), text.as_bytes());
        Ok(())
    }
}

pub fn run_of(file: &[u8]) -> Case<'_> {
    Case {
        words: &["run", "image"],
        file,
        other: &[],
        bench: "",
        shelf_fails: 0,
        sink_fails: 0,
        room: 4096,
    }
}

pub fn run_under<'a>(file: &'a [u8], bench: &'a str) -> Case<'a> {
    Case {
        words: &["run", "image", "bench"],
        bench,
        ..run_of(file)
    }
}

/// Runs an image of some stretches under a bench, and compares the lines behind the boot's.
pub fn shows(
    rt: &(impl Abort + AllocGlobal),
    stretches: &[(u32, &[u16])],
    bench: &str,
    lines: &str,
) -> Result<(), Fail> {
    let alloc = rt.alloc();
    let file = image(alloc, stretches)?;
    let mut text = String::from_str(alloc, "0 ON\n2 BOOT 00 00000 00000\n")?;
    text.push_str(lines)?;
    run_under(file.as_slice(), bench).gives(rt, Status::Done, text.as_str())
}

/// The same of a program that is all at 4400h.
pub fn shows_code(
    rt: &(impl Abort + AllocGlobal),
    code: &[u16],
    bench: &str,
    lines: &str,
) -> Result<(), Fail> {
    shows(rt, &[(0x4400, code), (0xFFFE, &VECTOR)], bench, lines)
}

/// Runs an image of some stretches under a bench, and compares the whole text.
pub fn traces(
    rt: &(impl Abort + AllocGlobal),
    stretches: &[(u32, &[u16])],
    bench: &str,
    text: &str,
) -> Result<(), Fail> {
    let file = image(rt.alloc(), stretches)?;
    run_under(file.as_slice(), bench).gives(rt, Status::Done, text)
}

/// A structure that seals 04800h up to 05000h: the words of MPUIPC0, MPUIPSEGB2 and MPUIPSEGB1, and their check. It stands
/// at 4810h, in the area itself.
pub const STRUCTURE: [u16; 4] = [0x00C0, 0x0500, 0x0480, 0xFEBF];

/// What stands at FF88h: the signature, and the address of the structure divided by 16.
pub const SIGNED: [u16; 2] = [0xAAAA, 0x0481];

/// JMP $, which takes two ticks.
pub const WAIT: [u16; 1] = [0x3FFF];
