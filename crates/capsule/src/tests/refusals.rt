use super::cases::{BLINK, BLINK_TRACE, Case, VECTOR, image, run_of};
use crate::Status;
use elf_image::ImageRefused;
use std::test::Fail;

#[test]
fn refuses_by_cause(rt: HostRuntime) -> Result<(), Fail> {
    let blink = image(rt.alloc(), &[(0x4400, &BLINK), (0xFFFE, &VECTOR)])?;
    let file = blink.as_slice();
    let usage = |words| Case {
        words,
        ..run_of(file)
    };
    usage(&[]).gives(&rt, Status::Usage, "")?;
    usage(&["run"]).gives(&rt, Status::Usage, "")?;
    usage(&["walk", "image"]).gives(&rt, Status::Usage, "")?;
    usage(&["run", "image", "bench", "bench"]).gives(&rt, Status::Usage, "")?;
    usage(&["RUN", "image"]).gives(&rt, Status::Usage, "")?;
    usage(&["", "image"]).gives(&rt, Status::Usage, "")?;
    usage(&["release", "image"]).gives(&rt, Status::Usage, "")?;
    usage(&["release", "image", "bench", "bench"]).gives(&rt, Status::Usage, "")?;
    usage(&["pair", "image", "bench"]).gives(&rt, Status::Usage, "")?;
    usage(&["run", "image", "image", "bench"]).gives(&rt, Status::Usage, "")?;
    usage(&["pair", "image", "image", "image", "bench"]).gives(&rt, Status::Usage, "")?;
    Case {
        words: &["run", "none"],
        ..run_of(file)
    }
    .gives(&rt, Status::Absent, "")?;
    run_of(&[]).gives(&rt, Status::Image(ImageRefused::Short(52, 0)), "")?;

    // The find, the read that gives the bytes, and the one that meets the end.
    for shelf_fails in 1..=3 {
        Case {
            shelf_fails,
            ..run_of(file)
        }
        .gives(&rt, Status::ReadFault, "")?;
    }
    // A line is one put.
    for (sink_fails, front) in [(1, 0), (2, 5), (3, 27), (4, 45), (5, 64)] {
        let text = BLINK_TRACE.get(..front).unwrap_or("");
        Case {
            sink_fails,
            ..run_of(file)
        }
        .gives(&rt, Status::WriteFault, text)?;
    }
    Case {
        room: 10,
        ..run_of(file)
    }
    .gives(&rt, Status::WriteFault, "0 ON\n2 BOO")?;
    Ok(())
}

#[test]
fn an_image_ends_at_its_limit(rt: HostRuntime) -> Result<(), Fail> {
    let alloc = rt.alloc();
    // A file of the greatest length is judged, and one byte more is too long.
    let longest = vec![in alloc; 0; 4_194_304]?;
    run_of(longest.as_slice()).gives(&rt, Status::Image(ImageRefused::NotElf), "")?;
    let longer = vec![in alloc; 0; 4_194_305]?;
    run_of(longer.as_slice()).gives(&rt, Status::TooLong, "")?;
    Ok(())
}
