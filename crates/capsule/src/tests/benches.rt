use super::cases::{Case, VECTOR, image, run_of, run_under};
use crate::Status;
use elf_image::ImageRefused;
use std::test::Fail;
use stimulus::{BenchRefused, RootField};

/// Makes P2 an output that shows P1, and copies P1 to it for ever.
const FOLLOW: [u16; 8] = [
    0xC392, 0x0130, 0x43F2, 0x0205, 0x42D2, 0x0200, 0x0203, 0x3FFC,
];

#[test]
fn runs_under_a_bench(rt: HostRuntime) -> Result<(), Fail> {
    let follow = image(rt.alloc(), &[(0x4400, &FOLLOW), (0xFFFE, &VECTOR)])?;
    let file = follow.as_slice();
    // The event comes before the instruction of its tick, which copies P1 to P2.
    let bench = "version = 1\nend = 30\n[[event]]\ntick = 24\npin = \"P1.3\"\nlevel = 1\n";
    let text = "0 ON\n2 BOOT 00 00000 00000\n7 PIN P2 00000000\n24 PIN P2 00001000\n30 END\n";
    run_under(file, bench).gives(&rt, Status::Done, text)?;

    // The image decides before the bench.
    run_under(file, "=").gives(&rt, Status::Bench(BenchRefused::NotToml), "")?;
    run_under(&[], "=").gives(&rt, Status::Image(ImageRefused::Short(52, 0)), "")?;
    let no_end = Status::Bench(BenchRefused::Field(RootField::End));
    run_under(file, "version = 1").gives(&rt, no_end, "")?;
    Case {
        words: &["run", "image", "none"],
        ..run_of(file)
    }
    .gives(&rt, Status::Absent, "")?;
    // The image is looked for before the bench, and judged before the bench is looked for.
    Case {
        words: &["run", "none", "bench"],
        ..run_under(file, "=")
    }
    .gives(&rt, Status::Absent, "")?;
    Case {
        shelf_fails: 3,
        ..run_under(&[], "=")
    }
    .gives(&rt, Status::Image(ImageRefused::Short(52, 0)), "")?;
    // The find of the bench, and its first read.
    for shelf_fails in 4..=5 {
        Case {
            shelf_fails,
            ..run_under(file, bench)
        }
        .gives(&rt, Status::ReadFault, "")?;
    }
    Ok(())
}
