use super::cases::{BLINK, BLINK_TRACE, VECTOR, headed_image, image, run_of};
use crate::Status;
use std::test::Fail;

#[test]
fn writes_the_trace_of_an_image(rt: HostRuntime) -> Result<(), Fail> {
    let alloc = rt.alloc();
    let blink = image(alloc, &[(0x4400, &BLINK), (0xFFFE, &VECTOR)])?;
    run_of(blink.as_slice()).gives(&rt, Status::Done, BLINK_TRACE)?;

    // A first header that maps the file's head to an address that isn't FRAM is passed over.
    let headed = image(
        alloc,
        &[(0x4000, &[0; 58]), (0x4400, &BLINK), (0xFFFE, &VECTOR)],
    )?;
    run_of(headed.as_slice()).gives(&rt, Status::Done, BLINK_TRACE)?;

    // So is one that maps the file's first 116 bytes there, wherever they stand in the file.
    let overlaid = headed_image(
        alloc,
        &[[1, 0, 0x4000, 0x4000, 116, 116, 0, 2]],
        &[(0x4400, &BLINK), (0xFFFE, &VECTOR)],
    )?;
    run_of(overlaid.as_slice()).gives(&rt, Status::Done, BLINK_TRACE)?;

    // Without a reset vector the processor is dead.
    let dead = image(alloc, &[(0x4400, &[0, 0, 0, 0])])?;
    run_of(dead.as_slice()).gives(
        &rt,
        Status::Done,
        "0 ON\n2 BOOT 00 00000 00000\n2 DEAD\n1000 END\n",
    )?;
    Ok(())
}
