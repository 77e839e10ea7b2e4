ghost use Rattle.std.specs.Prelude.{◌≤◌, length};

use crate::{Answer, Dump};
use arrayvec::ArrayVec;
use std::process::Abort;

/// The dump that has these bytes.
fn dump(bytes: &[u8]) -> Dump
    requires { length bytes.now ≤ 32 }
{
    let mut list = ArrayVec::new();
    list.try_extend_from_slice(bytes).unwrap();
    Dump::new(list)
}

#[test]
fn a_dump_keeps_its_bytes(rt: HostRuntime) {
    let three = dump(&[0x92, 0xC3, 0x00]);
    assert_eq!(rt; three.bytes(), [0x92, 0xC3, 0x00].as_slice());
    assert_ne!(rt;
        Answer::Bytes(three),
        Answer::Bytes(dump(&[0x92, 0xC3])),
        "a byte more"
    );
}
