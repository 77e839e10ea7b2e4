use crate::{Region, Size, aligned, is_fram, region_of};

#[test]
fn rows_begin_and_end_where_they_should(rt: HostRuntime) {
    for (first, last, region, fram) in [
        (0x00000, 0x00FFF, Region::Periph, false),
        (0x01000, 0x017FF, Region::Vacant, false),
        (0x01800, 0x019FF, Region::Info, true),
        (0x01A00, 0x01AFF, Region::Descriptor, false),
        (0x01B00, 0x01BFF, Region::Vacant, false),
        (0x01C00, 0x023FF, Region::Sram, false),
        (0x02400, 0x043FF, Region::Vacant, false),
        (0x04400, 0x13FFF, Region::Main, true),
        (0x14000, 0xFFFFF, Region::Vacant, false),
    ] {
        for at in [first, last] {
            assert!(rt; at < 0x100000);
            assert_eq!(rt; region_of(at), region, "at {at:05X}");
            assert_eq!(rt; is_fram(at), fram, "at {at:05X}");
        }
    }
    assert_eq!(rt; aligned(0x4401, Size::Word), 0x4400);
    assert_eq!(rt; aligned(0x4401, Size::Byte), 0x4401);
}
