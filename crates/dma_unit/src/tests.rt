use crate::DmaUnit;
use chip_words::Size;

const DMACTL0: u32 = 0x0500;

const DMAIV: u32 = 0x050E;

/// CTL of channel 0. SA, DA and SZ are 02h, 06h and 0Ah further on, and the next channel 10h.
const CTL: u32 = 0x0510;

fn put(dma: &mut DmaUnit, at: u32, word: u16) {
    dma.write(at, Size::Word, u32::from(word));
}

/// A unit whose channel 0 has trigger number 1, and is then written to CTL.
fn with_channel(ctl: u16, source: u16, destination: u16, size: u16) -> DmaUnit {
    let mut dma = DmaUnit::new();
    put(&mut dma, DMACTL0, 1);
    put(&mut dma, CTL + 0x02, source);
    put(&mut dma, CTL + 0x06, destination);
    put(&mut dma, CTL + 0x0A, size);
    put(&mut dma, CTL, ctl);
    dma
}

/// The address that the transfer of a tick reads: 0 where no channel is due, and the tick goes by.
fn tick(dma: &mut DmaUnit) -> u32 {
    match dma.due() {
        Some(channel) => dma.transfer(channel).from,
        None => {
            dma.pass();
            0
        }
    }
}

#[test]
fn registers_keep_their_bits(rt: HostRuntime) {
    for (at, word) in [
        (DMACTL0, 0x1F1F_u32),
        (0x0502, 0x001F),
        (0x0504, 0),
        (0x0508, 0xFFFF),
        (DMAIV, 0),
        (CTL, 0x7FFE),
        (CTL + 0x02, 0xFFFF),
        (0x0518, 0x000F),
        (CTL + 0x0A, 0xFFFF),
        (0x0520, 0x7FFE),
        (0x053A, 0xFFFF),
    ] {
        let mut dma = DmaUnit::new();
        assert_eq!(rt; dma.read(at, Size::Word), 0);
        assert_eq!(rt; dma.write(at, Size::Word, 0xFFFF), None);
        assert_eq!(rt; dma.read(at, Size::Word), word);
        assert_eq!(rt; dma.read(at, Size::Byte), word % 0x100);
        assert_eq!(rt; dma.read(at + 1, Size::Byte), word / 0x100);
        dma.write(at + 1, Size::Byte, 0);
        assert_eq!(rt; dma.read(at, Size::Word), word % 0x100);
        dma.write(at + 1, Size::Byte, 0xFF);
        dma.write(at, Size::Byte, 0);
        assert_eq!(rt; dma.read(at, Size::Word), word / 0x100 * 0x100);
        dma.reset(false);
        assert_eq!(rt; dma.read(at, Size::Word), 0);
    }
}

#[test]
fn each_mode_has_its_transfers(rt: HostRuntime) {
    // CTL, SZ, CTL behind all, and what the ticks read: a trigger comes before the first and before the eighth.
    for (ctl, size, after, moves) in [
        // One for each trigger, until none is left.
        (0x0F10_u16, 3_u16, 0x0F10, [16, 0, 0, 0, 0, 0, 0, 18, 0]),
        (0x0F10, 2, 0x0F08, [16, 0, 0, 0, 0, 0, 0, 18, 0]),
        (0x0F10, 1, 0x0F08, [16, 0, 0, 0, 0, 0, 0, 0, 0]),
        (0x4F10, 1, 0x4F18, [16, 0, 0, 0, 0, 0, 0, 16, 0]),
        // A whole block, without a rest.
        (0x1F10, 5, 0x1F08, [16, 18, 20, 22, 24, 0, 0, 0, 0]),
        (0x5F10, 2, 0x5F18, [16, 18, 0, 0, 0, 0, 0, 16, 18]),
        // Two ticks of rest behind each fourth transfer.
        (0x2F10, 5, 0x2F08, [16, 18, 20, 22, 0, 0, 24, 0, 0]),
        (0x3F10, 5, 0x3F08, [16, 18, 20, 22, 0, 0, 24, 0, 0]),
        // Block after block by one trigger.
        (0x6F10, 3, 0x6F18, [16, 18, 20, 16, 0, 0, 18, 20, 16]),
        (0x7F10, 3, 0x7F18, [16, 18, 20, 16, 0, 0, 18, 20, 16]),
        // Nothing to transfer.
        (0x1F10, 0, 0x1F10, [0, 0, 0, 0, 0, 0, 0, 0, 0]),
    ] {
        let mut dma = with_channel(ctl, 16, 64, size);
        for (i, from) in moves.iter().enumerate() {
            // Number 2 is no channel's.
            dma.fire(if i == 0 || i == 7 { 0b110 } else { 0b100 });
            assert_eq!(rt; tick(&mut dma), *from);
        }
        assert_eq!(rt; dma.read(CTL, Size::Word), after);
    }
}

#[test]
fn addresses_step(rt: HostRuntime) {
    // CTL, the first addresses, and the second ones with the widths.
    for (ctl, start, from, to, read, write) in [
        (0x1010_u16, 0_u16, 0_u32, 0_u32, Size::Word, Size::Word),
        (0x1510, 0, 0, 0, Size::Word, Size::Word),
        (0x1A10, 0, 0xFFFFE, 0xFFFFE, Size::Word, Size::Word),
        (0x1A10, 1, 0xFFFFF, 0xFFFFF, Size::Word, Size::Word),
        (0x1A50, 0, 0xFFFFF, 0xFFFFE, Size::Byte, Size::Word),
        (0x1A90, 0, 0xFFFFE, 0xFFFFF, Size::Word, Size::Byte),
        (0x1AD0, 9, 8, 8, Size::Byte, Size::Byte),
        (0x1F10, 0xFFFE, 0x10000, 0x10000, Size::Word, Size::Word),
        (0x1F50, 8, 9, 10, Size::Byte, Size::Word),
        (0x1F90, 8, 10, 9, Size::Word, Size::Byte),
    ] {
        let mut dma = with_channel(ctl, start, start, 2);
        dma.fire(0b10);
        let first = dma.transfer(0);
        assert_eq!(rt; first.from, u32::from(start));
        let second = dma.transfer(0);
        assert_eq!(rt; (second.from, second.to), (from, to));
        assert_eq!(rt; (second.read, second.write), (read, write));
    }
    // Upward through the end of the addresses.
    let mut dma = DmaUnit::new();
    put(&mut dma, CTL + 0x02, 0xFFFF);
    put(&mut dma, CTL + 0x04, 0x000F);
    put(&mut dma, CTL + 0x0A, 3);
    put(&mut dma, CTL, 0x5351);
    for from in [0xFFFFF_u32, 0, 1] {
        assert_eq!(rt; tick(&mut dma), from);
    }
}

#[test]
fn a_request_acts_behind_the_enable(rt: HostRuntime) {
    // The trigger's number, some writes to CTL, and the channel that is due then.
    for (trigger, writes, due) in [
        (0_u16, [(CTL, 0x11_u32), (CTL, 0x10)], Some(0_u8)),
        (0, [(CTL, 0x10), (CTL, 0x11)], Some(0)),
        (1, [(CTL, 0x10), (CTL, 0x11)], None),
        (0, [(CTL, 0x01), (CTL, 0x10)], None),
        (0, [(CTL, 0x11), (CTL, 0x00)], None),
        // The upper half has neither of the two bits.
        (0, [(CTL, 0x10), (CTL + 1, 0x11)], None),
        (0, [(CTL, 0x11), (CTL + 1, 0x00)], Some(0)),
    ] {
        let mut dma = with_channel(0, 16, 64, 2);
        put(&mut dma, DMACTL0, trigger);
        for (at, byte) in writes {
            dma.write(at, Size::Byte, byte);
        }
        assert_eq!(rt; dma.due(), due);
        // What was dropped doesn't come again.
        dma.write(CTL, Size::Byte, 0x00);
        dma.write(CTL, Size::Byte, 0x10);
        assert_eq!(rt; dma.due(), None);
    }
}

#[test]
fn a_trigger_does_nothing_while_transfers_wait(rt: HostRuntime) {
    for (ctl, moves) in [(0x0F10_u16, [16_u32, 0, 0, 0]), (0x5F10, [16, 18, 20, 0])] {
        let mut dma = with_channel(ctl, 16, 64, 3);
        dma.fire(0b10);
        for from in moves {
            if !dma.quiet() {
                dma.fire(0b10);
            }
            assert_eq!(rt; tick(&mut dma), from);
        }
    }
}

#[test]
fn every_fourth_transfer_since_the_enable_counts(rt: HostRuntime) {
    let mut dma = with_channel(0x4F10, 16, 64, 1);
    for _ in 0..3 {
        dma.fire(0b10);
        assert_eq!(rt; tick(&mut dma), 16);
    }
    // The fourth, in another mode.
    put(&mut dma, CTL, 0x6F10);
    dma.fire(0b10);
    for from in [16_u32, 0, 0, 16, 16, 16, 16, 0] {
        assert_eq!(rt; tick(&mut dma), from);
        assert!(rt; !dma.quiet());
    }
    // One tick of the rest is left, which the mode 5 doesn't know.
    put(&mut dma, CTL, 0x5F10);
    assert_eq!(rt; tick(&mut dma), 16);
    assert!(rt; !dma.quiet());
    // The enable ends it.
    put(&mut dma, CTL, 0x0000);
    put(&mut dma, CTL, 0x6F10);
    assert!(rt; dma.quiet());
}

#[test]
fn sz_tells_what_is_left(rt: HostRuntime) {
    let mut dma = with_channel(0x1010, 16, 64, 0x0103);
    dma.fire(0b10);
    tick(&mut dma);
    assert_eq!(rt; dma.read(CTL + 0x0A, Size::Word), 0x0102);
    dma.write(CTL + 0x0B, Size::Byte, 5);
    assert_eq!(rt; dma.read(CTL + 0x0A, Size::Word), 0x0102);
    put(&mut dma, CTL, 0);
    assert_eq!(rt; dma.read(CTL + 0x0A, Size::Word), 0x0503);
}

#[test]
fn iv_tells_the_least_and_clears_it(rt: HostRuntime) {
    for (at, size) in [(DMAIV, Size::Word), (DMAIV + 1, Size::Byte)] {
        let mut dma = DmaUnit::new();
        for (ctl, word) in [(CTL, 0x000C_u16), (0x0520, 0x0008), (0x0530, 0x000C)] {
            put(&mut dma, ctl, word);
        }
        assert_eq!(rt; dma.lines(), 0x0040);
        assert_eq!(rt; dma.read(at, size), if at == DMAIV { 2 } else { 0 });
        assert_eq!(rt; dma.read(CTL, Size::Word), 0x0004);
        put(&mut dma, 0x0520, 0x000C);
        dma.write(at, size, 0xFF);
        assert_eq!(rt; dma.read(0x0520, Size::Word), 0x0004);
        assert_eq!(rt; dma.lines(), 0x0040);
        assert_eq!(rt; dma.read(at, size), if at == DMAIV { 6 } else { 0 });
        assert_eq!(rt; dma.lines(), 0);
        assert_eq!(rt; dma.read(at, size), 0);
    }
}

#[test]
fn the_least_channel_goes_first(rt: HostRuntime) {
    let mut dma = with_channel(0x2F10, 16, 64, 5);
    put(&mut dma, DMACTL0, 0x1F01);
    put(&mut dma, 0x0502, 0x000F);
    for (ctl, from) in [(0x0520_u32, 32_u16), (0x0530, 48)] {
        put(&mut dma, ctl + 0x02, from);
        put(&mut dma, ctl + 0x0A, 1);
        put(&mut dma, ctl, 0x1010);
    }
    // Channel 1 has trigger number 31, which never comes, until it has number 15 too.
    dma.fire(0xFFFF);
    for from in [16_u32, 18, 20, 22, 48, 0, 0, 24] {
        assert_eq!(rt; tick(&mut dma), from);
    }
    put(&mut dma, 0x0530, 0x1010);
    dma.write(DMACTL0 + 1, Size::Byte, 15);
    dma.fire(0x8000);
    for from in [32_u32, 48, 0] {
        assert_eq!(rt; tick(&mut dma), from);
    }
}
