#![tactic(auto, unfolding(chip_words::specs::Map::region_at))]

use crate::Fabric;
use chip_words::{
    Access, Agent, Bus, Kind, MPUCTL0, MPUCTL1, MPUIPC0, MPUIPSEGB1, MPUIPSEGB2, PAIN, PMMCTL0,
    POWER_ON, POWER_PASSWORD, SYSRSTIV, Seal, Size,
};
use memory_map::MAIN_END;
use std::test::Fail;

/// What SRAM holds at first.
const FILL: u8 = 0x5A;

/// An instruction at 4400h.
const CPU: Agent = Agent::Cpu(0x4400);

#[test]
fn memory_is_filled_loaded_and_lost(rt: HostRuntime) -> Result<(), Fail> {
    let mut fabric = Fabric::build(rt.alloc(), 0, FILL)?;
    assert_eq!(rt; fabric.get(0x1800), 0xFF);
    assert_eq!(rt; fabric.get(0x1C00), FILL);
    assert_eq!(rt; fabric.get(0x23FF), FILL);
    assert_eq!(rt; fabric.get(0x13FFF), 0xFF);
    fabric.set(0x1C00, 0x12);
    fabric.set(0x4400, 0x34);
    assert_eq!(rt; fabric.get(0x1C00), 0x12);
    fabric.lose_sram();
    assert_eq!(rt; fabric.get(0x1C00), FILL);
    assert_eq!(rt; fabric.get(0x4400), 0x34);
    let mut bytes = vec![in rt.alloc(); 0xC3; MAIN_END as usize]?;
    bytes[0xFFFF] = 0x44;
    fabric.load_fram(bytes.as_slice());
    assert_eq!(rt; fabric.get(0x1800), 0xC3);
    assert_eq!(rt; fabric.get(0x1C00), FILL);
    assert_eq!(rt; fabric.get(0x4400), 0xC3);
    assert_eq!(rt; fabric.reset_vector(), 0x44C3);
    Ok(())
}

#[test]
fn writes_behind_the_budget_are_absent(rt: HostRuntime) -> Result<(), Fail> {
    let mut fabric = Fabric::build(rt.alloc(), 0, FILL)?;
    fabric.begin_tick(Some(2));
    fabric.begin_step();
    fabric.write(CPU, 0x1C01, Size::Word, 0x1234);
    assert!(rt; fabric.number());
    fabric.write(CPU, 0x1C02, Size::Byte, 0x56);
    assert_eq!(rt; fabric.read(CPU, 0x1C00, Size::Word), 0x1234);
    assert_eq!(rt; fabric.get(0x1C02), FILL);
    let write = Access {
        kind: Kind::Write,
        at: 0x1C00,
        size: Size::Word,
        value: 0x1234,
        done: true,
    };
    let absent = Access {
        at: 0x1C02,
        size: Size::Byte,
        value: 0x56,
        done: false,
        ..write
    };
    let read = Access {
        kind: Kind::Read,
        ..write
    };
    assert_eq!(rt;
        fabric.accesses().as_slice(),
        [write, absent, read].as_slice()
    );
    fabric.end_tick();
    assert!(rt; fabric.accesses().is_empty());
    assert!(rt; fabric.number());
    Ok(())
}

#[test]
fn a_step_has_its_own_causes(rt: HostRuntime) -> Result<(), Fail> {
    let mut fabric = Fabric::build(rt.alloc(), 0, FILL)?;
    assert_eq!(rt; fabric.kept(), Seal { low: 0, high: 0 });
    fabric.begin_step();
    fabric.write(CPU, PMMCTL0, Size::Word, 0);
    fabric.ask(POWER_ON);
    assert_eq!(rt; fabric.caused(), Some(POWER_PASSWORD));
    assert_eq!(rt; fabric.pending(), Some(POWER_ON));
    fabric.begin_step();
    assert_eq!(rt; fabric.caused(), None);
    fabric.reset(true, POWER_ON);
    assert_eq!(rt; fabric.pending(), None);
    assert_eq!(rt; fabric.read(CPU, SYSRSTIV, Size::Word), u32::from(POWER_ON));
    fabric.keep(Seal {
        low: 0x4400,
        high: 0x4800,
    });
    assert_eq!(rt; fabric.kept().high, 0x4800);
    Ok(())
}

#[test]
fn registers_go_to_their_unit(rt: HostRuntime) -> Result<(), Fail> {
    let mut fabric = Fabric::build(rt.alloc(), 0, FILL)?;
    // P1OUT and P1DIR, DMA0SA, and an address of no unit.
    fabric.write(CPU, PAIN + 2, Size::Byte, 0x81);
    fabric.write(CPU, PAIN + 4, Size::Byte, 0xFF);
    fabric.write(CPU, 0x0512, Size::Word, 0x1C02);
    assert_eq!(rt; fabric.read(CPU, PAIN + 2, Size::Byte), 0x81);
    assert_eq!(rt; fabric.read(CPU, 0x0512, Size::Word), 0x1C02);
    assert_eq!(rt; fabric.read(CPU, 0x0300, Size::Word), 0);
    Ok(())
}

#[test]
fn a_loss_of_power_leaves_fram_and_secrets(rt: HostRuntime) -> Result<(), Fail> {
    let mut fabric = Fabric::build(rt.alloc(), 0, FILL)?;
    let seal = Seal {
        low: 0x4400,
        high: 0x4800,
    };
    fabric.keep(seal);
    fabric.set(0x1C00, 0x11);
    fabric.set(0x1800, 0x22);
    fabric.write(CPU, PAIN + 2, Size::Byte, 0x81);
    fabric.nmi = true;
    fabric.ask(POWER_PASSWORD);
    fabric.lose_power();
    assert_eq!(rt; fabric.get(0x1C00), FILL);
    assert_eq!(rt; fabric.get(0x1800), 0x22);
    assert_eq!(rt; fabric.read(CPU, PAIN + 2, Size::Byte), 0);
    assert_eq!(rt; fabric.kept(), seal);
    assert!(rt; !fabric.nmi);
    assert_eq!(rt; fabric.pending(), None);
    Ok(())
}

#[test]
fn a_lock_seals_the_area(rt: HostRuntime) -> Result<(), Fail> {
    let mut fabric = Fabric::build(rt.alloc(), 0, FILL)?;
    fabric.set(0x4900, 0x34);
    fabric.set(0x4901, 0x12);
    // The password, the borders 04800h and 05000h, and ENA, which is an area without a seal; and then LOCK.
    fabric.write(CPU, MPUCTL0, Size::Word, 0xA500);
    fabric.write(CPU, MPUIPSEGB1, Size::Word, 0x0480);
    fabric.write(CPU, MPUIPSEGB2, Size::Word, 0x0500);
    fabric.write(CPU, MPUIPC0, Size::Word, 0x0040);
    assert_eq!(rt; fabric.kept(), Seal { low: 0, high: 0 });
    assert_eq!(rt; fabric.read(Agent::Debug, 0x4900, Size::Word), 0x3FFF);
    fabric.write(Agent::Debug, MPUIPC0, Size::Word, 0x00C0);
    let seal = Seal {
        low: 0x4800,
        high: 0x5000,
    };
    assert_eq!(rt; fabric.kept(), seal);
    for (who, word) in [
        (Agent::Cpu(0x4800), 0x3FFF),
        (Agent::Cpu(0x4808), 0x1234),
        (Agent::Cpu(0x5000), 0x3FFF),
        (Agent::Entry, 0x3FFF),
        (Agent::Dma, 0x3FFF),
        (Agent::Debug, 0x3FFF),
        (Agent::Boot, 0x1234),
    ] {
        fabric.begin_step();
        assert_eq!(rt; fabric.read(who, 0x4900, Size::Word), word);
    }
    // The violations set flag 4 of MPUCTL1, and a PUC leaves the lock.
    assert_eq!(rt; fabric.noted(), 0x10);
    fabric.end_step();
    fabric.begin_step();
    assert_eq!(rt; fabric.read(CPU, MPUCTL1, Size::Word), 0x10);
    fabric.reset(false, POWER_PASSWORD);
    assert_eq!(rt; fabric.read(CPU, 0x4900, Size::Word), 0x3FFF);
    // A BOR ends the seal, but not what stays secret.
    fabric.reset(true, POWER_ON);
    assert_eq!(rt; fabric.read(CPU, 0x4900, Size::Word), 0x1234);
    assert_eq!(rt; fabric.kept(), seal);
    Ok(())
}
