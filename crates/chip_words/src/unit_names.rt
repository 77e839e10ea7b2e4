ghost use Rattle.std.specs.Prelude.{◌≡◌};
ghost use Rattle.chip_words.specs.Addresses.{unit_at as unit_at_address};

/// A unit of the peripherals, which has some of their addresses.
#[derive(Clone, Copy, Debug, PartialEq, Eq)]
pub enum UnitName {
    /// The special function registers, the power management, the clock system and the system control.
    Sys,
    /// The watchdog, and the timers TA0, TA1 and TB0.
    Timers,
    /// The ports P1 to P4.
    Ports,
    /// The three channels of DMA.
    Dma,
    /// The FRAM controller.
    Fram,
    /// The memory protection unit, and SYSSNIV, which tells its flags.
    Mpu,
    /// IP Encapsulation.
    Encap,
}

pub const SFRIE1: u32 = 0x0100;

pub const SFRIFG1: u32 = 0x0102;

pub const PMMCTL0: u32 = 0x0120;

pub const PM5CTL0: u32 = 0x0130;

pub const FRCTL0: u32 = 0x0140;

pub const GCCTL0: u32 = 0x0144;

pub const GCCTL1: u32 = 0x0146;

pub const WDTCTL: u32 = 0x015C;

pub const CSCTL0: u32 = 0x0160;

pub const CSCTL6: u32 = 0x016C;

pub const SYSCTL: u32 = 0x0180;

pub const SYSSNIV: u32 = 0x019C;

pub const SYSRSTIV: u32 = 0x019E;

/// The first register of P1 and P2.
pub const PAIN: u32 = 0x0200;

/// The first register of P3 and P4.
pub const PBIN: u32 = 0x0220;

/// The last byte of the ports.
const PORTS_LAST: u32 = 0x023F;

/// The first register of TA0.
pub const TA0CTL: u32 = 0x0340;

/// The first register of TA1.
pub const TA1CTL: u32 = 0x0380;

/// The first register of TB0.
pub const TB0CTL: u32 = 0x03C0;

// The last byte of each timer.

const TA0_LAST: u32 = 0x036F;

const TA1_LAST: u32 = 0x03AF;

const TB0_LAST: u32 = 0x03EF;

/// The first register of DMA.
pub const DMACTL0: u32 = 0x0500;

pub const DMACTL1: u32 = 0x0502;

pub const DMACTL4: u32 = 0x0508;

pub const DMAIV: u32 = 0x050E;

/// The first register of channel 0.
pub const DMA0CTL: u32 = 0x0510;

/// The last byte of DMA.
const DMA_LAST: u32 = 0x053F;

pub const MPUCTL0: u32 = 0x05A0;

pub const MPUCTL1: u32 = 0x05A2;

pub const MPUSEGB2: u32 = 0x05A4;

pub const MPUSEGB1: u32 = 0x05A6;

pub const MPUSAM: u32 = 0x05A8;

pub const MPUIPC0: u32 = 0x05AA;

pub const MPUIPSEGB2: u32 = 0x05AC;

pub const MPUIPSEGB1: u32 = 0x05AE;

/// The unit that an address of the peripherals is of, where there is one.
#[tactic(auto, unfolding(crate::specs::Addresses::unit_at))]
pub fn unit_at(at: u32) -> Option<UnitName>
    ensures { result ≡ unit_at_address at }
{
    match at & !1 {
        SFRIE1 | SFRIFG1 => Some(UnitName::Sys),
        PMMCTL0 | PM5CTL0 => Some(UnitName::Sys),
        FRCTL0..=GCCTL1 => Some(UnitName::Fram),
        WDTCTL => Some(UnitName::Timers),
        CSCTL0..=CSCTL6 => Some(UnitName::Sys),
        SYSCTL | SYSRSTIV => Some(UnitName::Sys),
        SYSSNIV => Some(UnitName::Mpu),
        PAIN..=PORTS_LAST => Some(UnitName::Ports),
        TA0CTL..=TA0_LAST | TA1CTL..=TA1_LAST | TB0CTL..=TB0_LAST => Some(UnitName::Timers),
        DMACTL0..=DMA_LAST => Some(UnitName::Dma),
        MPUCTL0..=MPUSAM => Some(UnitName::Mpu),
        MPUIPC0..=MPUIPSEGB1 => Some(UnitName::Encap),
        _ => None,
    }
}
