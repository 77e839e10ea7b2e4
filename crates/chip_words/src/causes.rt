// The causes of resets by number, as SYSRSTIV tells them (SLAU367, SYS).

/// How many numbers of causes there are: each cause is below this.
pub const CAUSE_COUNT: usize = 65;

/// Power came on.
pub const POWER_ON: u8 = 0x02;

/// The debugger asked for a reset.
pub const DEBUG_RESET: u8 = 0x04;

/// SWBOR was written.
pub const SOFTWARE_BOR: u8 = 0x06;

/// SWPOR was written.
pub const SOFTWARE_POR: u8 = 0x14;

/// The watchdog ended an interval.
pub const WATCHDOG_INTERVAL: u8 = 0x16;

/// WDTCTL was written without its password.
pub const WATCHDOG_PASSWORD: u8 = 0x18;

/// FRCTL0 was written without its password.
pub const FRAM_PASSWORD: u8 = 0x1A;

/// The first word of an instruction was in the peripherals.
pub const PERIPHERAL_FETCH: u8 = 0x1E;

/// PMMCTL0 was written without its password.
pub const POWER_PASSWORD: u8 = 0x20;

/// MPUCTL0 was written without its password.
pub const MPU_PASSWORD: u8 = 0x22;

/// The encapsulation was violated.
pub const SEALED_VIOLATION: u8 = 0x26;

/// The segment of information FRAM was violated.
pub const INFO_VIOLATION: u8 = 0x28;

pub const SEGMENT_1_VIOLATION: u8 = 0x2A;

pub const SEGMENT_2_VIOLATION: u8 = 0x2C;

pub const SEGMENT_3_VIOLATION: u8 = 0x2E;

/// An instruction is a reserved word, which is this project's own.
pub const RESERVED_WORD: u8 = 0x40;
