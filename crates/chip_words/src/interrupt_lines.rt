/// The address of each interrupt line's vector, from line 0 on (SLAS704, interrupt vector table): it falls from line to
/// line.
pub const VECTORS: [u32; 13] = [
    0xFFF6, 0xFFF4, 0xFFF2, 0xFFF0, 0xFFEA, 0xFFE8, 0xFFE4, 0xFFE2, 0xFFE0, 0xFFDE, 0xFFD8, 0xFFD2,
    0xFFD0,
];

/// The address of the NMI's vector.
pub const NMI_VECTOR: u32 = 0xFFFC;

// The numbers of lines: bit i of a word of lines is line i.

/// CCTL0 of TB0.
pub const TB0_CCR0_LINE: u8 = 0;

/// All else of TB0.
pub const TB0_LINE: u8 = 1;

/// The watchdog as an interval timer.
pub const WATCHDOG_LINE: u8 = 2;

/// CCTL0 of TA0.
pub const TA0_CCR0_LINE: u8 = 4;

/// All else of TA0.
pub const TA0_LINE: u8 = 5;

pub const DMA_LINE: u8 = 6;

/// CCTL0 of TA1.
pub const TA1_CCR0_LINE: u8 = 7;

/// All else of TA1.
pub const TA1_LINE: u8 = 8;

pub const P1_LINE: u8 = 9;

pub const P2_LINE: u8 = 10;

pub const P3_LINE: u8 = 11;

pub const P4_LINE: u8 = 12;
