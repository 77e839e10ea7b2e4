//! The words that every part of the chip shares: widths, agents, accesses, the registers and the bus,
//! with the definitions of the memory map, of the peripherals, of one access and of a step.
#![tactic(auto)]

mod accesses;
mod buses;
mod causes;
mod decimals;
mod fired;
mod interrupt_lines;
mod latches;
mod memory;
mod no_memory;
mod parts;
mod regions;
mod registers;
mod seals;
mod segments;
mod sizes;
#[cfg(test)]
mod tests;
mod timer_steps;
mod unit_names;

pub use accesses::{Access, Agent, Kind};
pub use buses::Bus;
pub use causes::{
    CAUSE_COUNT, DEBUG_RESET, FRAM_PASSWORD, INFO_VIOLATION, MPU_PASSWORD, PERIPHERAL_FETCH,
    POWER_ON, POWER_PASSWORD, RESERVED_WORD, SEALED_VIOLATION, SEGMENT_1_VIOLATION,
    SEGMENT_2_VIOLATION, SEGMENT_3_VIOLATION, SOFTWARE_BOR, SOFTWARE_POR, WATCHDOG_INTERVAL,
    WATCHDOG_PASSWORD,
};
pub use decimals::bcd_add;
pub use fired::Fired;
pub use interrupt_lines::{
    DMA_LINE, NMI_VECTOR, P1_LINE, P2_LINE, P3_LINE, P4_LINE, TA0_CCR0_LINE, TA0_LINE,
    TA1_CCR0_LINE, TA1_LINE, TB0_CCR0_LINE, TB0_LINE, VECTORS, WATCHDOG_LINE,
};
pub use latches::{Latch, PASSWORD_READS, is_wrong_password};
pub use memory::{fill_within, load, memory_size, store};
pub use no_memory::NoMemory;
pub use parts::{part, word_with_part};
pub use regions::Region;
pub use registers::{CG, PC, Regs, SP, SR};
pub use seals::Seal;
pub use segments::{Right, Segment};
pub use sizes::{Size, signed, wrap20};
pub use timer_steps::TimerStep;
pub use unit_names::{
    CSCTL0, CSCTL6, DMA0CTL, DMACTL0, DMACTL1, DMACTL4, DMAIV, FRCTL0, GCCTL0, GCCTL1, MPUCTL0,
    MPUCTL1, MPUIPC0, MPUIPSEGB1, MPUIPSEGB2, MPUSAM, MPUSEGB1, MPUSEGB2, PAIN, PBIN, PM5CTL0,
    PMMCTL0, SFRIE1, SFRIFG1, SYSCTL, SYSRSTIV, SYSSNIV, TA0CTL, TA1CTL, TB0CTL, UnitName, WDTCTL,
    unit_at,
};
