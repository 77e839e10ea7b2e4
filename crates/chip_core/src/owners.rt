use crate::steps::Step;
use boot_code::{Boot, BootStep};

/// Who owns the bus in a tick.
#[derive(Clone, Copy, Debug, PartialEq, Eq)]
pub enum Owner {
    /// Power is off.
    Nobody,
    /// A step of the boot.
    Boot(Boot),
    /// DMA, in the second tick of a transfer.
    SecondTick,
    /// A channel of DMA, 0 to 2, in the first tick of a transfer.
    Transfer(u8),
    Processor,
}

/// What was made in a turn of the owner.
#[derive(Clone, Copy, Debug, PartialEq, Eq)]
pub struct Made {
    /// A step of the processor.
    pub step: Option<Step>,
    /// A step of the boot.
    pub boot: Option<BootStep>,
}
