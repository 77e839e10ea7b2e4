ghost use Rattle.std.specs.Prelude.{◌≡◌};

/// What a command finds of the chip.
#[derive(Clone, Copy, Debug, PartialEq, Eq)]
pub struct DebugView {
    /// Power is on, and the boot is done.
    pub up: bool,
    /// The debug port is closed: both signature words for it in FRAM are 5555h (SLAU367, chapter SYS, JTAG lock).
    pub closed: bool,
}

/// What the debugger has made of the processor, and what it asks of the chip.
#[derive(Clone, Copy, Debug, Default, PartialEq, Eq)]
pub struct Debug {
    /// The processor is halted.
    pub halted: bool,
    /// A halt is asked for, which comes at the processor's turn, once it may.
    pub pending: bool,
    /// A BOR is asked for.
    pub reset: bool,
    /// The erasing of all FRAM is asked for.
    pub erase: bool,
}

impl Debug {
    ghost use Rattle.debug_port.specs.States.{erase_asked, gone_on, halt_asked, reset_asked};

    /// Asks for a halt. A processor that is halted has none to wait for.
    pub(crate) fn ask_halt(&mut self)
        ensures { self.new ≡ halt_asked self.old }
    {
        if !self.halted {
            self.pending = true;
        }
    }

    /// Lets the processor go on, and drops a halt that hasn't come yet.
    pub(crate) fn go_on(&mut self)
        ensures { self.new ≡ gone_on self.old }
    {
        self.halted = false;
        self.pending = false;
    }

    /// Asks for a BOR.
    pub(crate) fn ask_reset(&mut self)
        ensures { self.new ≡ reset_asked self.old }
    {
        self.reset = true;
    }

    /// Asks for the erasing of all FRAM, and for a BOR.
    pub(crate) fn ask_erase(&mut self)
        ensures { self.new ≡ erase_asked self.old }
    {
        self.erase = true;
        self.ask_reset();
    }
}
