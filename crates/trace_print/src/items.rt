use debug_port::{Answer, Command};
use port_unit::Level;

/// What one line of a trace tells.
#[derive(Debug, Default, Drop, PartialEq, Eq)]
pub enum TraceItem {
    /// Power came on.
    #[default]
    On,
    /// A command of the debugger was carried out or refused, with its answer.
    Debug(Command, Answer),
    /// The processor was halted, with its PC.
    Halt(u32),
    /// A boot began to erase FRAM.
    Erase,
    /// A boot ended with these in force: the control bits of IP Encapsulation (MPUIPC0), its first and
    /// its second border as addresses.
    Boot(u8, u32, u32),
    /// A reset was taken, with its cause (SYSRSTIV).
    Reset(u8),
    /// The reset vector was FFFFh, so the processor stands still.
    Dead,
    /// Power was cut.
    Cut,
    /// The levels of a port changed: the port's number, from 1 to 4, and the new level of each bit, of
    /// which entry i is bit i.
    Pin(u8, [Level; 8]),
    /// The run is over.
    End,
}
