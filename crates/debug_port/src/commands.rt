/// A command of the debugger. Addresses are below 2^20.
#[derive(Clone, Copy, Debug, PartialEq, Eq)]
pub enum Command {
    /// Reads the word at an address.
    Read(u32),
    /// Writes a word at an address.
    Write(u32, u16),
    /// Reads so many bytes, 1 to 32, from an address on; behind the last address comes 0.
    Dump(u32, u8),
    /// Tells a register, 0 to 15.
    Reg(u8),
    /// Sets a register, 0 to 15, to a value below 2^20, of which it keeps what fits.
    SetReg(u8, u32),
    /// Halts the processor, once it may be.
    Halt,
    /// Lets a halted processor go on, and drops a halt that hasn't come yet.
    Go,
    /// Asks for a BOR.
    Reset,
    /// Erases all FRAM, and asks for a BOR.
    Erase,
}
