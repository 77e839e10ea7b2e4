ghost use Rattle.std.specs.Prelude.{◌≡◌, ◌<◌};
ghost use Rattle.dma_unit.specs.Transfers.{bytes_of, stepped_by};

use chip_words::Size;

/// Addresses have 20 bits.
const ADDRESSES: u32 = 0x100000;

/// The two accesses of a transfer: what is read from one address is written to the other.
#[derive(Clone, Copy, Debug, PartialEq, Eq)]
pub struct Move {
    /// The address that is read, below 2^20.
    pub from: u32,
    /// The address that is written, below 2^20.
    pub to: u32,
    /// How wide the read is: a byte or a word.
    pub read: Size,
    /// How wide the write is: a byte or a word.
    pub write: Size,
}

/// An address behind a transfer of a width, by a field of CTL: 2 steps down, 3 steps up, 0 and 1 leave it.
pub fn stepped(way: u16, size: Size, at: u32) -> u32
    requires { at < 0x100000 }
    ensures value { result ≡ stepped_by way (bytes_of size) at }
    ensures small { result < 0x100000 }
{
    let bytes = match size {
        Size::Byte => 1,
        Size::Word | Size::Addr => 2,
    };
    match way {
        2 => (at + (ADDRESSES - bytes)) % ADDRESSES,
        3 => (at + bytes) % ADDRESSES,
        _ => at,
    }
}
