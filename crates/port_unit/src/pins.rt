ghost use Rattle.std.specs.Prelude.{◌≡◌, ◌<◌, ◌≤◌};
ghost use Rattle.port_unit.specs.Pins.{level_of, levels_of, port_bits, port_of, same_levels};

use crate::levels::Level;

/// The pins of P1 in bits 7:0, of P2 in bits 15:8, of P3 in bits 23:16 and of P4 in bits 31:24, as the
/// outside sees them.
#[derive(Clone, Copy, Debug, PartialEq, Eq)]
pub struct Pins {
    /// The pins that the chip drives.
    pub driven: u32,
    /// Those of them that are high.
    pub high: u32,
}

impl Pins {
    /// The levels of a port, entry i for bit i.
    pub fn levels(&self, port: u8) -> [Level; 8]
        requires { (1 ≤ port) × (port ≤ 4) }
        ensures { result ≡ levels_of self.now port }
    {
        let pins = self.of_port(port);
        [
            pins.level(0),
            pins.level(1),
            pins.level(2),
            pins.level(3),
            pins.level(4),
            pins.level(5),
            pins.level(6),
            pins.level(7),
        ]
    }

    /// The pins of one port, in bits 7:0.
    pub fn of_port(&self, port: u8) -> Pins
        requires { (1 ≤ port) × (port ≤ 4) }
        ensures { result ≡ port_of port self.now }
    {
        Pins {
            driven: byte_of(port, self.driven),
            high: byte_of(port, self.high),
        }
    }

    /// Whether these and other pins have the same levels at a port.
    pub fn has_same_levels(&self, other: &Pins, port: u8) -> bool
        requires { (1 ≤ port) × (port ≤ 4) }
        ensures { result ≡ same_levels (levels_of self.now port) (levels_of other.now port) }
    {
        let one = self.of_port(port);
        let other = other.of_port(port);
        // Where a pin isn't driven its other bit is no level.
        one.driven == other.driven && one.high & one.driven == other.high & other.driven
    }

    /// The level of pin `n`, 0 to 7, of the port in bits 7:0.
    fn level(&self, n: u32) -> Level
        requires { n < 8 }
        ensures { result ≡ level_of self.now n }
    {
        if (self.driven >> n) & 1 == 0 {
            Level::Open
        } else if (self.high >> n) & 1 == 1 {
            Level::High
        } else {
            Level::Low
        }
    }
}

fn byte_of(port: u8, word: u32) -> u32
    requires { (1 ≤ port) × (port ≤ 4) }
    ensures { result ≡ port_bits port word }
{
    word >> (8 * (port - 1)) & 0xFF
}
