ghost use Rattle.std.specs.Prelude.{◌≡◌};
ghost use Rattle.trace_print.specs.Levels.{letter_of};

use port_unit::Level;

/// The character that stands for a level in a line: `0`, `1` or `z`.
pub(crate) fn letter(level: Level) -> u8
    ensures { result ≡ letter_of level }
{
    match level {
        Level::Low => b'0',
        Level::High => b'1',
        Level::Open => b'z',
    }
}
