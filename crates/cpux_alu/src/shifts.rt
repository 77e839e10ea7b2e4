ghost use Rattle.std.specs.Prelude.{◌≡◌, ◌<◌};
ghost use Rattle.chip_words.specs.Sizes.{span};
ghost use Rattle.cpux_alu.specs.Shifts.{right_once as right_once_of, shift_effect, shift_once as shift_once_of, shift_places as shift_places_of};

use crate::effects::{Effect, with_flags};
use crate::widths::{is_negative, mask, top};
use cpux_decode::{OpS, Size};

/// A value with the carry: the bit that came out last.
#[derive(Clone, Copy)]
pub struct Shifted {
    pub value: u32,
    pub carry: bool,
}

/// The result of a shift.
pub fn shift_result(size: Size, shifted: Shifted) -> Effect
    requires { shifted.value < span size }
    ensures { result ≡ shift_effect (span size) shifted }
{
    with_flags(size, shifted.value, shifted.carry, false)
}

/// Several places to the right or to the left.
pub fn shift_places(op: OpS, size: Size, count: u8, from: Shifted) -> Shifted
    requires { from.value < span size }
    ensures shifted { result ≡ shift_places_of op (span size) count from }
    ensures range { result.value < span size }
{
    let mut shifted = from;
    'places: for _ in 0..count {
        shifted = shift_once(op, size, shifted);
    }
    shifted
}

/// One place to the right or to the left.
#[tactic(auto, unfolding(crate::specs::Shifts::shift_once))]
pub fn shift_once(op: OpS, size: Size, from: Shifted) -> Shifted
    requires { from.value < span size }
    ensures shifted { result ≡ shift_once_of op (span size) from }
    ensures range { result.value < span size }
{
    let Shifted { value, carry } = from;
    match op {
        OpS::Rrc => right_once(size, carry, value),
        OpS::Rra => right_once(size, is_negative(size, value), value),
        OpS::Rla => Shifted {
            value: (value << 1) & mask(size),
            carry: is_negative(size, value),
        },
        OpS::Rru => right_once(size, false, value),
    }
}

/// One place to the right, with the bit that enters at the top.
fn right_once(size: Size, entering: bool, value: u32) -> Shifted
    requires { value < span size }
    ensures shifted { result ≡ right_once_of (span size) entering value }
    ensures range { result.value < span size }
{
    let half = value >> 1;
    Shifted {
        value: if entering { half | top(size) } else { half },
        carry: value & 1 == 1,
    }
}
