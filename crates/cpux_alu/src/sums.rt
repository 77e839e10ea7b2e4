ghost use Rattle.std.specs.Prelude.{◌≡◌, ◌<◌};
ghost use Rattle.chip_words.specs.Sizes.{span};
ghost use Rattle.chip_words.specs.Decimals.{digits_of};
ghost use Rattle.cpux_alu.specs.Sums.{decimal_effect, sum_effect};

use crate::effects::{Effect, with_flags};
use crate::widths::{is_negative, mask};
use chip_words::bcd_add;
use cpux_decode::Size;

/// The sum of two numbers and a carry.
#[tactic(auto, using(crate::proofs::Overflow::overflows_by_signs))]
pub fn sum(size: Size, x: u32, y: u32, carry: bool) -> Effect
    requires x { x < span size }
    requires y { y < span size }
    ensures effect { result ≡ sum_effect (span size) x y carry }
    ensures range { result.value < span size }
{
    let total = x + y + carry as u32;
    let value = total & mask(size);
    let sign = is_negative(size, x);
    // The exact sum leaves the range where two numbers of one sign give the other sign. The host has no branch to guess
    // here: what a program sums is as good as random.
    let overflow = (sign == is_negative(size, y)) & (sign != is_negative(size, value));
    with_flags(size, value, total > mask(size), overflow)
}

/// The decimal sum of two numbers and a carry.
pub fn decimal_sum(size: Size, x: u32, y: u32, carry: bool) -> Effect
    ensures effect { result ≡ decimal_effect (span size) (digits_of size) x y carry }
    ensures range { result.value < span size }
{
    let (value, carry) = bcd_add(size, x, y, carry);
    with_flags(size, value, carry, false)
}
