ghost use Rattle.std.specs.Prelude.{◌≡◌, ◌<◌};
ghost use Rattle.cpux_decode.specs.Ranges.{IsDistance};
ghost use Rattle.cpux_execute.specs.Jumps.{is_taken as is_taken_by, jump_target, jumped};

use chip_words::wrap20;
use cpux_alu::{C, N, V, Z};

/// Says whether a jump with this condition, 0 to 7, is taken (SLAU367, chapter CPUX, jump instructions).
#[tactic(auto, unfolding(crate::specs::Jumps::is_taken))]
fn is_taken(condition: u8, sr: u16) -> bool
    ensures { result ≡ is_taken_by condition sr }
{
    let carry = (sr >> C) & 1 == 1;
    let zero = (sr >> Z) & 1 == 1;
    let negative = (sr >> N) & 1 == 1;
    let overflow = (sr >> V) & 1 == 1;
    match condition {
        0 => !zero,
        1 => zero,
        2 => !carry,
        3 => carry,
        4 => negative,
        5 => negative == overflow,
        6 => negative != overflow,
        _ => true,
    }
}

/// So many words from the next address on.
fn target(next: u32, distance: i16) -> u32
    requires place { next < 0x100000 }
    requires distance { IsDistance distance }
    ensures { result ≡ jump_target next distance }
{
    if distance >= 0 {
        wrap20(next as u64 + 2 * distance as u64)
    } else {
        wrap20(next as u64 + 0x100000 - 2 * distance.unsigned_abs() as u64)
    }
}

/// The address behind a jump, which may be taken.
#[tactic(auto, unfolding(crate::specs::Jumps::jumped))]
pub fn jump(condition: u8, distance: i16, sr: u16, next: u32) -> u32
    requires place { next < 0x100000 }
    requires distance { IsDistance distance }
    ensures address { result ≡ jumped condition distance sr next }
{
    if is_taken(condition, sr) {
        target(next, distance)
    } else {
        next
    }
}
