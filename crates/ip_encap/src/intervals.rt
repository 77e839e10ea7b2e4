ghost use Rattle.std.specs.Prelude.{◌≡◌, ◌+◌, ◌≤◌, ◌++◌, All};
ghost use Rattle.arrayvec.specs.ArrayVec.{array_vec_len};
ghost use Rattle.ip_encap.specs.Opened.{LiesInMainFram, opened as opened_of};
ghost use Rattle.ip_encap.specs.Pieces.{AreHoles, piece};

use crate::areas::{LAST_VECTOR, SIGNATURES};
use arrayvec::ArrayVec;
use chip_words::Seal;
use memory_map::{MAIN_END, MAIN_START};

/// Addresses from `low` up to and without `high`.
#[derive(Clone, Copy, Debug, Default, PartialEq, Eq)]
pub struct Interval {
    pub low: u32,
    pub high: u32,
}

/// The signatures and the interrupt vectors.
const NEVER_SEALED: Interval = Interval {
    low: SIGNATURES,
    high: LAST_VECTOR + 1,
};

/// The intervals of addresses that leave one seal for another, ascending: at most three.
///
/// What the first seal bounds has two holes, one of the addresses that are never sealed and one of those that the second
/// seal bounds. What lies below both, between them and above both is left.
pub fn opened(before: Seal, after: Seal) -> ArrayVec<Interval, 3>
    ensures intervals { result.items ≡ opened_of before after }
    ensures in_main_fram { All LiesInMainFram result.items }
{
    let low = before.low.max(MAIN_START);
    let high = before.high.min(MAIN_END);
    let (first, second) = holes(after);
    let between = low.max(first.high);
    let above = between.max(second.high);
    let mut intervals = ArrayVec::new();
    push_piece(low, high.min(first.low), &mut intervals);
    push_piece(between, high.min(second.low), &mut intervals);
    push_piece(above, high, &mut intervals);
    intervals
}

/// The addresses that are never sealed and those that a seal bounds, ascending. Where it bounds none there is one hole,
/// which is named twice.
fn holes(seal: Seal) -> (Interval, Interval)
    ensures { AreHoles seal result.0 result.1 }
{
    let bounded = Interval {
        low: seal.low,
        high: seal.high,
    };
    if seal.high <= seal.low {
        (NEVER_SEALED, NEVER_SEALED)
    } else if seal.low < SIGNATURES {
        (bounded, NEVER_SEALED)
    } else {
        (NEVER_SEALED, bounded)
    }
}

/// Adds the addresses from `low` up to `high` where there are any.
fn push_piece(low: u32, high: u32, intervals: &mut ArrayVec<Interval, 3>)
    requires { array_vec_len intervals.old ≤ 2 }
    ensures items { intervals.new.items ≡ intervals.old.items ++ piece low high }
    ensures count { array_vec_len intervals.new ≤ array_vec_len intervals.old + 1 }
{
    if low < high {
        intervals.push(Interval { low, high });
    }
}
