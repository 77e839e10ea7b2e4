ghost use Rattle.std.specs.Prelude.{◌≡◌};
ghost use Rattle.trace_print.specs.Verdicts.{IsTellable, verdict_line_of};

use crate::pieces::{push_decimal, push_hex, push_text};
use crate::verdicts::Verdict;
use arrayvec::ArrayVec;

/// The line of a verdict. It belongs to no tick, so none stands in front.
#[tactic(auto, unfolding(crate::specs::Verdicts::verdict_line_of))]
pub fn verdict_line(verdict: Verdict) -> ArrayVec<u8, 160>
    requires { IsTellable verdict }
    ensures line { result.items ≡ verdict_line_of verdict }
{
    let mut line = ArrayVec::new();
    match verdict {
        Verdict::Seal => push_text(&mut line, b"differ seal"),
        Verdict::Outside(at) => {
            push_text(&mut line, b"differ outside ");
            push_hex(&mut line, 5, at);
        }
        Verdict::Release(tick) => {
            push_text(&mut line, b"differ release ");
            push_decimal(&mut line, tick);
        }
        Verdict::Same => push_text(&mut line, b"same"),
    }
    line.push(b'\n');
    line
}
