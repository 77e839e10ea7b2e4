ghost use Rattle.std.specs.Prelude.{◌≡◌, ◌<◌, ◌≤◌, ◌%◌, IfSome};
ghost use Rattle.chip_words.specs.Interrupts.{accepted, greatest, standing, vectors};

use chip_words::{NMI_VECTOR, VECTORS};

/// The address of the vector of the interrupt that is accepted: bit i of `lines` is line i, and `nmi` is a
/// request of the NMI.
#[tactic(auto, unfolding(chip_words::specs::Interrupts::accepted))]
pub fn best(lines: u16, gie: bool, nmi: bool) -> Option<u32>
    ensures vector { result ≡ accepted lines gie nmi }
    ensures range { IfSome result (λ vector. (0xFFD0 ≤ vector) × (vector < 0x10000)) }
    ensures even { IfSome result (λ vector. vector % 2 ≡ 0) }
{
    if nmi {
        Some(NMI_VECTOR)
    } else if gie {
        best_of_lines(lines)
    } else {
        None
    }
}

/// The vectors fall, so the first line that stands has the greatest of theirs.
fn best_of_lines(lines: u16) -> Option<u32>
    ensures vector { result ≡ greatest (standing lines 0 vectors) }
    ensures range { IfSome result (λ vector. (0xFFD0 ≤ vector) × (vector < 0x10000)) }
    ensures even { IfSome result (λ vector. vector % 2 ≡ 0) }
{
    VECTORS.get(lines.trailing_zeros() as usize).copied()
}
