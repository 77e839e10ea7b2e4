//! Laws of the instruction at PC, which hold whatever its accesses are answered: what a user of the manual expects of
//! every instruction.
//!
//! The contract of each function is a law. The functions do nothing, but one of them asks the decoder for a length.
#![tactic(auto)]

ghost use Rattle.std.specs.Prelude.{[], ◌∷◌};
ghost use Rattle.step_laws.specs.Accesses.{AccessesAreFew, AccessesComeInOrder};
ghost use Rattle.step_laws.specs.Fetches.{FetchesItsWords, ReservedWordsDoNothing};
ghost use Rattle.step_laws.specs.Repeats.{RepeatsTakeACycleEach};
ghost use Rattle.step_laws.specs.Status.{FlagsAloneChange};

use cpux_decode::length;

/// An instruction fetches, then reads, and writes last.
#[tactic(auto, using(crate::proofs::Shapes::accesses_come_in_order))]
pub fn accesses_come_in_order()
    ensures { AccessesComeInOrder }
{}

/// An instruction makes at most 36 accesses, its fetches among them.
#[tactic(auto, using(crate::proofs::Shapes::accesses_are_few))]
pub fn accesses_are_few()
    ensures { AccessesAreFew }
{}

/// A reserved word is fetched, and does nothing: no read, no write, and no register changes.
#[tactic(auto, using(crate::proofs::Fetched::reserved_words_do_nothing))]
pub fn reserved_words_do_nothing()
    ensures { ReservedWordsDoNothing }
{}

/// Where these words stand from PC on, an instruction fetches as many of them as belong to it, in their order.
pub fn fetches_are_the_words(w0: u16, w1: u16, w2: u16, w3: u16)
    ensures { FetchesItsWords (w0 ∷ w1 ∷ w2 ∷ w3 ∷ []) }
{
    // What the decoder says of its length.
    let _count = length(w0, w1);
}

/// An instruction changes of SR the flags alone, unless it writes SR as a register.
#[tactic(auto, using(crate::proofs::StatusKept::flags_alone_change))]
pub fn flags_alone_change()
    ensures { FlagsAloneChange }
{}

/// An operation on two registers behind an extension word takes a cycle for each time that it is done, one for the
/// extension word, and two more where it writes PC.
#[tactic(auto, using(crate::proofs::RepeatCycles::repeats_take_a_cycle_each))]
pub fn repeats_take_a_cycle_each()
    ensures { RepeatsTakeACycleEach }
{}
