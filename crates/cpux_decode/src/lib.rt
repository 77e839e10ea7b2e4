//! The instruction words of the processor: what a word means, and how many words belong to it.
#![tactic(auto)]

ghost use Rattle.std.specs.Prelude.{◌≡◌, ◌≤◌, ◌↔◌, ℕ, List, false, true};
ghost use Rattle.cpux_decode.specs.Instructions.{IsReserved, SameFront, decoded, first_word, form_of, is_extension as is_extension_word, length_of, operand_words as operand_words_of, second_word};
ghost use Rattle.cpux_decode.specs.Ranges.{IsInRange};

mod classify;
mod fields;
mod forms;
mod instructions;
mod laws;
mod operands;
mod operations;
mod places;

pub use chip_words::{CG, PC, SP, SR, Size};
use classify::classify;
use fields::instruction;
pub use forms::{Form, Look, Shape};
pub use instructions::{Count, Decoded, Rep};
pub use laws::{each_pair_meets_one_row, reserved_for_reasons};
pub use operands::sign_extended;
use operands::{destination_mode, field_3_0, field_11_8, source_mode, source_words};
pub use operations::{Op1, Op2, OpA, OpS};
pub use places::Place;

/// Says whether a word is an extension word, behind which an instruction word stands.
pub fn is_extension(word: u16) -> bool
    ensures { result ≡ is_extension_word word }
{
    word >> 11 == 3
}

/// The form of the instruction that begins with these two words, and how many belong to it. Where the first is no
/// extension word, the second may be any.
#[inline(always)]
#[tactic(auto, using(crate::proofs::Fronts::lengths), unfolding(crate::specs::Instructions::length_of))]
pub fn look_at(w0: u16, w1: u16) -> Look
    ensures form { result.form ≡ form_of w0 w1 }
    ensures count { result.count ≡ length_of w0 w1 }
    ensures least { 1 ≤ result.count }
    ensures most { result.count ≤ 4 }

    // The second word counts behind an extension word alone, and there it belongs to the instruction.
    ensures form_alone { is_extension_word w0 ≡ false → (other : ℕ) →
        result.form ≡ form_of w0 other }
    ensures count_alone { is_extension_word w0 ≡ false → (other : ℕ) →
        result.count ≡ length_of w0 other }
    ensures extended { is_extension_word w0 ≡ true → 2 ≤ result.count }
{
    let shape = classify(w0, w1);
    Look {
        form: shape.form,
        count: shape.words as u32 + operand_words(shape.form, w0, w1) as u32,
    }
}

/// How many words belong to the instruction that begins with these two. Where the first is no extension
/// word, the second may be any.
pub fn length(w0: u16, w1: u16) -> u32
    ensures count { result ≡ length_of w0 w1 }
    ensures least { 1 ≤ result }
    ensures most { result ≤ 4 }

    // The second word counts behind an extension word alone, and there it belongs to the instruction.
    ensures alone { is_extension_word w0 ≡ false → (other : ℕ) → length_of w0 other ≡ result }
    ensures extended { is_extension_word w0 ≡ true → 2 ≤ result }
{
    look_at(w0, w1).count
}

/// The words of the operands by their addressing modes.
#[tactic(auto, unfolding(crate::specs::Instructions::operand_words))]
fn operand_words(form: Form, w0: u16, w1: u16) -> u8
    ensures count { result ≡ operand_words_of form w0 w1 }
    ensures most { result ≤ 2 }
{
    match form {
        Form::One(_) => source_words(source_mode(w0), field_3_0(w0)),
        Form::Two(_) => source_words(source_mode(w0), field_11_8(w0)) + destination_mode(w0),
        Form::LongOne(_) => source_words(source_mode(w1), field_3_0(w1)),
        Form::LongTwo(_) => source_words(source_mode(w1), field_11_8(w1)) + destination_mode(w1),
        _ => 0,
    }
}

/// The instruction that these words begin with, where its form is known. Words past its length may be any.
#[tactic(auto, unfolding(crate::specs::Instructions::decoded))]
pub fn decode_as(form: Form, words: [u16; 4]) -> Decoded
    requires { form ≡ form_of (first_word words) (second_word words) }
    ensures instruction { result ≡ decoded words }
    ensures range { IsInRange result }
{
    instruction(form, words)
}

/// The instruction that these words begin with. Words past its length may be any.
#[tactic(auto, using(crate::proofs::Fronts::fronts, crate::proofs::Reserved::reserved), unfolding(crate::specs::Instructions::decoded))]
pub fn decode(words: [u16; 4]) -> Decoded
    ensures instruction { result ≡ decoded words }
    ensures range { IsInRange result }

    // Reserved exactly where the first two words meet a reserved row of the table.
    ensures reserved { (result ≡ Decoded.Reserved) ↔ IsReserved words }

    // Words past the length don't count.
    ensures front { (others : List ℕ) →
        SameFront (length_of (first_word words) (second_word words)) words others →
        decoded others ≡ result }
{
    decode_as(classify(words[0], words[1]).form, words)
}

#[cfg(test)]
mod tests;
