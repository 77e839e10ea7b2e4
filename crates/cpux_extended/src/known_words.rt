ghost use Rattle.std.specs.Prelude.{◌≡◌, ◌<◌, ◌∷◌, [], IfSome, ℕ, false, vec_len};
ghost use Rattle.cpux_decode.specs.Instructions.{decoded as decoded_of, form_of, is_extension as is_extension_word, length_of};
ghost use Rattle.cpux_decode.specs.Ranges.{IsInRange};
ghost use Rattle.cpux_extended.specs.KnownWords.{IsTimed};

use crate::extended::is_short;
use chip_words::NoMemory;
use cpux_decode::{Decoded, Look, decode_as, look_at};
use cycle_table::cycles;
use std::alloc::Global;
use std::marker::Model;

/// How many first words are kept at a time.
const PLACES: usize = 256;

/// The place of a first word among those that are kept. Words of one operation differ in their low byte, and words of
/// the same operands in their high one, so both count.
#[inline(always)]
fn place_of(word: u16) -> usize
    ensures { result < 256 }
{
    ((word ^ word >> 8) & 0xFF) as usize
}

/// The cycles of an instruction of the MSP430 without waits, and none of anything else.
fn known_cycles(d: &Decoded) -> Option<u32>
    ensures { IfSome result (IsTimed d.now) }
{
    if let Decoded::Reserved = *d {
        return None;
    }
    if is_short(d) {
        Some(cycles(d, 1, 0))
    } else {
        None
    }
}

/// What the words of an instruction say that begins with a word which is no extension word.
///
/// Contracts see the two words. All that is kept beside them follows from them.
#[derive(Clone, Drop)]
pub(crate) struct KnownWord {
    word: u16,
    second: u16,
    look: Look,
    /// The instruction, where the words behind the second are 0.
    decoded: Decoded,
    /// Its cycles without waits, where it is one of the MSP430.
    cycles: Option<u32>,
}

impl Model for KnownWord {
    ghost use Rattle.cpux_extended.specs.KnownWords.{Front, IsKnown};

    ghost Value = { Front };

    ghost view = { λ known. record { first = known.word; second = known.second } };

    ghost invariant = { λ known.
        IsKnown known.word known.second known.look known.decoded known.cycles };
}

impl KnownWord {
    /// What a word says with another one behind it.
    fn of(word: u16, second: u16) -> KnownWord
        requires { is_extension_word word ≡ false }
        ensures { result ≡ record { first = word; second = second } }
    {
        let look = look_at(word, 0);
        let decoded = decode_as(look.form, [word, second, 0, 0]);
        let cycles = known_cycles(&decoded);
        KnownWord {
            word,
            second,
            look,
            decoded,
            cycles,
        }
    }

    /// Turns to a first word, if it isn't the one that is kept.
    #[inline(always)]
    pub fn turn_to(&mut self, word: u16)
        requires { is_extension_word word ≡ false }
        ensures { self.new.first ≡ word }
    {
        if self.word != word {
            self.learn(word);
        }
    }

    #[inline(never)]
    fn learn(&mut self, word: u16)
        requires { is_extension_word word ≡ false }
        ensures { self.new.first ≡ word }
    {
        *self = KnownWord::of(word, 0);
    }

    /// Attends to the word behind the first, if it isn't the one that is kept.
    #[inline(always)]
    pub fn attend(&mut self, second: u16)
        ensures { self.new ≡ record { first = self.old.first; second = second } }
    {
        if self.second != second {
            self.learn_second(second);
        }
    }

    #[inline(never)]
    fn learn_second(&mut self, second: u16)
        ensures { self.new ≡ record { first = self.old.first; second = second } }
    {
        self.second = second;
        self.decoded = decode_as(self.look.form, [self.word, second, 0, 0]);
        self.cycles = known_cycles(&self.decoded);
    }

    /// What the first word tells.
    #[inline(always)]
    pub fn look(&self) -> Look
        ensures form { (other : ℕ) → result.form ≡ form_of self.now.first other }
        ensures count { (other : ℕ) → result.count ≡ length_of self.now.first other }
    {
        self.look
    }

    /// How many words belong to the instruction.
    #[inline(always)]
    pub fn count(&self) -> u32
        ensures { (other : ℕ) → result ≡ length_of self.now.first other }
    {
        self.look.count
    }

    /// The instruction, where the words behind the second are 0.
    #[inline(always)]
    pub fn decoded(&self) -> &Decoded
        ensures instruction { result.now ≡
            decoded_of (self.now.first ∷ self.now.second ∷ 0 ∷ 0 ∷ []) }
        ensures range { IsInRange result.now }
    {
        &self.decoded
    }

    /// The cycles of that instruction without waits, where it is one of the MSP430.
    #[inline(always)]
    pub fn cycles(&self) -> Option<u32>
        ensures { IfSome result
            (IsTimed (decoded_of (self.now.first ∷ self.now.second ∷ 0 ∷ 0 ∷ []))) }
    {
        self.cycles
    }
}

/// What the words of instructions say that were executed before. It spares a step their look-up in the table, their
/// decoding and the count of their cycles.
///
/// It is no part of a chip's state. Whatever it keeps is right, since words say the same wherever they stand and whenever
/// they are executed, so a step does the same with any of its values, and none has ever to be dropped.
#[derive(Drop)]
pub struct KnownWords {
    /// Each first word has one place, at which the last one is kept that was executed of those that share it.
    words: Vec<KnownWord>,
    ghost full: { vec_len words ≡ 256 },
}

impl KnownWords {
    /// At each place it is known what the word 0 says.
    pub fn build(alloc: Global) -> Result<KnownWords, NoMemory> {
        match vec![in alloc; KnownWord::of(0, 0); PLACES] {
            Ok(words) => Ok(KnownWords { words }),
            Err(_) => Err(NoMemory),
        }
    }

    /// What is kept at the place of a first word, which may be what another one says.
    #[inline(always)]
    pub(crate) fn place(&mut self, word: u16) -> &mut KnownWord {
        &mut self.words[place_of(word)]
    }
}
