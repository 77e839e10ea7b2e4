//! Any instruction over any bus: its words are fetched and decoded, and it is done.
//!
//! The instructions of the MSP430 are those of cpux_execute. Those of the MSP430X are here: the ones behind an
//! extension word, the address instructions, the shifts by several places, PUSHM, POPM and CALLA.
#![tactic(auto)]

ghost use Rattle.std.specs.Prelude.{◌≡◌, ◌<◌, ◌≤◌, [], ◌∷◌, length, true};
ghost use Rattle.cpux_decode.specs.Instructions.{first_word, form_of, is_extension as is_extension_word, length_of, second_word};
ghost use Rattle.cpux_decode.specs.Ranges.{IsInRange};
ghost use Rattle.cpux_execute.specs.Steps.{CpuSteps};
ghost use Rattle.cycle_table.specs.Cycles.{IsInstruction};
ghost use Rattle.cpux_extended.specs.Extended.{is_short as is_short_row};
ghost use Rattle.cpux_extended.specs.Instruction.{behind, behind_word, extended_step, instruction, instruction_address, of_first_word, of_one_word, of_two_words, step_by, step_of_words};

mod address_instructions;
mod extended;
mod known_words;
mod register_form;
mod stack;

use chip_words::{Bus, Regs, wrap20};
use cpux_decode::{Decoded, Form, Look, PC, decode_as, is_extension, look_at};
pub use cpux_execute::Outcome;
use cpux_execute::{execute, execute_timed};
use cycle_table::cycles;
use extended::{is_long, is_short, perform_extended, repeats};
use known_words::KnownWord;
pub use known_words::KnownWords;

/// So many bytes behind an address.
fn bytes_behind(bytes: u32, at: u32) -> u32
    ensures value { result ≡ behind bytes at }
    ensures small { result < 0x100000 }
{
    wrap20(at as u64 + bytes as u64)
}

/// The address behind the instruction word of an instruction at an address.
fn word_end(d: &Decoded, at: u32) -> u32
    ensures value { result ≡ behind_word d.now at }
    ensures small { result < 0x100000 }
{
    if is_long(d) {
        bytes_behind(4, at)
    } else {
        bytes_behind(2, at)
    }
}

/// Does an instruction of the MSP430X at `ia`. `pc` is behind its instruction word, and PC in the registers is the next
/// address.
#[tactic(auto, using(chip_words::proofs::Runs::run_then), unfolding(crate::specs::Instruction::extended_step))]
fn execute_extended<B: Bus>(regs: &mut Regs, bus: &mut B, ia: u32, pc: u32, d: &Decoded) -> Outcome
    requires instruction { IsInstruction d.now }
    requires range { IsInRange d.now }
    requires pc { pc < 0x100000 }
    requires room { length (B.part bus.old).accesses ≤ 4 }
    ensures steps { CpuSteps ia (extended_step d.now pc regs.old)
        (B.part bus.old) regs.new result (B.part bus.new) }
    ensures count { length (B.part bus.new).accesses ≤ 36 }
{
    let repeats = repeats(d, regs) as u32;
    perform_extended(regs, bus, ia, pc, d);
    Outcome::Cycles(cycles(d, repeats, 0))
}

/// Does the instruction at `ia`, whose words were fetched and decoded. `next` is the address behind them.
///
/// It isn't compiled into its callers, so that what they do where the cycles are known stays short.
#[inline(never)]
fn execute_decoded<B: Bus>(regs: &mut Regs, bus: &mut B, d: &Decoded, ia: u32, next: u32) -> Outcome
    requires range { IsInRange d.now }
    requires place { ia < 0x100000 }
    requires next { next < 0x100000 }
    requires room { length (B.part bus.old).accesses ≤ 4 }
    ensures steps { CpuSteps ia (step_by (is_short_row d.now) d.now ia next regs.old)
        (B.part bus.old) regs.new result (B.part bus.new) }
    ensures count { length (B.part bus.new).accesses ≤ 36 }
{
    if is_short(d) {
        return execute(regs, bus, ia, next, d);
    }
    regs.set(PC, next);
    execute_extended(regs, bus, ia, word_end(d, ia), d)
}

/// Decodes the words of the instruction at `ia`, whose form is known, and does it. `next` is the address behind them.
#[tactic(auto, unfolding(crate::specs::Instruction::step_of_words))]
fn execute_words<B: Bus>(
    regs: &mut Regs,
    bus: &mut B,
    form: Form,
    words: [u16; 4],
    ia: u32,
    next: u32,
) -> Outcome
    requires form { form ≡ form_of (first_word words) (second_word words) }
    requires place { ia < 0x100000 }
    requires next { next < 0x100000 }
    requires room { length (B.part bus.old).accesses ≤ 4 }
    ensures steps { CpuSteps ia (step_of_words words ia next regs.old)
        (B.part bus.old) regs.new result (B.part bus.new) }
    ensures count { length (B.part bus.new).accesses ≤ 36 }
{
    execute_decoded(regs, bus, &decode_as(form, words), ia, next)
}

/// Fetches the words behind the first two, and executes the instruction that they begin. `look` is what they tell.
#[inline(never)]
#[tactic(auto, unfolding(crate::specs::Instruction::of_two_words))]
fn execute_two_words<B: Bus>(
    regs: &mut Regs,
    bus: &mut B,
    look: Look,
    w0: u16,
    w1: u16,
    ia: u32,
) -> Outcome
    requires form { look.form ≡ form_of w0 w1 }
    requires place { ia < 0x100000 }
    requires room { length (B.part bus.old).accesses ≤ 2 }
    ensures steps { CpuSteps ia (of_two_words look.count w0 w1 ia regs.old)
        (B.part bus.old) regs.new result (B.part bus.new) }
    ensures count { length (B.part bus.new).accesses ≤ 36 }
{
    let third = bytes_behind(4, ia);
    let fourth = bytes_behind(6, ia);
    if look.count == 2 {
        return execute_words(regs, bus, look.form, [w0, w1, 0, 0], ia, third);
    }
    let w2 = bus.fetch(ia, third);
    if look.count == 3 {
        return execute_words(regs, bus, look.form, [w0, w1, w2, 0], ia, fourth);
    }
    let w3 = bus.fetch(ia, fourth);
    execute_words(
        regs,
        bus,
        look.form,
        [w0, w1, w2, w3],
        ia,
        bytes_behind(8, ia),
    )
}

/// Does the instruction at `ia`, whose words are known; those behind the second count as 0. `next` is the address behind
/// them.
#[inline(always)]
#[tactic(auto, unfolding(crate::specs::Instruction::step_of_words))]
fn execute_known<B: Bus>(
    regs: &mut Regs,
    bus: &mut B,
    known: &KnownWord,
    ia: u32,
    next: u32,
) -> Outcome
    requires place { ia < 0x100000 }
    requires next { next < 0x100000 }
    requires room { length (B.part bus.old).accesses ≤ 4 }
    ensures steps { CpuSteps ia
        (step_of_words (known.now.first ∷ known.now.second ∷ 0 ∷ 0 ∷ []) ia next regs.old)
        (B.part bus.old) regs.new result (B.part bus.new) }
    ensures count { length (B.part bus.new).accesses ≤ 36 }
{
    let d = known.decoded();
    match known.cycles() {
        Some(cycles) => execute_timed(regs, bus, ia, next, d, cycles),
        None => execute_decoded(regs, bus, d, ia, next),
    }
}

/// Fetches the words behind the first, which is no extension word, and executes the instruction that it begins.
///
/// `known` is what is kept of that word. One that has no more than two is decoded only where the second isn't the one
/// that it had the last time.
#[inline(always)]
#[tactic(auto, unfolding(crate::specs::Instruction::of_one_word, crate::specs::Instruction::of_two_words))]
fn execute_first_word<B: Bus>(
    regs: &mut Regs,
    bus: &mut B,
    known: &mut KnownWord,
    w0: u16,
    ia: u32,
) -> Outcome
    requires word { known.old.first ≡ w0 }
    requires place { ia < 0x100000 }
    requires room { length (B.part bus.old).accesses ≤ 1 }
    ensures steps { CpuSteps ia (of_one_word (length_of w0 0) w0 ia regs.old)
        (B.part bus.old) regs.new result (B.part bus.new) }
    ensures count { length (B.part bus.new).accesses ≤ 36 }
{
    let second = bytes_behind(2, ia);
    if known.count() == 1 {
        known.attend(0);
        return execute_known(regs, bus, known, ia, second);
    }
    let w1 = bus.fetch(ia, second);
    if known.count() == 2 {
        known.attend(w1);
        return execute_known(regs, bus, known, ia, bytes_behind(4, ia));
    }
    execute_two_words(regs, bus, known.look(), w0, w1, ia)
}

/// Executes the instruction at `ia` that begins with the extension word `w0`.
#[inline(never)]
fn execute_behind_extension<B: Bus>(regs: &mut Regs, bus: &mut B, w0: u16, ia: u32) -> Outcome
    requires extension { is_extension_word w0 ≡ true }
    requires place { ia < 0x100000 }
    requires room { length (B.part bus.old).accesses ≤ 1 }
    ensures steps { CpuSteps ia (of_first_word true w0 ia regs.old)
        (B.part bus.old) regs.new result (B.part bus.new) }
    ensures count { length (B.part bus.new).accesses ≤ 36 }
{
    let w1 = bus.fetch(ia, bytes_behind(2, ia));
    execute_two_words(regs, bus, look_at(w0, w1), w0, w1, ia)
}

/// Executes the instruction at PC, whatever it is, and says how it ended.
///
/// It makes all its accesses, the fetches first. After a reserved word nothing but fetches was done, and PC stands.
/// `known` spares work where the words were executed before, and whatever it holds, the step does the same.
#[inline(always)]
#[tactic(auto, unfolding(crate::specs::Instruction::instruction))]
pub fn step<B: Bus>(regs: &mut Regs, bus: &mut B, known: &mut KnownWords) -> Outcome
    requires empty { (B.part bus.old).accesses ≡ [] }
    ensures steps { CpuSteps (instruction_address regs.old) (instruction regs.old)
        (B.part bus.old) regs.new result (B.part bus.new) }
    ensures count { length (B.part bus.new).accesses ≤ 36 }
{
    let ia = regs.get(PC);
    let w0 = bus.fetch(ia, ia);
    if is_extension(w0) {
        return execute_behind_extension(regs, bus, w0, ia);
    }
    let word = known.place(w0);
    word.turn_to(w0);
    execute_first_word(regs, bus, word, w0, ia)
}
