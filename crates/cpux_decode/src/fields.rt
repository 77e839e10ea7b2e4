ghost use Rattle.std.specs.Prelude.{◌≡◌};
ghost use Rattle.cpux_decode.specs.Instructions.{instruction_of, jump as jump_of, long_one_operand as long_one_operand_of, long_two_operands as long_two_operands_of, many_size as many_size_of, one_operand as one_operand_of, shift_many as shift_many_of, shift_operation as shift_operation_of, two_operands as two_operands_of};
ghost use Rattle.cpux_decode.specs.Ranges.{IsInRange};

use crate::forms::Form;
use crate::instructions::Decoded;
use crate::operands::{
    destination, destination_mode, field_3_0, field_7_4, field_10_7, field_11_8, is_set, long_size,
    once, rep, signed_index, size, source, source_mode, source_words, wide,
};
use crate::operations::{Op1, Op2, OpS};
use crate::places::Place;
use chip_words::{PC, Size};

/// The instruction of a form, with the fields of its words.
#[tactic(auto, unfolding(crate::specs::Instructions::instruction_of))]
pub fn instruction(form: Form, words: [u16; 4]) -> Decoded
    ensures instruction { result ≡ instruction_of form words }
    ensures range { IsInRange result }
{
    let w0 = words[0];
    let (s, d) = (field_11_8(w0), field_3_0(w0));
    let x = words[1];
    match form {
        Form::Reserved => Decoded::Reserved,
        Form::MoveAt => Decoded::Move {
            from: Place::At(s),
            to: Place::Reg(d),
        },
        Form::MoveAtPlus => Decoded::Move {
            from: Place::AtPlus(s),
            to: Place::Reg(d),
        },
        Form::MoveAbsolute => Decoded::Move {
            from: Place::Absolute(wide(s, x)),
            to: Place::Reg(d),
        },
        Form::MoveIndexed => Decoded::Move {
            from: Place::Far(s, signed_index(x)),
            to: Place::Reg(d),
        },
        Form::MoveToAbsolute => Decoded::Move {
            from: Place::Reg(s),
            to: Place::Absolute(wide(d, x)),
        },
        Form::MoveToIndexed => Decoded::Move {
            from: Place::Reg(s),
            to: Place::Far(d, signed_index(x)),
        },
        Form::MoveImm => Decoded::Move {
            from: Place::Imm(wide(s, x)),
            to: Place::Reg(d),
        },
        Form::MoveReg => Decoded::Move {
            from: Place::Reg(s),
            to: Place::Reg(d),
        },
        Form::AddrImm(op) => Decoded::Addr {
            op,
            from: Place::Imm(wide(s, x)),
            to: d,
        },
        Form::AddrReg(op) => Decoded::Addr {
            op,
            from: Place::Reg(s),
            to: d,
        },
        Form::ShiftMany => shift_many(w0),
        Form::One(op) => one_operand(op, words),
        Form::Reti => Decoded::Reti,
        Form::CallReg => Decoded::CallA { to: Place::Reg(d) },
        Form::CallIndexed => Decoded::CallA {
            to: Place::Far(d, signed_index(x)),
        },
        Form::CallAt => Decoded::CallA { to: Place::At(d) },
        Form::CallAtPlus => Decoded::CallA {
            to: Place::AtPlus(d),
        },
        Form::CallAbsolute => Decoded::CallA {
            to: Place::Absolute(wide(d, x)),
        },
        Form::CallSymbolic => Decoded::CallA {
            to: Place::Far(PC, wide(d, x)),
        },
        Form::CallImm => Decoded::CallA {
            to: Place::Imm(wide(d, x)),
        },
        Form::PushMany => Decoded::PushMany {
            size: many_size(w0),
            count: field_7_4(w0) + 1,
            reg: d,
        },
        Form::PopMany => Decoded::PopMany {
            size: many_size(w0),
            count: field_7_4(w0) + 1,
            reg: d,
        },
        Form::LongOne(op) => long_one_operand(op, words),
        Form::LongTwo(op) => long_two_operands(op, words),
        Form::Jump => jump(w0),
        Form::Two(op) => two_operands(op, words),
    }
}

/// Two operands, whose words stand in the order source, destination.
#[tactic(auto, unfolding(crate::specs::Instructions::two_operands))]
fn two_operands(op: Op2, words: [u16; 4]) -> Decoded
    ensures instruction { result ≡ two_operands_of op words }
    ensures range { IsInRange result }
{
    let word = words[0];
    let (mode, r) = (source_mode(word), field_11_8(word));
    let x = words[1 + source_words(mode, r) as usize];
    Decoded::Two {
        op,
        size: size(word),
        from: source(false, 0, mode, r, words[1]),
        to: destination(false, 0, destination_mode(word), field_3_0(word), x),
        rep: once(),
        long: false,
    }
}

/// Two operands behind an extension word, which has their bits 19:16.
#[tactic(auto, unfolding(crate::specs::Instructions::long_two_operands))]
fn long_two_operands(op: Op2, words: [u16; 4]) -> Decoded
    ensures instruction { result ≡ long_two_operands_of op words }
    ensures range { IsInRange result }
{
    let (extension, word) = (words[0], words[1]);
    let (mode, r) = (source_mode(word), field_11_8(word));
    let to_mode = destination_mode(word);
    let x = words[2 + source_words(mode, r) as usize];
    Decoded::Two {
        op,
        size: long_size(extension, word),
        from: source(true, field_10_7(extension), mode, r, words[2]),
        to: destination(true, field_3_0(extension), to_mode, field_3_0(word), x),
        rep: rep(mode == 0 && to_mode == 0, extension),
        long: true,
    }
}

/// One operand.
#[tactic(auto, unfolding(crate::specs::Instructions::one_operand))]
fn one_operand(op: Op1, words: [u16; 4]) -> Decoded
    ensures instruction { result ≡ one_operand_of op words }
    ensures range { IsInRange result }
{
    let word = words[0];
    Decoded::One {
        op,
        size: size(word),
        place: source(false, 0, source_mode(word), field_3_0(word), words[1]),
        rep: once(),
        long: false,
    }
}

/// One operand behind an extension word, which repeats the register form of all but PUSH.
#[tactic(auto, unfolding(crate::specs::Instructions::long_one_operand))]
fn long_one_operand(op: Op1, words: [u16; 4]) -> Decoded
    ensures instruction { result ≡ long_one_operand_of op words }
    ensures range { IsInRange result }
{
    let (extension, word) = (words[0], words[1]);
    let mode = source_mode(word);
    let is_push = matches!(op, Op1::Push);
    Decoded::One {
        op,
        size: long_size(extension, word),
        place: source(true, field_3_0(extension), mode, field_3_0(word), words[2]),
        rep: rep(mode == 0 && !is_push, extension),
        long: true,
    }
}

/// A condition, and a distance of ten bits as a signed number.
#[tactic(auto, unfolding(crate::specs::Instructions::jump))]
fn jump(word: u16) -> Decoded
    ensures instruction { result ≡ jump_of word }
    ensures range { IsInRange result }
{
    let distance = (word & 0x3FF) as i16;
    let offset = if distance < 512 {
        distance
    } else {
        distance - 1024
    };
    Decoded::Jump {
        cond: ((word >> 10) & 7) as u8,
        offset,
    }
}

/// The shift that bits 9:8 name.
fn shift_operation(code: u8) -> OpS
    ensures { result ≡ shift_operation_of code }
{
    match code {
        0 => OpS::Rrc,
        1 => OpS::Rra,
        2 => OpS::Rla,
        _ => OpS::Rru,
    }
}

/// A shift of several places.
#[tactic(auto, unfolding(crate::specs::Instructions::shift_many))]
fn shift_many(word: u16) -> Decoded
    ensures instruction { result ≡ shift_many_of word }
    ensures range { IsInRange result }
{
    Decoded::Shift {
        op: shift_operation(((word >> 8) & 3) as u8),
        size: if is_set(word, 4) {
            Size::Word
        } else {
            Size::Addr
        },
        count: ((word >> 10) & 3) as u8 + 1,
        reg: field_3_0(word),
    }
}

/// The width of PUSHM and POPM.
fn many_size(word: u16) -> Size
    ensures { result ≡ many_size_of word }
{
    if is_set(word, 8) {
        Size::Word
    } else {
        Size::Addr
    }
}
