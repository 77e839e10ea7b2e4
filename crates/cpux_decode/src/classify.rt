ghost use Rattle.std.specs.Prelude.{◌≡◌, ℕ, ◌+◌, ◌/◌, ◌≤◌, ◌++◌};
ghost use Rattle.cpux_decode.specs.Branches.{operand_rows, long_operand_rows, long_width_rows, long_rotate_rows, long_word_rows};
ghost use Rattle.cpux_decode.specs.Rows.{lookup};
ghost use Rattle.cpux_decode.specs.Table.{address_rows, one_operand_rows, call_rows, extended_rows, reserved_one_operand_rows, reserved_call_rows, reserved_extended_rows, shape_of, no_row};

use crate::forms::{Form, Shape};
use crate::operations::{Op1, Op2, OpA};

/// Bit A/L of an extension word, which gives the width together with bit B/W.
const A_L: u16 = 0x40;
/// Bit B/W of an instruction word.
const B_W: u16 = 0x40;

/// What the table says of the first two words.
#[tactic(auto, using(crate::proofs::Groups::first_nibbles))]
pub fn classify(w0: u16, w1: u16) -> Shape
    ensures { result ≡ shape_of w0 w1 }
{
    match w0 >> 12 {
        0x0 => address(w0, w1),
        0x1 => from_1000(w0, w1),
        0x2 | 0x3 => alone(Form::Jump),
        0x4 => alone(Form::Two(Op2::Mov)),
        0x5 => alone(Form::Two(Op2::Add)),
        0x6 => alone(Form::Two(Op2::Addc)),
        0x7 => alone(Form::Two(Op2::Subc)),
        0x8 => alone(Form::Two(Op2::Sub)),
        0x9 => alone(Form::Two(Op2::Cmp)),
        0xA => alone(Form::Two(Op2::Dadd)),
        0xB => alone(Form::Two(Op2::Bit)),
        0xC => alone(Form::Two(Op2::Bic)),
        0xD => alone(Form::Two(Op2::Bis)),
        0xE => alone(Form::Two(Op2::Xor)),
        _ => alone(Form::Two(Op2::And)),
    }
}

/// A form of one word besides those of addressing modes.
fn alone(form: Form) -> Shape
    ensures { result ≡ record { form = form; words = 1 } }
{
    Shape { form, words: 1 }
}

/// A form of two words besides those of addressing modes.
fn with_word(form: Form) -> Shape
    ensures { result ≡ record { form = form; words = 2 } }
{
    Shape { form, words: 2 }
}

/// Address instructions and the shifts of several places.
#[tactic(auto, unfolding(crate::specs::Table::address_rows))]
fn address(w0: u16, w1: u16) -> Shape
    requires { w0 / 0x1000 ≡ 0 }
    ensures { result ≡ lookup no_row address_rows w0 w1 }
{
    match w0 & 0xF0F0 {
        0x00 => alone(Form::MoveAt),
        0x10 => alone(Form::MoveAtPlus),
        0x20 => with_word(Form::MoveAbsolute),
        0x30 => with_word(Form::MoveIndexed),
        0x40 | 0x50 => alone(Form::ShiftMany),
        0x60 => with_word(Form::MoveToAbsolute),
        0x70 => with_word(Form::MoveToIndexed),
        0x80 => with_word(Form::MoveImm),
        0x90 => with_word(Form::AddrImm(OpA::Cmp)),
        0xA0 => with_word(Form::AddrImm(OpA::Add)),
        0xB0 => with_word(Form::AddrImm(OpA::Sub)),
        0xC0 => alone(Form::MoveReg),
        0xD0 => alone(Form::AddrReg(OpA::Cmp)),
        0xE0 => alone(Form::AddrReg(OpA::Add)),
        0xF0 => alone(Form::AddrReg(OpA::Sub)),
        _ => alone(Form::Reserved),
    }
}

/// The words from 1000h to 1FFFh.
#[tactic(auto, using(crate::proofs::Groups::second_nibbles))]
fn from_1000(w0: u16, w1: u16) -> Shape
    requires { w0 / 0x1000 ≡ 1 }
    ensures { result ≡ shape_of w0 w1 }
{
    match w0 >> 8 {
        0x10 | 0x11 | 0x12 => one_operand(w0, w1),
        0x13 => call(w0, w1),
        0x14 | 0x15 => alone(Form::PushMany),
        0x16 | 0x17 => alone(Form::PopMany),
        _ => extended(w0, w1),
    }
}

/// Operations of one operand.
#[tactic(auto, using(crate::proofs::Groups::one_operand_prefixes))]
fn one_operand(w0: u16, w1: u16) -> Shape
    requires low { 0x10 ≤ w0 / 0x100 }
    requires high { w0 / 0x100 ≤ 0x12 }
    ensures { result ≡ lookup no_row (reserved_one_operand_rows ++ one_operand_rows) w0 w1 }
{
    match w0 >> 6 {
        0x40 => unless_unfit(w0, alone(Form::One(Op1::Rrc))),
        0x41 => unless_unfit(w0, alone(Form::One(Op1::Rrc))),
        0x42 => unless_unfit(w0, alone(Form::One(Op1::Swpb))),
        0x44 => unless_unfit(w0, alone(Form::One(Op1::Rra))),
        0x45 => unless_unfit(w0, alone(Form::One(Op1::Rra))),
        0x46 => unless_unfit(w0, alone(Form::One(Op1::Sxt))),
        0x48 | 0x49 => alone(Form::One(Op1::Push)),
        0x4A => alone(Form::One(Op1::Call)),
        _ => alone(Form::Reserved),
    }
}

/// Reserved on R3, on R2 with As 10 or 11 and on an immediate, and else this shape.
fn unless_unfit(word: u16, shape: Shape) -> Shape
    ensures alone { (w1 : ℕ) → shape.words ≡ 1 →
        result ≡ lookup no_row (operand_rows shape.form) word w1 }
    ensures behind { (w0 : ℕ) → shape.words ≡ 2 →
        result ≡ lookup no_row (long_operand_rows shape.form) w0 word }
{
    if word & 0x0F == 0x03 || word & 0x2F == 0x22 || word & 0x3F == 0x30 {
        Shape {
            form: Form::Reserved,
            words: shape.words,
        }
    } else {
        shape
    }
}

/// RETI and CALLA.
#[tactic(auto, unfolding(crate::specs::Table::call_rows, crate::specs::Table::reserved_call_rows))]
fn call(w0: u16, w1: u16) -> Shape
    requires { w0 / 0x100 ≡ 0x13 }
    ensures { result ≡ lookup no_row (reserved_call_rows ++ call_rows) w0 w1 }
{
    match w0 & 0xFFF0 {
        0x1300 if w0 == 0x1300 => alone(Form::Reti),
        0x1340 => alone(Form::CallReg),
        0x1350 => with_word(Form::CallIndexed),
        0x1360 => alone(Form::CallAt),
        0x1370 => alone(Form::CallAtPlus),
        0x1380 => with_word(Form::CallAbsolute),
        0x1390 => with_word(Form::CallSymbolic),
        0x13B0 => with_word(Form::CallImm),
        _ => alone(Form::Reserved),
    }
}

/// An extension word and the word behind it.
#[tactic(auto, using(crate::proofs::Groups::long_nibbles))]
fn extended(w0: u16, w1: u16) -> Shape
    requires { w0 / 0x800 ≡ 3 }
    ensures { result ≡ lookup no_row (reserved_extended_rows ++ extended_rows) w0 w1 }
{
    match w1 >> 12 {
        0x1 => extended_one(w0, w1),
        0x4 => unless_no_width(w0, w1, Form::LongTwo(Op2::Mov)),
        0x5 => unless_no_width(w0, w1, Form::LongTwo(Op2::Add)),
        0x6 => unless_no_width(w0, w1, Form::LongTwo(Op2::Addc)),
        0x7 => unless_no_width(w0, w1, Form::LongTwo(Op2::Subc)),
        0x8 => unless_no_width(w0, w1, Form::LongTwo(Op2::Sub)),
        0x9 => unless_no_width(w0, w1, Form::LongTwo(Op2::Cmp)),
        0xA => unless_no_width(w0, w1, Form::LongTwo(Op2::Dadd)),
        0xB => unless_no_width(w0, w1, Form::LongTwo(Op2::Bit)),
        0xC => unless_no_width(w0, w1, Form::LongTwo(Op2::Bic)),
        0xD => unless_no_width(w0, w1, Form::LongTwo(Op2::Bis)),
        0xE => unless_no_width(w0, w1, Form::LongTwo(Op2::Xor)),
        0xF => unless_no_width(w0, w1, Form::LongTwo(Op2::And)),
        _ => with_word(Form::Reserved),
    }
}

/// Behind an extension word: reserved with A/L 0 and B/W 0, and else this form.
fn unless_no_width(w0: u16, w1: u16, form: Form) -> Shape
    ensures { result ≡ lookup no_row (long_width_rows form) w0 w1 }
{
    if w0 & A_L == 0 && w1 & B_W == 0 {
        with_word(Form::Reserved)
    } else {
        with_word(form)
    }
}

/// An operation of one operand behind an extension word.
#[tactic(auto, using(crate::proofs::Groups::long_one_operand_prefixes))]
fn extended_one(w0: u16, w1: u16) -> Shape
    requires first { w0 / 0x800 ≡ 3 }
    requires next { w1 / 0x1000 ≡ 1 }
    ensures { result ≡ lookup no_row (reserved_extended_rows ++ extended_rows) w0 w1 }
{
    match w1 >> 7 {
        0x20 => extended_rotate(w0, w1, Op1::Rrc),
        0x21 => extended_word(w0, w1, Op1::Swpb),
        0x22 => extended_rotate(w0, w1, Op1::Rra),
        0x23 => extended_word(w0, w1, Op1::Sxt),
        0x24 => unless_no_width(w0, w1, Form::LongOne(Op1::Push)),
        _ => with_word(Form::Reserved),
    }
}

/// RRC and RRA behind an extension word.
fn extended_rotate(w0: u16, w1: u16, op: Op1) -> Shape
    ensures { result ≡ lookup no_row (long_rotate_rows (Form.LongOne op)) w0 w1 }
{
    if w0 & A_L == 0 && w1 & B_W == 0 {
        with_word(Form::Reserved)
    } else {
        unless_unfit(w1, with_word(Form::LongOne(op)))
    }
}

/// SWPB and SXT behind an extension word, which have one width alone.
fn extended_word(w0: u16, w1: u16, op: Op1) -> Shape
    ensures { result ≡ lookup no_row (long_word_rows (Form.LongOne op)) w0 w1 }
{
    if w0 & A_L == 0 || w1 & B_W == B_W {
        with_word(Form::Reserved)
    } else {
        unless_unfit(w1, with_word(Form::LongOne(op)))
    }
}
