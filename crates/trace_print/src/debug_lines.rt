ghost use Rattle.std.specs.Prelude.{◌≡◌, ◌+◌, ◌≤◌, ◌++◌, decimal, length};
ghost use Rattle.arrayvec.specs.ArrayVec.{array_vec_len};
ghost use Rattle.debug_port.specs.Commands.{IsAnswer};
ghost use Rattle.trace_print.specs.DebugLines.{answer_text, command_text, debug_text};
ghost use Rattle.trace_print.specs.Digits.{hex_digits};

use crate::lines::Line;
use crate::pieces::{push_bytes, push_decimal, push_hex, push_text};
use debug_port::{Answer, Command};

/// Appends a command of the debugger, and what it answered.
pub(crate) fn push_debug(line: &mut Line, command: &Command, answer: &Answer)
    requires answer { IsAnswer answer.now }
    requires room { array_vec_len line.old ≤ 11 }
    ensures text { line.new.items ≡ line.old.items ++ debug_text command.now answer.now }
    ensures len { array_vec_len line.new ≤ 100 }
{
    push_text(line, b"DBG ");
    push_command(line, command);
    line.push(b' ');
    push_answer(line, answer);
}

/// Appends a command: its name, and the address or the register that it is about.
fn push_command(line: &mut Line, command: &Command)
    requires { array_vec_len line.old ≤ 15 }
    ensures text { line.new.items ≡ line.old.items ++ command_text command.now }
    ensures len { array_vec_len line.new ≤ array_vec_len line.old + 17 }
{
    match *command {
        Command::Read(at) => push_address(line, b"read ", at),
        Command::Write(at, _) => push_address(line, b"write ", at),
        Command::Dump(at, _) => push_address(line, b"dump ", at),
        Command::Reg(n) => push_register(line, b"reg ", n),
        Command::SetReg(n, _) => push_register(line, b"setreg ", n),
        Command::Halt => push_text(line, b"halt"),
        Command::Go => push_text(line, b"go"),
        Command::Reset => push_text(line, b"reset"),
        Command::Erase => push_text(line, b"erase"),
    }
}

/// Appends the name of a command and its address.
fn push_address(line: &mut Line, name: &[u8], at: u32)
    requires room { array_vec_len line.old ≤ 15 }
    requires short { length name.now ≤ 6 }
    ensures text { line.new.items ≡ line.old.items ++ name.now ++ hex_digits 5 at }
    ensures len { array_vec_len line.new ≤ array_vec_len line.old + 11 }
{
    push_text(line, name);
    push_hex(line, 5, at);
}

/// Appends the name of a command and the number of its register.
fn push_register(line: &mut Line, name: &[u8], n: u8)
    requires room { array_vec_len line.old ≤ 15 }
    requires short { length name.now ≤ 7 }
    ensures text { line.new.items ≡ line.old.items ++ name.now ++ decimal n }
    ensures len { array_vec_len line.new ≤ array_vec_len line.old + 17 }
{
    push_text(line, name);
    push_decimal(line, n);
}

/// Appends an answer.
fn push_answer(line: &mut Line, answer: &Answer)
    requires answer { IsAnswer answer.now }
    requires room { array_vec_len line.old ≤ 33 }
    ensures text { line.new.items ≡ line.old.items ++ answer_text answer.now }
    ensures len { array_vec_len line.new ≤ array_vec_len line.old + 64 }
{
    match answer {
        Answer::Value(word) => push_hex(line, 4, (*word).into()),
        Answer::Register(value) => push_hex(line, 5, *value),
        Answer::Bytes(dump) => push_bytes(line, dump.bytes()),
        Answer::Accepted => push_text(line, b"ok"),
        Answer::Closed => push_text(line, b"closed"),
        Answer::Booting => push_text(line, b"booting"),
        Answer::Running => push_text(line, b"running"),
    }
}
