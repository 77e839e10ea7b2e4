//! The commands of the debugger on the chip.

ghost use Rattle.std.specs.Prelude.{◌≡◌, ◌+◌, ◌≤◌, ◌++◌, All};
ghost use Rattle.arrayvec.specs.ArrayVec.{array_vec_len};
ghost use Rattle.debug_port.specs.Commands.{IsAnswer, IsCommand};
ghost use Rattle.trace_print.specs.Lines.{IsPrintable};
ghost use Rattle.chip_core.specs.Debugger.{after_command, answer_to, command_lines, debug_lines, is_closed as is_closed_state, view_of};
ghost use Rattle.chip_core.specs.Phase.{is_private as is_private_state, is_up as is_up_state};

use crate::Lines;
use crate::chips::Chip;
use boot_code::{ERASING, Keep};
use chip_words::{DEBUG_RESET, PC};
use debug_port::{Answer, Command, Debug, DebugView};
use trace_print::TraceItem;

/// The addresses of the two words that close the debug port.
const FIRST_DEBUG_SIGNATURE: u32 = 0xFF80;

const SECOND_DEBUG_SIGNATURE: u32 = 0xFF82;

/// What both hold then.
const CLOSING_WORD: u32 = 0x5555;

impl Chip {
    /// Says whether power is on and the boot is done.
    pub(crate) fn is_up(&self) -> bool
        ensures up { result ≡ is_up_state self.now }
    {
        self.powered && self.boot.is_none()
    }

    /// Says whether the phase is private: the next instruction is in the seal, and the processor isn't halted.
    #[tactic(auto, unfolding(crate::specs::Phase::is_private))]
    pub(crate) fn is_private(&self) -> bool
        ensures private { result ≡ is_private_state self.now }
    {
        self.is_up() && !self.halted && self.fabric.encap.is_sealed(self.regs.get(PC))
    }

    /// Says whether the debug port is closed.
    #[tactic(auto, unfolding(chip_words::specs::Map::region_at))]
    fn is_closed(&self) -> bool
        ensures closed { result ≡ is_closed_state self.now }
    {
        self.fabric.word(FIRST_DEBUG_SIGNATURE) == CLOSING_WORD
            && self.fabric.word(SECOND_DEBUG_SIGNATURE) == CLOSING_WORD
    }

    /// What a command finds.
    fn debug_view(&self) -> DebugView
        ensures view { result ≡ view_of self.now }
    {
        DebugView {
            up: self.is_up(),
            closed: self.is_closed(),
        }
    }

    /// Does a command, and gives its answer.
    #[tactic(auto, unfolding(crate::specs::Debugger::ran, crate::specs::Debugger::after_command))]
    fn command(&mut self, command: &Command) -> Answer
        requires range { IsCommand command.now }
        ensures answer { result ≡ answer_to command.now self.old }
        ensures chip { self.new ≡ after_command command.now self.old }
        ensures fits { IsAnswer result }
    {
        let view = self.debug_view();
        let mut debug = Debug {
            halted: self.halted,
            pending: self.pending,
            reset: false,
            erase: false,
        };
        let answer = debug_port::command(
            &mut debug,
            command,
            view,
            &mut self.regs,
            &mut self.fabric,
        );
        self.halted = debug.halted;
        self.pending = debug.pending;
        if debug.reset {
            self.fabric.ask(DEBUG_RESET);
        }
        if debug.erase {
            self.set_keep(Keep {
                mark: ERASING,
                ..self.keep
            });
        }
        answer
    }

    /// Does a command, and adds its line.
    pub(crate) fn debug(&mut self, command: Command, lines: &mut Lines)
        requires range { IsCommand command }
        requires room { array_vec_len lines.old ≤ 31 }
        requires printable { All IsPrintable lines.old.items }
        ensures chip { self.new ≡ after_command command self.old }
        ensures lines { lines.new.items ≡ lines.old.items ++ debug_lines command self.old }
        ensures count { array_vec_len lines.new ≤ array_vec_len lines.old + 1 }
        ensures printable { All IsPrintable lines.new.items }
    {
        let answer = self.command(&command);
        tell_command(command, answer, lines);
    }
}

/// Adds the line of a command; a halt that is accepted has none.
#[tactic(auto, using(crate::proofs::Printable::with_line))]
fn tell_command(command: Command, answer: Answer, lines: &mut Lines)
    requires room { array_vec_len lines.old ≤ 31 }
    requires command { IsCommand command }
    requires answer { IsAnswer answer }
    requires printable { All IsPrintable lines.old.items }
    ensures lines { lines.new.items ≡ lines.old.items ++ command_lines command answer }
    ensures count { array_vec_len lines.new ≤ array_vec_len lines.old + 1 }
    ensures printable { All IsPrintable lines.new.items }
{
    match (command, answer) {
        (Command::Halt, Answer::Accepted) => {}
        (command, answer) => lines.push(TraceItem::Debug(command, answer)),
    }
}
