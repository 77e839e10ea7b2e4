ghost use Rattle.std.specs.Prelude.{◌≡◌, ◌<◌, IfSome, codes};
ghost use Rattle.debug_port.specs.Commands.{IsCommand};
ghost use Rattle.stimulus.specs.Commands.{Bare, address, command_in, command_named, command_of, number_of, register};
ghost use Rattle.toml.specs.View.{table_view, view};

use crate::trees::{has_key_beside, number_at};
use debug_port::Command;
use toml::{Table, Value};

/// The greatest number of 20 bits, which are those of an address and of a register.
const MAX_ADDRESS: u32 = 0xF_FFFF;
/// The greatest number of 16 bits, which are those of a word.
const MAX_WORD: u32 = 0xFFFF;
/// The most bytes that a dump has.
const MAX_COUNT: u32 = 32;
/// The number of the last register.
const LAST_REGISTER: u32 = 15;

/// The address at `at`.
fn address_in(event: &Table) -> Option<u32>
    ensures address { result ≡ number_of address (table_view event.now) }
    ensures in_range { IfSome result (λ at. at < 0x100000) }
{
    number_at(event, "at", 0, MAX_ADDRESS)
}

/// The number of a register at `reg`.
fn register_in(event: &Table) -> Option<u8>
    ensures register { result ≡ number_of register (table_view event.now) }
    ensures in_range { IfSome result (λ n. n < 16) }
{
    Some(number_at(event, "reg", 0, LAST_REGISTER)? as u8)
}

/// The command `read` that an event is, if it is one.
#[tactic(auto, unfolding(crate::specs::Commands::command_named))]
fn read_in(event: &Table) -> Option<Command>
    ensures command { result ≡ command_named (codes "read") (table_view event.now) }
    ensures in_range { IfSome result IsCommand }
{
    if has_key_beside(event, &["tick", "debug", "at"]) {
        return None;
    }
    Some(Command::Read(address_in(event)?))
}

/// The command `write` that an event is, if it is one.
#[tactic(auto, unfolding(crate::specs::Commands::command_named))]
fn write_in(event: &Table) -> Option<Command>
    ensures command { result ≡ command_named (codes "write") (table_view event.now) }
    ensures in_range { IfSome result IsCommand }
{
    if has_key_beside(event, &["tick", "debug", "at", "value"]) {
        return None;
    }
    let at = address_in(event)?;
    let value = number_at(event, "value", 0, MAX_WORD)?;
    Some(Command::Write(at, value as u16))
}

/// The command `dump` that an event is, if it is one.
#[tactic(auto, unfolding(crate::specs::Commands::command_named))]
fn dump_in(event: &Table) -> Option<Command>
    ensures command { result ≡ command_named (codes "dump") (table_view event.now) }
    ensures in_range { IfSome result IsCommand }
{
    if has_key_beside(event, &["tick", "debug", "at", "count"]) {
        return None;
    }
    let at = address_in(event)?;
    let count = number_at(event, "count", 1, MAX_COUNT)?;
    Some(Command::Dump(at, count as u8))
}

/// The command `reg` that an event is, if it is one.
#[tactic(auto, unfolding(crate::specs::Commands::command_named))]
fn reg_in(event: &Table) -> Option<Command>
    ensures command { result ≡ command_named (codes "reg") (table_view event.now) }
    ensures in_range { IfSome result IsCommand }
{
    if has_key_beside(event, &["tick", "debug", "reg"]) {
        return None;
    }
    Some(Command::Reg(register_in(event)?))
}

/// The command `setreg` that an event is, if it is one.
#[tactic(auto, unfolding(crate::specs::Commands::command_named))]
fn setreg_in(event: &Table) -> Option<Command>
    ensures command { result ≡ command_named (codes "setreg") (table_view event.now) }
    ensures in_range { IfSome result IsCommand }
{
    if has_key_beside(event, &["tick", "debug", "reg", "value"]) {
        return None;
    }
    let register = register_in(event)?;
    let value = number_at(event, "value", 0, MAX_ADDRESS)?;
    Some(Command::SetReg(register, value))
}

/// A command that has no key of its own, if an event has none beside its tick and its name.
fn bare(event: &Table, command: Command) -> Option<Command>
    requires in_range { IsCommand command }
    ensures command { result ≡ command_of (Bare command) (table_view event.now) }
    ensures in_range { IfSome result IsCommand }
{
    if has_key_beside(event, &["tick", "debug"]) {
        None
    } else {
        Some(command)
    }
}

/// The command of a name that an event is, if it is one.
#[tactic(auto, unfolding(crate::specs::Commands::command_named))]
fn command_named(name: &str, event: &Table) -> Option<Command>
    ensures command { result ≡ command_named name.now (table_view event.now) }
    ensures in_range { IfSome result IsCommand }
{
    match name {
        "read" => read_in(event),
        "write" => write_in(event),
        "dump" => dump_in(event),
        "reg" => reg_in(event),
        "setreg" => setreg_in(event),
        "halt" => bare(event, Command::Halt),
        "go" => bare(event, Command::Go),
        "reset" => bare(event, Command::Reset),
        "erase" => bare(event, Command::Erase),
        _ => None,
    }
}

/// The command that an event is, if it is one, where this value stands at `debug`.
pub fn command_in(debug: &Value, event: &Table) -> Option<Command>
    ensures command { result ≡ command_in (view debug.now) (table_view event.now) }
    ensures in_range { IfSome result IsCommand }
{
    command_named(debug.as_str()?, event)
}
