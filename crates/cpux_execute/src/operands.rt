ghost use Rattle.std.specs.Prelude.{◌≡◌, ◌<◌, ◌≤◌, length};
ghost use Rattle.chip_words.specs.Sizes.{span};
ghost use Rattle.cpux_decode.specs.Ranges.{IsDestination, IsPlace};
ghost use Rattle.cpux_execute.specs.Operands.{above as above_of, accesses_of, address_of, asked, before as before_of, IsFor, flagged, increased, is_status as is_status_of, put as put_of, register_at, source, step_of, stored_to, target};
ghost use Rattle.cpux_execute.specs.Steps.{AddsAtMost, CpuRuns};

use chip_words::{Agent, Bus, Regs, Size, wrap20};
use cpux_alu::near;
use cpux_decode::{PC, Place, SP, SR};

/// Two bytes before an address, modulo 2^20.
pub fn before(at: u32) -> u32
    requires { at < 0x100000 }
    ensures value { result ≡ before_of at }
    ensures small { result < 0x100000 }
{
    wrap20(at as u64 + 0xFFFFE)
}

/// Two bytes behind an address, modulo 2^20: where the higher word of 20 bits is.
pub fn above(at: u32) -> u32
    requires { at < 0x100000 }
    ensures value { result ≡ above_of at }
    ensures small { result < 0x100000 }
{
    wrap20(at as u64 + 2)
}

/// The value of register `n`, 0 to 15, where PC stands at `pc`.
#[inline(always)]
pub fn register(regs: &Regs, pc: u32, n: u8) -> u32
    requires register { n < 16 }
    requires pc { pc < 0x100000 }
    ensures value { result ≡ register_at regs.now pc n }
    ensures small { result < 0x100000 }
{
    if n == PC { pc } else { regs.get(n) }
}

/// The address of an operand in memory, whose index word is at `pc` (SLAU367, chapter CPUX, addressing modes).
///
/// An operand that isn't in memory has the address 0.
#[inline(always)]
#[tactic(auto, unfolding(crate::specs::Operands::address_of))]
pub fn address(regs: &Regs, pc: u32, place: Place) -> u32
    requires place { IsPlace place }
    requires pc { pc < 0x100000 }
    ensures value { result ≡ address_of regs.now pc place }
    ensures small { result < 0x100000 }
{
    match place {
        Place::Near(r, index) => near(register(regs, pc, r), index),
        Place::Far(r, index) => wrap20(register(regs, pc, r) as u64 + index as u64),
        Place::Absolute(at) => at,
        Place::At(r) | Place::AtPlus(r) => register(regs, pc, r),
        Place::Reg(_) | Place::Const(_) | Place::Imm(_) => 0,
    }
}

/// Reads an operand in memory for the instruction at `ia`: a byte, a word, or two words for 20 bits.
#[inline(always)]
#[tactic(auto, unfolding(crate::specs::Operands::asked))]
pub fn load<B: Bus>(bus: &mut B, ia: u32, at: u32, size: Size) -> u32
    requires at { at < 0x100000 }
    requires room { length (B.part bus.old).accesses < 63 }
    ensures steps { CpuRuns ia (asked at size) (B.part bus.old) result (B.part bus.new) }
    ensures small { result < span size }
    ensures count { AddsAtMost (accesses_of size) (B.part bus.old) (B.part bus.new) }
{
    let who = Agent::Cpu(ia);
    match size {
        Size::Byte | Size::Word => bus.read(who, at, size),
        Size::Addr => {
            let low = bus.read(who, at, Size::Word);
            let high = bus.read(who, above(at), Size::Word);
            low + 0x10000 * (high & 0xF)
        }
    }
}

/// Writes an operand in memory for the instruction at `ia`: a byte, a word, or two words for 20 bits.
#[inline(always)]
#[tactic(auto, unfolding(crate::specs::Operands::put))]
pub fn put<B: Bus>(bus: &mut B, ia: u32, at: u32, size: Size, value: u32)
    requires at { at < 0x100000 }
    requires fits { value < span size }
    requires room { length (B.part bus.old).accesses < 63 }
    ensures steps { CpuRuns ia (put_of at size value) (B.part bus.old) tt (B.part bus.new) }
    ensures count { AddsAtMost (accesses_of size) (B.part bus.old) (B.part bus.new) }
{
    let who = Agent::Cpu(ia);
    match size {
        Size::Byte | Size::Word => bus.write(who, at, size, value),
        Size::Addr => {
            bus.write(who, at, Size::Word, value & 0xFFFF);
            bus.write(who, above(at), Size::Word, value >> 16);
        }
    }
}

/// Reads a source for the instruction at `ia`. PC stands at `pc`, behind the instruction word, where an index word of
/// the source is.
///
/// A register and a constant are read with all their 20 bits, at every width.
#[inline(always)]
#[tactic(auto, unfolding(crate::specs::Operands::source))]
pub fn read_source<B: Bus>(
    regs: &Regs,
    bus: &mut B,
    ia: u32,
    pc: u32,
    size: Size,
    place: Place,
) -> u32
    requires place { IsPlace place }
    requires pc { pc < 0x100000 }
    requires room { length (B.part bus.old).accesses < 63 }
    ensures steps { CpuRuns ia (source size regs.now pc place)
        (B.part bus.old) result (B.part bus.new) }
    ensures small { result < 0x100000 }
    ensures count { AddsAtMost (accesses_of size) (B.part bus.old) (B.part bus.new) }
{
    match place {
        Place::Reg(r) => register(regs, pc, r),
        Place::Const(value) | Place::Imm(value) => value,
        Place::Near(..) | Place::Far(..) | Place::Absolute(_) | Place::At(_) | Place::AtPlus(_) => {
            load(bus, ia, address(regs, pc, place), size)
        }
    }
}

/// Steps the register of a source that is read with autoincrement: by 1 for a byte, but 2 of PC and SP, by 2 for a
/// word and 4 for 20 bits. It leaves the registers of another source.
#[inline(always)]
#[tactic(auto, unfolding(crate::specs::Operands::increased))]
pub fn increase(regs: &mut Regs, size: Size, place: Place)
    requires { IsPlace place }
    ensures { regs.new ≡ increased size place regs.old }
{
    if let Place::AtPlus(r) = place {
        let stepped = wrap20(regs.get(r) as u64 + step(size, r) as u64);
        regs.set(r, stepped);
    }
}

/// How far an autoincrement goes.
fn step(size: Size, r: u8) -> u32
    ensures value { result ≡ step_of size r }
    ensures small { result ≤ 4 }
{
    match size {
        Size::Byte => { if r == PC || r == SP { 2 } else { 1 } }
        Size::Word => 2,
        Size::Addr => 4,
    }
}

/// Reads a destination for the instruction at `ia`: a register, or memory at the address `at`.
#[inline(always)]
#[tactic(auto, unfolding(crate::specs::Operands::target))]
pub fn read_target<B: Bus>(
    regs: &Regs,
    bus: &mut B,
    ia: u32,
    at: u32,
    size: Size,
    place: Place,
) -> u32
    requires place { IsDestination place }
    requires at { at < 0x100000 }
    requires room { length (B.part bus.old).accesses < 63 }
    ensures steps { CpuRuns ia (target size regs.now at place)
        (B.part bus.old) result (B.part bus.new) }
    ensures small { result < 0x100000 }
    ensures count { AddsAtMost (accesses_of size) (B.part bus.old) (B.part bus.new) }
{
    match place {
        Place::Reg(r) => regs.get(r),
        _ => load(bus, ia, at, size),
    }
}

/// Writes a destination for the instruction at `ia`: a register, or memory at the address `at`.
///
/// A register takes any value, and memory one that fits the width.
#[inline(always)]
#[tactic(auto, using(chip_words::proofs::Runs::run_then), unfolding(crate::specs::Operands::stored_to))]
pub fn store<B: Bus>(
    regs: &mut Regs,
    bus: &mut B,
    ia: u32,
    at: u32,
    size: Size,
    place: Place,
    value: u32,
)
    requires place { IsPlace place }
    requires at { at < 0x100000 }
    requires fits { IsFor place size value }
    requires room { length (B.part bus.old).accesses < 63 }
    ensures steps { CpuRuns ia (stored_to size regs.old at place value)
        (B.part bus.old) regs.new (B.part bus.new) }
    ensures count { AddsAtMost (accesses_of size) (B.part bus.old) (B.part bus.new) }
{
    match place {
        Place::Reg(r) => regs.set(r, value),
        _ => put(bus, ia, at, size, value),
    }
}

#[tactic(auto, unfolding(crate::specs::Operands::is_status))]
fn is_status(place: Place) -> bool
    ensures { result ≡ is_status_of place }
{
    matches!(place, Place::Reg(SR))
}

/// Sets SR to the status that an operation gives, unless its result was written there.
///
/// `written` says that the operation writes its result to `place`.
#[inline(always)]
pub fn flag(regs: &mut Regs, written: bool, place: Place, status: u16)
    ensures { regs.new ≡ flagged written place status regs.old }
{
    if !(written && is_status(place)) {
        regs.set(SR, status as u32);
    }
}
