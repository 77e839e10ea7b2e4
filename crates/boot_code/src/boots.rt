ghost use Rattle.std.specs.Prelude.{◌≡◌, [], ◌%◌, ◌<◌, not};
ghost use Rattle.boot_code.specs.Boot.{checked as checked_place, first_keep, first_wiped as first_wiped_place, is_going, run_of, signed as signed_place, started as started_place, wiped as wiped_place, word_at as word_address, word_read, word_wiped};
ghost use Rattle.boot_code.specs.Facts.{EndsWell, Fits, IsUncut, kept_behind};
ghost use Rattle.boot_code.specs.Place.{IsPlace, is_done};
ghost use Rattle.boot_code.specs.View.{place_of, structure_of};

use crate::places::{Boot, Place, Structure};
use chip_words::{Agent, Bus, Size};
use ip_encap::Borders;
use memory_map::{INFO_END, INFO_START, MAIN_END, MAIN_START};

/// The mark of a chip on which nothing is saved.
const EMPTY: u16 = 0xFFFF;

/// The mark of a chip whose pointer is saved.
const SAVED: u16 = 0x5A01;

/// The mark of a chip whose erase has begun and isn't done: its next boot goes on with it.
pub const ERASING: u16 = 0x5A02;

/// The signature of IP Encapsulation.
pub(crate) const SIGNATURE: u16 = 0xAAAA;

/// The address of the signature.
pub(crate) const SIGNATURE_AT: u32 = 0xFF88;

/// The address of the pointer.
pub(crate) const POINTER_AT: u32 = 0xFF8A;

/// What an erase leaves in a word.
const WIPED: u32 = 0xFFFF;

/// The borders of a boot without a structure.
const NO_BORDERS: Borders = Borders {
    c0: 0,
    b2: 0,
    b1: 0,
};

/// The words besides FRAM that outlast a loss of power, which no program can reach.
#[derive(Clone, Copy, Debug, PartialEq, Eq)]
pub struct Keep {
    /// What the boots so far have come to.
    pub mark: u16,
    /// The pointer of the structure, where the mark says that it is saved.
    pub ptr: u16,
}

impl Keep {
    /// Those of a new chip.
    pub fn new() -> Keep
        ensures { result ≡ first_keep }
    {
        Keep {
            mark: EMPTY,
            ptr: 0,
        }
    }
}

/// What a step of a boot does besides what it reads.
#[derive(Clone, Copy, Debug, PartialEq, Eq)]
pub enum Act {
    Nothing,
    /// The mark is to become this.
    Mark(u16),
    /// The pointer that is saved is to become this.
    Ptr(u16),
    /// A word of the structure was read: its number, 0 to 3, and the word.
    Struct(u8, u16),
    /// The word at an address was wiped.
    Wipe(u32),
}

/// What a step of a boot leads to.
#[derive(Clone, Copy, Debug, PartialEq, Eq)]
pub enum BootStep {
    /// The boot goes on. What is to become of mark and pointer is left to the caller.
    Going(Act),
    /// The boot ends, and these borders are to be installed.
    Done(Borders),
}

/// Does one step of a boot, by mark and pointer as they are. A word that it wipes is wiped behind the call; to write mark
/// and pointer is left to the caller.
#[tactic(auto, using(crate::proofs::Fitting::step_stays_fit, crate::proofs::Fitting::step_ends_well))]
pub fn step<B: Bus>(boot: &mut Boot, keep: Keep, bus: &mut B) -> BootStep
    requires empty { (B.part bus.old).accesses ≡ [] }
    ensures step { result ≡ (run_of boot.old keep (B.part bus.old)).value.step }
    ensures place { boot.new ≡ (run_of boot.old keep (B.part bus.old)).value.place }
    ensures part { B.part bus.new ≡ (run_of boot.old keep (B.part bus.old)).part }
    ensures going { is_going result ≡ not (is_done boot.old) }

    // Where the caller writes what each step asks for, the place stays in fit with what it looks at.
    ensures keeps { IsUncut (B.part bus.old) → Fits boot.old keep (B.part bus.old).memory
        → Fits boot.new (kept_behind result keep) (B.part bus.new).memory }

    // And so a boot that ends installs what is saved, as it stands in memory then.
    ensures ends { Fits boot.old keep (B.part bus.old).memory
        → EndsWell result keep (B.part bus.new).memory }
{
    let (place, step) = step_from(boot.place, keep, bus);
    boot.place = place;
    step
}

/// One step from a place: the next place, and what the step leads to.
#[tactic(auto, unfolding(crate::specs::Boot::boot_step))]
fn step_from<B: Bus>(place: Place, keep: Keep, bus: &mut B) -> (Place, BootStep)
    requires place { IsPlace (place_of place) }
    requires empty { (B.part bus.old).accesses ≡ [] }
    ensures next { place_of result.0 ≡ (run_of (place_of place) keep (B.part bus.old)).value.place }
    ensures step { result.1 ≡ (run_of (place_of place) keep (B.part bus.old)).value.step }
    ensures part { B.part bus.new ≡ (run_of (place_of place) keep (B.part bus.old)).part }
    ensures going { is_going result.1 ≡ not (is_done (place_of place)) }
    ensures is_place { IsPlace (place_of result.0) }
{
    match place {
        Place::Start => go_on(Act::Nothing, started(keep)),
        Place::Sig => go_on(Act::Nothing, signed(read(bus, SIGNATURE_AT))),
        Place::Ptr => go_on(Act::Nothing, Place::Word0(read(bus, POINTER_AT))),
        Place::Word0(p) => {
            let w0 = read(bus, word_at(p, 0));
            go_on(Act::Struct(0, w0), Place::Word1(p, w0))
        }
        Place::Word1(p, w0) => {
            let w1 = read(bus, word_at(p, 1));
            go_on(Act::Struct(1, w1), Place::Word2(p, w0, w1))
        }
        Place::Word2(p, w0, w1) => {
            let w2 = read(bus, word_at(p, 2));
            go_on(Act::Struct(2, w2), Place::Word3(p, w0, w1, w2))
        }
        Place::Word3(p, w0, w1, w2) => {
            let words = Structure::new(w0, w1, w2, read(bus, word_at(p, 3)));
            go_on(Act::Struct(3, words.check), checked(keep, p, words))
        }
        Place::SavePtr(p, words) => go_on(Act::Ptr(p), Place::SaveMark(p, words)),
        Place::SaveMark(p, words) => go_on(Act::Mark(SAVED), Place::DoneWith(p, words)),
        Place::MarkErase => go_on(Act::Mark(ERASING), first_wiped()),
        Place::Wipe(at) => wipe(bus, at),
        Place::MarkEmpty => go_on(Act::Mark(EMPTY), Place::DoneWithout),
        Place::DoneWith(_, words) => (place, BootStep::Done(words.borders())),
        Place::DoneWithout => (place, BootStep::Done(NO_BORDERS)),
    }
}

/// A step that goes on.
fn go_on(act: Act, place: Place) -> (Place, BootStep)
    ensures { result ≡ (place, BootStep.Going act) }
{
    (place, BootStep::Going(act))
}

/// Reads a word for the boot.
fn read<B: Bus>(bus: &mut B, at: u32) -> u16
    requires place { at < 0x100000 }
    requires empty { (B.part bus.old).accesses ≡ [] }
    ensures answer { result ≡ (word_read at (B.part bus.old)).answer }
    ensures part { B.part bus.new ≡ (word_read at (B.part bus.old)).part }
{
    bus.read(Agent::Boot, at, Size::Word) as u16
}

/// The step that wipes a word.
#[tactic(auto, using(elf_image::proofs::FramLemmas::is_fram_tells))]
fn wipe<B: Bus>(bus: &mut B, at: u32) -> (Place, BootStep)
    requires place { IsPlace (place_of (Place.Wipe at)) }
    requires empty { (B.part bus.old).accesses ≡ [] }
    ensures next { place_of result.0 ≡ wiped_place at }
    ensures step { result.1 ≡ BootStep.Going (Act.Wipe at) }
    ensures part { B.part bus.new ≡ (word_wiped at (B.part bus.old)).part }
    ensures is_place { IsPlace (place_of result.0) }
{
    bus.write(Agent::Boot, at, Size::Word, WIPED);
    go_on(Act::Wipe(at), wiped(at))
}

/// The address of a word of the structure, by its number.
#[tactic(auto, unfolding(crate::specs::Boot::word_at))]
pub(crate) fn word_at(p: u16, k: u32) -> u32
    requires { k < 4 }
    ensures address { result ≡ word_address p k }
    ensures even { result % 2 ≡ 0 }
    ensures small { result < 0x100000 }
{
    u32::from(p) * 16 + k * 2
}

/// The place where an erase begins.
#[tactic(auto, using(elf_image::proofs::FramLemmas::is_fram_tells))]
fn first_wiped() -> Place
    ensures place { place_of result ≡ first_wiped_place }
    ensures is_place { IsPlace (place_of result) }
{
    Place::Wipe(INFO_START)
}

/// The place behind Start, by the mark.
fn started(keep: Keep) -> Place
    ensures place { place_of result ≡ started_place keep }
    ensures is_place { IsPlace (place_of result) }
{
    match keep.mark {
        ERASING => first_wiped(),
        SAVED => Place::Word0(keep.ptr),
        _ => Place::Sig,
    }
}

/// The place behind Sig, by the word where a signature would stand.
fn signed(word: u16) -> Place
    ensures { place_of result ≡ signed_place word }
{
    if word == SIGNATURE {
        Place::Ptr
    } else {
        Place::DoneWithout
    }
}

/// The place behind the last word of a structure, by its check and by the mark.
fn checked(keep: Keep, p: u16, words: Structure) -> Place
    ensures { place_of result ≡ checked_place keep p (structure_of words) }
{
    if !words.is_good() {
        Place::MarkErase
    } else if keep.mark == SAVED {
        Place::DoneWith(p, words)
    } else {
        Place::SavePtr(p, words)
    }
}

/// The place behind a wiped word: the next word of FRAM, and behind all of them that FRAM is empty.
#[tactic(auto, using(elf_image::proofs::FramLemmas::is_fram_tells))]
fn wiped(at: u32) -> Place
    requires { IsPlace (place_of (Place.Wipe at)) }
    ensures place { place_of result ≡ wiped_place at }
    ensures is_place { IsPlace (place_of result) }
{
    match at + 2 {
        INFO_END => Place::Wipe(MAIN_START),
        MAIN_END => Place::MarkEmpty,
        next => Place::Wipe(next),
    }
}
