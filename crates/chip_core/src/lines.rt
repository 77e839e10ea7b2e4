//! The lines that a tick adds.

ghost use Rattle.std.specs.Prelude.{◌≡◌, ◌+◌, ◌<◌, ◌≤◌, ◌++◌, All, IfSome};
ghost use Rattle.arrayvec.specs.ArrayVec.{array_vec_len};
ghost use Rattle.trace_print.specs.Lines.{IsPrintable};
ghost use Rattle.chip_core.specs.Lines.{boot_line, boot_lines, dead_lines, halt_lines, reset_lines};

use crate::Lines;
use crate::chips::Chip;
use boot_code::{Act, BootStep};
use trace_print::TraceItem;

/// The address at which an erase begins: the start of information FRAM.
const FIRST_ERASED: u32 = 0x1800;

impl Chip {
    /// Adds what a step of the boot shows.
    #[tactic(auto, using(crate::proofs::Printable::with_line))]
    pub(crate) fn tell_boot(&self, step: Option<BootStep>, lines: &mut Lines)
        requires room { array_vec_len lines.old ≤ 10 }
        requires printable { All IsPrintable lines.old.items }
        ensures lines { lines.new.items ≡ lines.old.items ++ boot_lines step self.now }
        ensures count { array_vec_len lines.new ≤ array_vec_len lines.old + 1 }
        ensures printable { All IsPrintable lines.new.items }
    {
        match step {
            Some(BootStep::Going(Act::Wipe(FIRST_ERASED))) => lines.push(TraceItem::Erase),
            Some(BootStep::Done(_)) => lines.push(self.boot_line()),
            _ => {}
        }
    }

    /// What a boot shows that ended: the encapsulation that is in force.
    fn boot_line(&self) -> TraceItem
        ensures line { result ≡ boot_line ((self.now).bus.units).encap }
        ensures fits { IsPrintable result }
    {
        let bounds = self.fabric.encap.bounds();
        TraceItem::Boot(bounds.control, bounds.first, bounds.second)
    }

    /// Adds that there was no reset vector, where the vector was loaded.
    #[tactic(auto, using(crate::proofs::Printable::with_line))]
    pub(crate) fn tell_dead(&self, step: Option<BootStep>, cause: Option<u8>, lines: &mut Lines)
        requires room { array_vec_len lines.old ≤ 12 }
        requires printable { All IsPrintable lines.old.items }
        ensures lines { lines.new.items ≡ lines.old.items ++ dead_lines step cause self.now }
        ensures count { array_vec_len lines.new ≤ array_vec_len lines.old + 1 }
        ensures printable { All IsPrintable lines.new.items }
    {
        let is_restart = cause.is_some() || matches!(step, Some(BootStep::Done(_)));
        if is_restart && self.dead {
            lines.push(TraceItem::Dead);
        }
    }
}

/// Adds that the processor was halted.
#[tactic(auto, using(crate::proofs::Printable::with_line))]
pub fn tell_halt(halt: Option<u32>, lines: &mut Lines)
    requires room { array_vec_len lines.old ≤ 9 }
    requires halt { IfSome halt (λ at. at < 0x100000) }
    requires printable { All IsPrintable lines.old.items }
    ensures lines { lines.new.items ≡ lines.old.items ++ halt_lines halt }
    ensures count { array_vec_len lines.new ≤ array_vec_len lines.old + 1 }
    ensures printable { All IsPrintable lines.new.items }
{
    if let Some(at) = halt {
        lines.push(TraceItem::Halt(at));
    }
}

/// Adds that a reset was taken.
#[tactic(auto, using(crate::proofs::Printable::with_line))]
pub fn tell_reset(cause: Option<u8>, lines: &mut Lines)
    requires room { array_vec_len lines.old ≤ 11 }
    requires printable { All IsPrintable lines.old.items }
    ensures lines { lines.new.items ≡ lines.old.items ++ reset_lines cause }
    ensures count { array_vec_len lines.new ≤ array_vec_len lines.old + 1 }
    ensures printable { All IsPrintable lines.new.items }
{
    if let Some(cause) = cause {
        lines.push(TraceItem::Reset(cause));
    }
}
