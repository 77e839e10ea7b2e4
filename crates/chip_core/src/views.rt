//! What a chip shows of itself.

ghost use Rattle.std.specs.Prelude.{◌≡◌, IsTrue, slice_index};
ghost use Rattle.chip_words.specs.Map.{has_bytes, region_at};
ghost use Rattle.chip_core.specs.View.{view_of};

use crate::chips::Chip;
use boot_code::Keep;
use chip_words::Seal;

/// A chip between two ticks, as a test or a campaign of cuts asks for it.
#[derive(Clone, Copy, Debug, PartialEq, Eq)]
pub struct View {
    /// The number of the next tick.
    pub tick: u32,
    pub powered: bool,
    /// The boot is done.
    pub booted: bool,
    pub halted: bool,
    /// There was no reset vector.
    pub dead: bool,
    /// The words besides FRAM that outlast a loss of power.
    pub keep: Keep,
    /// The addresses that are sealed by the registers as they stand.
    pub seal: Seal,
    /// The addresses that stay secret, also without power and during a boot.
    pub kept: Seal,
}

impl Chip {
    /// The chip as it stands.
    pub fn view(&self) -> View
        ensures { result ≡ view_of self.now }
    {
        View {
            tick: self.tick,
            powered: self.powered,
            booted: self.boot.is_none(),
            halted: self.halted,
            dead: self.dead,
            keep: self.keep,
            seal: self.fabric.encap.seal(),
            kept: self.fabric.kept(),
        }
    }

    /// The byte at an address of FRAM or SRAM, whoever may read it.
    pub fn byte(&self, at: u32) -> u8
        requires place { IsTrue (has_bytes (region_at at)) }
        ensures byte { result ≡ slice_index (self.now).bus.memory at }
    {
        self.fabric.get(at)
    }
}
