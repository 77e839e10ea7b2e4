//! Whether two ticks give away the same.

ghost use Rattle.std.specs.Prelude.{◌≡◌, ◌↔◌, ◌<◌, ◌≤◌, All, IsTrue};
ghost use Rattle.chip_core.specs.Items.{IsItem};
ghost use Rattle.ip_encap.specs.Opened.{LiesInMainFram};
ghost use Rattle.release_log.specs.SameItems.{AreSameItems, OpensAlike};

use chip_core::{Chip, Items};
use trace_print::Item;

/// Whether the chips behind two ticks have equal bytes from an address up to another, which isn't among them.
#[tactic(auto, using(crate::proofs::MainFram::main_has_bytes))]
fn have_same_bytes(one: &Chip, other: &Chip, low: u32, high: u32) -> bool
    requires { LiesInMainFram (record { low = low; high = high }) }
    ensures { IsTrue result ↔ OpensAlike
        (one.now).bus.memory (other.now).bus.memory (Item.Opened low high) }
{
    for at in low..high {
        if one.byte(at) != other.byte(at) {
            return false;
        }
    }
    true
}

/// Whether they have equal bytes where an item opens addresses.
fn opens_alike(one: &Chip, other: &Chip, item: &Item) -> bool
    requires { IsItem item.now }
    ensures { IsTrue result ↔ OpensAlike (one.now).bus.memory (other.now).bus.memory item.now }
{
    match item {
        Item::Opened(low, high) => have_same_bytes(one, other, *low, *high),
        _ => true,
    }
}

/// Whether two ticks give away the same: their items are equal, and where these open addresses, the chips behind the
/// ticks have equal bytes there.
#[tactic(auto, using(crate::proofs::SameItems::items_decided))]
pub fn same_items(a: &Items, chip_a: &Chip, b: &Items, chip_b: &Chip) -> bool
    requires given { All IsItem a.now.items }
    ensures same { IsTrue result ↔ AreSameItems
        a.now.items b.now.items (chip_a.now).bus.memory (chip_b.now).bus.memory }
{
    a.as_slice() == b.as_slice() && a.iter().all(|item| opens_alike(chip_a, chip_b, item))
}
