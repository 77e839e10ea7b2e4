ghost use Rattle.std.specs.Prelude.{◌≡◌};
ghost use Rattle.boot_code.specs.Boot.{borders_of, is_good as is_good_check, structure};
ghost use Rattle.boot_code.specs.Place.{Start};
ghost use Rattle.boot_code.specs.View.{structure_of};

use ip_encap::Borders;
use std::marker::Model;

/// The bits of MPUIPC0 that a boot installs.
const CONTROL_BITS: u16 = 0xE0;

/// The bits of a border that a boot installs.
const BORDER_BITS: u16 = 0xFFC0;

/// The words of a structure of IP Encapsulation in FRAM.
#[derive(Clone, Copy, Debug, PartialEq, Eq)]
pub struct Structure {
    /// The word of MPUIPC0.
    pub control: u16,
    /// That of MPUIPSEGB2.
    pub second_border: u16,
    /// And that of MPUIPSEGB1.
    pub first_border: u16,
    pub check: u16,
}

impl Structure {
    /// The structure of four words, in their order.
    pub fn new(w0: u16, w1: u16, w2: u16, w3: u16) -> Structure
        ensures { structure_of result ≡ structure w0 w1 w2 w3 }
    {
        Structure {
            control: w0,
            second_border: w1,
            first_border: w2,
            check: w3,
        }
    }

    /// The check is that of the three words.
    #[tactic(auto, unfolding(crate::specs::Boot::is_good))]
    pub fn is_good(self) -> bool
        ensures { result ≡ is_good_check (structure_of self) }
    {
        self.check == !(self.control ^ self.second_border ^ self.first_border)
    }

    /// The borders that it gives: each register has its own bits.
    #[tactic(auto, unfolding(crate::specs::Boot::borders_of))]
    pub fn borders(self) -> Borders
        ensures { result ≡ borders_of (structure_of self) }
    {
        Borders {
            c0: self.control & CONTROL_BITS,
            b2: self.second_border & BORDER_BITS,
            b1: self.first_border & BORDER_BITS,
        }
    }
}

/// Where a boot stands, by what its next step does: with the pointer of the structure, whose address is 16 times as much,
/// and the words of the structure that were read so far.
#[derive(Clone, Copy, Debug, PartialEq, Eq)]
pub enum Place {
    /// Looks at the mark.
    Start,
    /// Reads the signature.
    Sig,
    /// Reads the pointer.
    Ptr,
    /// Reads a word of the structure, here the first.
    Word0(u16),
    Word1(u16, u16),
    Word2(u16, u16, u16),
    /// Reads the check.
    Word3(u16, u16, u16, u16),
    /// Saves the pointer.
    SavePtr(u16, Structure),
    /// Marks it as saved.
    SaveMark(u16, Structure),
    /// Marks the erase as begun.
    MarkErase,
    /// Wipes the word at an address.
    Wipe(u32),
    /// Marks FRAM as empty.
    MarkEmpty,
    /// Ends the boot with a structure.
    DoneWith(u16, Structure),
    /// Ends the boot without one.
    DoneWithout,
}

/// A boot, of which contracts see the place.
#[derive(Clone, Copy, Debug, PartialEq, Eq)]
pub struct Boot {
    pub(crate) place: Place,
}

impl Model for Boot {
    ghost use Rattle.std.specs.Prelude.{◌≡◌};
    ghost use Rattle.boot_code.specs.Place.{IsPlace, Place as BootPlace};
    ghost use Rattle.boot_code.specs.View.{held_of, place_of};

    ghost Value = { BootPlace };

    ghost view = { λ boot. place_of boot.place };

    ghost invariant = { λ boot. IsPlace (place_of boot.place) };

    ghost inverse = { λ place. record { place = held_of place } };
}

/// A boot that begins.
pub fn start() -> Boot
    ensures { result ≡ Start }
{
    Boot {
        place: Place::Start,
    }
}
