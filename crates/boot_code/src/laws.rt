//! Laws of whole boots, from the definition of a step alone.
//!
//! The contract of each function is a law. The functions do nothing.

ghost use Rattle.boot_code.specs.Laws.{EraseWipesFram, FirstBootGivesImageSeal, SavedBootInstallsStructure};

/// The first boot of an image, where no cut comes, ends with borders that have the image's seal: after 3 steps without a
/// signature, after 10 with a good structure, and after 32,522 with a bad one, which erases FRAM.
#[tactic(auto, using(crate::proofs::FirstBoots::first_boot_gives_image_seal))]
pub fn first_boot_gives_the_image_seal()
    ensures { FirstBootGivesImageSeal }
{}

/// A boot whose pointer is saved installs the structure that it leads to, after 6 steps, where its check is good.
#[tactic(auto, using(crate::proofs::FirstBoots::saved_boot_installs_structure))]
pub fn saved_boot_installs_the_structure()
    ensures { SavedBootInstallsStructure }
{}

/// A boot that finds an erase begun wipes all of FRAM in 32,512 steps, ends after 32,515, and installs nothing.
#[tactic(auto, using(crate::proofs::Erases::erase_wipes_fram))]
pub fn erase_takes_so_many_steps()
    ensures { EraseWipesFram }
{}
