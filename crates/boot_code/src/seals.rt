ghost use Rattle.std.specs.Prelude.{◌≡◌, ◌%◌};
ghost use Rattle.boot_code.specs.ImageSeal.{image_seal as image_seal_of, image_word as image_word_of, seal_of, structure_in};
ghost use Rattle.boot_code.specs.View.{structure_of};

use crate::boots::{POINTER_AT, SIGNATURE, SIGNATURE_AT, word_at};
use crate::places::Structure;
use chip_words::Seal;
use elf_image::Image;
use ip_encap::{Borders, Encap};
use memory_map::is_fram;

/// What a boot reads off FRAM.
const BLANK: u16 = 0x3FFF;

/// No address at all.
const NOWHERE: Seal = Seal { low: 0, high: 0 };

/// What the first boot of an image seals, where no cut comes.
#[tactic(auto, unfolding(crate::specs::ImageSeal::image_seal, crate::specs::ImageSeal::image_structure))]
pub fn image_seal(image: &Image<'_>) -> Seal
    ensures { result ≡ image_seal_of image.now }
{
    if image_word(image, SIGNATURE_AT) != SIGNATURE {
        return NOWHERE;
    }
    let words = read_structure(image, image_word(image, POINTER_AT));
    if words.is_good() {
        seal_of_borders(words.borders())
    } else {
        NOWHERE
    }
}

/// The seal once borders are installed.
fn seal_of_borders(borders: Borders) -> Seal
    ensures { result ≡ seal_of borders }
{
    let mut encap = Encap::new();
    encap.install(borders);
    encap.seal()
}

/// The structure that a pointer leads to.
fn read_structure(image: &Image<'_>, p: u16) -> Structure
    ensures { structure_of result ≡ structure_in image.now p }
{
    Structure::new(
        image_word(image, word_at(p, 0)),
        image_word(image, word_at(p, 1)),
        image_word(image, word_at(p, 2)),
        image_word(image, word_at(p, 3)),
    )
}

/// The word that a boot reads at an even address.
#[tactic(auto, unfolding(crate::specs::ImageSeal::image_word), using(elf_image::proofs::FramLemmas::is_fram_tells))]
fn image_word(image: &Image<'_>, at: u32) -> u16
    requires { at % 2 ≡ 0 }
    ensures { result ≡ image_word_of image.now at }
{
    if !is_fram(at) {
        return BLANK;
    }
    u16::from(image.byte(at)) + 0x100 * u16::from(image.byte(at + 1))
}
