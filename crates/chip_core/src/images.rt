ghost use Rattle.std.specs.Prelude.{◌≡◌, IfOk, slice_index, vec_len};
ghost use Rattle.memory_map.specs.declared.TheConstants.{MAIN_END};
ghost use Rattle.elf_image.specs.Fram.{OnFram};
ghost use Rattle.elf_image.specs.Image.{byte_of};

use chip_words::{NoMemory, memory_size};
use elf_image::Image;
use std::alloc::Global;

/// A whole memory whose FRAM is as the image gives it.
///
/// The image writes it in one pass over its headers, of which it may have 65,535.
pub fn image_memory(alloc: Global, image: &Image<'_>) -> Result<Vec<u8>, NoMemory>
    ensures fram { IfOk result (λ memory. OnFram (λ at. slice_index memory.items at ≡ byte_of image.now at)) }
    ensures whole { IfOk result (λ memory. vec_len memory ≡ MAIN_END) }
{
    match vec![in alloc; 0; memory_size()] {
        Ok(blank) => {
            let mut memory = blank;
            image.load(memory.as_mut_slice());
            Ok(memory)
        }
        Err(_) => Err(NoMemory),
    }
}
