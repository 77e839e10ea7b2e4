ghost use Rattle.std.specs.Prelude.{◌≡◌, [], None, IfOk};

use crate::memory::NoMemory;
use crate::open_files::OpenFiles;
use crate::shelves::{Found, Got, Shelf};
use std::alloc::Global;
use std::fs::File;

/// The files of the machine, named by their paths.
///
/// It tells no content, and has no buffer of its own.
#[derive(Drop)]
pub struct FileShelf {
    rt: HostRuntime,
    alloc: Global,
    opened: OpenFiles<File>,
}

impl FileShelf {
    /// A shelf that has found nothing yet.
    pub fn build(rt: &HostRuntime, alloc: Global) -> Result<FileShelf, NoMemory>
        ensures found { IfOk result (λ shelf. ⟦<FileShelf as Shelf>⟧.finds shelf ≡ []) }
        ensures counted { IfOk result (λ shelf. ⟦<FileShelf as Shelf>⟧.faults shelf ≡ 0) }
    {
        let Ok(rt) = rt.clone() else {
            return Err(NoMemory);
        };
        Ok(FileShelf {
            rt,
            alloc,
            opened: OpenFiles::new(alloc),
        })
    }
}

impl Shelf for FileShelf {
    ghost files = { λ shelf. None };

    ghost finds = { λ shelf. shelf.opened.finds };

    ghost faults = { λ shelf. shelf.opened.faults };

    fn find(&mut self, name: &str) -> Found {
        let opened = File::open(&self.rt, name);
        self.opened.keep(self.alloc, name, opened)
    }

    fn read(&mut self, id: u32, buf: &mut [u8]) -> Got {
        self.opened.read(id, buf)
    }
}
