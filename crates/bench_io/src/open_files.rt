ghost use Rattle.std.specs.Prelude.{◌≡◌, ◌≢◌, ℕ, ◌<◌, ◌≤◌, ◌++◌, [], ◌∷◌, length, take, vec_len, slice_get, false, IsTrue, IfOk, IfErr, OnOk, OnErr};
ghost use Rattle.std.specs.Io.KnownBytes.{Consumes, IsAtEnd, Keeps};
ghost use Rattle.std.specs.IoError.{error_kind};
ghost use Rattle.bench_io.specs.Edge.{faults_after_read, found_of, faults_after_find, left_at};
ghost use Rattle.bench_io.specs.Shelves.{most_finds, is_given, moved, IfHere, UnlessHere, IfCount, IfNoBytes};

use crate::edge;
use crate::find_list::FindList;
use crate::memory::NoMemory;
use crate::shelves::{Found, Got};
use std::alloc::Global;
use std::io;
use std::io::Read;

/// The files that were opened, in the order of their finds: an id is the place of both.
///
/// What a file is stays open, so that the clauses speak of the bytes of those that tell them.
#[derive(Drop)]
pub struct OpenFiles<F> {
    files: Vec<F>,
    finds: FindList,
    faults: u64,
    ghost paired: { vec_len files ≡ length finds },
}

impl<F> OpenFiles<F> {
    /// No file is open, and no fault is counted.
    pub fn new(alloc: Global) -> OpenFiles<F>
        ensures finds { result.finds ≡ [] }
        ensures faults { result.faults ≡ 0 }
    {
        OpenFiles {
            files: Vec::new(alloc),
            finds: FindList::new(alloc),
            faults: 0,
        }
    }

    /// How many calls failed. The count stays at the greatest `u64`.
    pub fn faults(&self) -> u64
        ensures { result ≡ self.now.faults }
    {
        self.faults
    }

    /// Keeps what the machine answered to the opening of a file of a name.
    ///
    /// A file that was opened stands behind the others. Where every id was given it is a fault.
    pub fn keep(&mut self, alloc: Global, name: &str, opened: io::Result<F>) -> Found
    where
        F: Drop,
        ensures here { IfHere result (λ id. self.new.finds
            ≡ self.old.finds ++ record { id = id; name = name.now; place = 0 } ∷ []) }
        ensures new { IfHere result (λ id. is_given id self.old.finds ≡ false) }
        ensures last { IfHere result (λ id. id ≡ vec_len self.old.files) }
        ensures kept { IfHere result (λ id. IfOk opened (λ file.
            self.new.files.items ≡ self.old.files.items ++ file ∷ [])) }

        ensures full { length self.old.finds ≡ most_finds → result ≡ Found.Failed }
        ensures refused { length self.old.finds < most_finds →
            IfErr opened (λ error. result ≡ found_of (error_kind error)) }
        ensures memory { length self.old.finds < most_finds →
            OnOk opened (UnlessHere result (result ≡ Found.NoMemory)) }

        ensures unmoved { UnlessHere result (self.new.finds ≡ self.old.finds) }
        ensures same { UnlessHere result (self.new.files.items ≡ self.old.files.items) }
        ensures counted { self.new.faults ≡ faults_after_find result self.old.faults }
        ensures later { self.old.faults ≤ self.new.faults }
    {
        if self.finds.is_full() {
            edge::count_fault(&mut self.faults);
            return Found::Failed;
        }
        match opened {
            Ok(file) => match self.add(alloc, name, file) {
                Ok(id) => Found::Here(id),
                Err(NoMemory) => Found::NoMemory,
            },
            Err(error) => edge::answer_to_error(error.kind(), &mut self.faults),
        }
    }

    /// Adds a file behind the others, and gives its id.
    fn add(&mut self, alloc: Global, name: &str, file: F) -> Result<u32, NoMemory>
    where
        F: Drop,
        requires { length self.old.finds < most_finds }
        ensures here { IfOk result (λ id. self.new.finds
            ≡ self.old.finds ++ record { id = id; name = name.now; place = 0 } ∷ []) }
        ensures new { IfOk result (λ id. is_given id self.old.finds ≡ false) }
        ensures last { IfOk result (λ id. id ≡ vec_len self.old.files) }
        ensures kept { IfOk result (λ id.
            self.new.files.items ≡ self.old.files.items ++ file ∷ []) }

        ensures finds { OnErr result (self.new.finds ≡ self.old.finds) }
        ensures files { OnErr result (self.new.files.items ≡ self.old.files.items) }
        ensures uncounted { self.new.faults ≡ self.old.faults }
    {
        let Ok(name) = String::from_str(alloc, name) else {
            return Err(NoMemory);
        };
        let Ok(()) = self.files.push(file) else {
            return Err(NoMemory);
        };
        match self.finds.add(name) {
            Ok(id) => Ok(id),
            Err(NoMemory) => {
                self.files.pop();
                Err(NoMemory)
            }
        }
    }

    /// Reads the next bytes of the file of an id into the front of a buffer.
    pub fn read(&mut self, id: u32, buf: &mut [u8]) -> Got
    where
        F: Read,
        requires { IsTrue (is_given id self.old.finds) }
        ensures within { IfCount result (λ n. n ≤ length buf.old) }
        ensures moved { IfCount result (λ n. self.new.finds ≡ moved id n self.old.finds) }
        ensures unmoved { IfNoBytes result (self.new.finds ≡ self.old.finds) }
        ensures counted { self.new.faults ≡ faults_after_read result self.old.faults }
        ensures later { self.old.faults ≤ self.new.faults }

        // What the id's file tells, and no other file is touched.
        ensures told { IfCount result (λ n. Consumes (left_at F.remaining self.old.files.items id)
            (left_at F.remaining self.new.files.items id) (take n buf.new)) }
        ensures end { IfCount result (λ n. n ≡ 0 → 0 < length buf.old →
            IsAtEnd (left_at F.remaining self.new.files.items id)) }
        ensures kept { IfNoBytes result (Keeps (left_at F.remaining self.old.files.items id)
            (left_at F.remaining self.new.files.items id)) }
        ensures others { (other : ℕ) → other ≢ id →
            slice_get self.new.files.items other ≡ slice_get self.old.files.items other }
    {
        let place = self.finds.position(id);
        let read = self.files[place].read(buf);
        match edge::answer_to_read(read, &mut self.faults) {
            Got::Count(n) => {
                self.finds.raise(id, n);
                Got::Count(n)
            }
            Got::Failed => Got::Failed,
        }
    }
}
