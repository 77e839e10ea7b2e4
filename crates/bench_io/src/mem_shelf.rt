ghost use Rattle.std.specs.Prelude.{◌≡◌, ◌≢◌, ℕ, ◌+◌, ◌-◌, ◌<◌, ◌≤◌, ◌⊎◌, ◌↔◌, min, List, [], ◌∷◌, ◌++◌, length, take, drop, false, Some, None, IsTrue, IsSome, IfSome, IfOk, OnOk, OnErr, Contains};
ghost use Rattle.bench_io.specs.Faults.{raised};
ghost use Rattle.bench_io.specs.Shelves.{most_finds, is_given, moved, IfHere, UnlessHere, IfAbsent, IfFailed, UnlessFailed, IfCount, IfNoBytes};
ghost use Rattle.bench_io.specs.MemShelves.{file_named, empty_shelf, rest_in};

use crate::file_map::FileMap;
use crate::find_list::FindList;
use crate::memory::NoMemory;
use crate::shelves::{Found, Got, Shelf};
use std::alloc::Global;
use std::marker::Model;

/// A shelf in memory.
#[derive(Drop)]
pub struct MemShelf {
    alloc: Global,
    files: FileMap,
    finds: FindList,
    failing: Vec<u64>,
    calls: u64,
    faults: u64,
}

impl Model for MemShelf {
    ghost use Rattle.bench_io.specs.MemShelves.{MemShelfState};

    ghost Value = { MemShelfState };

    ghost view = { λ shelf. record {
      files = shelf.files;
      finds = shelf.finds;
      failing = shelf.failing.items;
      calls = shelf.calls;
      faults = shelf.faults;
    } };
}

impl MemShelf {
    /// An empty shelf.
    pub fn build(alloc: Global) -> Result<MemShelf, NoMemory>
        ensures { IfOk result (λ shelf. shelf ≡ empty_shelf) }
    {
        Ok(MemShelf {
            alloc,
            files: FileMap::new(alloc),
            finds: FindList::new(alloc),
            failing: Vec::new(alloc),
            calls: 0,
            faults: 0,
        })
    }

    /// Puts a file on a shelf that has given no id yet.
    ///
    /// A later file of the same name takes its place.
    pub fn add(&mut self, name: &str, bytes: &[u8]) -> Result<(), NoMemory>
        requires { self.old.finds ≡ [] }
        ensures named { OnOk result (file_named self.new.files name.now ≡ Some bytes.now) }
        ensures others { (other : List ℕ) → other ≢ name.now →
            file_named self.new.files other ≡ file_named self.old.files other }
        ensures same { self.new ≡ record self.old { files = self.new.files } }
        ensures err { OnErr result (self.new ≡ self.old) }
    {
        self.files.put(self.alloc, name, bytes)
    }

    /// Lets a call fail. The finds and the reads are counted together, from 1.
    pub fn fail(&mut self, call: u64) -> Result<(), NoMemory>
        ensures ok { OnOk result
            (self.new ≡ record self.old { failing = self.old.failing ++ call ∷ [] }) }
        ensures err { OnErr result (self.new ≡ self.old) }
    {
        match self.failing.push(call) {
            Ok(()) => Ok(()),
            Err(_) => Err(NoMemory),
        }
    }
}

impl Shelf for MemShelf {
    ghost files = { λ shelf. Some (file_named shelf.files) };

    ghost finds = { λ shelf. shelf.finds };

    ghost faults = { λ shelf. shelf.faults };

    fn find(&mut self, name: &str) -> Found
        // The call's number is listed, or no id is left.
        ensures exactly { (result ≡ Found.Failed)
            ↔ (Contains self.old.failing (raised self.old.calls)
            ⊎ (length self.old.finds ≡ most_finds)) }

        ensures here { IfHere result (λ id. self.new ≡ record self.old {
          finds = self.old.finds ++ record { id = id; name = name.now; place = 0 } ∷ [];
          calls = raised self.old.calls;
        }) }
        ensures new { IfHere result (λ id. is_given id self.old.finds ≡ false) }
        ensures told { IfHere result (λ id. IsSome (file_named self.old.files name.now)) }
        ensures absent { IfAbsent result (file_named self.old.files name.now ≡ None) }
        ensures unmoved { UnlessHere result (UnlessFailed result
            (self.new ≡ record self.old { calls = raised self.old.calls })) }

        ensures failed { IfFailed result (self.new ≡ record self.old {
          calls = raised self.old.calls;
          faults = raised self.old.faults;
        }) }
        ensures later { self.old.faults ≤ self.new.faults }
    {
        self.calls = self.calls.saturating_add(1);
        if self.failing.contains(&self.calls) {
            self.faults = self.faults.saturating_add(1);
            return Found::Failed;
        }
        if self.finds.is_full() {
            self.faults = self.faults.saturating_add(1);
            return Found::Failed;
        }
        if self.files.get(name).is_none() {
            return Found::Absent;
        }
        let Ok(name) = String::from_str(self.alloc, name) else {
            return Found::NoMemory;
        };
        match self.finds.add(name) {
            Ok(id) => Found::Here(id),
            Err(NoMemory) => Found::NoMemory,
        }
    }

    fn read(&mut self, id: u32, buf: &mut [u8]) -> Got
        requires { IsTrue (is_given id self.old.finds) }
        ensures exactly { (result ≡ Got.Failed)
            ↔ Contains self.old.failing (raised self.old.calls) }

        // As much is read as fits, or as is left.
        ensures within { IfCount result (λ n. n ≤ length buf.old) }
        ensures told { IfCount result (λ n. IfSome (rest_in self.old id)
            (λ rest. take n buf.new ≡ take n rest)) }
        ensures most { IfCount result (λ n. IfSome (rest_in self.old id)
            (λ rest. n ≡ min (length buf.old) (length rest))) }
        ensures end { IfCount result (λ n. n ≡ 0 → 0 < length buf.old →
            IfSome (rest_in self.old id) (λ rest. rest ≡ [])) }
        ensures moved { IfCount result (λ n. self.new ≡ record self.old {
          finds = moved id n self.old.finds;
          calls = raised self.old.calls;
        }) }

        ensures failed { IfNoBytes result (self.new ≡ record self.old {
          calls = raised self.old.calls;
          faults = raised self.old.faults;
        }) }
        ensures later { self.old.faults ≤ self.new.faults }
    {
        self.calls = self.calls.saturating_add(1);
        if self.failing.contains(&self.calls) {
            self.faults = self.faults.saturating_add(1);
            return Got::Failed;
        }
        let (name, place) = self.finds.find(id);
        let n = match self.files.get(name) {
            Some(file) => copy_rest(file, place, buf),
            // Not reached: a shelf that has given an id takes no more files, and loses none.
            None => 0,
        };
        self.finds.raise(id, n);
        Got::Count(n)
    }
}

/// Copies what is left of a file behind a place to the front of a buffer, as much as fits.
fn copy_rest(file: &[u8], place: u64, buf: &mut [u8]) -> usize
    ensures most { result ≡ min (length buf.old) (length file.now - place) }
    ensures copied { take result buf.new ≡ take result (drop place file.now) }
{
    let start = file.len().min(place as usize);
    let n = buf.len().min(file.len() - start);
    buf[..n].copy_from_slice(&file[start..start + n]);
    n
}
