ghost use Rattle.std.specs.Prelude.{◌≡◌, ◌<◌, ◌≤◌, ◌↔◌, [], ◌∷◌, ◌++◌, length, Some, false, string_bytes, IsTrue, IfOk, OnErr};
ghost use Rattle.bench_io.specs.Shelves.{most_finds, is_given, find_of, moved};

use crate::memory::NoMemory;
use std::alloc::Global;
use std::marker::Model;

/// How many ids a shelf can give: a `u32` counts them.
pub const MOST_FINDS: u32 = 4_294_967_295;

#[derive(Drop)]
struct Entry {
    name: String,
    place: u64,
}

/// The finds of a shelf. An id is the place of its find, counted from 0.
#[derive(Drop)]
pub struct FindList {
    entries: Vec<Entry>,
}

impl Model for FindList {
    ghost use Rattle.std.specs.Prelude.{List, ◌≤◌, vec_len};
    ghost use Rattle.bench_io.specs.Shelves.{Find, most_finds};

    ghost Value = { List Find };

    ghost use Rattle.bench_io.specs.FindLists.{numbered};

    ghost view = { λ list. numbered 0 list.entries.items };

    ghost invariant = { λ list. vec_len list.entries ≤ most_finds };
}

#[tactic(auto, using(crate::proofs::Numbers::number_laws))]
impl FindList {
    pub fn new(alloc: Global) -> Self
        ensures { result ≡ [] }
    {
        FindList {
            entries: Vec::new(alloc),
        }
    }

    /// Says whether every id was given.
    pub fn is_full(&self) -> bool
        ensures full { IsTrue result ↔ (length self.now ≡ most_finds) }
        ensures within { length self.now ≤ most_finds }
    {
        self.entries.len() == MOST_FINDS as usize
    }

    /// Adds a find, at place 0, and gives its id.
    pub fn add(&mut self, name: String) -> Result<u32, NoMemory>
        requires { length self.old < most_finds }
        ensures ok { IfOk result (λ id.
            self.new ≡ self.old ++ record { id = id; name = string_bytes name; place = 0 } ∷ []) }
        ensures new { IfOk result (λ id. is_given id self.old ≡ false) }
        ensures next { IfOk result (λ id. id ≡ length self.old) }
        ensures err { OnErr result (self.new ≡ self.old) }
    {
        let id = self.entries.len() as u32;
        match self.entries.push(Entry { name, place: 0 }) {
            Ok(()) => Ok(id),
            Err(_) => Err(NoMemory),
        }
    }

    /// Says that n more bytes were read under an id. A place stays at 2^64 - 1.
    pub fn raise(&mut self, id: u32, n: usize)
        requires { IsTrue (is_given id self.old) }
        ensures moved { self.new ≡ moved id n self.old }
        ensures len { length self.new ≡ length self.old }
    {
        let entry = &mut self.entries[id as usize];
        entry.place = entry.place.saturating_add(n as u64);
    }

    /// The name and the place of a find.
    pub fn find(&self, id: u32) -> (&str, u64)
        requires { IsTrue (is_given id self.now) }
        ensures { find_of id self.now
            ≡ Some (record { id = id; name = result.0.now; place = result.1 }) }
    {
        let entry = &self.entries[id as usize];
        (entry.name.as_str(), entry.place)
    }

    /// The place of an id's find in the list.
    pub fn position(&self, id: u32) -> usize
        requires { IsTrue (is_given id self.now) }
        ensures same { result ≡ id }
        ensures within { result < length self.now }
    {
        prove!((id as usize) < self.entries.len());
        id as usize
    }
}
