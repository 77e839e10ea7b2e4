ghost use Rattle.std.specs.Prelude.{◌≡◌, ◌≤◌, length, take, None, IfOk};
ghost use Rattle.std.specs.Io.KnownBytes.{Appends, Keeps};
ghost use Rattle.bench_io.specs.Edge.{faults_after_write};
ghost use Rattle.bench_io.specs.Sinks.{IfTaken, IfRefused};
ghost use Rattle.bench_io.specs.WriterSinks.{held, fault_count};

use crate::edge::answer_to_write;
use crate::memory::NoMemory;
use crate::sinks::{Sink, Took};
use std::alloc::Global;
use std::io::{Stdout, Write};

/// A sink over a writer. As a sink it tells no content, and it has no buffer of its own.
///
/// What the writer is stays open, so that the clauses speak of the bytes of those that tell them.
#[derive(Drop)]
pub struct WriterSink<W> {
    out: W,
    faults: u64,
}

/// Standard output.
pub type StdSink = WriterSink<Stdout>;

impl<W> WriterSink<W> {
    /// A sink that has counted no fault yet.
    pub fn new(out: W) -> WriterSink<W>
        ensures { fault_count result ≡ 0 }
    {
        WriterSink { out, faults: 0 }
    }

    /// How many puts failed. The count stays at the greatest `u64`.
    pub fn faults(&self) -> u64
        ensures { result ≡ fault_count self.now }
    {
        self.faults
    }
}

impl WriterSink<Stdout> {
    /// A sink that has counted no fault yet. It takes no memory.
    pub fn build(rt: &HostRuntime, _alloc: Global) -> Result<StdSink, NoMemory>
        ensures { IfOk result (λ sink. ⟦<WriterSink<Stdout> as Sink>⟧.faults sink ≡ 0) }
    {
        Ok(WriterSink::new(rt.stdout()))
    }
}

impl<W: Write> Sink for WriterSink<W> {
    ghost written = { λ sink. None };

    ghost faults = { λ sink. sink.faults };

    fn put(&mut self, piece: &[u8]) -> Took
        ensures within { IfTaken result (λ n. n ≤ length piece.now) }
        ensures taken { IfTaken result (λ n.
            Appends (held W.contents self.old) (held W.contents self.new) (take n piece.now)) }
        ensures nothing { IfRefused result
            (Keeps (held W.contents self.old) (held W.contents self.new)) }

        ensures counted { fault_count self.new
            ≡ faults_after_write (length piece.now) result (fault_count self.old) }
        ensures later { fault_count self.old ≤ fault_count self.new }

        // A piece of no bytes isn't written.
        ensures empty { length piece.now ≡ 0 → result ≡ Took.Count 0 }
    {
        if piece.is_empty() {
            return Took::Count(0);
        }
        answer_to_write(self.out.write(piece), piece.len(), &mut self.faults)
    }
}
