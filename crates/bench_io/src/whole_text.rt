ghost use Rattle.std.specs.Prelude.{◌≡◌, OnOk, OnErr};
ghost use Rattle.bench_io.specs.Faults.{Rose};
ghost use Rattle.bench_io.specs.Sinks.{appended, AppendsFront};

use crate::sinks::{Sink, Took};
use std::error::Error;
use std::fmt;

/// A sink took only a front of a text.
#[derive(Clone, Copy, Debug, PartialEq, Eq)]
pub struct PutFailed;

impl fmt::Display for PutFailed {
    fn fmt<W: fmt::Write>(&self, f: &mut fmt::Formatter<W>) -> fmt::Result {
        f.write_str("the text was not written whole")
    }
}

impl Error for PutFailed {}

/// Writes a whole text. The first put that takes nothing ends it.
pub fn put_all<K: Sink>(out: &mut K, text: &[u8]) -> Result<(), PutFailed>
    ensures whole { OnOk result (K.written out.new ≡ appended (K.written out.old) text.now) }
    ensures uncounted { OnOk result (K.faults out.new ≡ K.faults out.old) }
    ensures fault { OnErr result (Rose (K.faults out.old) (K.faults out.new)) }
    ensures front { OnErr result (AppendsFront (K.written out.old) (K.written out.new) text.now) }
{
    let mut done = 0;
    while done < text.len() {
        match out.put(&text[done..]) {
            Took::Failed => return Err(PutFailed),
            Took::Count(n) => {
                if n == 0 {
                    return Err(PutFailed);
                }
                done += n;
            }
        }
    }
    Ok(())
}
