/// How an instruction ended.
#[derive(Clone, Copy, Debug, PartialEq, Eq)]
pub enum Outcome {
    /// It was executed, in this many ticks without waits for memory.
    Cycles(u32),
    /// Its word is reserved; it did nothing.
    Reserved,
}
