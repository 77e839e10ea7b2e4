/// How two images compare, that run under one bench.
#[derive(Clone, Copy, Debug, PartialEq, Eq)]
pub enum Verdict {
    /// Their first boots seal different addresses.
    Seal,
    /// FRAM outside the seal differs, at this address first.
    Outside(u32),
    /// What leaves the seal differs, in this tick first.
    Release(u32),
    /// What leaves the seal is the same in every tick.
    Same,
}
