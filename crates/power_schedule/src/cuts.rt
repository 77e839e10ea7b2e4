/// A cut of the power, and the ticks without power behind it.
#[derive(Clone, Copy, Debug, PartialEq, Eq)]
pub struct Cut {
    /// The number of the tick in which power is cut.
    pub tick: u32,
    /// How many writes of that tick are done, the first ones.
    pub writes: u32,
    /// How many ticks behind it have no power.
    pub off: u32,
}
