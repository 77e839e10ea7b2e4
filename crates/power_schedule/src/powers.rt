/// What the supply does in a tick.
#[derive(Clone, Copy, Debug, PartialEq, Eq)]
pub enum Power {
    /// Power is on through the whole tick.
    On,
    /// Power is cut in the tick, behind so many of its writes.
    Cut(u32),
    /// There is no power in the tick.
    Off,
}
