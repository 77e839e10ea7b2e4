/// The level of a pin, as the outside sees it.
#[derive(Clone, Copy, Debug, PartialEq, Eq)]
pub enum Level {
    Low,
    High,
    /// Nothing drives the pin: power is off, the port is locked, or the pin is an input.
    Open,
}
