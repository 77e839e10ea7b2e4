/// What a violation asks for.
#[derive(Clone, Copy, Debug, PartialEq, Eq)]
pub enum Noted {
    Nothing,
    /// The non-maskable interrupt.
    Nmi,
    /// The reset of a cause, below 65.
    Reset(u8),
}
