/// What a step of a timer makes.
#[derive(Clone, Copy, Debug, PartialEq, Eq)]
pub struct TimerStep {
    pub r: u16,
    pub is_downward: bool,
    /// It sets TAIFG.
    pub overflows: bool,
}
