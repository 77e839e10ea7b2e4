/// A step that the processor made: an instruction, or the entry into an interrupt.
#[derive(Clone, Copy, Debug, PartialEq, Eq)]
pub struct Step {
    /// The vector of the interrupt that was entered.
    pub vector: Option<u32>,
    /// The places of the step's violations, by the bits of their flags in MPUCTL1.
    pub noted: u8,
    /// The least cause that the step requested.
    pub cause: Option<u8>,
}
