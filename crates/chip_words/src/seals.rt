/// Main FRAM from `low` up to and without `high`, but for the signatures and vectors at FF80h to FFFFh.
///
/// One that holds no address is 0, 0, and one that holds some lies in main FRAM. Of two that come from registers, whose
/// borders are multiples of 400h, that says more: they are equal exactly where they hold the same addresses.
#[derive(Clone, Copy, Debug, PartialEq, Eq)]
pub struct Seal {
    pub low: u32,
    pub high: u32,
}
