//! Laws of DMA, from the definitions of its channels and transfers alone: which accesses a transfer makes, what it
//! leaves in memory, what one without a right moves, and how many a trigger makes.
//!
//! The contract of each function is a law. The functions do nothing.
#![tactic(auto)]

ghost use Rattle.dma_laws.specs.Accesses.{TransfersReadThenWrite};
ghost use Rattle.dma_laws.specs.Copies.{ChannelsCopyWords, TransfersCopyWords, TransfersMoveAValue};
ghost use Rattle.dma_laws.specs.Iterated.{AddressesStep, AddressesStepUp};
ghost use Rattle.dma_laws.specs.Refused.{RefusedTransfersMoveNothing, TransfersKeepOutOfArea};
ghost use Rattle.dma_laws.specs.Waits.{EachWaitingIsWithin, TransfersEnd, TransfersLowerWaiting, TriggersMakeFewTransfers, TriggersMakeFewWait, WaitingIsWithin};

/// A transfer reads once and then writes once, whatever it reads, and makes no access else: DMA never fetches.
#[tactic(auto, using(crate::proofs::Shapes::transfers_read_then_write))]
pub fn transfers_read_then_write()
    ensures { TransfersReadThenWrite }
{}

/// A transfer between places of memory stores at one what stood at the other, and changes nothing else but the list of
/// accesses and the number of writes.
#[tactic(auto, using(crate::proofs::Copied::transfers_move_a_value))]
pub fn transfers_move_a_value()
    ensures { TransfersMoveAValue }
{}

/// Transfers of words from addresses that step up copy a stretch of memory: its bytes stand at the destination as they
/// stood at the source, and every other byte stands. The stretches may overlap where the destination is the lower one.
#[tactic(auto, using(crate::proofs::Copied::transfers_copy_words))]
pub fn transfers_copy_words()
    ensures { TransfersCopyWords }
{}

/// A channel that copies words from addresses that step up copies a stretch of memory so, with as many transfers as its
/// working size has or fewer.
#[tactic(auto, using(crate::proofs::Copied::channels_copy_words))]
pub fn channels_copy_words()
    ensures { ChannelsCopyWords }
{}

/// A transfer without the right to its source stores nothing of it, but 3FFFh or FFh, and one without the right to its
/// destination leaves memory as it is.
#[tactic(auto, using(crate::proofs::Refusing::refused_transfers_move_nothing))]
pub fn refused_transfers_move_nothing()
    ensures { RefusedTransfersMoveNothing }
{}

/// So DMA reads nothing of the area of IP Encapsulation and writes nothing there, whatever the segments would say.
#[tactic(auto, using(crate::proofs::Refusing::transfers_keep_out_of_area))]
pub fn transfers_keep_out_of_area()
    ensures { TransfersKeepOutOfArea }
{}

/// Each address of a channel steps by its own field of CTL and its own width, until the working size is used up.
#[tactic(auto, using(crate::proofs::Counted::addresses_step))]
pub fn addresses_step()
    ensures { AddressesStep }
{}

/// Where a channel copies words and both of its addresses step up, the k-th transfer is that at 2k behind both working
/// addresses, until the working size is used up.
#[tactic(auto, using(crate::proofs::Counted::addresses_step_up))]
pub fn addresses_step_up()
    ensures { AddressesStepUp }
{}

/// Nothing makes more transfers of a channel wait than its working size has left.
#[tactic(auto, using(crate::proofs::Counted::waiting_is_within))]
pub fn waiting_is_within()
    ensures { WaitingIsWithin }
{}

/// So in each channel of the unit, whatever a run does to it.
#[tactic(auto, using(crate::proofs::Units::each_waiting_is_within))]
pub fn each_waiting_is_within()
    ensures { EachWaitingIsWithin }
{}

/// Where no transfer waits, a trigger makes at most as many wait as the working size has.
#[tactic(auto, using(crate::proofs::Counted::triggers_make_few_wait))]
pub fn triggers_make_few_wait()
    ensures { TriggersMakeFewWait }
{}

/// In the modes 0 to 5 each transfer leaves one less that waits.
#[tactic(auto, using(crate::proofs::Counted::transfers_lower_waiting))]
pub fn transfers_lower_waiting()
    ensures { TransfersLowerWaiting }
{}

/// In the modes 0 to 5 none waits behind as many transfers as waited, and the channel isn't due.
#[tactic(auto, using(crate::proofs::Counted::transfers_end))]
pub fn transfers_end()
    ensures { TransfersEnd }
{}

/// In the modes 0 to 5 one trigger makes at most as many transfers as the working size has, however many ticks follow
/// it, and whichever of them the channel may own.
#[tactic(auto, using(crate::proofs::Counted::triggers_make_few_transfers))]
pub fn triggers_make_few_transfers()
    ensures { TriggersMakeFewTransfers }
{}
