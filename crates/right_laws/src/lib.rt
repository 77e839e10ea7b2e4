//! Laws of memory protection and of IP Encapsulation, from their definitions alone: what a refused access leaves as it
//! is, which accesses can be refused, what the locks keep, which address is of which segment or of the area, and what
//! the end of a step makes of violations.
//!
//! The contract of each function is a law. The functions do nothing.
#![tactic(auto)]

ghost use Rattle.right_laws.specs.Areas.{AreaLiesBetweenBorders, AreasGoByAddresses, SealIsLockedArea};
ghost use Rattle.right_laws.specs.EncapLocks.{AccessesKeepEncapsulation, AccessesKeepSecret, AreaBordersStayWhole, LockKeepsEncapsulation};
ghost use Rattle.right_laws.specs.Ends.{AccessesKeepFlags, NoNotesNoChange, StepsEndByNotes};
ghost use Rattle.right_laws.specs.Insiders.{AreaRefusesOthers, JumpsInAreAllowed};
ghost use Rattle.right_laws.specs.Judged.{DisabledRefusesNothing, OnlyFramIsJudged, OthersAreNotJudged};
ghost use Rattle.right_laws.specs.Locks.{AccessesKeepLocked, BordersStayWhole, LockKeepsRegisters};
ghost use Rattle.right_laws.specs.Places.{CrossedBordersLeaveNoTwo, InformationIsInfo, SegmentsLieInOrder};
ghost use Rattle.right_laws.specs.Refusals.{RefusalsNoteAlone, RefusedChangeLittle};
ghost use Rattle.right_laws.specs.Rights.{RightsGoByBits};

/// A refused access that is present leaves memory, each register and all else of the bus part as it was, but the list
/// of accesses, the number of writes, and the places noted, which get the place's flag. It answers 3FFFh, or FFh for a
/// byte, and a write the value that it was given.
pub fn refused_change_little()
    ensures { RefusedChangeLittle }
{}

/// Whoever is refused, the place is noted and nothing else changes; for the debugger and the boot it isn't noted
/// either.
pub fn refusals_note_alone()
    ensures { RefusalsNoteAlone }
{}

/// With MPUENA set, an access of the processor or DMA to FRAM that the area leaves to the segments has its right exactly
/// by its bit of MPUSAM, which is RE, WE or XE of the address's segment; where it is 0 that segment refuses.
pub fn rights_go_by_bits()
    ensures { RightsGoByBits }
{}

/// With MPUENA clear no access is refused that the area leaves to the segments, and with MPUIPENA clear too none at all.
#[tactic(auto, using(crate::proofs::Judging::disabled_refuses_nothing))]
pub fn disabled_refuses_nothing()
    ensures { DisabledRefusesNothing }
{}

/// No segment refuses the entry into an interrupt or the debugger an access, and nothing refuses the boot one.
#[tactic(auto, using(crate::proofs::Judging::others_are_not_judged))]
pub fn others_are_not_judged()
    ensures { OthersAreNotJudged }
{}

/// No access off FRAM is refused.
#[tactic(auto, using(crate::proofs::Judging::only_fram_is_judged))]
pub fn only_fram_is_judged()
    ensures { OnlyFramIsJudged }
{}

/// The area refuses every access to it by code outside it, an entry, DMA and the debugger, and reads and writes by code
/// in its first eight bytes, whatever the segments would say.
#[tactic(auto, using(crate::proofs::Judging::area_refuses_others))]
pub fn area_refuses_others()
    ensures { AreaRefusesOthers }
{}

/// The area refuses no fetch of an instruction's first word, so all code may jump into it.
#[tactic(auto, using(crate::proofs::Judging::jumps_in_are_allowed))]
pub fn jumps_in_are_allowed()
    ensures { JumpsInAreAllowed }
{}

/// The area is exactly main FRAM from the first border of the encapsulation up to and without the second, but for FF80h
/// to FFFFh, where MPUIPENA is set.
#[tactic(auto, using(crate::proofs::Bounding::area_lies_between_borders))]
pub fn area_lies_between_borders()
    ensures { AreaLiesBetweenBorders }
{}

/// The seal is the area where MPUIPLOCK is set, and holds nothing where it is clear.
#[tactic(auto, using(crate::proofs::Bounding::seal_is_locked_area))]
pub fn seal_is_locked_area()
    ensures { SealIsLockedArea }
{}

/// Two areas that hold the same addresses are equal, and so are two seals.
#[tactic(auto, using(crate::proofs::Bounding::areas_go_by_addresses))]
pub fn areas_go_by_addresses()
    ensures { AreasGoByAddresses }
{}

/// Where the first border isn't above the second, segment 1 of main FRAM is all below the first border, segment 2 is
/// from there below the second, and segment 3 is from the second on.
#[tactic(auto, using(crate::proofs::Dividing::segments_lie_in_order))]
pub fn segments_lie_in_order()
    ensures { SegmentsLieInOrder }
{}

/// Where the first border is above the second no address is of segment 2: main FRAM below the second is of segment 1.
#[tactic(auto, using(crate::proofs::Dividing::crossed_borders_leave_no_two))]
pub fn crossed_borders_leave_no_two()
    ensures { CrossedBordersLeaveNoTwo }
{}

/// Information FRAM is of its own segment, wherever the borders are.
#[tactic(auto, using(crate::proofs::Dividing::information_is_info))]
pub fn information_is_info()
    ensures { InformationIsInfo }
{}

/// Borders are multiples of 64 from power on, whatever the unit goes through.
#[tactic(auto, using(crate::proofs::Locking::borders_stay_whole))]
pub fn borders_stay_whole()
    ensures { BordersStayWhole }
{}

/// With MPULOCK set nothing but a BOR changes MPUCTL0's bits, a border, or MPUSAM.
#[tactic(auto, using(crate::proofs::Locking::lock_keeps_registers))]
pub fn lock_keeps_registers()
    ensures { LockKeepsRegisters }
{}

/// Borders of the encapsulation are multiples of 64 from power on, whatever a boot installs and the unit goes through.
#[tactic(auto, using(crate::proofs::Encapsulating::area_borders_stay_whole))]
pub fn area_borders_stay_whole()
    ensures { AreaBordersStayWhole }
{}

/// With MPUIPLOCK set nothing but a BOR changes the registers of the encapsulation, so area and seal stay.
#[tactic(auto, using(crate::proofs::Encapsulating::lock_keeps_encapsulation))]
pub fn lock_keeps_encapsulation()
    ensures { LockKeepsEncapsulation }
{}

/// The end of a step sets exactly the flags of the places that were noted, asks for exactly the resets of those whose
/// VS is 1, and for the NMI where one of the others was noted and MPUSEGIE is 1. Nothing is noted behind it, and all
/// else is as before.
pub fn steps_end_by_notes()
    ensures { StepsEndByNotes }
{}

/// Where no place was noted, the end of a step changes nothing.
pub fn no_notes_no_change()
    ensures { NoNotesNoChange }
{}

/// No access changes MPUCTL1, refused or not, but one to MPUCTL1 itself or to SYSSNIV: no access of a step sees a flag
/// of the same step.
pub fn accesses_keep_flags()
    ensures { AccessesKeepFlags }
{}

/// So no access, by whomever, changes them while MPULOCK is set.
pub fn accesses_keep_locked()
    ensures { AccessesKeepLocked }
{}

/// No access, by whomever, changes the registers of the encapsulation or the addresses that stay secret while MPUIPLOCK
/// is set or the latch is closed, nor where it is to another address than theirs.
#[tactic(auto, using(crate::proofs::Encapsulating::accesses_keep_encapsulation))]
pub fn accesses_keep_encapsulation()
    ensures { AccessesKeepEncapsulation }
{}

/// The addresses that stay secret change only by an access that sets MPUIPLOCK with MPUIPENA: they are the area then.
#[tactic(auto, using(crate::proofs::Encapsulating::accesses_keep_secret))]
pub fn accesses_keep_secret()
    ensures { AccessesKeepSecret }
{}
