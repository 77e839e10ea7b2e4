use crate::{Cut, Power, Schedule, ScheduleRefused};
use std::alloc::Global;
use std::process::Abort;
use std::test::Fail;

fn cut(tick: u32, writes: u32, off: u32) -> Cut {
    Cut { tick, writes, off }
}

/// The schedule of some cuts, which are within the ranges that it needs.
fn build(rt: &impl Abort, alloc: Global, cuts: &[Cut]) -> Result<Schedule, ScheduleRefused> {
    assert!(rt; cuts.len() <= 1000);
    assert!(rt;
        cuts.iter()
            .all(|cut| cut.tick <= 10_000_000 && cut.off <= 10_000_000)
    );
    Schedule::build(alloc, cuts)
}

#[test]
fn tells_the_power_of_each_tick(rt: HostRuntime) -> Result<(), Fail> {
    let schedule = build(
        &rt,
        rt.alloc(),
        &[cut(10, 0, 5), cut(16, 0, 1), cut(40, 0, 1)],
    )?;
    for (from, to, want) in [
        (0, 10, Power::On),
        (10, 11, Power::Cut(0)),
        (11, 16, Power::Off),
        (16, 17, Power::Cut(0)),
        (17, 18, Power::Off),
        (18, 30, Power::On),
    ] {
        for tick in from..to {
            assert_eq!(rt; schedule.at(tick), want, "{tick}");
        }
    }
    assert_eq!(rt; schedule.at(u32::MAX), Power::On);
    for (tick, want) in [
        (0, 10),
        (10, 10),
        (15, 15),
        (17, 17),
        (18, 40),
        (41, 41),
        (42, u32::MAX),
        (u32::MAX, u32::MAX),
    ] {
        assert_eq!(rt; schedule.on_until(tick), want, "{tick}");
    }
    let none = build(&rt, rt.alloc(), &[])?;
    assert_eq!(rt; none.at(0), Power::On);
    assert_eq!(rt; none.on_until(0), u32::MAX);
    let first = build(
        &rt,
        rt.alloc(),
        &[cut(0, 64, 10_000_000), cut(10_000_000, 3, 0)],
    );
    assert_eq!(rt; first.err(), Some(ScheduleRefused::BadCut(1)));
    let long = build(
        &rt,
        rt.alloc(),
        &[cut(0, 64, 9_999_999), cut(10_000_000, 3, 0)],
    )?;
    assert_eq!(rt; long.at(0), Power::Cut(64));
    assert_eq!(rt; long.at(9_999_999), Power::Off);
    assert_eq!(rt; long.at(10_000_000), Power::Cut(3));
    assert_eq!(rt; long.at(10_000_001), Power::On);
    Ok(())
}

#[test]
fn refuses_the_first_cut_that_comes_too_early(rt: HostRuntime) -> Result<(), Fail> {
    for (cuts, index) in [
        ([cut(10, 0, 5), cut(15, 0, 1), cut(15, 0, 1)], 1),
        ([cut(10, 0, 5), cut(16, 0, 1), cut(17, 0, 1)], 2),
        ([cut(10, 0, 5), cut(16, 0, 1), cut(9, 0, 1)], 2),
        ([cut(10, 0, 5), cut(10, 0, 5), cut(30, 0, 1)], 1),
    ] {
        let refused = build(&rt, rt.alloc(), &cuts).err();
        assert_eq!(rt; refused, Some(ScheduleRefused::BadCut(index)));
    }
    let refused = ScheduleRefused::BadCut(1);
    assert_eq!(rt;
        format!(in rt.alloc(); "{refused}")?.as_str(),
        "cut 1 comes too early"
    );
    Ok(())
}
