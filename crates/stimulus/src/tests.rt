use crate::{Bench, BenchError, BenchRefused, Event, EventAct, RootField, read_bench};
use debug_port::Command;
use power_schedule::{Cut, Power};
use std::alloc::Global;
use std::test::Fail;

/// Why some bytes are no bench, if they are none.
fn refusal(alloc: Global, bytes: &[u8]) -> Option<BenchError> {
    read_bench(alloc, bytes).err()
}

/// The root of a bench, behind which events may follow.
const ROOT: &str = "version = 1\nend = 30\n";

#[test]
fn refuses(rt: HostRuntime) -> Result<(), Fail> {
    let field = BenchRefused::Field;
    let cases = [
        ("the text =", "=", BenchRefused::NotToml),
        (
            "an integer beyond 64 bits",
            "version = 1\nend = 99999999999999999999",
            BenchRefused::NotToml,
        ),
        ("nothing", "", field(RootField::Version)),
        (
            "version 9",
            "version = 9\nend = 5",
            field(RootField::Version),
        ),
        ("no end", "version = 1", field(RootField::End)),
        ("end 0", "version = 1\nend = 0", field(RootField::End)),
        (
            "end 10000001",
            "version = 1\nend = 10000001",
            field(RootField::End),
        ),
        (
            "a negative end",
            "version = 1\nend = -1",
            field(RootField::End),
        ),
        (
            "end 2^32 + 1",
            "version = 1\nend = 4294967297",
            field(RootField::End),
        ),
        (
            "fill 256",
            "version = 1\nend = 5\nfill = 256",
            field(RootField::Fill),
        ),
        (
            "a wrong event before a wrong cut",
            "version = 1\nend = 5\nevent = {}\ncut = {}",
            field(RootField::Event),
        ),
        (
            "a wrong cut before an unknown key",
            "version = 1\nend = 5\ncut = {}\nz = 1",
            field(RootField::Cut),
        ),
        (
            "an unknown key before a cut that is no table",
            "version = 1\nend = 5\ncut = [1]\nz = 1",
            field(RootField::Unknown),
        ),
        (
            "a capital",
            "version = 1\nend = 5\nEnd = 5",
            field(RootField::Unknown),
        ),
        (
            "an unknown key before a wrong end",
            "a = 1\nversion = 1\nend = 0",
            field(RootField::End),
        ),
        (
            "an unknown key before a wrong event",
            "version = 1\nend = 5\nevent = [1]\nz = 1",
            field(RootField::Unknown),
        ),
        (
            "an event that is no table",
            "version = 1\nend = 5\nevent = [1]",
            BenchRefused::Event(0),
        ),
        (
            "a cut that is no table",
            "version = 1\nend = 5\ncut = [1]",
            BenchRefused::Cut(0),
        ),
        (
            "a cut and an event that are no tables",
            "version = 1\nend = 5\ncut = [1]\nevent = [1]",
            BenchRefused::Event(0),
        ),
    ];
    for (name, text, want) in cases {
        assert_eq!(rt;
            refusal(rt.alloc(), text.as_bytes()),
            Some(BenchError::Refused(want)),
            "{name}"
        );
    }
    Ok(())
}

/// Lines of TOML with a value for each of some keys, of which one has another value than it should.
fn lines_with(
    alloc: Global,
    lines: &[(&str, &str)],
    key: &str,
    value: &str,
) -> Result<String, Fail> {
    let mut text = String::new(alloc);
    for (name, good) in lines {
        let value = if *name == key { value } else { *good };
        text.push_str(format!(in alloc; "{name} = {value}\n")?.as_str())?;
    }
    Ok(text)
}

#[test]
fn refuses_each_other_type(rt: HostRuntime) -> Result<(), Fail> {
    let alloc = rt.alloc();
    let others = ["1.0", "true", "1979-05-27", "\"1\"", "{}"];
    let root = [
        ("version", "1"),
        ("end", "30"),
        ("fill", "0"),
        ("event", "[]"),
        ("cut", "[]"),
    ];
    for (key, field) in [
        ("version", RootField::Version),
        ("end", RootField::End),
        ("fill", RootField::Fill),
        ("event", RootField::Event),
        ("cut", RootField::Cut),
    ] {
        for other in others {
            let text = lines_with(alloc, &root, key, other)?;
            let want = Some(BenchError::Refused(BenchRefused::Field(field)));
            assert_eq!(rt; refusal(alloc, text.as_bytes()), want, "{key} = {other}");
        }
    }
    let pin = [("tick", "24"), ("pin", "\"P1.3\""), ("level", "1")];
    let dump = [
        ("debug", "\"dump\""),
        ("tick", "24"),
        ("at", "1"),
        ("count", "1"),
    ];
    let setreg = [
        ("debug", "\"setreg\""),
        ("tick", "24"),
        ("reg", "1"),
        ("value", "1"),
    ];
    for event in [pin.as_slice(), dump.as_slice(), setreg.as_slice()] {
        for (key, _) in event {
            for other in others {
                let mut text = String::from_str(alloc, ROOT)?;
                text.push_str("[[event]]\n")?;
                text.push_str(lines_with(alloc, event, key, other)?.as_str())?;
                let want = Some(BenchError::Refused(BenchRefused::Event(0)));
                assert_eq!(rt; refusal(alloc, text.as_bytes()), want, "{key} = {other}");
            }
        }
    }
    let cut = [("tick", "24"), ("writes", "1"), ("off", "1")];
    for (key, _) in cut {
        for other in others {
            let mut text = String::from_str(alloc, ROOT)?;
            text.push_str("[[cut]]\n")?;
            text.push_str(lines_with(alloc, &cut, key, other)?.as_str())?;
            let want = Some(BenchError::Refused(BenchRefused::Cut(0)));
            assert_eq!(rt; refusal(alloc, text.as_bytes()), want, "{key} = {other}");
        }
    }
    Ok(())
}

#[test]
fn refuses_bytes_that_are_no_text(rt: HostRuntime) -> Result<(), Fail> {
    let mut bytes = Vec::new(rt.alloc());
    bytes.extend_from_slice(ROOT.as_bytes())?;
    bytes.extend_from_slice(b"# \xFF\n")?;
    let not_toml = Some(BenchError::Refused(BenchRefused::NotToml));
    assert_eq!(rt; refusal(rt.alloc(), bytes.as_slice()), not_toml);

    // A value may nest 80 deep in a TOML document.
    for (depth, want) in [
        (80, Some(BenchError::Refused(BenchRefused::Event(0)))),
        (81, not_toml),
    ] {
        let mut text = String::from_str(rt.alloc(), ROOT)?;
        text.push_str("event = ")?;
        for _ in 0..depth {
            text.push_str("[")?;
        }
        for _ in 0..depth {
            text.push_str("]")?;
        }
        assert_eq!(rt; refusal(rt.alloc(), text.as_bytes()), want);
    }
    Ok(())
}

#[test]
fn refuses_the_first_event_that_breaks_a_rule(rt: HostRuntime) -> Result<(), Fail> {
    // Each follows the event 0 at tick 24.
    let cases = [
        ("an earlier tick", "tick = 23\npin = \"P1.3\"\nlevel = 1"),
        ("the end", "tick = 30\npin = \"P1.3\"\nlevel = 1"),
        ("a negative tick", "tick = -1\npin = \"P1.3\"\nlevel = 1"),
        ("port 0", "tick = 24\npin = \"P0.0\"\nlevel = 1"),
        ("port 5", "tick = 24\npin = \"P5.0\"\nlevel = 1"),
        ("bit 8", "tick = 24\npin = \"P1.8\"\nlevel = 1"),
        ("a small letter", "tick = 24\npin = \"p1.0\"\nlevel = 1"),
        ("a longer name", "tick = 24\npin = \"P1.00\"\nlevel = 1"),
        ("another separator", "tick = 24\npin = \"P1:0\"\nlevel = 1"),
        ("level 2", "tick = 24\npin = \"P1.3\"\nlevel = 2"),
        ("no tick", "pin = \"P1.3\"\nlevel = 1"),
        ("no pin", "tick = 24\nlevel = 1"),
        ("no level", "tick = 24\npin = \"P1.3\""),
        (
            "another key",
            "tick = 24\npin = \"P1.3\"\nlevel = 1\nport = 1",
        ),
        ("a command without a tick", "debug = \"halt\""),
        ("nothing", ""),
    ];
    for (name, event) in cases {
        let mut text = String::from_str(rt.alloc(), ROOT)?;
        text.push_str("[[event]]\ntick = 24\npin = \"P1.3\"\nlevel = 1\n[[event]]\n")?;
        text.push_str(event)?;
        let want = Some(BenchError::Refused(BenchRefused::Event(1)));
        assert_eq!(rt; refusal(rt.alloc(), text.as_bytes()), want, "{name}");
    }
    Ok(())
}

/// A bench whose one event comes at tick 24 and has these keys beside it.
fn with_event(alloc: Global, keys: &str) -> Result<String, Fail> {
    Ok(format!(in alloc; "{ROOT}event = [{{ tick = 24, {keys} }}]")?)
}

#[test]
fn refuses_each_command_that_breaks_a_rule(rt: HostRuntime) -> Result<(), Fail> {
    for keys in [
        "debug = 'read'",
        "debug = 'read', at = -1",
        "debug = 'read', at = 1048576",
        "debug = 'read', at = 1, count = 1",
        "debug = 'write', value = 1",
        "debug = 'write', at = 1",
        "debug = 'write', at = 1048576, value = 1",
        "debug = 'write', at = 1, value = -1",
        "debug = 'write', at = 1, value = 65536",
        "debug = 'write', at = 1, value = 1, count = 1",
        "debug = 'dump', count = 1",
        "debug = 'dump', at = 1",
        "debug = 'dump', at = 1048576, count = 1",
        "debug = 'dump', at = 1, count = 0",
        "debug = 'dump', at = 1, count = 33",
        "debug = 'dump', at = 1, count = 1, value = 1",
        "debug = 'reg'",
        "debug = 'reg', reg = -1",
        "debug = 'reg', reg = 16",
        "debug = 'reg', reg = 1, value = 1",
        "debug = 'setreg', value = 1",
        "debug = 'setreg', reg = 1",
        "debug = 'setreg', reg = 16, value = 1",
        "debug = 'setreg', reg = 1, value = -1",
        "debug = 'setreg', reg = 1, value = 1048576",
        "debug = 'setreg', reg = 1, value = 1, at = 1",
        "debug = 'halt', at = 1",
        "debug = 'go', reg = 1",
        "debug = 'reset', value = 1",
        "debug = 'erase', at = 1",
        "debug = 'step'",
        "debug = ''",
        "debug = 'Halt'",
        "debug = 'halted'",
        "debug = 'halt', pin = 'P1.3', level = 1",
        "debug = 'halt', level = 1",
        "pin = 'P1.3', level = 1, at = 1",
        "at = 1",
    ] {
        let text = with_event(rt.alloc(), keys)?;
        let want = Some(BenchError::Refused(BenchRefused::Event(0)));
        assert_eq!(rt; refusal(rt.alloc(), text.as_bytes()), want, "{keys}");
    }
    Ok(())
}

#[test]
fn refuses_the_first_cut_that_breaks_a_rule(rt: HostRuntime) -> Result<(), Fail> {
    for cut in [
        "tick = 15, writes = 0, off = 1",
        "tick = 10, writes = 0, off = 1",
        "tick = 9, writes = 0, off = 1",
        "tick = -1, writes = 0, off = 1",
        "tick = 30, writes = 0, off = 1",
        "tick = 16, writes = -1, off = 1",
        "tick = 16, writes = 65, off = 1",
        "tick = 16, writes = 0, off = 0",
        "tick = 16, writes = 0, off = 10000001",
        "writes = 0, off = 1",
        "tick = 16, off = 1",
        "tick = 16, writes = 0",
        "tick = 16, writes = 0, off = 1, level = 1",
        "",
    ] {
        let text = format!(in rt.alloc();
            "{ROOT}cut = [{{ tick = 10, writes = 0, off = 5 }}, {{ {cut} }}, 1]"
        )?;
        let want = Some(BenchError::Refused(BenchRefused::Cut(1)));
        assert_eq!(rt; refusal(rt.alloc(), text.as_bytes()), want, "{cut}");
    }
    Ok(())
}

#[test]
fn reads_cuts(rt: HostRuntime) -> Result<(), Fail> {
    let text = "
        version = 1
        end = 30

        [[cut]]
        tick = 10
        writes = 0
        off = 5

        [[event]]
        tick = 12
        pin = 'P1.3'
        level = 1

        [[cut]]
        off = 1
        writes = 64
        tick = 16

        [[cut]]
        tick = 29
        writes = 1
        off = 10000000

        [[event]]
        tick = 20
        pin = 'P1.3'
        level = 0
    ";
    let bench = read_bench(rt.alloc(), text.as_bytes())?;
    for (from, to, want) in [
        (0, 10, Power::On),
        (10, 11, Power::Cut(0)),
        (11, 16, Power::Off),
        (16, 17, Power::Cut(64)),
        (17, 18, Power::Off),
        (18, 29, Power::On),
        (29, 30, Power::Cut(1)),
    ] {
        for tick in from..to {
            assert_eq!(rt; bench.power(tick), want, "{tick}");
        }
    }
    for (tick, want) in [
        (0, 10),
        (12, 12),
        (17, 17),
        (18, 20),
        (20, 20),
        (21, 29),
        (10_000_029, 10_000_029),
        (10_000_030, u32::MAX),
    ] {
        for done in 0..3 {
            assert_eq!(rt; bench.plain_until(tick, done), want, "{tick} {done}");
        }
    }
    assert_eq!(rt; bench.events(12), [pin(12, 1, 3, true)].as_slice());
    let none = read_bench(rt.alloc(), b"version = 1\nend = 5\ncut = []")?;
    assert_eq!(rt; none.power(0), Power::On);
    Ok(())
}

/// A bench with so many cuts.
fn dark(alloc: Global, cuts: u16) -> Result<String, Fail> {
    let mut text = String::from_str(alloc, "version = 1\nend = 10000000\n")?;
    for cut in 0..cuts {
        let tick = 2 * u32::from(cut);
        text.push_str(format!(in alloc;
            "[[cut]]\ntick = {tick}\nwrites = 0\noff = 1\n"
        )?.as_str())?;
    }
    Ok(text)
}

/// A bench with so many events on each of so many ticks.
fn crowd(alloc: Global, ticks: u32, on_tick: u32) -> Result<String, Fail> {
    let mut text = String::from_str(alloc, "version = 1\nend = 10000000\n")?;
    for tick in 0..ticks {
        for event in 0..on_tick {
            let bit = event % 8;
            text.push_str(format!(in alloc;
                "[[event]]\ntick = {tick}\npin = \"P2.{bit}\"\nlevel = 0\n"
            )?.as_str())?;
        }
    }
    Ok(text)
}

#[test]
fn refuses_too_many(rt: HostRuntime) -> Result<(), Fail> {
    let crowded = crowd(rt.alloc(), 1, 9)?;
    let want = Some(BenchError::Refused(BenchRefused::Event(8)));
    assert_eq!(rt; refusal(rt.alloc(), crowded.as_bytes()), want);

    let most = crowd(rt.alloc(), 1250, 8)?;
    let bench = read_bench(rt.alloc(), most.as_bytes())?;
    assert_eq!(rt; bench.events(1249).len(), 8);

    let long = crowd(rt.alloc(), 10_001, 1)?;
    let want = Some(BenchError::Refused(BenchRefused::TooMany(10_001)));
    assert_eq!(rt; refusal(rt.alloc(), long.as_bytes()), want);
    let bench = read_bench(rt.alloc(), dark(rt.alloc(), 1000)?.as_bytes())?;
    assert_eq!(rt; bench.power(1998), Power::Cut(0));
    let dark = dark(rt.alloc(), 1001)?;
    let want = Some(BenchError::Refused(BenchRefused::TooMany(1001)));
    assert_eq!(rt; refusal(rt.alloc(), dark.as_bytes()), want);
    Ok(())
}

fn pin(tick: u32, port: u8, bit: u8, level: bool) -> Event {
    Event {
        tick,
        act: EventAct::Pin(port, bit, level),
    }
}

fn debug(tick: u32, command: Command) -> Event {
    Event {
        tick,
        act: EventAct::Debug(command),
    }
}

#[test]
fn reads_a_bench(rt: HostRuntime) -> Result<(), Fail> {
    let text = "
        end = 30        # keys of the root come in any order
        version = 1
        fill = 0xA5
        [[event]]
        tick = 0
        pin = \"P1.0\"
        level = 1
        [[event]]
        level = 0
        tick = 24
        pin = \"P4.7\"
        [[event]]
        tick = 24
        pin = \"P1.3\"
        level = 1
        [[event]]
        tick = 29
        pin = \"P3.6\"
        level = 1
    ";
    let bench = read_bench(rt.alloc(), text.as_bytes())?;
    assert_eq!(rt; (bench.end(), bench.fill()), (30, 0xA5));
    assert_eq!(rt; bench.events(0), [pin(0, 1, 0, true)].as_slice());
    assert_eq!(rt; bench.events(1), [].as_slice());
    assert_eq!(rt; bench.events(23), [].as_slice());
    assert_eq!(rt;
        bench.events(24),
        [pin(24, 4, 7, false), pin(24, 1, 3, true)].as_slice()
    );
    assert_eq!(rt; bench.events(29), [pin(29, 3, 6, true)].as_slice());
    assert_eq!(rt; bench.events(30), [].as_slice());
    assert_eq!(rt; bench.events(u32::MAX), [].as_slice());

    let short = read_bench(rt.alloc(), b"version = 1\nend = 10000000\nevent = []\n")?;
    assert_eq!(rt; (short.end(), short.fill()), (10_000_000, 0));
    let cut = Cut {
        tick: 0,
        writes: 2,
        off: 1,
    };
    let plain = Bench::plain(rt.alloc(), 1, 255, &[cut])?;
    assert_eq!(rt; (plain.end(), plain.fill()), (1, 255));
    assert_eq!(rt; plain.events(0), [].as_slice());
    assert_eq!(rt; plain.power(0), Power::Cut(2));
    let plain = Bench::plain(rt.alloc(), 1, 255, &[])?;
    assert_eq!(rt; plain.power(0), Power::On);
    Ok(())
}

#[test]
fn reads_each_command(rt: HostRuntime) -> Result<(), Fail> {
    for (keys, want) in [
        ("debug = 'read', at = 0", Command::Read(0)),
        ("at = 1048575, debug = 'read'", Command::Read(0xF_FFFF)),
        (
            "debug = 'write', at = 0, value = 65535",
            Command::Write(0, 0xFFFF),
        ),
        (
            "value = 0, at = 1048575, debug = 'write'",
            Command::Write(0xF_FFFF, 0),
        ),
        ("debug = 'dump', at = 0, count = 32", Command::Dump(0, 32)),
        (
            "count = 1, at = 1048575, debug = 'dump'",
            Command::Dump(0xF_FFFF, 1),
        ),
        ("debug = 'reg', reg = 0", Command::Reg(0)),
        ("reg = 15, debug = 'reg'", Command::Reg(15)),
        (
            "debug = 'setreg', reg = 0, value = 1048575",
            Command::SetReg(0, 0xF_FFFF),
        ),
        (
            "value = 0, reg = 15, debug = 'setreg'",
            Command::SetReg(15, 0),
        ),
        ("debug = 'halt'", Command::Halt),
        ("debug = 'go'", Command::Go),
        ("debug = 'reset'", Command::Reset),
        ("debug = 'erase'", Command::Erase),
    ] {
        let text = with_event(rt.alloc(), keys)?;
        let bench = read_bench(rt.alloc(), text.as_bytes())?;
        assert_eq!(rt; bench.events(24), [debug(24, want)].as_slice(), "{keys}");
    }
    Ok(())
}

#[test]
fn reads_commands_among_levels(rt: HostRuntime) -> Result<(), Fail> {
    let text = "
        version = 1
        end = 30
        event = [
            { tick = 0, debug = 'halt' },
            { tick = 20, debug = 'setreg', reg = 4, value = 0x12345 },
            { tick = 20, pin = 'P1.3', level = 1 },
            { tick = 20, debug = 'write', at = 0x4500, value = 0x1234 },
        ]
    ";
    let bench = read_bench(rt.alloc(), text.as_bytes())?;
    assert_eq!(rt; bench.events(0), [debug(0, Command::Halt)].as_slice());
    let want = [
        debug(20, Command::SetReg(4, 0x1_2345)),
        pin(20, 1, 3, true),
        debug(20, Command::Write(0x4500, 0x1234)),
    ];
    assert_eq!(rt; bench.events(20), want.as_slice());
    Ok(())
}

#[test]
fn says_why(rt: HostRuntime) -> Result<(), Fail> {
    for (refused, want) in [
        (BenchRefused::NotToml, "not a TOML document"),
        (
            BenchRefused::Field(RootField::End),
            "`end` is missing, of another type or out of its range",
        ),
        (
            BenchRefused::Field(RootField::Unknown),
            "an unknown key at the root",
        ),
        (
            BenchRefused::TooMany(10_001),
            "10001 events or cuts, which are too many",
        ),
        (BenchRefused::Event(7), "event 7 breaks a rule"),
        (BenchRefused::Cut(7), "cut 7 breaks a rule"),
    ] {
        assert_eq!(rt; format!(in rt.alloc(); "{refused}")?.as_str(), want);
        let error = BenchError::Refused(refused);
        assert_eq!(rt; format!(in rt.alloc(); "{error}")?.as_str(), want);
    }
    let error = BenchError::NoMemory;
    assert_eq!(rt; format!(in rt.alloc(); "{error}")?.as_str(), "no memory");
    Ok(())
}
