ghost use Rattle.std.specs.Prelude.{◌≡◌, ◌≤◌, length};
ghost use Rattle.debug_port.specs.Commands.{IsAnswer, IsCommand};
ghost use Rattle.trace_print.specs.Lines.{IsPrintable};

use crate::{TraceItem, trace_line};
use arrayvec::ArrayVec;
use debug_port::{Answer, Command, Dump};
use port_unit::Level;
use std::process::Abort;

/// Compares the line of an item with its text.
fn shows(rt: &impl Abort, tick: u32, item: TraceItem, text: &str)
    requires { IsPrintable item }
{
    let line = trace_line(tick, &item);
    assert_eq!(rt; line.as_slice(), text.as_bytes(), "not {text}");
}

#[test]
fn each_item_has_its_text(rt: HostRuntime) {
    let mut first = [Level::Open; 8];
    first[0] = Level::Low;
    let mut second = [Level::Low; 8];
    second[3] = Level::High;

    shows(&rt, 0, TraceItem::On, "0 ON\n");
    shows(&rt, 2, TraceItem::Boot(0, 0, 0), "2 BOOT 00 00000 00000\n");
    shows(
        &rt,
        9,
        TraceItem::Boot(0xC0, 0x4800, 0x5000),
        "9 BOOT C0 04800 05000\n",
    );
    shows(
        &rt,
        3,
        TraceItem::Boot(0x5E, 0x12345, 0xFABCD),
        "3 BOOT 5E 12345 FABCD\n",
    );
    shows(&rt, 3, TraceItem::Reset(0x06), "3 RST 06\n");
    shows(&rt, 32770, TraceItem::Reset(0x2E), "32770 RST 2E\n");
    shows(&rt, 2, TraceItem::Dead, "2 DEAD\n");
    shows(&rt, 7, TraceItem::Pin(1, first), "7 PIN P1 zzzzzzz0\n");
    shows(&rt, 24, TraceItem::Pin(2, second), "24 PIN P2 00001000\n");
    shows(&rt, 7, TraceItem::Erase, "7 ERASE\n");
    shows(&rt, 7, TraceItem::Cut, "7 CUT\n");
    shows(&rt, 1000, TraceItem::End, "1000 END\n");
    shows(&rt, 4_294_967_295, TraceItem::End, "4294967295 END\n");
}

/// The answer that has these bytes.
fn bytes(list: &[u8]) -> Answer
    requires { length list.now ≤ 32 }
    ensures { IsAnswer result }
{
    let mut bytes = ArrayVec::new();
    bytes.try_extend_from_slice(list).unwrap();
    Answer::Bytes(Dump::new(bytes))
}

/// Compares the line of a command in tick 12 with its text.
fn tells(rt: &impl Abort, command: Command, answer: Answer, text: &str)
    requires command { IsCommand command }
    requires answer { IsAnswer answer }
{
    shows(rt, 12, TraceItem::Debug(command, answer), text);
}

#[test]
fn commands_on_memory_have_their_texts(rt: HostRuntime) {
    tells(
        &rt,
        Command::Read(0x4900),
        Answer::Value(0x3FFF),
        "12 DBG read 04900 3FFF\n",
    );
    tells(
        &rt,
        Command::Read(0x5A3),
        Answer::Value(0x10),
        "12 DBG read 005A3 0010\n",
    );
    tells(
        &rt,
        Command::Write(0x4500, 0x1234),
        Answer::Accepted,
        "12 DBG write 04500 ok\n",
    );
    tells(
        &rt,
        Command::Dump(0x4400, 2),
        bytes(&[0x92, 0xC3]),
        "12 DBG dump 04400 92C3\n",
    );
    tells(
        &rt,
        Command::Dump(0xFFFFF, 1),
        bytes(&[0x0F]),
        "12 DBG dump FFFFF 0F\n",
    );
}

#[test]
fn commands_to_the_processor_have_their_texts(rt: HostRuntime) {
    tells(
        &rt,
        Command::Reg(4),
        Answer::Register(0x12345),
        "12 DBG reg 4 12345\n",
    );
    tells(
        &rt,
        Command::Reg(15),
        Answer::Register(0xA),
        "12 DBG reg 15 0000A\n",
    );
    tells(
        &rt,
        Command::SetReg(4, 0x12345),
        Answer::Accepted,
        "12 DBG setreg 4 ok\n",
    );
    tells(&rt, Command::Go, Answer::Accepted, "12 DBG go ok\n");
    tells(&rt, Command::Reset, Answer::Accepted, "12 DBG reset ok\n");
    tells(&rt, Command::Erase, Answer::Accepted, "12 DBG erase ok\n");
    shows(&rt, 12, TraceItem::Halt(0x4400), "12 HALT 04400\n");
    shows(&rt, 12, TraceItem::Halt(0xFABCE), "12 HALT FABCE\n");
}

#[test]
fn a_refusal_stands_in_place_of_the_answer(rt: HostRuntime) {
    tells(&rt, Command::Halt, Answer::Booting, "12 DBG halt booting\n");
    tells(&rt, Command::Halt, Answer::Closed, "12 DBG halt closed\n");
    tells(
        &rt,
        Command::Read(0x4400),
        Answer::Booting,
        "12 DBG read 04400 booting\n",
    );
    tells(
        &rt,
        Command::Dump(0x4400, 32),
        Answer::Closed,
        "12 DBG dump 04400 closed\n",
    );
    tells(
        &rt,
        Command::Reg(4),
        Answer::Running,
        "12 DBG reg 4 running\n",
    );
    tells(
        &rt,
        Command::SetReg(10, 0xFFFFF),
        Answer::Running,
        "12 DBG setreg 10 running\n",
    );
}

/// No line is longer.
#[test]
fn the_longest_dump_has_its_text(rt: HostRuntime) {
    let list = bytes(&[
        0x00, 0x01, 0x12, 0x23, 0x34, 0x45, 0x56, 0x67, 0x78, 0x89, 0x9A, 0xAB, 0xBC, 0xCD, 0xDE,
        0xEF, 0xFF, 0xFE, 0xED, 0xDC, 0xCB, 0xBA, 0xA9, 0x98, 0x87, 0x76, 0x65, 0x54, 0x43, 0x32,
        0x21, 0x10,
    ]);
    let text =
        "4294967295 DBG dump 04401 000112233445566778899AABBCCDDEEFFFFEEDDCCBBAA9988776655443322110\n";
    shows(
        &rt,
        4_294_967_295,
        TraceItem::Debug(Command::Dump(0x4401, 32), list),
        text,
    );
}

/// A tick keeps its items in a list of fixed room, which is emptied before the next.
#[test]
fn items_go_through_a_list(rt: HostRuntime) {
    let mut items: ArrayVec<TraceItem, 32> = ArrayVec::new();
    items.push(TraceItem::Dead);
    items.clear();
    items.push(TraceItem::On);
    items.push(TraceItem::End);
    assert_eq!(rt;
        items.as_slice(),
        [TraceItem::On, TraceItem::End].as_slice()
    );
    for item in items.as_slice() {
        assert_ne!(rt; *item, TraceItem::Dead, "it was cleared");
    }
}
