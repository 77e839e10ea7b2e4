use crate::open_files::OpenFiles;
use crate::{
    FileRefused, FileShelf, Found, Got, MemShelf, MemSink, PutFailed, Shelf, Sink, StdSink, Took,
    WriterSink, put_all, read_file,
};
use std::io;
use std::io::{ErrorKind, Read, Write};
use std::test::Fail;

const TEXT: &[u8; 12] = b"0 ON\n2 BOOT\n";

/// A file of 12 bytes is found by call 1, read by call 2, and at its end by call 3.
#[test]
fn reads_files_from_memory(rt: HostRuntime) -> Result<(), Fail> {
    let alloc = rt.alloc();
    for (failing, limit, name, want) in [
        (0, 12, "later", None),
        (4, 12, "later", None),
        (1, 12, "later", Some(FileRefused::ReadFault)),
        (2, 12, "later", Some(FileRefused::ReadFault)),
        (3, 12, "later", Some(FileRefused::ReadFault)),
        (3, 11, "later", Some(FileRefused::TooLong)),
        (0, 12, "late", Some(FileRefused::Absent)),
        (1, 12, "late", Some(FileRefused::ReadFault)),
    ] {
        let mut shelf = MemShelf::build(alloc)?;
        shelf.add("later", b"an earlier file of the name")?;
        shelf.add("other", b"")?;
        shelf.add("later", TEXT)?;
        shelf.fail(failing)?;
        match read_file(alloc, &mut shelf, name, limit) {
            Ok(bytes) => {
                assert_eq!(rt; want, None, "{name} failing {failing}");
                assert_eq!(rt; bytes.as_slice(), TEXT.as_slice());
            }
            Err(refused) => assert_eq!(rt; want, Some(refused), "{name} failing {failing}"),
        }
    }
    Ok(())
}

/// Three puts of 4 bytes into a room of 10, and then one of none.
#[test]
fn writes_to_memory(rt: HostRuntime) -> Result<(), Fail> {
    for (failing, want, bytes) in [
        (
            0,
            [Took::Count(4), Took::Count(4), Took::Count(2)],
            "0123012301",
        ),
        (
            1,
            [Took::Failed, Took::Count(4), Took::Count(4)],
            "01230123",
        ),
        (
            2,
            [Took::Count(4), Took::Failed, Took::Count(4)],
            "01230123",
        ),
        (
            3,
            [Took::Count(4), Took::Count(4), Took::Failed],
            "01230123",
        ),
    ] {
        let mut sink = MemSink::build(rt.alloc(), 10)?;
        sink.fail(failing)?;
        for took in want {
            assert_eq!(rt; sink.put(b"0123"), took, "failing {failing}");
        }
        assert_eq!(rt; sink.put(b""), Took::Count(0));
        assert_eq!(rt; sink.bytes(), bytes.as_bytes());
    }
    Ok(())
}

#[test]
fn writes_a_front_where_the_room_ends(rt: HostRuntime) -> Result<(), Fail> {
    let mut sink = MemSink::build(rt.alloc(), 10)?;
    assert_eq!(rt; put_all(&mut sink, TEXT), Err(PutFailed));
    assert_eq!(rt; sink.bytes(), b"0 ON\n2 BOO".as_slice());
    let mut sink = MemSink::build(rt.alloc(), 12)?;
    assert_eq!(rt; put_all(&mut sink, TEXT), Ok(()));
    assert_eq!(rt; sink.bytes(), TEXT.as_slice());
    Ok(())
}

/// Files that every machine of the kind has: an empty one, one that never ends, one whose first
/// byte can't be read, and a folder.
#[test]
fn reads_files_of_the_machine(rt: HostRuntime) -> Result<(), Fail> {
    let alloc = rt.alloc();
    let mut shelf = FileShelf::build(&rt, alloc)?;
    for (name, want) in [
        ("/dev/null", None),
        ("/dev/zero", Some(FileRefused::TooLong)),
        ("/proc/self/mem", Some(FileRefused::ReadFault)),
        ("/dev/none", Some(FileRefused::Absent)),
        ("/dev/null/none", Some(FileRefused::ReadFault)),
        ("/dev", Some(FileRefused::ReadFault)),
    ] {
        match read_file(alloc, &mut shelf, name, 5000) {
            Ok(bytes) => {
                assert_eq!(rt; want, None, "{name}");
                assert_eq!(rt; bytes.len(), 0);
            }
            Err(refused) => assert_eq!(rt; want, Some(refused), "{name}"),
        }
    }
    let mut buf = [1u8; 4];
    match shelf.find("/dev/zero") {
        Found::Here(id) => assert_eq!(rt; shelf.read(id, &mut buf[1..3]), Got::Count(2)),
        found => assert_eq!(rt; found, Found::Absent, "in place of an id"),
    }
    assert_eq!(rt; buf, [1, 0, 0, 1]);
    Ok(())
}

#[test]
fn writes_to_standard_output(rt: HostRuntime) -> Result<(), Fail> {
    let mut sink = StdSink::build(&rt, rt.alloc())?;
    assert_eq!(rt; sink.put(b""), Took::Count(0));
    assert_eq!(rt; put_all(&mut sink, TEXT), Ok(()));
    Ok(())
}

/// A file of a byte over and over, whose reads fail once it has given two of them.
#[derive(Drop)]
struct Broken {
    byte: u8,
    given: usize,
}

impl Read for Broken {
    fn read(&mut self, buf: &mut [u8]) -> io::Result<usize> {
        if self.given >= 2 {
            return Err(io::Error::from(ErrorKind::Other));
        }
        if buf.is_empty() {
            return Ok(0);
        }
        buf[0] = self.byte;
        self.given += 1;
        Ok(1)
    }
}

/// Each of three files is read once it is kept, behind the others. A fault is no end of a file.
#[test]
fn reads_open_files(rt: HostRuntime) -> Result<(), Fail> {
    let alloc = rt.alloc();
    let mut open = OpenFiles::new(alloc);
    for (byte, given, want, read, faults) in [
        (1, 0, Got::Count(1), 1, 0),
        (2, 2, Got::Failed, 0, 1),
        (3, 1, Got::Count(1), 3, 1),
    ] {
        let mut buf = [0u8; 2];
        match open.keep(alloc, "a", Ok(Broken { byte, given })) {
            Found::Here(id) => assert_eq!(rt; open.read(id, &mut buf), want),
            found => assert_eq!(rt; found, Found::Absent, "in place of an id"),
        }
        assert_eq!(rt; buf, [read, 0]);
        assert_eq!(rt; open.faults(), faults);
    }
    Ok(())
}

/// What an error of opening says. The kinds that aren't named are faults.
#[test]
fn refuses_files_that_are_not_opened(rt: HostRuntime) -> Result<(), Fail> {
    let mut open: OpenFiles<Broken> = OpenFiles::new(rt.alloc());
    for (kind, want, faults) in [
        (ErrorKind::NotFound, Found::Absent, 0),
        (ErrorKind::PermissionDenied, Found::Failed, 1),
        (ErrorKind::OutOfMemory, Found::NoMemory, 1),
        (ErrorKind::Interrupted, Found::Failed, 2),
        (ErrorKind::NotADirectory, Found::Failed, 3),
    ] {
        assert_eq!(rt;
            open.keep(rt.alloc(), "a", Err(io::Error::from(kind))),
            want
        );
        assert_eq!(rt; open.faults(), faults);
    }
    Ok(())
}

/// An output that takes three bytes at most, and fails once it has taken eight.
#[derive(Drop)]
struct Short {
    taken: usize,
}

impl Write for Short {
    fn write(&mut self, buf: &[u8]) -> io::Result<usize> {
        let room = 8usize.saturating_sub(self.taken);
        if room == 0 {
            return Err(io::Error::from(ErrorKind::StorageFull));
        }
        let n = buf.len().min(3).min(room);
        self.taken = self.taken.saturating_add(n);
        Ok(n)
    }

    fn flush(&mut self) -> io::Result<()> {
        Ok(())
    }
}

/// A short write is told as it is, and one that fails is no write of none.
#[test]
fn writes_pieces_as_they_are_taken(rt: HostRuntime) -> Result<(), Fail> {
    let mut sink = WriterSink::new(Short { taken: 0 });
    for (piece, want, count) in [
        ("0 ON", Took::Count(3), 0),
        ("", Took::Count(0), 0),
        ("0 ON", Took::Count(3), 0),
        ("0 ON", Took::Count(2), 0),
        ("0 ON", Took::Failed, 1),
        ("", Took::Count(0), 1),
    ] {
        assert_eq!(rt; sink.put(piece.as_bytes()), want);
        assert_eq!(rt; sink.faults(), count);
    }
    Ok(())
}
