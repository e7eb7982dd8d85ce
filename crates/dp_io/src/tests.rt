ghost use Rattle.std.specs.Prelude.{◌≡◌, ◌<◌, [], length, None, string_bytes};
ghost use Rattle.dp_io.specs.MemShelf.{bytes_of};

use super::*;
use crate::retrying::read_retrying;
use std::alloc::Global;
use std::io::{ErrorKind, Read, Write};
use std::test::Fail;
use std::{fs, io};

mod lines;

/// A shelf in memory with one file, "data", of the three bytes "xyz".
fn shelf_with_data(alloc: Global, piece: usize, fails: Vec<u64>) -> Result<MemShelf, Fail>
    requires { 0 < piece }
{
    let mut shelf = MemShelf::new(alloc, piece, fails);
    shelf.add(
        String::from_str(alloc, "data")?,
        Vec::from_slice(alloc, b"xyz")?,
    )?;
    Ok(shelf)
}

#[test]
fn reads_of_one_byte_and_listed_calls_that_fail(rt: HostRuntime) -> Result<(), Fail> {
    let alloc = rt.alloc();
    let mut shelf = shelf_with_data(alloc, 1, vec![in alloc; 2, 4]?)?;
    let slot = shelf.open(alloc, "data")?;
    let mut buf = [0u8; 8];
    assert!(rt; shelf.read(slot, &mut buf).is_err());
    assert_eq!(rt; shelf.read(slot, &mut buf)?, 1);
    assert_eq!(rt; buf[0], b'x');
    assert!(rt; shelf.read(slot, &mut buf).is_err());
    assert_eq!(rt; shelf.read(slot, &mut buf)?, 1);
    assert_eq!(rt; buf[0], b'y');
    assert_eq!(rt; shelf.read(slot, &mut buf)?, 1);
    assert_eq!(rt; buf[0], b'z');
    assert_eq!(rt; shelf.read(slot, &mut buf)?, 0);
    Ok(())
}

#[test]
fn unknown_name_is_a_call_and_fails_without_a_fault(rt: HostRuntime) -> Result<(), Fail> {
    let alloc = rt.alloc();
    let mut shelf = shelf_with_data(alloc, 8, vec![in alloc; 2]?)?;
    assert!(rt; matches!(shelf.open(alloc, "other"), Err(OpenFault::Failed)));
    assert_eq!(rt; shelf.failed(), 0);
    assert!(rt; matches!(shelf.open(alloc, "data"), Err(OpenFault::Failed)));
    assert_eq!(rt; shelf.failed(), 1);
    assert!(rt; shelf.open(alloc, "data").is_ok());
    Ok(())
}

/// The length of what `read_whole` gives of the file "data".
fn whole_length(
    alloc: Global,
    fails: Vec<u64>,
    limit: u64,
) -> Result<Result<usize, WholeFault>, Fail> {
    let mut shelf = shelf_with_data(alloc, 2, fails)?;
    let slot = shelf.open(alloc, "data")?;
    Ok(read_whole(alloc, &mut shelf, slot, limit).map(|bytes| bytes.len()))
}

#[test]
fn whole_file_up_to_the_limit(rt: HostRuntime) -> Result<(), Fail> {
    let alloc = rt.alloc();
    let table = [
        (3, 9, Ok(3)),
        (2, 9, Err(WholeFault::TooLong)),
        (3, 3, Err(WholeFault::Failed)),
    ];
    for (limit, fail, wanted) in table {
        assert_eq!(rt;
            whole_length(alloc, vec![in alloc; fail]?, limit)?,
            wanted,
            "limit {limit}"
        );
    }
    Ok(())
}

#[test]
fn write_that_fails_leaves_a_front(rt: HostRuntime) -> Result<(), Fail> {
    let alloc = rt.alloc();
    let mut sink = MemSink::new(alloc, 2, vec![in alloc; 2]?, 5)?;
    assert!(rt; write_all(&mut sink, b"abcd").is_err());
    assert_eq!(rt; sink.held(), b"ab".as_slice());
    write_all(&mut sink, b"cde")?;
    assert_eq!(rt; sink.held(), b"abcde".as_slice());
    assert!(rt; write_all(&mut sink, b"f").is_err());
    assert!(rt; write_all(&mut sink, b"").is_ok());
    assert_eq!(rt; sink.held(), b"abcde".as_slice());
    Ok(())
}

#[test]
fn file_shelf_reads_a_file(rt: HostRuntime) -> Result<(), Fail> {
    let alloc = rt.alloc();
    fs::write(&rt, "three_bytes", "xyz")?;
    let mut shelf = FileShelf::new(rt, alloc);
    assert!(rt; matches!(shelf.open(alloc, "no_such_file"), Err(OpenFault::Failed)));
    let slot = shelf.open(alloc, "three_bytes")?;
    let bytes = read_whole(alloc, &mut shelf, slot, 3)?;
    assert_eq!(rt; bytes.as_slice(), b"xyz".as_slice());
    fs::remove_file(&rt, "three_bytes")?;
    Ok(())
}

#[test]
fn standard_streams_take_a_line(rt: HostRuntime) -> Result<(), Fail> {
    write_all(&mut StdSink::out(&rt), b"written to the standard output\n")?;
    write_all(&mut StdSink::err(&rt), b"written to the standard error\n")?;
    Ok(())
}

/// A reader that gives the byte `x`, and a writer that takes all, after so many calls that a signal interrupts.
#[derive(Drop)]
struct Interrupted {
    calls: u32,
}

impl Interrupted {
    /// Counts a call.
    fn count(&mut self) -> io::Result<()> {
        if self.calls > 0 {
            self.calls -= 1;
            return Err(io::Error::from(ErrorKind::Interrupted));
        }
        Ok(())
    }
}

impl Read for Interrupted {
    fn read(&mut self, buf: &mut [u8]) -> io::Result<usize> {
        self.count()?;
        let Some(first) = buf.first_mut() else {
            return Ok(0);
        };
        *first = b'x';
        Ok(1)
    }
}

impl Write for Interrupted {
    fn write(&mut self, buf: &[u8]) -> io::Result<usize> {
        self.count()?;
        Ok(buf.len())
    }

    fn flush(&mut self) -> io::Result<()> {
        Ok(())
    }
}

#[test]
fn interrupted_calls_are_tried_again_a_thousand_times(rt: HostRuntime) -> Result<(), Fail> {
    for (calls, succeeds) in [(0, true), (1_000, true), (1_001, false)] {
        let mut buf = [0u8; 2];
        let read = read_retrying(&mut Interrupted { calls }, &mut buf);
        assert_eq!(rt; read.is_ok(), succeeds, "a read after {calls}");
        assert_eq!(rt; buf[0] == b'x', succeeds);
        let mut sink = StdSink::new(Interrupted { calls });
        assert_eq!(rt;
            write_all(&mut sink, b"ab").is_ok(),
            succeeds,
            "a write after {calls}"
        );
    }
    Ok(())
}
