//! The whole program without its arguments, over readers and writers of std. The contracts of std
//! say nothing about failures. These tests show that the edge counts each failure, and tries no
//! call again. In one test the reader and the writer say their bytes.
use crate::edge::{StdSink, StdSource};
use crate::run_streams;
use crate::tests::row::COUNTER;
use crate::tests::{ADDED, added};
use pp_core::{Status, Words};
use std::alloc::Global;
use std::collections::VecDeque;
use std::io;
use std::io::{Read, Write};
use std::marker::Brand;
use std::sync::ledger::Blank;
use std::test::Fail;

/// How many blank lines come before the records. They make the input longer than one piece of
/// 65,536 bytes.
const BLANK_LINES: usize = 70_000;

/// The commit of a transaction that did not begin.
const STRANGE_COMMIT: &[u8] = br#"
{"step":"cmt","tx":"t2"}"#;

/// The report of the run that adds.
const REPORT: &[u8] = b"accepted steps 4 committed 1\ntx t1\nop 1 c.add(2)=none\nstate c 2\n";

/// A reader of these bytes. Its first call fails if `fails` is set.
#[derive(Drop)]
struct FaultyReader {
    bytes: VecDeque<u8>,
    fails: bool,
    calls: u64,
}

impl Read for FaultyReader {
    fn read(&mut self, buf: &mut [u8]) -> io::Result<usize> {
        self.calls = self.calls.saturating_add(1);
        if self.fails {
            self.fails = false;
            return Err(io::Error::other("a failed read"));
        }
        self.bytes.read(buf)
    }
}

/// A writer that takes three bytes a call. Its first write fails if `write_fails` is set, and its
/// first flush if `flush_fails` is set.
#[derive(Drop)]
struct FaultyWriter {
    held: Vec<u8>,
    write_fails: bool,
    flush_fails: bool,
}

impl Write for FaultyWriter {
    fn write(&mut self, buf: &[u8]) -> io::Result<usize> {
        if self.write_fails {
            self.write_fails = false;
            return Err(io::Error::other("a failed write"));
        }
        let n = buf.len().min(3);
        match self.held.extend_from_slice(&buf[..n]) {
            Ok(()) => Ok(n),
            Err(_) => Err(io::Error::other("no memory")),
        }
    }

    fn flush(&mut self) -> io::Result<()> {
        if self.flush_fails {
            self.flush_fails = false;
            return Err(io::Error::other("a failed flush"));
        }
        Ok(())
    }
}

/// The status of a call, and its reader and its writer after it.
#[derive(Drop)]
struct Ended<R: Read + Drop, W: Write + Drop> {
    status: Status,
    reader: R,
    writer: W,
}

/// Certifies the bytes of a reader, and writes the report to a writer.
fn certified<R: Read + Drop, W: Write + Drop>(
    alloc: Global,
    reader: R,
    writer: W,
) -> Result<Ended<R, W>, Fail> {
    let mut words = Words::new(alloc);
    words.push(b"certify")?;
    let mut source = StdSource::new(reader);
    let mut sink = StdSink::new(writer);
    let status = run_streams::<Brand, _, _>(alloc, &words, &mut source, &mut sink, Blank::new(1));
    Ok(Ended {
        status,
        reader: source.into_stream(),
        writer: sink.into_stream(),
    })
}

/// The bytes of these parts, one part after another.
fn queue_of(alloc: Global, parts: &[&[u8]]) -> Result<VecDeque<u8>, Fail> {
    let mut bytes = VecDeque::new(alloc);
    for part in parts {
        for byte in *part {
            bytes.push_back(*byte)?;
        }
    }
    Ok(bytes)
}

/// A reader of the bytes of these parts, one part after another.
fn reader(alloc: Global, parts: &[&[u8]], fails: bool) -> Result<FaultyReader, Fail> {
    Ok(FaultyReader {
        bytes: queue_of(alloc, parts)?,
        fails,
        calls: 0,
    })
}

/// A writer that holds nothing.
fn writer(alloc: Global, write_fails: bool, flush_fails: bool) -> FaultyWriter {
    FaultyWriter {
        held: Vec::new(alloc),
        write_fails,
        flush_fails,
    }
}

#[test]
fn no_byte_of_a_long_input_is_lost(rt: HostRuntime) -> Result<(), Fail> {
    let alloc = rt.alloc();
    let blank = vec![in alloc; b'\n'; BLANK_LINES]?;
    let input = reader(alloc, &[COUNTER, &blank, ADDED, STRANGE_COMMIT], false)?;
    let ended = certified(alloc, input, writer(alloc, false, false))?;
    assert_eq!(rt; ended.status, Status::Rejected);
    assert_eq!(rt;
        ended.writer.held.as_slice(),
        b"rejected step 5 line 70006 CMT 1\n".as_slice()
    );
    Ok(())
}

#[test]
fn streams_that_say_their_bytes_carry_a_long_input(rt: HostRuntime) -> Result<(), Fail> {
    let alloc = rt.alloc();
    let blank = vec![in alloc; b'\n'; BLANK_LINES]?;
    let input = queue_of(alloc, &[COUNTER, &blank, ADDED])?;
    let ended = certified(alloc, input, Vec::new(alloc))?;
    assert_eq!(rt; ended.status, Status::Accepted);
    assert_eq!(rt; ended.writer.as_slice(), REPORT);
    assert_eq!(rt; ended.reader.len(), 0);
    Ok(())
}

#[test]
fn a_report_is_written_whole_to_a_slow_writer(rt: HostRuntime) -> Result<(), Fail> {
    let alloc = rt.alloc();
    let input = added(alloc)?;
    let ended = certified(
        alloc,
        reader(alloc, &[&input], false)?,
        writer(alloc, false, false),
    )?;
    assert_eq!(rt; ended.status, Status::Accepted);
    assert_eq!(rt; ended.writer.held.as_slice(), REPORT);
    Ok(())
}

#[test]
fn a_failed_read_is_not_tried_again(rt: HostRuntime) -> Result<(), Fail> {
    let alloc = rt.alloc();
    let input = added(alloc)?;
    let ended = certified(
        alloc,
        reader(alloc, &[&input], true)?,
        writer(alloc, false, false),
    )?;
    assert_eq!(rt; ended.status, Status::ReadFault);
    assert_eq!(rt; ended.writer.held.len(), 0);
    assert_eq!(rt; ended.reader.calls, 1);
    Ok(())
}

#[test]
fn a_failed_write_is_not_tried_again(rt: HostRuntime) -> Result<(), Fail> {
    let alloc = rt.alloc();
    let input = added(alloc)?;
    let ended = certified(
        alloc,
        reader(alloc, &[&input], false)?,
        writer(alloc, true, false),
    )?;
    assert_eq!(rt; ended.status, Status::WriteFault);
    assert_eq!(rt; ended.writer.held.len(), 0);
    Ok(())
}

#[test]
fn a_failed_flush_is_not_tried_again(rt: HostRuntime) -> Result<(), Fail> {
    let alloc = rt.alloc();
    let input = added(alloc)?;
    let ended = certified(
        alloc,
        reader(alloc, &[&input], false)?,
        writer(alloc, false, true),
    )?;
    assert_eq!(rt; ended.status, Status::WriteFault);
    assert_eq!(rt; ended.writer.held.as_slice(), REPORT);
    Ok(())
}
