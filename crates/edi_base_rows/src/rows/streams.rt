//! Sources and sinks over readers and writers, and in memory.

use crate::rows::outside::filled;
use edi_host::{
    HostSink, HostSource, MemorySink, MemorySource, Next, PRINTER_FILE, PutEnd, Sink, Source,
    SteadySink, SteadySource,
};
use std::alloc::Global;
use std::fs::File;
use std::io::{ErrorKind, Read, Write};
use std::process::Abort;
use std::{fs, io};

// Gives two bytes, is interrupted, fails, gives one more byte, ends, and fails from then on.
#[derive(Drop)]
struct Stutter {
    calls: u8,
}

impl Read for Stutter {
    fn read(&mut self, buf: &mut [u8]) -> io::Result<usize> {
        self.calls = self.calls.saturating_add(1);
        match self.calls {
            1 if buf.len() >= 2 => {
                buf[0] = 65;
                buf[1] = 66;
                Ok(2)
            }
            2 => Err(io::Error::from(ErrorKind::Interrupted)),
            4 if !buf.is_empty() => {
                buf[0] = 67;
                Ok(1)
            }
            5 => Ok(0),
            _ => Err(io::Error::from(ErrorKind::Other)),
        }
    }
}

// Takes at most two bytes a call, and four in all. Its flush can fail.
#[derive(Drop)]
struct Narrow {
    taken: usize,
    flushes: bool,
}

impl Write for Narrow {
    fn write(&mut self, buf: &[u8]) -> io::Result<usize> {
        let count = buf.len().min(2).min(4 - self.taken.min(4));
        self.taken = self.taken.saturating_add(count);
        Ok(count)
    }

    fn flush(&mut self) -> io::Result<()> {
        if self.flushes {
            Ok(())
        } else {
            Err(io::Error::from(ErrorKind::Other))
        }
    }
}

// The source gives these in order.
fn gives<S: Source>(rt: &impl Abort, source: &mut S, expected: &[Next]) {
    for (row, next) in expected.iter().enumerate() {
        assert!(rt; source.next() == *next, "row {row}");
    }
}

/// A piece, how many of its bytes are taken, and how that ends.
type PutRow = (&'static str, usize, PutEnd);

// The sink takes of each piece so many bytes.
fn takes<T: Sink>(rt: &impl Abort, sink: &mut T, puts: &[PutRow]) {
    for (piece, taken, end) in puts {
        let put = sink.put(piece.as_bytes());
        assert!(rt; put.taken == *taken && put.end == *end, "{piece}");
    }
}

// How often a source over the file gives a 3, up to 5,001 times, and what it gives then.
fn threes_of(rt: &impl Abort, host: &HostRuntime, name: &str) -> (u32, Next) {
    let mut source = HostSource::new(File::open(host, name).expect(rt, "file"));
    for count in 0..5_001 {
        let next = source.next();
        if next != Next::Byte(3) {
            return (count, next);
        }
    }
    (5_001, Next::Byte(3))
}

fn have_threes(rt: &impl Abort, host: &HostRuntime, table: &[(&str, u32, Next)]) {
    for (name, count, next) in table {
        assert!(rt; threes_of(rt, host, name) == (*count, *next), "{name}");
    }
}

// Makes a file of so many threes, an empty file, and a folder.
fn lay_out(rt: &impl Abort, host: &HostRuntime, count: usize) {
    let bytes = filled(host.alloc(), 3, count).expect(rt, "memory");
    assert!(rt; fs::write(host, "bytes", bytes.as_slice()).is_ok());
    assert!(rt; fs::write(host, "empty", "").is_ok());
    assert!(rt; fs::create_dir(host, "folder of bytes").is_ok());
}

/// Files, how often each gives a 3, and what it gives then.
const SOURCES: [(&str, u32, Next); 3] = [
    ("bytes", 5_000, Next::End),
    ("empty", 0, Next::End),
    ("folder of bytes", 0, Next::Failed),
];

// A file of more bytes than one read gives, an empty file, and a folder.
#[test]
fn source_over_a_file(rt: HostRuntime) {
    lay_out(&rt, &rt, 5_000);
    have_threes(&rt, &rt, &SOURCES);
}

// The bytes before a fault come first, a call that is interrupted is no fault, and the end stays.
#[test]
fn source_over_a_reader_that_fails(rt: HostRuntime) {
    let mut source = HostSource::new(Stutter { calls: 0 });
    let expected = [
        Next::Byte(65),
        Next::Byte(66),
        Next::Failed,
        Next::Byte(67),
        Next::End,
        Next::End,
    ];
    gives(&rt, &mut source, &expected);
}

fn steady_source(rt: &impl Abort, alloc: Global) {
    let mut source = SteadySource::new(alloc, b"ab").expect(rt, "memory");
    gives(rt, &mut source, &[Next::Byte(97)]);
    assert!(rt; source.bytes() == b"b".as_slice());
}

// Calls 2 and 6 are to fail; at the sixth nothing is left, so that it is the end.
#[test]
fn sources_in_memory(rt: HostRuntime) {
    let mut source = MemorySource::new(rt.alloc(), b"abc", &[2, 6]).expect(&rt, "memory");
    assert!(rt; source.bytes() == b"abc".as_slice());
    let expected = [
        Next::Byte(97),
        Next::Failed,
        Next::Byte(98),
        Next::Byte(99),
        Next::End,
        Next::End,
    ];
    gives(&rt, &mut source, &expected);
    steady_source(&rt, rt.alloc());
}

// The sink takes so many bytes of each piece, and the printer's file has this text then.
fn prints<T: Sink>(
    rt: &impl Abort,
    host: &HostRuntime,
    sink: &mut T,
    pieces: &[PutRow],
    text: &str,
) {
    takes(rt, sink, pieces);
    let found = fs::read(host, PRINTER_FILE).expect(rt, "file");
    assert!(rt; found.as_slice() == text.as_bytes(), "{text}");
}

const PIECES: [PutRow; 3] = [
    ("abc", 3, PutEnd::Ok),
    ("", 0, PutEnd::Ok),
    ("de", 2, PutEnd::Ok),
];

// The printer's file is made anew.
#[test]
fn sink_over_the_printer(rt: HostRuntime) {
    assert!(rt; fs::write(&rt, PRINTER_FILE, "old text").is_ok());
    let mut sink = HostSink::printer(&rt);
    prints(&rt, &rt, &mut sink, &[], "");
    prints(&rt, &rt, &mut sink, &PIECES, "abcde");
}

const NOTHING: [PutRow; 1] = [("abc", 0, PutEnd::Failed)];

// A printer that cannot be made, and a full device.
#[test]
fn sinks_that_fail(rt: HostRuntime) {
    let _ = fs::remove_file(&rt, PRINTER_FILE);
    assert!(rt; fs::create_dir(&rt, PRINTER_FILE).is_ok());
    takes(&rt, &mut HostSink::printer(&rt), &NOTHING);
    let full = File::create(&rt, "/dev/full").expect(&rt, "file");
    takes(&rt, &mut HostSink::new(full), &NOTHING);
    assert!(rt; fs::remove_dir(&rt, PRINTER_FILE).is_ok());
}

fn narrow_takes(rt: &impl Abort, flushes: bool, puts: &[PutRow]) {
    let mut sink = HostSink::new(Narrow { taken: 0, flushes });
    takes(rt, &mut sink, puts);
}

// A writer that takes little and then nothing, and one that cannot flush.
#[test]
fn sinks_over_writers(rt: HostRuntime) {
    let puts = [("abc", 3, PutEnd::Ok), ("de", 1, PutEnd::Failed)];
    narrow_takes(&rt, true, &puts);
    narrow_takes(&rt, false, &[("abc", 3, PutEnd::Failed)]);
}

fn steady_sink(rt: &impl Abort, alloc: Global) {
    let mut sink = SteadySink::new(alloc, 3).expect(rt, "memory");
    let puts = [
        ("ab", 2, PutEnd::Ok),
        ("cd", 2, PutEnd::Ok),
        ("e", 1, PutEnd::Ok),
    ];
    takes(rt, &mut sink, &puts);
    assert!(rt; sink.bytes() == b"abc".as_slice());
}

// Call 2 is to fail, and the third piece goes beyond the capacity.
#[test]
fn sinks_in_memory(rt: HostRuntime) {
    let mut sink = MemorySink::new(rt.alloc(), 5, &[2]).expect(&rt, "memory");
    let puts = [
        ("abc", 3, PutEnd::Ok),
        ("d", 0, PutEnd::Failed),
        ("efgh", 2, PutEnd::Failed),
        ("", 0, PutEnd::Ok),
        ("i", 0, PutEnd::Failed),
    ];
    takes(&rt, &mut sink, &puts);
    assert!(rt; sink.bytes() == b"abcef".as_slice());
    steady_sink(&rt, rt.alloc());
}
