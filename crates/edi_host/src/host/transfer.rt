//! Reading and writing through to the end.

ghost use Rattle.std.specs.Prelude.{◌≡◌, ◌<◌, ◌≤◌, IfOk, length, vec_len};

use crate::files::FetchEnd;
use crate::sink::{Put, PutEnd};
use std::io;
use std::io::{ErrorKind, Read, Write};

/// One read, made again where a signal interrupts it.
pub fn read_some<F: Read>(from: &mut F, into: &mut [u8]) -> io::Result<usize>
    ensures within { IfOk result (λ count. count ≤ length into.new) }
{
    for _ in 0..u64::MAX {
        match from.read(into) {
            Err(e) if e.kind() == ErrorKind::Interrupted => {}
            outcome => return outcome,
        }
    }
    Err(io::Error::from(ErrorKind::Interrupted))
}

/// Fills the whole buffer. An end before that is an error.
pub fn read_full<F: Read>(from: &mut F, into: &mut [u8]) -> io::Result<()> {
    let mut filled = 0;
    while filled < into.len() {
        match read_some(from, &mut into[filled..])? {
            0 => return Err(io::Error::from(ErrorKind::UnexpectedEof)),
            count => filled += count,
        }
    }
    Ok(())
}

/// Adds what the reader has to `into`, up to `limit` bytes in all. `into` is empty at the start.
pub fn read_up_to<F: Read>(from: &mut F, limit: usize, into: &mut Vec<u8>) -> FetchEnd
    requires { vec_len into.old ≡ 0 }
    ensures bounded { vec_len into.new ≤ limit }
{
    let mut buffer = [0u8; 4096];
    for _ in 0..u64::MAX {
        let room = buffer.len().min(limit - into.len());
        if room == 0 {
            return FetchEnd::Ok;
        }
        let Ok(count) = read_some(from, &mut buffer[..room]) else {
            return FetchEnd::Failed;
        };
        if count == 0 {
            return FetchEnd::Ok;
        }
        if into.extend_from_slice(&buffer[..count]).is_err() {
            return FetchEnd::NoMemory;
        }
    }
    FetchEnd::Failed
}

/// One write, made again where a signal interrupts it. A write that takes nothing is an error.
fn write_some<W: Write>(to: &mut W, piece: &[u8]) -> io::Result<usize>
    ensures within { IfOk result (λ count. count ≤ length piece.now) }
    ensures some { IfOk result (λ count. 0 < count) }
{
    for _ in 0..u64::MAX {
        match to.write(piece) {
            Ok(0) => return Err(io::Error::from(ErrorKind::WriteZero)),
            Err(e) if e.kind() == ErrorKind::Interrupted => {}
            outcome => return outcome,
        }
    }
    Err(io::Error::from(ErrorKind::Interrupted))
}

/// Writes the whole piece and flushes it, or says how much was written.
pub fn write_all<W: Write>(to: &mut W, piece: &[u8]) -> Put
    ensures within { result.taken ≤ length piece.now }
    ensures whole { result.end ≡ PutEnd.Ok → result.taken ≡ length piece.now }
{
    let mut taken = 0;
    while taken < piece.len() {
        let Ok(count) = write_some(to, &piece[taken..]) else {
            return Put {
                taken,
                end: PutEnd::Failed,
            };
        };
        taken += count;
    }
    let end = if to.flush().is_ok() {
        PutEnd::Ok
    } else {
        PutEnd::Failed
    };
    Put { taken, end }
}
