//! The adapter over the host's files.

ghost use Rattle.std.specs.Prelude.{◌≡◌, ◌≤◌, vec_len};
ghost use Rattle.edi_told.specs.Faults.{CountRose};
ghost use Rattle.edi_host.specs.Files.{FetchEmpties, fetch_fault, keep_fault};
ghost use Rattle.edi_host.specs.Plan.{faults_after};

use crate::files::{FetchEnd, Files, KeepEnd};
use crate::host::transfer::{read_up_to, write_all};
use crate::sink::PutEnd;
use edi_told::one_more;
use std::alloc::Global;
use std::fs::{File, OpenFile};
use std::io::ErrorKind;
use std::marker::Model;
use std::rt;

/// The host's files. A name is a path, below the current folder where it does not begin with a slash.
#[derive(Drop)]
pub struct HostFiles<'a, R: rt::Files> {
    rt: &'a R,
    faults: u64,
}

impl<'a, R: rt::Files> Model for HostFiles<'a, R> {
    ghost use Rattle.edi_host.specs.Forms.{Untold};

    ghost Value = { Untold };

    ghost view = { λ f. record { faults = f.faults } };
}

// The end of an open that did not succeed.
fn refusal(kind: ErrorKind) -> FetchEnd {
    match kind {
        ErrorKind::NotFound => FetchEnd::Absent,
        ErrorKind::OutOfMemory => FetchEnd::NoMemory,
        _ => FetchEnd::Failed,
    }
}

// Reads a file that need not be there. A folder can be opened, and is no file.
fn fetch_file<R: rt::Files>(rt: &R, name: &str, limit: usize, into: &mut Vec<u8>) -> FetchEnd
    requires { vec_len into.old ≡ 0 }
    ensures bounded { vec_len into.new ≤ limit }
{
    let mut file = match File::open(rt, name) {
        Ok(file) => file,
        Err(e) => return refusal(e.kind()),
    };
    match file.metadata() {
        Ok(about) if !about.is_dir() => read_up_to(&mut file, limit, into),
        _ => FetchEnd::Failed,
    }
}

// Makes the file anew with these bytes.
fn keep_file<R: rt::Files>(rt: &R, name: &str, bytes: &[u8]) -> KeepEnd {
    let mut file = match File::create(rt, name) {
        Ok(file) => file,
        Err(e) if e.kind() == ErrorKind::OutOfMemory => return KeepEnd::NoMemory,
        Err(_) => return KeepEnd::Failed,
    };
    match write_all(&mut file, bytes).end {
        PutEnd::Ok => KeepEnd::Ok,
        PutEnd::Failed => KeepEnd::Failed,
    }
}

impl<'a, R: rt::Files> HostFiles<'a, R> {
    /// The files of the host that `rt` stands for.
    pub fn new(rt: &'a R) -> Self
        ensures no_faults { result.faults ≡ 0 }
    {
        HostFiles { rt, faults: 0 }
    }
}

impl<'a, R: rt::Files> Files for HostFiles<'a, R> {
    ghost use Rattle.std.specs.Prelude.{None};

    ghost contents = { λ s. None };

    ghost faults = { λ s. s.faults };

    /// `Absent` comes only where the host answers that there is no such file. A folder, and a name below a
    /// file, are `Failed`.
    fn fetch(&mut self, alloc: Global, name: &str, limit: usize, into: &mut Vec<u8>) -> FetchEnd
        ensures empties { FetchEmpties result into.new.items }
        ensures bounded { vec_len into.new ≤ limit }
        ensures later { self.old.faults ≤ self.new.faults }
        ensures cause { result ≡ FetchEnd.Failed → CountRose self.old.faults self.new.faults }
        ensures faults { self.new.faults ≡ faults_after (fetch_fault result) self.old.faults }
    {
        let _ = alloc;
        into.clear();
        let end = fetch_file(self.rt, name, limit, into);
        if end != FetchEnd::Ok {
            into.clear();
        }
        if end == FetchEnd::Failed {
            self.faults = one_more(self.faults);
        }
        end
    }

    fn keep(&mut self, alloc: Global, name: &str, bytes: &[u8]) -> KeepEnd
        ensures later { self.old.faults ≤ self.new.faults }
        ensures cause { result ≡ KeepEnd.Failed → CountRose self.old.faults self.new.faults }
        ensures faults { self.new.faults ≡ faults_after (keep_fault result) self.old.faults }
    {
        let _ = alloc;
        let end = keep_file(self.rt, name, bytes);
        if end == KeepEnd::Failed {
            self.faults = one_more(self.faults);
        }
        end
    }
}
