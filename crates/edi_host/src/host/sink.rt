//! The adapter over a writer, as standard output or a file.

ghost use Rattle.std.specs.Prelude.{◌≡◌, ◌≤◌, length, true, false};
ghost use Rattle.edi_host.specs.Plan.{faults_after};
ghost use Rattle.edi_host.specs.Streams.{put_fault};

use crate::host::transfer::write_all;
use crate::sink::{Put, PutEnd, Sink};
use edi_told::one_more;
use std::fs::File;
use std::io::Write;
use std::marker::Model;
use std::rt;

/// The name of the file that stands for the printer, in the current folder.
pub const PRINTER_FILE: &str = "edison.printer";

/// A sink over a writer. Where there is no writer, every put fails.
#[derive(Drop)]
pub struct HostSink<W: Write + Drop> {
    inner: Option<W>,
    faults: u64,
}

impl<W: Write + Drop> Model for HostSink<W> {
    ghost use Rattle.std.specs.Prelude.{is_some};
    ghost use Rattle.edi_host.specs.Forms.{UntoldSink};

    ghost Value = { UntoldSink };

    ghost view = { λ s. record { writes = is_some s.inner; faults = s.faults } };
}

impl<W: Write + Drop> HostSink<W> {
    /// A sink over this writer.
    pub fn new(inner: W) -> Self
        ensures made { result ≡ record { writes = true; faults = 0 } }
    {
        HostSink {
            inner: Some(inner),
            faults: 0,
        }
    }

    /// A sink over the file `edison.printer`, which is made anew and empty. Where it cannot be made, every
    /// put fails.
    pub fn printer<R: rt::Files<File = W>>(rt: &R) -> Self
        ensures no_faults { result.faults ≡ 0 }
    {
        HostSink {
            inner: File::create(rt, PRINTER_FILE).ok(),
            faults: 0,
        }
    }
}

impl<W: Write + Drop> Sink for HostSink<W> {
    ghost use Rattle.std.specs.Prelude.{None};

    ghost taken = { λ s. None };

    ghost faults = { λ s. s.faults };

    fn put(&mut self, piece: &[u8]) -> Put
        ensures within { result.taken ≤ length piece.now }
        ensures whole { result.end ≡ PutEnd.Ok → result.taken ≡ length piece.now }
        ensures no_writer { self.old.writes ≡ false → result ≡ record { taken = 0; end = PutEnd.Failed } }
        ensures writes { self.new.writes ≡ self.old.writes }
        ensures faults { self.new.faults ≡ faults_after (put_fault result) self.old.faults }
    {
        let put = match &mut self.inner {
            Some(inner) => write_all(inner, piece),
            None => Put {
                taken: 0,
                end: PutEnd::Failed,
            },
        };
        if put.end == PutEnd::Failed {
            self.faults = one_more(self.faults);
        }
        put
    }
}
