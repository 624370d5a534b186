//! The system.

ghost use Rattle.std.specs.Prelude.{◌≡◌, false, None};
ghost use Rattle.edi_calls.specs.State.{fresh};
ghost use Rattle.edi_catalog.specs.Mounted.{IsMounted};
ghost use Rattle.edi_told.specs.Told.{WhereTold};
ghost use Rattle.edi_system.specs.State.{buffer_reference, catalog_in, drive_in, due_in, failed_in, input_in, input_reference, printer_in, printer_reference};
ghost use Rattle.edi_system.specs.State.{state_of, terminal_in, terminal_reference, IsReady};
ghost use Rattle.edi_system.specs.AsCalls.{KeepsDue};
ghost use Rattle.edi_system.specs.Ends.{Keeps};
ghost use Rattle.edi_system.specs.Catalogue.{IsClosed};
ghost use Rattle.edi_system.specs.Parts.{KeepsTold, OnlyOpenFiles, SystemBegins};

use crate::buffer::Buffer;
use crate::reading::Reading;
use edi_calls::Outside;
use edi_catalog::Catalog;
use edi_host::{Drive, Sink, Source};

/// The bytes of a page.
pub(crate) const PAGE: usize = 512;

/// The system that a program and the shell see. It shows and prints on a terminal and a printer, takes from an input, and
/// has the files of a catalogue, and a buffer for the file that is being written. All of them are lent, each by a reference
/// with a lifetime of its own, so that who made the system knows what they are afterwards. After an object has failed no
/// further call is made.
#[derive(Drop)]
pub struct System<'d, 'c, 'i, 't, 'p, 'b, D: Drive, S: Source, T: Sink, P: Sink> {
    pub(crate) catalog: Catalog<'d, 'c, D>,
    pub(crate) input: &'i mut S,
    pub(crate) terminal: &'t mut T,
    pub(crate) printer: &'p mut P,
    pub(crate) buffer: &'b mut Buffer,
    pub(crate) found: Option<Reading>,
    pub(crate) page: [u8; PAGE],
    pub(crate) due: bool,
    pub(crate) failed: Option<Outside>,
}

impl<'d, 'c, 'i, 't, 'p, 'b, D: Drive, S: Source, T: Sink, P: Sink> System<
    'd,
    'c,
    'i,
    't,
    'p,
    'b,
    D,
    S,
    T,
    P,
> {
    /// A system over these objects, with no found file and no buffer, on a terminal where no line was begun. The room of the
    /// buffer was made before, so that neither this nor a later call takes memory; what was written to it is dropped. No call
    /// of the catalogue has answered `Fault`.
    pub fn new(
        catalog: Catalog<'d, 'c, D>,
        input: &'i mut S,
        terminal: &'t mut T,
        printer: &'p mut P,
        buffer: &'b mut Buffer,
    ) -> System<'d, 'c, 'i, 't, 'p, 'b, D, S, T, P>
        requires mounted { IsMounted D.contents D.count catalog }
        ensures ready { IsReady D.contents D.count result }
        ensures catalog { catalog_in result ≡ catalog.entry }
        ensures input { (input_reference result ≡ input.entry.ghost_name) × (input_in result ≡ input.old) }
        ensures terminal { (terminal_reference result ≡ terminal.entry.ghost_name) × (terminal_in result ≡ terminal.old) }
        ensures printer { (printer_reference result ≡ printer.entry.ghost_name) × (printer_in result ≡ printer.old) }
        ensures buffer { buffer_reference result ≡ buffer.entry.ghost_name }
        ensures begins { SystemBegins result }
    {
        buffer.leave();
        System {
            catalog,
            input,
            terminal,
            printer,
            buffer,
            found: None,
            page: [0; PAGE],
            due: false,
            failed: None,
        }
    }

    /// Drops the found file and the buffer, as at the start of each program.
    pub fn begin_program(&mut self)
        requires ready { IsReady D.contents D.count self.old }
        ensures exact { WhereTold (state_of D.contents S.left T.taken P.taken self.old) (state_of D.contents S.left T.taken P.taken self.new)
            (λ before after. after ≡ fresh before) }
        ensures only { OnlyOpenFiles self.old self.new }
        ensures closes { IsClosed self.new }
        ensures due { KeepsDue T.taken self.old self.new }
        ensures told { KeepsTold D.contents S.left T.taken P.taken self.old self.new }
        ensures size { D.count (drive_in self.new) ≡ D.count (drive_in self.old) }
        ensures ready { IsReady D.contents D.count self.new }
        ensures keeps { Keeps D.faults S.faults T.faults P.faults false self.old self.new }
    {
        self.found = None;
        self.buffer.leave();
    }

    /// The object that has failed.
    pub fn failed(&self) -> Option<Outside>
        ensures exact { result ≡ failed_in self.now }
    {
        self.failed
    }

    /// Whether bytes were shown since the system was made and the last of them was not a line feed. It may be asked after a
    /// failure too.
    pub fn due(&self) -> bool
        ensures exact { result ≡ due_in self.now }
    {
        self.due
    }
}
