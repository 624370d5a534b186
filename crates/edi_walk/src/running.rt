//! Evaluation to the end.

ghost use Rattle.std.specs.Prelude.{◌≡◌, [], IfSome, None, OnOk};
ghost use Rattle.edi_told.specs.Told.{WhereTold};
ghost use Rattle.edi_calls.specs.Ends.{CallsLast};
ghost use Rattle.edi_walk.specs.Ends.{StopBlames};
ghost use Rattle.edi_walk.specs.Frames.{asks};
ghost use Rattle.edi_walk.specs.Machine.{frame_of, IsSameProcess};
ghost use Rattle.edi_walk.specs.Runs.{Handles, Runs};

use crate::evaluation::Evaluation;
use crate::frames::Frame;
use crate::stop::Stop;
use edi_calls::Calls;

/// The number and the line of a call of the system, where this frame is one.
fn asked(frame: &Frame) -> Option<(u8, u16)>
    ensures some { IfSome result (λ call. frame_of frame.now ≡ asks call.0 call.1) }
{
    match frame {
        Frame::Asks(number, line) => Some((*number, *line)),
        _ => None,
    }
}

impl<'u> Evaluation<'u> {
    /// Does a frame that was taken from the list, a call of the system or another.
    fn advance<C: Calls>(&mut self, calls: &mut C, frame: Frame<'u>) -> Result<(), Stop>
        requires working { C.failed calls.old None }
        ensures exact { WhereTold (C.state calls.old) (C.state calls.new) (λ s t. Handles (frame_of frame.entry) result self.old self.new s t) }
        ensures same { IsSameProcess self.old self.new }
        ensures blame { StopBlames result (C.failed calls.new) (C.faults calls.old) (C.faults calls.new) }
        ensures lasts { CallsLast C.faults C.references C.leads calls.old calls.new }
    {
        match asked(&frame) {
            Some((number, line)) => self.ask(calls, number, line),
            None => self.resume(frame),
        }
    }

    /// Does what is left to do, to its end, with the calls of the system.
    pub fn run<C: Calls>(&mut self, calls: &mut C) -> Result<(), Stop>
        requires working { C.failed calls.old None }
        ensures exact { WhereTold (C.state calls.old) (C.state calls.new) (λ s t. Runs result self.old self.new s t) }
        ensures free { OnOk result (self.new.frames.items ≡ []) }
        ensures same { IsSameProcess self.old self.new }
        ensures blame { StopBlames result (C.failed calls.new) (C.faults calls.old) (C.faults calls.new) }
        ensures lasts { CallsLast C.faults C.references C.leads calls.old calls.new }
    {
        for _step in 0..u64::MAX {
            let Some(frame) = self.frames.pop() else {
                return Ok(());
            };
            match self.advance(calls, frame) {
                Ok(()) => {}
                Err(stop) => return Err(stop),
            }
        }
        Err(Stop::NoMemory)
    }
}
