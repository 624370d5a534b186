//! Calls of which nothing is heard any more.

ghost use Rattle.std.specs.Prelude.{◌≡◌};

use edi_calls::{CallEnd, Calls};

/// The calls of another object, which is lent. It has a type of its own so that the kernel's loop is compiled once more, for runs whose stints are
/// counted: where two loops call one copy of it, it is inlined in neither.
#[derive(Drop)]
pub(crate) struct Unheard<'c, C> {
    pub(crate) calls: &'c mut C,
}

impl<'c, C: Calls> Unheard<'c, C> {
    /// The calls of this object.
    pub(crate) fn new(calls: &'c mut C) -> Unheard<'c, C>
        ensures same_reference { result.calls.ghost_name ≡ calls.entry.ghost_name }
        ensures calls { result.calls.now ≡ calls.old }
    {
        Unheard { calls }
    }
}

impl<C: Calls> Calls for Unheard<'_, C> {
    ghost use Rattle.std.specs.Prelude.{◌∷◌};
    ghost use Rattle.edi_timed.specs.Hearing.{LeadsOn};

    ghost state = { λ unheard. C.state unheard.calls.now };

    ghost faults = { λ unheard. C.faults unheard.calls.now };

    ghost failed = { λ unheard outside. C.failed unheard.calls.now outside };

    ghost references = { λ unheard. unheard.calls.ghost_name ∷ C.references unheard.calls.now };

    ghost leads = { λ start unheard. LeadsOn C.leads start.calls.now unheard.calls.now };

    ghost one_failed = { λ unheard one other p q. C.one_failed unheard.calls.now one other p q };

    fn call(&mut self, number: u8, args: &[u16], answer: &mut [u16]) -> CallEnd {
        self.calls.call(number, args, answer)
    }
}
