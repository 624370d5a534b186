//! What is shown in a stint.

ghost use Rattle.std.specs.Prelude.{◌≡◌, ◌≤◌, ◌∷◌, ◌++◌, [], length, take};
ghost use Rattle.edi_calls.specs.State.{character};
ghost use Rattle.edi_calls.specs.Calls.{argument_words};
ghost use Rattle.edi_timeline.specs.Adding.{said_in};
ghost use Rattle.edi_timed.specs.Hearing.{shown_by, shown_words};
ghost use Rattle.edi_timed.specs.Hearing as hearing;

use edi_calls::{CallEnd, Calls, call_number};
use edi_timeline::Said;

/// The calls of another object, which is lent. Of what they show the first seven characters are kept.
#[derive(Drop)]
pub struct Heard<'c, C> {
    pub(crate) calls: &'c mut C,
    said: Said,
}

/// Nothing was shown.
const NOTHING: Said = Said {
    characters: [0; 7],
    many: 0,
};

// A character more, if there are fewer than seven.
fn with_character(said: Said, word: u16) -> Said
    ensures exact { said_in result ≡ take 7 (said_in said ++ character word ∷ []) }
    ensures few { said.many ≤ 7 → result.many ≤ 7 }
{
    if said.many >= 7 {
        return said;
    }
    let mut characters = said.characters;
    characters[said.many as usize] = (word % 128) as u8;
    Said {
        characters,
        many: said.many + 1,
    }
}

// Whether a call has been answered.
fn is_answered(end: CallEnd) -> bool
    ensures exact { result ≡ hearing.is_answered end }
{
    match end {
        CallEnd::Ok => true,
        CallEnd::NoFile | CallEnd::FileLimit | CallEnd::OutsideFault => false,
    }
}

// What is kept after a call of this number that has been answered.
fn said_with(said: Said, number: u8, args: &[u16]) -> Said
    requires arguments { length args.now ≡ argument_words number }
    ensures exact { said.many ≤ 7 → said_in result ≡ take 7 (said_in said ++ shown_words number args.now) }
    ensures few { said.many ≤ 7 → result.many ≤ 7 }
{
    if number != call_number::DISPLAY {
        return said;
    }
    with_character(said, args[0])
}

// What is kept after a call of this number that has ended so.
fn said_after(said: Said, number: u8, end: CallEnd, args: &[u16]) -> Said
    requires arguments { length args.now ≡ argument_words number }
    ensures exact { said.many ≤ 7 → said_in result ≡ take 7 (said_in said ++ shown_by number end args.now) }
    ensures few { said.many ≤ 7 → result.many ≤ 7 }
{
    if is_answered(end) {
        return said_with(said, number, args);
    }
    said
}

impl<'c, C: Calls> Heard<'c, C> {
    /// Nothing has been heard.
    pub fn new(calls: &'c mut C) -> Heard<'c, C>
        ensures same_reference { result.calls.ghost_name ≡ calls.entry.ghost_name }
        ensures calls { result.calls.now ≡ calls.old }
        ensures nothing { said_in result.said ≡ [] }
        ensures few { result.said.many ≤ 7 }
    {
        Heard {
            calls,
            said: NOTHING,
        }
    }

    /// Forgets what was shown.
    pub(crate) fn listen(&mut self)
        ensures same_reference { self.new.calls.ghost_name ≡ self.old.calls.ghost_name }
        ensures calls { self.new.calls.now ≡ self.old.calls.now }
        ensures nothing { said_in self.new.said ≡ [] }
        ensures few { self.new.said.many ≤ 7 }
    {
        self.said = NOTHING;
    }

    /// The first seven characters that were shown since then.
    pub(crate) fn said(&self) -> Said
        ensures { result ≡ self.now.said }
    {
        self.said
    }
}

impl<C: Calls> Calls for Heard<'_, C> {
    ghost use Rattle.std.specs.Prelude.{◌∷◌};
    ghost use Rattle.edi_timed.specs.Hearing.{Hears};

    ghost state = { λ heard. C.state heard.calls.now };

    ghost faults = { λ heard. C.faults heard.calls.now };

    ghost failed = { λ heard outside. C.failed heard.calls.now outside };

    ghost references = { λ heard. heard.calls.ghost_name ∷ C.references heard.calls.now };

    ghost leads = { λ start heard. Hears C.state C.failed C.leads start heard };

    ghost one_failed = { λ heard one other p q. C.one_failed heard.calls.now one other p q };

    fn call(&mut self, number: u8, args: &[u16], answer: &mut [u16]) -> CallEnd {
        let end = self.calls.call(number, args, answer);
        self.said = said_after(self.said, number, end, args);
        end
    }
}
