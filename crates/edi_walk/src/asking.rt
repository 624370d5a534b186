//! Calls of the system.

ghost use Rattle.std.specs.Prelude.{◌≡◌, ◌≤◌, ◌++◌, ◌∷◌, [], length, map, pos, take, Err, IfOk, IfSome, None, OnErr, OnOk};
ghost use Rattle.edi_told.specs.Told.{WhereTold};
ghost use Rattle.edi_calls.specs.declared.ends.Outside.{Outside};
ghost use Rattle.edi_calls.specs.Calls.{answer_words, argument_words, call};
ghost use Rattle.edi_calls.specs.Ends.{Blames, CallsLast, IsUsed, Meets};
ghost use Rattle.edi_unit.specs.Types as types;
ghost use Rattle.edi_unit.specs.Values.{ordinal as spec_ordinal, values};
ghost use Rattle.edi_meaning.specs.Store.{put, Store};
ghost use Rattle.edi_meaning.specs.Whole.{answer_in, words_of_cells, words_of_value, words_of_values};
ghost use Rattle.edi_walk.specs.declared.frames.Given.TheVariants as make;
ghost use Rattle.edi_walk.specs.declared.stop.Stop.TheVariants as stop;
ghost use Rattle.edi_walk.specs.Data.{cell_of, location_of, value_of};
ghost use Rattle.edi_walk.specs.Ends.{StopBlames};
ghost use Rattle.edi_walk.specs.Frames.{some_cells};
ghost use Rattle.edi_walk.specs.Machine.{given_of, IsSameProcess};
ghost use Rattle.edi_walk.specs.Memory.{store_of};
ghost use Rattle.edi_walk.specs.Runs.{Asks};

use crate::data::{Datum, Held, LocationAt};
use crate::evaluation::{Evaluation, cells_in};
use crate::lists::add;
use crate::operators::ordinal;
use crate::stop::Stop;
use edi_calls::{CallEnd, Calls, Cause, words_of};
use std::alloc::Global;

/// How a call of the system ended, with its answer word, which says nothing where the call has none.
#[derive(Drop)]
struct Made {
    end: CallEnd,
    word: u16,
}

/// Makes a call of the system.
fn make_call<C: Calls>(calls: &mut C, number: u8, arguments: &[u16]) -> Made
    requires from { 1 ≤ number }
    requires to { number ≤ 10 }
    requires arguments { length arguments.now ≡ argument_words number }
    requires working { C.failed calls.old None }
    ensures exact { WhereTold (C.state calls.old) (C.state calls.new)
        (λ s t. Meets (call number arguments.now s) result.end (take (answer_words number) (result.word ∷ [])) s t) }
    ensures blame { Blames result.end (C.failed calls.new) (C.faults calls.old) (C.faults calls.new) }
    ensures used { IsUsed number (C.failed calls.new) }
    ensures lasts { CallsLast C.faults C.references C.leads calls.old calls.new }
{
    let (_, answers) = words_of(number);
    let mut answer = [0; 1];
    if answers == 0 {
        let end = calls.call(number, arguments, &mut answer[..0]);
        return Made { end, word: 0 };
    }
    let end = calls.call(number, arguments, &mut answer);
    let word = answer[0];
    Made { end, word }
}

/// The ordinal as a word, and 0 where it is negative.
fn natural(n: i16) -> u16
    ensures exact { result ≡ types.natural n }
{
    n.max(0) as u16
}

/// Adds the words of the parts of a value.
fn add_parts(words: &mut Vec<u16>, parts: &[Datum]) -> Result<(), Stop>
    ensures exact { OnOk result (words.new.items ≡ words.old.items ++ words_of_values (values (map value_of parts.now))) }
    ensures err { OnErr result (result ≡ Err stop.NoMemory) }
{
    for part in parts {
        add(words, natural(ordinal(part)))?;
    }
    Ok(())
}

/// Adds the words of a value.
fn add_value(words: &mut Vec<u16>, value: &Datum) -> Result<(), Stop>
    ensures exact { OnOk result (words.new.items ≡ words.old.items ++ words_of_value (value_of value.now)) }
    ensures err { OnErr result (result ≡ Err stop.NoMemory) }
{
    match value {
        Datum::Ordinal(n) => add(words, natural(*n)),
        Datum::Compound(parts) => add_parts(words, parts),
        Datum::Members(_) => Ok(()),
    }
}

/// Adds the words of an argument.
fn add_cell(words: &mut Vec<u16>, cell: &Held) -> Result<(), Stop>
    ensures exact { OnOk result (words.new.items ≡ words.old.items ++ words_of_cells (cell_of cell.now ∷ [])) }
    ensures err { OnErr result (result ≡ Err stop.NoMemory) }
{
    match cell {
        Held::Value(value) => add_value(words, value),
        Held::Location(_) => Ok(()),
        Held::Procedure(_) => Ok(()),
    }
}

/// The argument words of a call of the system.
fn words_in(alloc: Global, cells: &[Held]) -> Result<Vec<u16>, Stop>
    ensures exact { IfOk result (λ words. words.items ≡ words_of_cells (map cell_of cells.now)) }
    ensures err { OnErr result (result ≡ Err stop.NoMemory) }
{
    let mut words = Vec::new(alloc);
    for cell in cells {
        add_cell(&mut words, cell)?;
    }
    Ok(words)
}

/// The location of a `var` argument.
fn location(cell: &Held) -> Option<&LocationAt>
    ensures some { IfSome result (λ l. (cells : _) (word : _) (store : Store) →
        answer_in (cell_of cell.now ∷ cells) (word ∷ []) store ≡ put store (location_of l.now) (spec_ordinal (pos word))) }
    ensures none { result ≡ None → (cells : _) (words : _) (store : Store) → answer_in (cell_of cell.now ∷ cells) words store ≡ answer_in cells words store }
{
    match cell {
        Held::Value(_) => None,
        Held::Location(location) => Some(location),
        Held::Procedure(_) => None,
    }
}

/// Where the answer of a call is put: where its first `var` argument is.
fn place_of_answer(cells: &[Held]) -> Option<&LocationAt>
    ensures some { IfSome result (λ l. (word : _) (store : Store) →
        answer_in (map cell_of cells.now) (word ∷ []) store ≡ put store (location_of l.now) (spec_ordinal (pos word))) }
    ensures none { result ≡ None → (word : _) (store : Store) → answer_in (map cell_of cells.now) (word ∷ []) store ≡ store }
{
    for cell in cells {
        if let Some(location) = location(cell) {
            return Some(location);
        }
    }
    None
}

impl<'u> Evaluation<'u> {
    /// Puts an answer word where the call's `var` argument is.
    fn put_word(&mut self, cells: &[Held], word: u16) -> Result<(), Stop>
        ensures exact { OnOk result (store_of self.new.memory ≡ answer_in (map cell_of cells.now) (word ∷ []) (store_of self.old.memory)) }
        ensures others { self.new ≡ record self.old { memory = self.new.memory } }
        ensures err { OnErr result (result ≡ Err stop.NoMemory) }
        ensures same { IsSameProcess self.old self.new }
    {
        let Some(location) = place_of_answer(cells) else {
            return Ok(());
        };
        if word > 32767 {
            return Err(Stop::NoMemory);
        }
        if self.memory.put(location, Datum::Ordinal(word as i16)) {
            Ok(())
        } else {
            Err(Stop::NoMemory)
        }
    }

    /// Puts the answer of a call where its `var` argument is, where the call has an answer.
    fn put_answer(&mut self, number: u8, cells: &[Held], word: u16) -> Result<(), Stop>
        requires from { 1 ≤ number }
        requires to { number ≤ 10 }
        ensures exact { OnOk result (store_of self.new.memory
            ≡ answer_in (map cell_of cells.now) (take (answer_words number) (word ∷ [])) (store_of self.old.memory)) }
        ensures others { self.new ≡ record self.old { memory = self.new.memory } }
        ensures err { OnErr result (result ≡ Err stop.NoMemory) }
        ensures same { IsSameProcess self.old self.new }
    {
        let (_, answers) = words_of(number);
        if answers == 0 {
            return Ok(());
        }
        self.put_word(cells, word)
    }

    /// Makes a call of the system, and puts its answer.
    fn answer<C: Calls>(
        &mut self,
        calls: &mut C,
        number: u8,
        words: &[u16],
        cells: &[Held],
        line: u16,
    ) -> Result<(), Stop>
        requires from { 1 ≤ number }
        requires to { number ≤ 10 }
        requires arguments { length words.now ≡ argument_words number }
        requires words { words.now ≡ words_of_cells (map cell_of cells.now) }
        requires free { self.old.given ≡ make.Nothing }
        requires working { C.failed calls.old None }
        ensures exact { WhereTold (C.state calls.old) (C.state calls.new)
            (λ s t. Asks number line (some_cells (map cell_of cells.now)) result self.old self.new s t) }
        ensures same { IsSameProcess self.old self.new }
        ensures blame { StopBlames result (C.failed calls.new) (C.faults calls.old) (C.faults calls.new) }
        ensures lasts { CallsLast C.faults C.references C.leads calls.old calls.new }
    {
        let made = make_call(calls, number, words);
        match made.end {
            CallEnd::Ok => self.put_answer(number, cells, made.word),
            CallEnd::NoFile => Err(Stop::Failed(Cause::NoFile, line)),
            CallEnd::FileLimit => Err(Stop::Failed(Cause::FileLimit, line)),
            CallEnd::OutsideFault => Err(Stop::Fault(number)),
        }
    }

    /// A call of the system with these argument words, if they are as many as it takes.
    fn ask_words<C: Calls>(
        &mut self,
        calls: &mut C,
        number: u8,
        words: &[u16],
        cells: &[Held],
        line: u16,
    ) -> Result<(), Stop>
        requires from { 1 ≤ number }
        requires to { number ≤ 10 }
        requires words { words.now ≡ words_of_cells (map cell_of cells.now) }
        requires free { self.old.given ≡ make.Nothing }
        requires working { C.failed calls.old None }
        ensures exact { WhereTold (C.state calls.old) (C.state calls.new)
            (λ s t. Asks number line (some_cells (map cell_of cells.now)) result self.old self.new s t) }
        ensures same { IsSameProcess self.old self.new }
        ensures blame { StopBlames result (C.failed calls.new) (C.faults calls.old) (C.faults calls.new) }
        ensures lasts { CallsLast C.faults C.references C.leads calls.old calls.new }
    {
        let (arguments, _) = words_of(number);
        if words.len() != arguments {
            return Err(Stop::NoMemory);
        }
        self.answer(calls, number, words, cells, line)
    }

    /// A call of the system with these cells, if there is one of this number.
    fn ask_with<C: Calls>(
        &mut self,
        calls: &mut C,
        number: u8,
        cells: &[Held],
        line: u16,
    ) -> Result<(), Stop>
        requires free { self.old.given ≡ make.Nothing }
        requires working { C.failed calls.old None }
        ensures exact { WhereTold (C.state calls.old) (C.state calls.new)
            (λ s t. Asks number line (some_cells (map cell_of cells.now)) result self.old self.new s t) }
        ensures same { IsSameProcess self.old self.new }
        ensures blame { StopBlames result (C.failed calls.new) (C.faults calls.old) (C.faults calls.new) }
        ensures lasts { CallsLast C.faults C.references C.leads calls.old calls.new }
    {
        if number < 1 {
            return Err(Stop::NoMemory);
        }
        if number > 10 {
            return Err(Stop::NoMemory);
        }
        let words = words_in(self.alloc, cells)?;
        self.ask_words(calls, number, &words, cells, line)
    }

    /// A call of the system, with the cells that are given.
    pub fn ask<C: Calls>(&mut self, calls: &mut C, number: u8, line: u16) -> Result<(), Stop>
        requires working { C.failed calls.old None }
        ensures exact { WhereTold (C.state calls.old) (C.state calls.new)
            (λ s t. Asks number line (given_of self.old.given) result self.old self.new s t) }
        ensures same { IsSameProcess self.old self.new }
        ensures blame { StopBlames result (C.failed calls.new) (C.faults calls.old) (C.faults calls.new) }
        ensures lasts { CallsLast C.faults C.references C.leads calls.old calls.new }
    {
        let cells = cells_in(self.take())?;
        self.ask_with(calls, number, &cells, line)
    }
}
