//! The text of the line editor, with the changes that undo the last ones.
#![tactic(auto)]

ghost use Rattle.std.specs.Prelude.{◌≡◌, ℕ, ◌+◌, ◌-◌, ◌<◌, ◌≤◌, [], length, insert, remove, slice_set, option_copied, option_map, IfOk, OnErr, false};
ghost use Rattle.edi_edit.specs.Lines.{lines_of, bytes_of_lines, line_numbered, has_feed};
ghost use Rattle.edi_edit.specs.Editing.{refusal, missing, is_index, changed};
ghost use Rattle.edi_edit.specs.Undoing.{EndsBy, Undoes, UndosGiveTheTextBack};

mod list;

use circular_buffer::HeapCircularBuffer;
use list::Step;
use std::alloc::{AllocError, Global};
use std::marker::Model;

/// The most bytes that a change may leave, each line counted with its line feed: the room of a file.
pub const ROOM: u32 = 261_120;

/// How many changes can be undone.
pub const UNDOS: usize = 64;

/// Why a change was not made.
#[derive(Clone, Copy, Debug, PartialEq, Eq)]
pub enum EditEnd {
    /// The text has no line of that number.
    NoLine,
    /// The text would have so many bytes, more than [`ROOM`].
    Full(u32),
    /// Memory ran out.
    NoMemory,
}

/// A text as a list of lines, and what undoes its last changes, [`UNDOS`] at most.
///
/// Contracts see the lines, and the texts before the changes that can be undone. Only single changes
/// are kept.
#[derive(Debug, Drop)]
pub struct Text {
    lines: Vec<Vec<u8>>,
    steps: HeapCircularBuffer<Step>,
}

impl Model for Text {
    ghost use Rattle.edi_edit.specs.Editing.{Editing};

    ghost Value = { Editing };

    ghost use Rattle.edi_edit.specs.Steps.{plain, earlier, StepsAreKept};

    ghost view = { λ t. record { lines = plain t.lines.items; earlier = earlier t.steps.items (plain t.lines.items) } };

    ghost invariant = { λ t. StepsAreKept t.steps.items t.steps.capacity (plain t.lines.items) };
}

impl Text {
    /// The lines of these bytes, of which there are at most [`ROOM`], with nothing to undo. The lines
    /// are the pieces between line feeds; a last piece counts only where it is not empty.
    pub fn new(alloc: Global, bytes: &[u8]) -> Result<Text, AllocError>
        requires { length bytes.now ≤ ROOM }
        ensures exact { IfOk result (λ text. text ≡ record { lines = lines_of bytes.now; earlier = [] }) }
    {
        let lines = list::split_lines(alloc, bytes)?;
        let steps = HeapCircularBuffer::with_capacity(alloc, UNDOS)?;
        Ok(Text { lines, steps })
    }

    /// Makes the line the line `at`, counted from 1. `at` may be one more than the number of lines.
    ///
    /// # Errors
    ///
    /// `NoLine` exactly where `at` is out of range, then `Full` exactly where the text would have more
    /// than [`ROOM`] bytes. After a refusal nothing has changed.
    pub fn insert(&mut self, alloc: Global, at: u32, line: &[u8]) -> Result<(), EditEnd>
        requires one_line { has_feed line.now ≡ false }
        requires short { length line.now ≤ ROOM + 1 }
        ensures exact { let after = insert self.old.lines (at - 1) line.now in
            EndsBy result (refusal (is_index at (length self.old.lines + 1)) after)
            (changed self.old after) self.old self.new }
        ensures undos { length self.new.earlier ≤ UNDOS }
    {
        list::insert_line(alloc, &mut self.lines, at, line)?;
        list::keep_step(&mut self.steps, Step::Remove(at as usize - 1));
        Ok(())
    }

    /// Puts the line in place of line `at`, counted from 1.
    ///
    /// # Errors
    ///
    /// As [`Text::insert`], but that `at` is in range up to the number of lines.
    pub fn replace(&mut self, alloc: Global, at: u32, line: &[u8]) -> Result<(), EditEnd>
        requires one_line { has_feed line.now ≡ false }
        requires short { length line.now ≤ ROOM + 1 }
        ensures exact { let after = slice_set self.old.lines (at - 1) line.now in
            EndsBy result (refusal (is_index at (length self.old.lines)) after)
            (changed self.old after) self.old self.new }
        ensures undos { length self.new.earlier ≤ UNDOS }
    {
        let was = list::replace_line(alloc, &mut self.lines, at, line)?;
        list::keep_step(&mut self.steps, Step::Put(at as usize - 1, was));
        Ok(())
    }

    /// Removes line `at`, counted from 1.
    ///
    /// # Errors
    ///
    /// `NoLine` exactly where there is no such line. After a refusal nothing has changed.
    pub fn delete(&mut self, _alloc: Global, at: u32) -> Result<(), EditEnd>
        ensures exact { let after = remove self.old.lines (at - 1) in
            EndsBy result (missing (is_index at (length self.old.lines)))
            (changed self.old after) self.old self.new }
        ensures undos { length self.new.earlier ≤ UNDOS }
    {
        let was = list::delete_line(&mut self.lines, at)?;
        list::keep_step(&mut self.steps, Step::Insert(at as usize - 1, was));
        Ok(())
    }

    /// Takes the last change back that is still kept; `false` exactly where there is none. Where
    /// memory runs out, nothing has changed.
    pub fn undo(&mut self, _alloc: Global) -> Result<bool, AllocError>
        ensures done { IfOk result (λ some. Undoes some self.old self.new) }
        ensures refused { OnErr result ((0 < length self.old.earlier) × (self.new ≡ self.old)) }
        ensures undos { length self.new.earlier ≤ UNDOS }
    {
        let Some(step) = self.steps.pop_back() else {
            return Ok(false);
        };
        if let Err(step) = list::take_step(&mut self.lines, step) {
            list::keep_step(&mut self.steps, step);
            return Err(AllocError);
        }
        Ok(true)
    }

    /// Line `at`, counted from 1; `None` exactly where there is no such line.
    pub fn line(&self, at: u32) -> Option<&[u8]>
        ensures exact { option_map (λ line. line.now) result ≡ line_numbered self.now.lines at }
    {
        let index = (at as usize).checked_sub(1)?;
        let line = self.lines.get(index)?;
        Some(line.as_slice())
    }

    /// The whole text, each line with its line feed.
    pub fn bytes(&self, alloc: Global) -> Result<Vec<u8>, AllocError>
        ensures exact { IfOk result (λ bytes. bytes.items ≡ bytes_of_lines self.now.lines) }
        // Read again they are the same lines.
        ensures again { IfOk result (λ bytes. lines_of bytes.items ≡ self.now.lines) }
        // One byte more than [`ROOM`] where the text was made of so many, with no line feed at their end.
        ensures small { IfOk result (λ bytes. length bytes.items ≤ ROOM + 1) }
    {
        list::join_lines(alloc, &self.lines)
    }
}

/// A law of editings, and no work: after any changes, [`UNDOS`] at most, as many undos give the text
/// from before them, line by line.
pub fn undos_give_the_text_back()
    ensures { UndosGiveTheTextBack }
{}
