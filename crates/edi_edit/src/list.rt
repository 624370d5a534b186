//! The list of lines, and its single changes.
ghost use Rattle.std.specs.Prelude.{◌≡◌, ℕ, ◌+◌, ◌-◌, ◌^◌, ◌<◌, ◌≤◌, true, false, [], ◌∷◌, ◌++◌, drop, length, insert, remove, slice_set, slice_index_or};
ghost use Rattle.std.specs.Prelude.{IfOk, OnOk, IfErr, ◌==◌, not};
ghost use Rattle.std.specs.List.{prefix_len};
ghost use Rattle.circular_buffer.specs.Buffer.{buffer, keep_last};
ghost use Rattle.edi_edit.specs.Lines.{lines_of, bytes_of_lines, size_of_lines};
ghost use Rattle.edi_edit.specs.Editing.{refusal, missing, is_index};
ghost use Rattle.edi_edit.specs.Undoing.{EndsBy};
ghost use Rattle.edi_edit.specs.Steps.{plain, step_back, CanStep};

use crate::{EditEnd, ROOM};
use circular_buffer::HeapCircularBuffer;
use std::alloc::{AllocError, Global};
use std::mem;

/// What takes a text back to the one before a change. A line's index is counted from 0.
#[derive(Debug, Drop)]
pub(crate) enum Step {
    Remove(usize),
    Put(usize, Vec<u8>),
    Insert(usize, Vec<u8>),
}

/// The pieces between line feeds.
pub(crate) fn split_lines(alloc: Global, bytes: &[u8]) -> Result<Vec<Vec<u8>>, AllocError>
    ensures exact { IfOk result (λ lines. plain lines.items ≡ lines_of bytes.now) }
{
    let mut lines = Vec::new(alloc);
    let mut rest = bytes;
    while !rest.is_empty() {
        let (line, more) = rest.split_at(line_len(rest));
        lines.push(Vec::from_slice(alloc, line)?)?;
        rest = after_first(more);
    }
    Ok(lines)
}

// How many bytes stand before the first line feed, or in all where there is none.
fn line_len(bytes: &[u8]) -> usize
    ensures before { result ≡ prefix_len (λ byte. not (byte == 10)) bytes.now }
    ensures within { result ≤ length bytes.now }
{
    bytes.iter().take_while(|byte| **byte != b'\n').count()
}

// What follows the first byte, if there is one.
fn after_first(bytes: &[u8]) -> &[u8]
    ensures { result.now ≡ drop 1 bytes.now }
{
    match bytes {
        [_, after @ ..] => after,
        [] => bytes,
    }
}

/// The lines, each with its line feed.
pub(crate) fn join_lines(alloc: Global, lines: &[Vec<u8>]) -> Result<Vec<u8>, AllocError>
    ensures exact { IfOk result (λ bytes. bytes.items ≡ bytes_of_lines (plain lines.now)) }
{
    let mut bytes = Vec::new(alloc);
    for line in lines {
        bytes.extend_from_slice(line)?;
        bytes.push(b'\n')?;
    }
    Ok(bytes)
}

// How many bytes the lines are, each with its line feed.
fn size(lines: &[Vec<u8>]) -> u32
    requires { size_of_lines (plain lines.now) < 2 ^ 32 }
    ensures exact { result ≡ size_of_lines (plain lines.now) }
{
    let mut size = 0;
    for line in lines {
        size += line.len() as u32 + 1;
    }
    size
}

// The index, counted from 0, of line `at`, counted from 1 up to `most`.
fn line_index(at: u32, most: usize) -> Result<usize, EditEnd>
    ensures ok { IfOk result (λ line_index. (is_index at most ≡ true) × (line_index + 1 ≡ at)) }
    ensures err { IfErr result (λ end. (is_index at most ≡ false) × (end ≡ EditEnd.NoLine)) }
{
    let at = at as usize;
    if at == 0 || at > most {
        return Err(EditEnd::NoLine);
    }
    Ok(at - 1)
}

/// Makes the line the line `at`, counted from 1.
pub(crate) fn insert_line(
    alloc: Global,
    lines: &mut Vec<Vec<u8>>,
    at: u32,
    line: &[u8],
) -> Result<(), EditEnd>
    requires small { size_of_lines (plain lines.old.items) ≤ ROOM + 1 }
    requires short { length line.now ≤ ROOM + 1 }
    ensures exact { let after = insert (plain lines.old.items) (at - 1) line.now in
        EndsBy result (refusal (is_index at (length (plain lines.old.items) + 1)) after)
        after (plain lines.old.items) (plain lines.new.items) }
{
    let line_index = line_index(at, lines.len() + 1)?;
    let after = size(lines) + line.len() as u32 + 1;
    if after > ROOM {
        return Err(EditEnd::Full(after));
    }
    let Ok(copy) = Vec::from_slice(alloc, line) else {
        return Err(EditEnd::NoMemory);
    };
    match lines.insert(line_index, copy) {
        Ok(()) => Ok(()),
        Err(_) => Err(EditEnd::NoMemory),
    }
}

/// Puts the line in place of line `at`, counted from 1, and gives the line that was there.
pub(crate) fn replace_line(
    alloc: Global,
    lines: &mut Vec<Vec<u8>>,
    at: u32,
    line: &[u8],
) -> Result<Vec<u8>, EditEnd>
    requires small { size_of_lines (plain lines.old.items) ≤ ROOM + 1 }
    requires short { length line.now ≤ ROOM + 1 }
    ensures exact { let after = slice_set (plain lines.old.items) (at - 1) line.now in
        EndsBy result (refusal (is_index at (length (plain lines.old.items))) after)
        after (plain lines.old.items) (plain lines.new.items) }
    ensures was { IfOk result (λ was. was.items ≡ slice_index_or (plain lines.old.items) (at - 1) []) }
{
    let line_index = line_index(at, lines.len())?;
    let after = size(lines) - lines[line_index].len() as u32 + line.len() as u32;
    if after > ROOM {
        return Err(EditEnd::Full(after));
    }
    let Ok(copy) = Vec::from_slice(alloc, line) else {
        return Err(EditEnd::NoMemory);
    };
    Ok(mem::replace(&mut lines[line_index], copy))
}

/// Removes line `at`, counted from 1, and gives it.
pub(crate) fn delete_line(lines: &mut Vec<Vec<u8>>, at: u32) -> Result<Vec<u8>, EditEnd>
    ensures exact { let after = remove (plain lines.old.items) (at - 1) in
        EndsBy result (missing (is_index at (length (plain lines.old.items))))
        after (plain lines.old.items) (plain lines.new.items) }
    ensures was { IfOk result (λ was. was.items ≡ slice_index_or (plain lines.old.items) (at - 1) []) }
{
    let line_index = line_index(at, lines.len())?;
    Ok(lines.remove(line_index))
}

/// Takes a step back, and hands it back where memory runs out.
pub(crate) fn take_step(lines: &mut Vec<Vec<u8>>, step: Step) -> Result<(), Step>
    requires { CanStep step (plain lines.old.items) }
    ensures ok { OnOk result (plain lines.new.items ≡ step_back step (plain lines.old.items)) }
    ensures err { IfErr result (λ same. (same ≡ step) × (plain lines.new.items ≡ plain lines.old.items)) }
{
    match step {
        Step::Remove(line_index) => {
            let _ = lines.remove(line_index);
        }
        Step::Put(line_index, line) => lines[line_index] = line,
        Step::Insert(line_index, line) => {
            if let Err(refused) = lines.insert(line_index, line) {
                return Err(Step::Insert(line_index, refused.value));
            }
        }
    }
    Ok(())
}

/// Keeps one more step; where there is no room, the first one goes.
pub(crate) fn keep_step(steps: &mut HeapCircularBuffer<Step>, step: Step)
    ensures kept { let capacity = steps.old.capacity in
        steps.new ≡ buffer (keep_last capacity (steps.old.items ++ step ∷ [])) capacity }
{
    let _ = steps.push_back(step);
}
