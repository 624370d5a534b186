//! What is shown of a static fault.

ghost use Rattle.std.specs.Prelude.{◌≡◌, ◌≤◌, ◌++◌, Some, OnOk, length};
ghost use Rattle.edi_explain.specs.told.Explained as spec;
ghost use Rattle.edi_explain.specs.told.Names.{marked_name as marked_of};
ghost use Rattle.edi_explain.specs.told.Scanned.{HasSymbols};

use crate::told::names::{declared_after, marked_name};
use crate::told::notes::{lost_note, put_note_line};
use crate::told::source::{put_pointed, put_whole};
use crate::told::words::put_name;
use crate::told::wrong::place;
use edi_lex::Mark;
use edi_texts::RefusalKind;
use itoa::Buffer;
use std::alloc::AllocError;

// Puts behind bytes the line of the name that is marked.
fn put_undeclared(
    out: &mut Vec<u8>,
    text: &[u8],
    marks: &[Mark],
    line: u16,
    index: u32,
    letters: &[u8],
) -> Result<(), AllocError>
    requires scanned { HasSymbols text.now }
    requires few { length marks.now ≤ 262144 }
    ensures { OnOk result (out.new.items ≡ out.old.items ++ spec.name_text text.now marks.now line (Some (index, letters.now))) }
{
    put_pointed(out, text, line, place(text, index))?;
    put_name(out, letters)?;
    out.extend_from_slice(b" seems to mean nothing here\n")?;
    put_later(out, letters, declared_after(marks, index as usize, letters))?;
    Ok(())
}

// Puts behind bytes where a procedure of the name is declared further down, or else its note.
fn put_later(out: &mut Vec<u8>, letters: &[u8], line: Option<u16>) -> Result<(), AllocError>
    ensures { OnOk result (out.new.items ≡ out.old.items ++ spec.later_text letters.now line) }
{
    let Some(line) = line else {
        return put_note_line(out, lost_note(letters).as_bytes());
    };
    let mut buffer = Buffer::new();
    out.extend_from_slice(b"a procedure of this name is declared further down, on line ")?;
    out.extend_from_slice(buffer.format(line).as_bytes())?;
    out.push(b'\n')?;
    Ok(())
}

// Puts behind bytes the line of an undeclared name.
fn put_name_line(
    out: &mut Vec<u8>,
    text: &[u8],
    marks: &[Mark],
    line: u16,
) -> Result<(), AllocError>
    requires scanned { HasSymbols text.now }
    requires few { length marks.now ≤ 262144 }
    ensures { OnOk result (out.new.items ≡ out.old.items ++ spec.name_text text.now marks.now line (marked_of marks.now line)) }
{
    match marked_name(marks, line) {
        Some((index, letters)) => put_undeclared(out, text, marks, line, index, letters),
        None => put_whole(out, text, line),
    }
}

/// Puts behind bytes the line of a static fault.
pub(crate) fn put_static(
    out: &mut Vec<u8>,
    text: &[u8],
    marks: &[Mark],
    kind: RefusalKind,
    line: u16,
) -> Result<(), AllocError>
    requires scanned { HasSymbols text.now }
    requires few { length marks.now ≤ 262144 }
    ensures { OnOk result (out.new.items ≡ out.old.items ++ spec.static_line text.now marks.now kind line) }
{
    match kind {
        RefusalKind::UndeclaredName => put_name_line(out, text, marks, line),
        _ => put_whole(out, text, line),
    }
}
