//! The lines that a session takes.

use edi_image::Title;

/// A command line. The titles are those of files.
#[derive(Clone, Copy)]
pub enum Line {
    /// A line without words.
    Blank,
    /// No command.
    Bad,
    /// `list`
    Catalogue,
    /// `type f`
    Show(Title),
    /// `print f`
    Print(Title),
    /// `enter f`
    Enter(Title),
    /// `copy f g`
    Copy(Title, Title),
    /// `rename f g`
    Rename(Title, Title),
    /// `delete f`
    Delete(Title),
    /// `protect f`
    Protect(Title),
    /// `release f`
    Release(Title),
    /// `compile f g`
    Compile(Title, Title),
    /// `edit f`
    Edit(Title),
    /// `halt`
    Halt,
    /// A title alone: that file is executed.
    Execute(Title),
}

/// A line of an editing. The number of a line has 1 to 6 digits.
#[derive(Clone, Copy)]
pub enum EditLine {
    /// `i N`: the next line of the input is inserted as line N.
    Insert(u32),
    /// `r N`: the next line of the input replaces line N.
    Replace(u32),
    /// `d N`: line N is deleted.
    Delete(u32),
    /// `l N`: line N is shown.
    Look(u32),
    /// `u`: the last change is undone.
    Undo,
    /// `w`: the text is stored, and the editing is left.
    Write,
    /// `q`: the editing is left.
    Quit,
    /// None of these.
    Bad,
}
