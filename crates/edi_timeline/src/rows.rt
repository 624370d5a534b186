//! What a timeline keeps of a stint.

ghost use Rattle.std.specs.Prelude.{◌≡◌, ◌≤◌, ◌<◌, take, length, slice_index_or};
ghost use Rattle.edi_timeline.specs.Told as spec;

/// How a stint has ended.
#[derive(Clone, Copy)]
pub(crate) enum Kind {
    Arrives,
    Waits,
    Tries,
    Forks,
    Ends,
    Over,
}

/// A stint, in 40 bytes. Stints are numbered from 1.
#[derive(Clone, Copy)]
pub(crate) struct Row {
    /// The turns that were used when it ended.
    pub(crate) used: u32,
    /// The stint whose fork bore its process, and 0 for the first process.
    pub(crate) born: u32,
    /// Which fork of the parent that was, counted from 1.
    pub(crate) fork: u32,
    /// The stint of its process before it, and 0 for the first one.
    pub(crate) before: u32,
    /// The place where its process stands after it, where it arrives, waits or tries.
    pub(crate) lines: [u16; 5],
    /// The first characters that were shown.
    pub(crate) shown: [u8; 7],
    /// Which branch of the fork its process is, counted from 0.
    pub(crate) branch: u8,
    pub(crate) kind: Kind,
    /// The number of the lines; where it forks that of the branches.
    pub(crate) many: u8,
    /// The number of those characters.
    pub(crate) said: u8,
}

/// What stands for a row that is not there.
pub(crate) const NO_ROW: Row = Row {
    used: 0,
    born: 0,
    fork: 0,
    before: 0,
    lines: [0; 5],
    shown: [0; 7],
    branch: 0,
    kind: Kind::Ends,
    many: 0,
    said: 0,
};

// The row at an index.
pub(crate) fn row_at(rows: &[Row], index: usize) -> Row
    ensures exact { result ≡ spec.row_at rows.now index }
{
    match rows.get(index) {
        Some(row) => *row,
        None => NO_ROW,
    }
}

// The row of a stint.
pub(crate) fn numbered(rows: &[Row], number: u32) -> Row
    ensures exact { result ≡ spec.numbered rows.now number }
{
    row_at(rows, number.saturating_sub(1) as usize)
}

// The row of a stint where it stands, and this one where there is none.
pub(crate) fn row_of<'r>(rows: &'r [Row], number: u32, none: &'r Row) -> &'r Row
    requires none { none.now ≡ spec.no_row }
    ensures exact { result.now ≡ spec.numbered rows.now number }
{
    match rows.get(number.saturating_sub(1) as usize) {
        Some(row) => row,
        None => none,
    }
}

// The turns that were used before the stint of an index.
pub(crate) fn used_before(rows: &[Row], index: usize) -> u32
    ensures exact { result ≡ spec.used_before rows.now index }
{
    if index == 0 {
        return 0;
    }
    row_at(rows, index - 1).used
}

impl Row {
    // The place where its process stands after it.
    pub(crate) fn place(&self) -> &[u16]
        requires many { self.now.many ≤ 5 }
        ensures exact { result.now ≡ spec.place_of self.now }
    {
        &self.lines[..self.many as usize]
    }

    // The first characters that were shown in it.
    pub(crate) fn characters(&self) -> &[u8]
        requires said { self.now.said ≤ 7 }
        ensures exact { result.now ≡ spec.said_of self.now }
    {
        &self.shown[..self.said as usize]
    }
}
