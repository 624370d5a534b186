//! The names of the instructions.

ghost use Rattle.std.specs.Prelude.{◌≡◌, [], slice_index_or};
ghost use Rattle.edi_utils.specs.Listing.{instruction_names};
ghost use Rattle.edi_utils.specs.Tables.{texts_of};

/// The names by the numbers of the instructions; the number 0 is none.
static NAMES: [&str; 45] = [
    "", "CONST", "TEXT", "ZEROS", "ADDRESS", "FIELD", "INDEX", "LOAD", "STORE", "ADD", "SUB",
    "MUL", "DIV", "MOD", "NEG", "NOT", "EQ", "NE", "LT", "LE", "GT", "GE", "UNION", "MINUS",
    "MEET", "IN", "MEMBER", "CHECK", "JUMP", "FALSE", "AND", "OR", "LOOP", "ENTRY", "CALL",
    "CALLP", "PROC", "RETURN", "HALT", "WHEN", "RETRY", "DONE", "COBEGIN", "EXIT", "QUIET",
];

// The text of a table at an index; nothing behind its end.
fn text_at(table: &[&'static str], index: usize) -> &'static str
    ensures { result.now ≡ slice_index_or (texts_of table.now) index [] }
{
    if index < table.len() {
        table[index]
    } else {
        ""
    }
}

/// The name of the instruction of this number; nothing where no instruction has it.
pub(crate) fn name_of(number: u16) -> &'static str
    ensures exact { result.now ≡ slice_index_or instruction_names number [] }
{
    text_at(&NAMES, usize::from(number))
}
