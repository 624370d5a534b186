//! An instruction.

ghost use Rattle.std.specs.Prelude.{◌≡◌, ◌&&◌, ◌==◌, ◌%◌, length};
ghost use Rattle.std.specs.List.{list_all};
ghost use Rattle.edi_target.specs.Op.{has_frame, is_allowed};
ghost use Rattle.edi_target.specs.Decode.{branches_of};

/// One instruction of the abstract machine, with its operands.
///
/// A `level` is the number of static links to follow, at most 64. A `line` is the line of the program's text to which a
/// failure belongs. A `target` is a code address.
#[derive(Clone, Copy)]
pub enum Op<'a> {
    /// Pushes a word.
    Const {
        value: u16,
    },
    /// Pushes words, 1 to 65,535 of them.
    Text {
        words: &'a [u16],
    },
    /// Pushes zeros, at least one.
    Zeros {
        count: u16,
    },
    /// Pushes the address of a word of a frame.
    Address {
        level: u16,
        offset: u16,
    },
    /// Goes from the address of a record to that of a field.
    Field {
        offset: u16,
    },
    /// Goes from the address of an array to that of an element of `size` words, where the index is one of `low` to `high`.
    Index {
        low: i16,
        high: i16,
        size: u16,
        line: u16,
    },
    /// Pushes the words at an address, at least one.
    Load {
        count: u16,
    },
    /// Pops words, at least one, and keeps them at an address.
    Store {
        count: u16,
    },
    /// The sum of two integers.
    Add {
        line: u16,
    },
    /// The difference of two integers.
    Sub {
        line: u16,
    },
    /// The product of two integers.
    Mul {
        line: u16,
    },
    /// The quotient of two integers.
    Div {
        line: u16,
    },
    /// The remainder of two integers.
    Mod {
        line: u16,
    },
    /// An integer with the other sign.
    Neg {
        line: u16,
    },
    /// The other truth value.
    Not,
    /// Whether two values of so many words, at least one, are equal.
    Eq {
        count: u16,
    },
    /// Whether two values of so many words, at least one, are not equal.
    Ne {
        count: u16,
    },
    /// Whether an integer is below another.
    Lt,
    /// Whether an integer is at most another.
    Le,
    /// Whether an integer is above another.
    Gt,
    /// Whether an integer is at least another.
    Ge,
    /// The members of either of two sets.
    Union,
    /// The members of a set that are none of another.
    Minus,
    /// The members of both of two sets.
    Meet,
    /// Whether an integer is a member of a set.
    In,
    /// A set with one more member.
    Member {
        line: u16,
    },
    /// Holds the integer on top to the range of `low` to `high`.
    Check {
        low: i16,
        high: i16,
        line: u16,
    },
    /// Goes on ahead.
    Jump {
        target: u32,
    },
    /// Goes on ahead where the word that it pops is 0.
    False {
        target: u32,
    },
    /// Goes on ahead where the word on top is 0, and else pops it.
    And {
        target: u32,
    },
    /// Goes on ahead where the word on top is not 0, and else pops it.
    Or {
        target: u32,
    },
    /// Goes back, and gives way.
    Loop {
        target: u32,
    },
    /// Where a block begins: the words of its frame, which are at least 5 and those of its result, its parameters and its
    /// variables; `function` is 1 for a function and 0 for a procedure.
    Entry {
        need: u16,
        results: u16,
        parameters: u16,
        variables: u16,
        function: u16,
    },
    /// Enters the block at `target`.
    Call {
        level: u16,
        target: u32,
        line: u16,
    },
    /// Enters the block of a descriptor, or makes its system call.
    CallP {
        level: u16,
        offset: u16,
        line: u16,
    },
    /// Pushes the descriptor of the block at `target`.
    Proc {
        level: u16,
        target: u32,
    },
    /// Leaves a block.
    Return {
        results: u16,
        function: u16,
    },
    /// Ends the run.
    Halt {
        line: u16,
    },
    /// Arrives at a `when`.
    When {
        line: u16,
    },
    /// Leaves the conditions of a `when`, to try them again.
    Retry {
        target: u32,
    },
    /// Ends the conditions of a `when`.
    Done,
    /// Splits into branches, which are given as three words each: the words that its process needs, at least 5, and the
    /// address where it begins, high word first.
    Cobegin {
        line: u16,
        branches: &'a [u16],
    },
    /// Ends a branch.
    Exit,
    /// As `Retry`, for conditions that call no function.
    Quiet {
        target: u32,
    },
}

impl Op<'_> {
    ghost use Rattle.edi_target.specs.View.{instruction_of, is_whole};

    /// Whether these are operands that the table of instructions allows. The words of branches come in threes.
    #[inline(always)]
    pub fn is_allowed(&self) -> bool
        ensures { result ≡ (is_whole self.now && is_allowed (instruction_of self.now)) }
    {
        match *self {
            Op::Text { words } => is_count(words.len()),
            Op::Zeros { count }
            | Op::Load { count }
            | Op::Store { count }
            | Op::Eq { count }
            | Op::Ne { count } => count >= 1,
            Op::Address { level, .. }
            | Op::Call { level, .. }
            | Op::CallP { level, .. }
            | Op::Proc { level, .. } => level <= 64,
            Op::Index { low, high, .. } => low <= high,
            Op::Entry {
                need,
                results,
                parameters,
                variables,
                function,
            } => {
                5 + u32::from(results) + u32::from(parameters) + u32::from(variables)
                    <= u32::from(need)
                    && function <= 1
            }
            Op::Return { function, .. } => function <= 1,
            Op::Cobegin { branches, .. } => are_branches(branches),
            _ => true,
        }
    }
}

ghost use Rattle.edi_target.specs.Op.{is_count};

fn is_count(n: usize) -> bool
    ensures { result ≡ is_count n }
{
    (1..65_536).contains(&n)
}

// Whether these are the words of branches that a COBEGIN may have: at least one, three words to each.
#[tactic(auto, using(crate::proofs::Branches::branch_count))]
fn are_branches(branches: &[u16]) -> bool
    ensures { result ≡ (length branches.now % 3 == 0 && (is_count (length (branches_of branches.now)) && list_all has_frame (branches_of branches.now))) }
{
    if branches.len() % 3 != 0 {
        return false;
    }
    is_count(branches.len() / 3) && have_frames(branches)
}

// Whether each branch needs the five words that every frame has, at least.
fn have_frames(branches: &[u16]) -> bool
    ensures { result ≡ list_all has_frame (branches_of branches.now) }
{
    let mut rest = branches;
    while let [need, _, _, behind @ ..] = rest {
        if *need < 5 {
            return false;
        }
        rest = behind;
    }
    true
}
