//! The system calls of any object that has a system.

ghost use Rattle.std.specs.Prelude.{true, ◌≡◌, ◌≢◌, ◌≤◌, ℕ, List, length, ◌||◌, Option, None};
ghost use Rattle.edi_told.specs.Told.{WhereTold};
ghost use Rattle.edi_calls.specs.declared.ends.Outside.{Outside};
ghost use Rattle.edi_calls.specs.State.{State};
ghost use Rattle.edi_calls.specs.Calls.{argument_words, answer_words, call};
ghost use Rattle.edi_calls.specs.Ends.{Meets, Blames, IsUsed, MayEnd, is_refused};

use crate::call_number;
use crate::ends::CallEnd;

// The argument words of a title.
const TITLE_WORDS: usize = 12;

/// The argument words of a call, without those of its `var` parameter, and its answer words. The number is 1 to 10.
///
/// | Number | Call | Argument words | Answer words |
/// |---|---|---|---|
/// | 1 | `accept(var c: char)` | 0 | 1 |
/// | 2 | `display(c: char)` | 1 | 0 |
/// | 3 | `print(c: char)` | 1 | 0 |
/// | 4 | `find(title: name; var found: bool)` | 12 | 1 |
/// | 5 | `more(var b: bool)` | 0 | 1 |
/// | 6 | `read(var c: char)` | 0 | 1 |
/// | 7 | `fresh` | 0 | 0 |
/// | 8 | `write(c: char)` | 1 | 0 |
/// | 9 | `close(title: name; var done: bool)` | 12 | 1 |
/// | 10 | `remove(title: name; var done: bool)` | 12 | 1 |
pub fn words_of(number: u8) -> (usize, usize)
    requires from { 1 ≤ number }
    requires to { number ≤ 10 }
    ensures arguments { result.0 ≡ argument_words number }
    ensures answer { result.1 ≡ answer_words number }
{
    match number {
        call_number::DISPLAY | call_number::PRINT | call_number::WRITE => (1, 0),
        call_number::FIND | call_number::CLOSE | call_number::REMOVE => (TITLE_WORDS, 1),
        call_number::FRESH => (0, 0),
        _ => (0, 1),
    }
}

/// An object that has a system: files, a terminal and a printer.
pub trait Calls {
    /// The state of the system, where it is told.
    ghost state: { Self → Option State };

    /// How often each object outside has failed. A count never falls, and stands still at `u64::MAX`.
    ghost faults: { Self → Outside → ℕ };

    /// This is the object outside that has failed. With `None`: nothing has failed, and a call may be made.
    ghost failed: { Self → Option Outside → Type 0 };

    /// The references that it holds to objects of others. A call keeps them, so whoever lent them sees what it has done.
    ghost references: { Self → List ℕ };

    /// What calls in a row leave, whatever they answer: how this object may be behind them, told by how it was before the first.
    ghost leads: { Self → Self → Type 0 };

    /// Makes the system call of this number, 1 to 10. `args` and `answer` have the lengths that `words_of` gives;
    /// `answer` takes the answer words; it is as it was where the call is refused, and open after a fault. An answer word is a
    /// character below 128 (`accept`, `read`) or a truth value. `NoFile` is an end of `more`, `read`, `write` and `close` alone,
    /// `FileLimit` of `write` alone.
    fn call(&mut self, number: u8, args: &[u16], answer: &mut [u16]) -> CallEnd
        requires from { 1 ≤ number }
        requires to { number ≤ 10 }
        requires arguments { length args.now ≡ argument_words number }
        requires answers { length answer.old ≡ answer_words number }
        requires working { failed self.old None }
        ensures exact { WhereTold (state self.old) (state self.new)
            (λ before after. Meets (call number args.now before) result answer.new before after) }
        // Also where the state is not told.
        ensures may { MayEnd number result answer.new }
        ensures untouched { is_refused result ≡ true → answer.new ≡ answer.old }
        ensures later { (outside : Outside) → faults self.old outside ≤ faults self.new outside }
        ensures blame { Blames result (failed self.new) (faults self.old) (faults self.new) }
        // Only an object fails that the call uses.
        ensures used { IsUsed number (failed self.new) }
        ensures references { references self.new ≡ references self.old }
        ensures leads { (start : Self) → leads start self.old → leads start self.new };

    /// What has failed is one: this object, or nothing.
    ghost one_failed: { (calls : Self) (one other : Option Outside) → failed calls one → failed calls other → one ≡ other };
}
