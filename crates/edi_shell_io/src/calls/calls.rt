//! The calls of the shell on an object that has a system and runs programs.

ghost use Rattle.std.specs.Prelude.{◌≡◌, ◌≤◌, ◌<◌, ◌+◌, ◌^◌, ℕ, length, Option, IfOk, IfSome};
ghost use Rattle.std.specs.Option.{option_map};
ghost use Rattle.edi_calls.specs.declared.ends.Outside.{Outside};
ghost use Rattle.edi_calls.specs.State.{State, find_file, free, most_bytes, slot_at};
ghost use Rattle.edi_catalog.specs.SlotsChanged.{deleted, file_protected, file_renamed, slots_changed};
ghost use Rattle.edi_catalog.specs.InSlots.{entry_told};
ghost use Rattle.edi_catalog.specs.Refusing.{no_deletion, no_renaming, no_room, no_such};
ghost use Rattle.edi_catalog.specs.SlotsStored.{slots_stored};
ghost use Rattle.edi_session.specs.Files.{file_in};
ghost use Rattle.edi_session.specs.Shell.{Shell, on_fresh_line, printed_by, shown_by, state_in};
ghost use Rattle.edi_shell_io.specs.calls.Standing.{Answers, At, IsLeft, IsLeftBy, Leads, Runs, ReadsFile, ReadsPage, Takes};

use edi_calls::FileKind;
use edi_catalog::{CatEnd, Entry};
use edi_image::Title;
use edi_kernel::{Ending, Kernel};
use edi_session::SessionEnd;
use edi_target::Code;
use edi_trace::Choices;

/// What a call gives, or how the session ends there.
pub type OrEnd<T> = Result<T, SessionEnd>;

/// An object that the shell works on: files, an input, a terminal and a printer, on which programs run.
///
/// What a call does is told by shells of the definition: where the object stands at one before the call, it stands afterwards at
/// the one that the definition has. After a fault it stands at a state through which that one came, at which the object that has
/// failed may fail: the terminal and the printer only where a byte is shown or printed.
pub trait ShellCalls {
    /// A call may be made: nothing has failed.
    ghost ready: { Self → Type 0 };

    /// The object outside that has failed, if one has.
    ghost failed: { Self → Option Outside };

    /// All objects outside tell what they hold.
    ghost tells: { Self → Type 0 };

    /// This object outside has failed, and what they hold is what this state has.
    ghost stands: { Self → Outside → State → Type 0 };

    /// The same, where so many bytes had been shown before the session; and whether a line is due is told by those behind them.
    ghost at: { Self → State → ℕ → Type 0 };

    /// What every call keeps of an object, whatever it answers.
    ghost lasts: { Self → Self → Type 0 };

    /// The next byte of the input; none where the input has ended.
    fn take(&mut self) -> OrEnd<Option<u8>>
        requires ready { ready self.old }
        ensures exact { (s : Shell) → At at self.old s → tells self.new → Takes at stands result s self.new }
        ensures left { IsLeft ready failed result self.new }
        ensures lasts { lasts self.old self.new };

    /// Shows these bytes. Where there are none the terminal is not asked.
    fn show(&mut self, bytes: &[u8]) -> OrEnd<()>
        requires ready { ready self.old }
        ensures exact { (s : Shell) → At at self.old s → tells self.new → Leads at stands result (shown_by bytes.now s) self.new }
        ensures left { IsLeft ready failed result self.new }
        ensures lasts { lasts self.old self.new };

    /// Prints these bytes. Where there are none the printer is not asked.
    fn print_out(&mut self, bytes: &[u8]) -> OrEnd<()>
        requires ready { ready self.old }
        ensures exact { (s : Shell) → At at self.old s → tells self.new → Leads at stands result (printed_by bytes.now s) self.new }
        ensures left { IsLeft ready failed result self.new }
        ensures lasts { lasts self.old self.new };

    /// Shows a line feed where a line was begun on the terminal and is not ended.
    fn fresh_line(&mut self) -> OrEnd<()>
        requires ready { ready self.old }
        ensures exact { (s : Shell) → At at self.old s → tells self.new → Leads at stands result (on_fresh_line s) self.new }
        ensures left { IsLeft ready failed result self.new }
        ensures lasts { lasts self.old self.new };

    /// The file with this title; none exactly where no file has it.
    fn find(&self, title: &Title) -> Option<Entry>
        requires ready { ready self.now }
        ensures exact { (s : Shell) → At at self.now s → tells self.now → result ≡ option_map entry_told (file_in s title.now) };

    /// The file in slot `i`, counted from 0; none exactly where the slot is free, or there is none of this number.
    fn slot(&self, i: usize) -> Option<Entry>
        requires ready { ready self.now }
        ensures exact { (s : Shell) → At at self.now s → tells self.now → result ≡ option_map entry_told (slot_at (state_in s).slots i) };

    /// The number of free blocks. There are 256 slots.
    fn free(&self) -> u32
        requires ready { ready self.now }
        ensures exact { (s : Shell) → At at self.now s → tells self.now → result ≡ free (state_in s) }
        ensures slots { (s : Shell) → At at self.now s → tells self.now → length (state_in s).slots ≡ 256 };

    /// Reads a whole file into `into`, which has room for 261,120 bytes, and gives the number of its bytes; none where no file has
    /// the title. What stands in `into` beyond them is open.
    fn read_into(&mut self, title: &Title, into: &mut [u8]) -> OrEnd<Option<usize>>
        requires ready { ready self.old }
        requires room { most_bytes ≤ length into.old }
        ensures exact { (s : Shell) → At at self.old s → tells self.new → ReadsFile at stands result (file_in s title.now) into.new s self.new }
        ensures within { IfOk result (λ read. IfSome read (λ n. n ≤ most_bytes)) }
        ensures left { IsLeft ready failed result self.new }
        ensures lasts { lasts self.old self.new };

    /// Reads page `i` of a file, counted from 0, and gives the number of its bytes, 0 where the file has no such page; none where
    /// no file has the title. What stands in `into` beyond them is open.
    fn read_page(&mut self, title: &Title, i: u32, into: &mut [u8; 512]) -> OrEnd<Option<usize>>
        requires ready { ready self.old }
        ensures exact { (s : Shell) → At at self.old s → tells self.new → ReadsPage at stands result (file_in s title.now) i into.new s self.new }
        ensures within { IfOk result (λ read. IfSome read (λ n. n ≤ 512)) }
        ensures left { IsLeft ready failed result self.new }
        ensures lasts { lasts self.old self.new };

    /// Stores fewer than 2^32 bytes as an unprotected file of this title, in place of an unprotected one.
    fn store(&mut self, title: &Title, kind: FileKind, bytes: &[u8]) -> Result<(), CatEnd>
        requires ready { ready self.old }
        requires size { length bytes.now < 2 ^ 32 }
        ensures exact { (s : Shell) → At at self.old s → tells self.new →
            Answers at stands result (no_room title.now (length bytes.now) (free (state_in s)) (state_in s).slots)
            (slots_stored title.now kind bytes.now (state_in s).slots) s self.new }
        ensures left { IsLeftBy ready failed result self.new }
        ensures lasts { lasts self.old self.new };

    /// Deletes the file with this title.
    fn delete(&mut self, title: &Title) -> Result<(), CatEnd>
        requires ready { ready self.old }
        ensures exact { (s : Shell) → At at self.old s → tells self.new →
            Answers at stands result (no_deletion (file_in s title.now)) (slots_changed deleted title.now (state_in s).slots) s self.new }
        ensures left { IsLeftBy ready failed result self.new }
        ensures lasts { lasts self.old self.new };

    /// Gives the file with the title `old` the title `new`.
    fn rename(&mut self, old: &Title, new: &Title) -> Result<(), CatEnd>
        requires ready { ready self.old }
        ensures exact { (s : Shell) → At at self.old s → tells self.new →
            Answers at stands result (no_renaming (file_in s old.now) (file_in s new.now)) (slots_changed (file_renamed new.now) old.now (state_in s).slots) s
            self.new }
        ensures left { IsLeftBy ready failed result self.new }
        ensures lasts { lasts self.old self.new };

    /// Protects the file with this title, or takes its protection.
    fn protect(&mut self, title: &Title, protected: bool) -> Result<(), CatEnd>
        requires ready { ready self.old }
        ensures exact { (s : Shell) → At at self.old s → tells self.new →
            Answers at stands result (no_such (file_in s title.now)) (slots_changed (file_protected protected) title.now (state_in s).slots) s self.new }
        ensures left { IsLeftBy ready failed result self.new }
        ensures lasts { lasts self.old self.new };

    /// Runs code from the state with no file open, to its ending, which is not `Fault`.
    fn execute(
        &mut self,
        kernel: &mut Kernel,
        code: &Code,
        bound: u64,
        choices: &mut Choices,
    ) -> OrEnd<Ending>
        requires ready { ready self.old }
        ensures exact { choices.old.drawn + bound < 2 ^ 64 → (s : Shell) → s.drawn ≡ choices.old.drawn → At at self.old s → tells self.new →
            Runs at stands code.now bound choices.old.source result choices.new.drawn s self.new }
        ensures left { IsLeft ready failed result self.new }
        ensures source { choices.new.source ≡ choices.old.source }
        ensures drawn { choices.new.drawn ≤ choices.old.drawn + bound }
        ensures lasts { lasts self.old self.new };

    /// What lasts is so of an object and itself, and from one to the next.
    ghost lasts_same: { (a : Self) → lasts a a };

    ghost lasts_on: { (a b c : Self) → lasts a b → lasts b c → lasts a c };

    /// What is told in the end was told before.
    ghost lasts_told: { (a b : Self) → lasts a b → tells b → tells a };
}
