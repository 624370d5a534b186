//! The compilation of a file.

ghost use Rattle.std.specs.Prelude.{◌≡◌, ◌≤◌, ◌<◌, ◌*◌, ◌^◌, length, ℕ, List, [], Some, Err};
ghost use Rattle.edi_calls.specs.State.{File};
ghost use Rattle.edi_compile.specs.Compiled.{IsCodeOf};
ghost use Rattle.edi_compile.specs.Taken.{HasTaken};
ghost use Rattle.edi_session.specs.Files.{file_in};
ghost use Rattle.edi_session.specs.Session.{CompilesFile, CompilesText, stores_code};
ghost use Rattle.edi_session.specs.Shell.{Shell};
ghost use Rattle.edi_shell_io.specs.calls.Standing.{At, IsLeft, Leads};
ghost use Rattle.edi_shell.specs.commands.Rows.{LineDoes};
ghost use Rattle.edi_shell.specs.compile.Feeding.{Feeds};
ghost use Rattle.edi_texts.specs.Answers.{Gives};

use crate::commands::{open, say, store_file};
use edi_calls::FileKind;
use edi_codefile::pack;
use edi_compile::Intake;
use edi_image::Title;
use edi_shell_io::calls::{OrEnd, ShellCalls};
use edi_shell_io::lines::{fault_line, plain, with_number};
use edi_target::Code;
use edi_texts::Refusal;
use std::alloc::Global;

/// The greatest number of bytes of a file.
const MOST_BYTES: usize = 261_120;

// Feeds the pages of a file, one after another; false where memory ran out.
fn feed_file<C: ShellCalls>(
    alloc: Global,
    calls: &mut C,
    f: &Title,
    pages: u32,
    intake: &mut Intake,
) -> OrEnd<bool>
    requires ready { C.ready calls.old }
    requires empty { HasTaken intake.old [] }
    ensures exact { (s : Shell) (file : File) → At C.at calls.old s → C.tells calls.new → file_in s f.now ≡ Some file →
        length file.bytes ≤ 512 * pages → Feeds C.at C.stands result file intake.new s calls.new }
    ensures left { IsLeft C.ready C.failed result calls.new }
    ensures lasts { C.lasts calls.old calls.new }
{
    let mut page = [0; 512];
    for i in 0..pages {
        let Some(n) = calls.read_page(f, i, &mut page)? else {
            return Ok(false);
        };
        let (bytes, _) = page.split_at(n);
        let Ok(()) = intake.feed(alloc, bytes) else {
            return Ok(false);
        };
    }
    Ok(true)
}

// Stores the bytes of a code as the file `g`, or shows why not.
fn store_code<C: ShellCalls>(calls: &mut C, g: &Title, bytes: &[u8]) -> OrEnd<()>
    requires ready { C.ready calls.old }
    requires size { length bytes.now < 2 ^ 32 }
    ensures exact { (s : Shell) → At C.at calls.old s → C.tells calls.new → Leads C.at C.stands result (stores_code g.now bytes.now s) calls.new }
    ensures left { IsLeft C.ready C.failed result calls.new }
    ensures lasts { C.lasts calls.old calls.new }
{
    if bytes.len() > MOST_BYTES {
        return say(calls, &with_number("code too large", bytes.len() as u32));
    }
    store_file(calls, g, FileKind::Code, bytes)
}

// Stores the code as the file `g`, or shows why not.
fn pack_code<C: ShellCalls>(alloc: Global, calls: &mut C, g: &Title, code: &Code) -> OrEnd<()>
    requires ready { C.ready calls.old }
    ensures exact { (s : Shell) (text : List ℕ) → IsCodeOf text code.now → At C.at calls.old s → C.tells calls.new →
        LineDoes C.at C.stands (CompilesText text g.now) result s.drawn s calls.new }
    ensures left { IsLeft C.ready C.failed result calls.new }
    ensures lasts { C.lasts calls.old calls.new }
{
    match pack(alloc, code) {
        Ok(bytes) => store_code(calls, g, &bytes),
        Err(_) => say(calls, &plain("no memory")),
    }
}

// Shows why no code was made of a text.
fn refuse_text<C: ShellCalls>(calls: &mut C, why: Refusal) -> OrEnd<()>
    requires ready { C.ready calls.old }
    ensures exact { (s : Shell) (text g : List ℕ) → Gives (IsCodeOf text) text (Err why) → At C.at calls.old s → C.tells calls.new →
        LineDoes C.at C.stands (CompilesText text g) result s.drawn s calls.new }
    ensures left { IsLeft C.ready C.failed result calls.new }
    ensures lasts { C.lasts calls.old calls.new }
{
    match why {
        Refusal::At { kind, line, .. } => say(calls, &fault_line(kind, line)),
        Refusal::NoMemory => say(calls, &plain("no memory")),
    }
}

// Shows the fault of the text, or stores its code.
fn finish_file<C: ShellCalls>(alloc: Global, calls: &mut C, g: &Title, intake: Intake) -> OrEnd<()>
    requires ready { C.ready calls.old }
    ensures exact { (s : Shell) (text : List ℕ) → HasTaken intake text → At C.at calls.old s → C.tells calls.new →
        LineDoes C.at C.stands (CompilesText text g.now) result s.drawn s calls.new }
    ensures left { IsLeft C.ready C.failed result calls.new }
    ensures lasts { C.lasts calls.old calls.new }
{
    match intake.finish(alloc) {
        Ok(code) => pack_code(alloc, calls, g, &code),
        Err(why) => refuse_text(calls, why),
    }
}

// Compiles the text that the pages of a file are.
fn compile_pages<C: ShellCalls>(
    alloc: Global,
    calls: &mut C,
    f: &Title,
    g: &Title,
    pages: u32,
) -> OrEnd<()>
    requires ready { C.ready calls.old }
    ensures exact { (s : Shell) (file : File) → At C.at calls.old s → C.tells calls.new → file_in s f.now ≡ Some file →
        length file.bytes ≤ 512 * pages → LineDoes C.at C.stands (CompilesText file.bytes g.now) result s.drawn s calls.new }
    ensures left { IsLeft C.ready C.failed result calls.new }
    ensures lasts { C.lasts calls.old calls.new }
{
    let mut intake = Intake::new(alloc);
    if !feed_file(alloc, calls, f, pages, &mut intake)? {
        return say(calls, &plain("no memory"));
    }
    finish_file(alloc, calls, g, intake)
}

/// `compile f g`
pub fn compile_file<C: ShellCalls>(alloc: Global, calls: &mut C, f: &Title, g: &Title) -> OrEnd<()>
    requires ready { C.ready calls.old }
    ensures exact { (s : Shell) → At C.at calls.old s → C.tells calls.new →
        LineDoes C.at C.stands (CompilesFile f.now g.now (file_in s f.now)) result s.drawn s calls.new }
    ensures left { IsLeft C.ready C.failed result calls.new }
    ensures lasts { C.lasts calls.old calls.new }
{
    let Some(entry) = open(calls, f, Some(FileKind::Text))? else {
        return Ok(());
    };
    compile_pages(alloc, calls, f, g, entry.length.div_ceil(512))
}
