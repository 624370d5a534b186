//! Taking lines of the input.

ghost use Rattle.std.specs.Prelude.{◌≡◌, ◌≤◌, ◌<◌, ◌+◌, ◌++◌, ◌∷◌, ◌==◌, ℕ, IfOk, IfSome, IfNone, List, [], length, take, true, false};
ghost use Rattle.edi_session.specs.Shell.{Shell, Taken, echoed, next_line};
ghost use Rattle.edi_shell_io.specs.calls.Standing.{At, IsLeft, Leads};
ghost use Rattle.edi_shell.specs.commands.Taking.{GivesByte, GivesLine, GivesMore, IsLeftSo, LineUnderway};

use arrayvec::ArrayVec;
use edi_session::SessionEnd;
use edi_shell_io::calls::{OrEnd, ShellCalls};

/// The most bytes that the shell takes in a session.
pub const LIMIT: u32 = 4_194_304;

/// The bytes of a command line, and one that tells that it is too long.
pub type LineBytes = ArrayVec<u8, 81>;

const LINE_FEED: u8 = 10;

/// The next byte of the input, or none where the input has ended. `taken` counts the bytes that the shell has taken.
pub(crate) fn next_byte<C: ShellCalls>(calls: &mut C, taken: &mut u32) -> OrEnd<Option<u8>>
    requires ready { C.ready calls.old }
    requires limit { taken.old ≤ LIMIT }
    ensures exact { (s : Shell) → s.taken ≡ taken.old → At C.at calls.old s → C.tells calls.new → GivesByte C.at C.stands result s calls.new }
    ensures left { IsLeftSo C.ready C.failed result calls.new }
    ensures limit { taken.new ≤ LIMIT }
    ensures more { IfOk result (λ byte. IfSome byte (λ b. taken.new ≡ taken.old + 1)) }
    ensures same { IfOk result (λ byte. IfNone byte (taken.new ≡ taken.old)) }
    ensures later { taken.old ≤ taken.new }
    ensures lasts { C.lasts calls.old calls.new }
{
    if *taken >= LIMIT {
        return Err(SessionEnd::Limit);
    }
    let byte = calls.take()?;
    if byte.is_some() {
        *taken += 1;
    }
    Ok(byte)
}

// Shows these bytes where the line is shown.
fn echo<C: ShellCalls>(calls: &mut C, shown: bool, bytes: &[u8]) -> OrEnd<()>
    requires ready { C.ready calls.old }
    ensures exact { (s : Shell) → At C.at calls.old s → C.tells calls.new → Leads C.at C.stands result (echoed shown bytes.now s) calls.new }
    ensures left { IsLeft C.ready C.failed result calls.new }
    ensures lasts { C.lasts calls.old calls.new }
{
    if shown {
        return calls.show(bytes);
    }
    Ok(())
}

/// The next byte of a line, or none where the line has ended: behind its line feed, or where the input has ended behind its last
/// byte. A line that is `shown` is shown as it comes, its line feed too; `empty` tells that no byte of it is kept yet.
pub fn next_of_line<C: ShellCalls>(
    calls: &mut C,
    taken: &mut u32,
    shown: bool,
    empty: bool,
) -> OrEnd<Option<u8>>
    requires ready { C.ready calls.old }
    requires limit { taken.old ≤ LIMIT }
    ensures exact { (most : ℕ) (whole : Taken) (kept : List ℕ) → 0 < most → empty ≡ (length kept == 0)
        → LineUnderway C.at shown most whole kept taken.old calls.old → C.tells calls.new →
        GivesMore C.at C.stands shown most result whole kept taken.new calls.new }
    ensures left { IsLeftSo C.ready C.failed result calls.new }
    ensures limit { taken.new ≤ LIMIT }
    ensures more { IfOk result (λ byte. IfSome byte (λ b. taken.new ≡ taken.old + 1)) }
    ensures within { IfOk result (λ byte. IfSome byte (λ b. (b == 10) ≡ false)) }
    ensures ends { IfOk result (λ byte. IfNone byte (empty ≡ true → taken.old < taken.new)) }
    ensures later { taken.old ≤ taken.new }
    ensures lasts { C.lasts calls.old calls.new }
{
    let Some(byte) = next_byte(calls, taken)? else {
        if empty {
            return Err(SessionEnd::InputEnd);
        }
        echo(calls, shown, &[LINE_FEED])?;
        return Ok(None);
    };
    echo(calls, shown, &[byte])?;
    if byte == LINE_FEED {
        return Ok(None);
    }
    Ok(Some(byte))
}

// Keeps a byte of a line, of a line that is too long the first 81 alone.
fn keep_byte(line: &mut LineBytes, byte: u8)
    ensures keeps { line.new.items ≡ take 81 (line.old.items ++ byte ∷ []) }
{
    if !line.is_full() {
        line.push(byte);
    }
}

/// Takes a command line into `line`, of a line that is too long the first 81 bytes, and shows each byte as it comes.
pub fn take_command<C: ShellCalls>(
    calls: &mut C,
    taken: &mut u32,
    line: &mut LineBytes,
) -> OrEnd<()>
    requires ready { C.ready calls.old }
    requires limit { taken.old ≤ LIMIT }
    requires empty { line.old.items ≡ [] }
    ensures exact { (s : Shell) → s.taken ≡ taken.old → At C.at calls.old s → C.tells calls.new →
        GivesLine C.at C.stands 81 result (next_line true s) line.new.items taken.new calls.new }
    ensures left { IsLeftSo C.ready C.failed result calls.new }
    ensures limit { taken.new ≤ LIMIT }
    ensures more { IfOk result (λ x. taken.old < taken.new) }
    ensures lasts { C.lasts calls.old calls.new }
{
    'bytes: loop {
        let Some(byte) = next_of_line(calls, taken, true, line.is_empty())? else {
            return Ok(());
        };
        keep_byte(line, byte);
    }
}
