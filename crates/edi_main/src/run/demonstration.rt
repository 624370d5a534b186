//! `demo N`: the program of the demonstration, with an account of the run or without one.

ghost use Rattle.std.specs.Prelude.{◌≡◌, ◌≤◌, ◌++◌, IfOk, ⊤, None, Some, false, true, option_map};
ghost use Rattle.edi_told.specs.Faults.{CountRose};
ghost use Rattle.edi_told.specs.Told.{WhereTold};
ghost use Rattle.edi_lex.specs.Symbols.{symbols_of};
ghost use Rattle.edi_utils.specs.Demo.{demo_line};
ghost use Rattle.edi_words.specs.View.{account_of, options_of};
ghost use Rattle.edi_statuses.specs.Commands.{count_in};
ghost use Rattle.edi_statuses.specs.Lines.{feed};
ghost use Rattle.edi_statuses.specs.EachObject.{is_before_drive, uses_files};
ghost use Rattle.edi_statuses.specs.Outside.{lent};
ghost use Rattle.edi_statuses.specs.Showing.{ShowsBytes};
ghost use Rattle.edi_main.specs.run.Blaming.{Blaming};
ghost use Rattle.edi_main.specs.run.OnAccounts.{IsGiven};
ghost use Rattle.edi_main.specs.run.Demonstrated.{CameAlone, DemoStep, HasCauseAlone, RanAlone, demo_with, is_ok};

use crate::run::accounts::run_with;
use crate::run::texts::code_of_text;
use crate::steps::{read_from, stopped};
use arrayvec::ArrayString;
use edi_host::{Files, Sink, SteadyDrive, SteadySource};
use edi_kernel::Kernel;
use edi_lex::{LexFault, scan};
use edi_statuses::{Ended, Status, show_bytes};
use edi_target::Code;
use edi_trace::Choices;
use edi_utils::demo;
use edi_words::{Account, Options};
use itoa::Buffer;
use std::alloc::{AllocError, Global};

/// The code of the demonstration, its text, and the number of the symbols of that.
#[derive(Drop)]
pub(crate) struct Demo {
    pub(crate) code: Code,
    pub(crate) text: Vec<u8>,
    pub(crate) symbols: usize,
}

/// The number of the symbols of a text; 0 where the text has none.
fn count_symbols(alloc: Global, text: &[u8]) -> Result<usize, AllocError>
    ensures exact { IfOk result (λ n. n ≡ count_in (symbols_of text.now)) }
{
    match scan(alloc, text) {
        Ok(symbols) => Ok(symbols.marks.len()),
        Err(LexFault::BadCharacter(_)) => Ok(0),
        Err(LexFault::BadNumeral(_)) => Ok(0),
        Err(LexFault::TooLong) => Ok(0),
        Err(LexFault::NoMemory) => Err(AllocError),
    }
}

/// The code of the demonstration with `n` procedures, or why the command stops there.
fn demo_code(alloc: Global, n: u32) -> Result<Demo, Status>
    requires some { 1 ≤ n }
    requires many { n ≤ 1000 }
    ensures made { DemoStep n result }
{
    let text = demo(alloc, n)?;
    let symbols = count_symbols(alloc, &text)?;
    let code = match code_of_text(alloc, &text) {
        Ok(code) => code,
        Err(status) => return Err(status),
    };
    Ok(Demo {
        code,
        text,
        symbols,
    })
}

/// Runs the code of this text without a disk and on an empty input of its own, and keeps the record of the choices that it drew and an account of the run, each if
/// there is to be one.
fn run_alone<F: Files, T: Sink, P: Sink>(
    alloc: Global,
    code: &Code,
    text: &[u8],
    turns: u32,
    account: Option<Account<'_>>,
    record_file: Option<&str>,
    choices: &mut Choices,
    files: &mut F,
    terminal: &mut T,
    printer: &mut P,
    kernel: &mut Kernel,
) -> Ended
    requires none_drawn { choices.old.drawn ≡ 0 }
    ensures ran { Blaming result.status (T.faults terminal.old) (T.faults terminal.new) (P.faults printer.old) (P.faults printer.new)
        (RanAlone (option_map account_of account.entry) (IsGiven (Some text.now) code.now) turns choices.old.source
        (option_map (λ name. name.now) record_file.entry) result.status result.due
        (F.contents files.old) (F.contents files.new) (T.taken terminal.old) (T.taken terminal.new) (P.taken printer.old) (P.taken printer.new))
        (lent kernel.old.store kernel.old.used kernel.new.store kernel.new.used) }
    ensures tells { WhereTold (F.contents files.old) (F.contents files.new) (λ old new. ⊤) }
    ensures cause { HasCauseAlone result.status (F.faults files.old) (F.faults files.new) (T.faults terminal.old) (T.faults terminal.new)
        (P.faults printer.old) (P.faults printer.new) }
    ensures later_files { F.faults files.old ≤ F.faults files.new }
    ensures later_terminal { T.faults terminal.old ≤ T.faults terminal.new }
    ensures later_printer { P.faults printer.old ≤ P.faults printer.new }
    ensures untouched { account.entry ≡ None → record_file.entry ≡ None → files.new ≡ files.old }
    ensures asked { is_before_drive result.status ≡ false }
{
    let Ok(mut disk) = SteadyDrive::new(alloc, &[]) else {
        return stopped(Status::NoMemory);
    };
    let Ok(mut input) = SteadySource::new(alloc, &[]) else {
        return stopped(Status::NoMemory);
    };
    run_with(
        alloc,
        code,
        Some(text),
        turns,
        account,
        record_file,
        choices,
        files,
        &mut disk,
        &mut input,
        terminal,
        printer,
        kernel,
    )
}

/// The line of a demonstration, behind a line feed where one is due.
fn size_line(due: bool, n: u32, symbols: usize, turns: u64) -> ArrayString<96>
    ensures exact { result.bytes ≡ feed due ++ demo_line n symbols turns }
{
    let mut line = ArrayString::<96>::new();
    let mut buffer = Buffer::new();
    if due {
        line.push_str("\n");
    }
    line.push_str("demo ");
    line.push_str(buffer.format(n));
    line.push_str(" symbols ");
    line.push_str(buffer.format(symbols));
    line.push_str(" turns ");
    line.push_str(buffer.format(turns));
    line.push_str("\n");
    line
}

/// Shows the line of a demonstration.
fn show_size<T: Sink>(terminal: &mut T, n: u32, symbols: usize, turns: u64, due: bool) -> Ended
    ensures shows { ShowsBytes (feed due ++ demo_line n symbols turns) due result (T.taken terminal.old) (T.taken terminal.new) }
    ensures cause { result.status ≡ Status.OutputFault → CountRose (T.faults terminal.old) (T.faults terminal.new) }
    ensures later { T.faults terminal.old ≤ T.faults terminal.new }
{
    let line = size_line(due, n, symbols, turns);
    show_bytes(terminal, line.as_str().as_bytes(), due)
}

/// The program has come to its end.
fn is_ok(status: Status) -> bool
    ensures exact { result ≡ is_ok status }
{
    match status {
        Status::Ok => true,
        _ => false,
    }
}

/// `demo N`: reads the choices, compiles the text of the demonstration with `n` procedures, 1 to 1000, runs it without a disk and on
/// an empty input, keeps the record, and, where the program has come to its end, shows the line `demo N symbols S turns T`. If one is
/// asked for, an account of the run is kept too, after the record and before the line is shown.
///
/// The drive and the input are left alone, whatever they are. All else is as for `run`.
pub fn demonstrate<F: Files, T: Sink, P: Sink>(
    alloc: Global,
    n: u32,
    account: Option<Account<'_>>,
    options: Options<'_>,
    files: &mut F,
    terminal: &mut T,
    printer: &mut P,
    kernel: &mut Kernel,
) -> Ended
    requires some { 1 ≤ n }
    requires many { n ≤ 1000 }
    ensures came { Blaming result.status (T.faults terminal.old) (T.faults terminal.new) (P.faults printer.old) (P.faults printer.new)
        (CameAlone (demo_with n (option_map account_of account.entry) (options_of options.entry)) result.status result.due
        (F.contents files.old) (F.contents files.new) (T.taken terminal.old) (T.taken terminal.new) (P.taken printer.old) (P.taken printer.new))
        (lent kernel.old.store kernel.old.used kernel.new.store kernel.new.used) }
    ensures cause { HasCauseAlone result.status (F.faults files.old) (F.faults files.new) (T.faults terminal.old) (T.faults terminal.new)
        (P.faults printer.old) (P.faults printer.new) }
    ensures later_files { F.faults files.old ≤ F.faults files.new }
    ensures later_terminal { T.faults terminal.old ≤ T.faults terminal.new }
    ensures later_printer { P.faults printer.old ≤ P.faults printer.new }
    // Where no file is named, the files are left alone.
    ensures no_files { uses_files (demo_with n (option_map account_of account.entry) (options_of options.entry)) ≡ false
        → files.new ≡ files.old }
    // Where the command stops before it runs anything, no object but the files is touched.
    ensures early { is_before_drive result.status ≡ true
        → (terminal.new ≡ terminal.old) × (printer.new ≡ printer.old) × (kernel.new ≡ kernel.old) }
{
    let mut choices = match read_from(alloc, files, options.choices) {
        Ok(choices) => choices,
        Err(status) => return stopped(status),
    };
    let made = match demo_code(alloc, n) {
        Ok(made) => made,
        Err(status) => return stopped(status),
    };
    let ended = run_alone(
        alloc,
        &made.code,
        &made.text,
        options.turns,
        account,
        options.record_file,
        &mut choices,
        files,
        terminal,
        printer,
        kernel,
    );
    if !is_ok(ended.status) {
        return ended;
    }
    show_size(terminal, n, made.symbols, kernel.turns_used(), ended.due)
}
