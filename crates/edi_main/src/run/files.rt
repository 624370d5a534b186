//! The commands that run the program of a file: `run`, and `replay`, that of a text, `exec` that of a code file; and the same with an account of the
//! run.

ghost use Rattle.std.specs.Prelude.{◌≡◌, true, Some, option_map};
ghost use Rattle.edi_words.specs.View.{account_of, options_of};
ghost use Rattle.edi_statuses.specs.EachObject.{DevicesStay, FitsCount, RunStays, handed, is_at_drive, is_before_drive};
ghost use Rattle.edi_statuses.specs.Outside.{lent, outside_of};
ghost use Rattle.edi_statuses.specs.Counts.{counts_of, HasCause, NoneFalls};
ghost use Rattle.edi_statuses.specs.Decided.{Came};
ghost use Rattle.edi_main.specs.run.Blaming.{Blaming};
ghost use Rattle.edi_main.specs.run.FileSteps.{CodeStep, command_for, command_with, limit_of, account_with, text_given};

use crate::run::accounts::run_with;
use crate::run::texts::code_of_text;
use crate::steps::{load_code, open_program, stopped};
use edi_host::{Drive, Files, Sink, Source};
use edi_kernel::Kernel;
use edi_statuses::{Ended, Status};
use edi_target::Code;
use edi_words::{Account, Options};
use std::alloc::Global;

/// The form in which a file has its program.
#[derive(Clone, Copy, Drop)]
pub enum Form {
    /// A text.
    Text,
    /// A code file.
    Code,
}

/// As many bytes as decide what a file is.
pub(crate) fn limit_of(form: Form) -> usize
    ensures exact { result ≡ limit_of form }
{
    match form {
        Form::Text => 262_145,
        Form::Code => 8_388_641,
    }
}

/// The code of the bytes of a file, or why the command stops there.
fn code_of(alloc: Global, form: Form, bytes: &[u8]) -> Result<Code, Status>
    ensures gives { CodeStep form bytes.now result }
{
    match form {
        Form::Text => code_of_text(alloc, bytes),
        Form::Code => load_code(alloc, bytes),
    }
}

/// The text of a file, if it has one.
fn text_given(form: Form, bytes: &[u8]) -> Option<&[u8]>
    ensures exact { option_map (λ text. text.now) result ≡ text_given form bytes.now }
{
    match form {
        Form::Text => Some(bytes),
        Form::Code => None,
    }
}

/// Runs the program of a file, and keeps an account of the run if one is asked for: fetches the file, reads the choices, compiles the text or loads the
/// code, mounts the drive, runs, and keeps the record and the account, in this order.
fn run_form<F: Files, D: Drive, S: Source, T: Sink, P: Sink>(
    alloc: Global,
    form: Form,
    file: &str,
    account: Option<Account<'_>>,
    options: Options<'_>,
    files: &mut F,
    drive: &mut D,
    input: &mut S,
    terminal: &mut T,
    printer: &mut P,
    kernel: &mut Kernel,
) -> Ended
    ensures came { Blaming result.status (T.faults terminal.old) (T.faults terminal.new) (P.faults printer.old) (P.faults printer.new)
        (Came result.status result.due (Some (command_for form (option_map account_of account.entry) file.now (options_of options.entry)))
        (outside_of F.contents D.contents S.left T.taken P.taken files.old drive.old input.old terminal.old printer.old)
        (outside_of F.contents D.contents S.left T.taken P.taken files.new drive.new input.new terminal.new printer.new))
        (lent kernel.old.store kernel.old.used kernel.new.store kernel.new.used) }
    ensures cause { HasCause result.status
        (counts_of F.faults D.faults S.faults T.faults P.faults files.old drive.old input.old terminal.old printer.old)
        (counts_of F.faults D.faults S.faults T.faults P.faults files.new drive.new input.new terminal.new printer.new) }
    ensures later { NoneFalls
        (counts_of F.faults D.faults S.faults T.faults P.faults files.old drive.old input.old terminal.old printer.old)
        (counts_of F.faults D.faults S.faults T.faults P.faults files.new drive.new input.new terminal.new printer.new) }
    ensures size { D.count drive.new ≡ D.count drive.old }
    ensures fits { FitsCount result.status (D.count drive.old) }
    ensures early { is_before_drive result.status ≡ true
        → DevicesStay (handed files.old drive.old input.old terminal.old printer.old kernel.old)
        (handed files.new drive.new input.new terminal.new printer.new kernel.new) }
    ensures unmounted { is_at_drive result.status ≡ true
        → RunStays (handed files.old drive.old input.old terminal.old printer.old kernel.old)
        (handed files.new drive.new input.new terminal.new printer.new kernel.new) }
{
    let mut opened = match open_program(alloc, files, file, limit_of(form), options.choices) {
        Ok(opened) => opened,
        Err(status) => return stopped(status),
    };
    let code = match code_of(alloc, form, &opened.bytes) {
        Ok(code) => code,
        Err(status) => return stopped(status),
    };
    run_with(
        alloc,
        &code,
        text_given(form, &opened.bytes),
        options.turns,
        account,
        options.record_file,
        &mut opened.choices,
        files,
        drive,
        input,
        terminal,
        printer,
        kernel,
    )
}

/// `run FILE`, or `exec CODEFILE` where the file has code: fetches the file, reads the choices, compiles the text or loads the code,
/// mounts the drive, runs, and keeps the record, in this order.
///
/// The kernel may have run anything before; it is left alone where nothing is run. What the status means, and how all that is
/// outside stands behind the call, is told by `Came`: the first step that stops decides. Want of memory comes only before the first
/// effect, or where the record is to be kept; the fault of an object only where its count rose. `replay FILE CHOICES` is `run` with
/// the choices of that file and without a record (`replaying`).
pub fn run_file<F: Files, D: Drive, S: Source, T: Sink, P: Sink>(
    alloc: Global,
    form: Form,
    file: &str,
    options: Options<'_>,
    files: &mut F,
    drive: &mut D,
    input: &mut S,
    terminal: &mut T,
    printer: &mut P,
    kernel: &mut Kernel,
) -> Ended
    // An object that has failed in the run is blamed.
    ensures came { Blaming result.status (T.faults terminal.old) (T.faults terminal.new) (P.faults printer.old) (P.faults printer.new)
        (Came result.status result.due (Some (command_with form file.now (options_of options.entry)))
        (outside_of F.contents D.contents S.left T.taken P.taken files.old drive.old input.old terminal.old printer.old)
        (outside_of F.contents D.contents S.left T.taken P.taken files.new drive.new input.new terminal.new printer.new))
        (lent kernel.old.store kernel.old.used kernel.new.store kernel.new.used) }
    ensures cause { HasCause result.status
        (counts_of F.faults D.faults S.faults T.faults P.faults files.old drive.old input.old terminal.old printer.old)
        (counts_of F.faults D.faults S.faults T.faults P.faults files.new drive.new input.new terminal.new printer.new) }
    ensures later { NoneFalls
        (counts_of F.faults D.faults S.faults T.faults P.faults files.old drive.old input.old terminal.old printer.old)
        (counts_of F.faults D.faults S.faults T.faults P.faults files.new drive.new input.new terminal.new printer.new) }
    // The status fits the number of blocks, which stays, whatever the drive tells; and where the drive is not asked, no object but the
    // files is touched.
    ensures size { D.count drive.new ≡ D.count drive.old }
    ensures fits { FitsCount result.status (D.count drive.old) }
    ensures early { is_before_drive result.status ≡ true
        → DevicesStay (handed files.old drive.old input.old terminal.old printer.old kernel.old)
        (handed files.new drive.new input.new terminal.new printer.new kernel.new) }
    ensures unmounted { is_at_drive result.status ≡ true
        → RunStays (handed files.old drive.old input.old terminal.old printer.old kernel.old)
        (handed files.new drive.new input.new terminal.new printer.new kernel.new) }
{
    run_form(
        alloc, form, file, None, options, files, drive, input, terminal, printer, kernel,
    )
}

/// `run FILE` with `--timeline OUT` or `--dump OUT`, or `exec CODEFILE` with one of these where the file has code: as `run_file`, and then keeps the
/// account of the run: the timeline, as lines under the name `OUT.txt` and as a picture under the name `OUT.svg`; or the dump under the name `OUT`. The
/// record is kept before it.
///
/// Want of memory comes only before the first effect, or where a file is to be kept; no file is kept where an object has failed.
pub fn run_file_with<F: Files, D: Drive, S: Source, T: Sink, P: Sink>(
    alloc: Global,
    form: Form,
    file: &str,
    account: Account<'_>,
    options: Options<'_>,
    files: &mut F,
    drive: &mut D,
    input: &mut S,
    terminal: &mut T,
    printer: &mut P,
    kernel: &mut Kernel,
) -> Ended
    ensures came { Blaming result.status (T.faults terminal.old) (T.faults terminal.new) (P.faults printer.old) (P.faults printer.new)
        (Came result.status result.due (Some (account_with form file.now (account_of account.entry) (options_of options.entry)))
        (outside_of F.contents D.contents S.left T.taken P.taken files.old drive.old input.old terminal.old printer.old)
        (outside_of F.contents D.contents S.left T.taken P.taken files.new drive.new input.new terminal.new printer.new))
        (lent kernel.old.store kernel.old.used kernel.new.store kernel.new.used) }
    ensures cause { HasCause result.status
        (counts_of F.faults D.faults S.faults T.faults P.faults files.old drive.old input.old terminal.old printer.old)
        (counts_of F.faults D.faults S.faults T.faults P.faults files.new drive.new input.new terminal.new printer.new) }
    ensures later { NoneFalls
        (counts_of F.faults D.faults S.faults T.faults P.faults files.old drive.old input.old terminal.old printer.old)
        (counts_of F.faults D.faults S.faults T.faults P.faults files.new drive.new input.new terminal.new printer.new) }
    ensures size { D.count drive.new ≡ D.count drive.old }
    ensures fits { FitsCount result.status (D.count drive.old) }
    ensures early { is_before_drive result.status ≡ true
        → DevicesStay (handed files.old drive.old input.old terminal.old printer.old kernel.old)
        (handed files.new drive.new input.new terminal.new printer.new kernel.new) }
    ensures unmounted { is_at_drive result.status ≡ true
        → RunStays (handed files.old drive.old input.old terminal.old printer.old kernel.old)
        (handed files.new drive.new input.new terminal.new printer.new kernel.new) }
{
    run_form(
        alloc,
        form,
        file,
        Some(account),
        options,
        files,
        drive,
        input,
        terminal,
        printer,
        kernel,
    )
}
