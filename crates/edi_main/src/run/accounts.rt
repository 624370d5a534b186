//! A run with an account of it, and a run with one or without.

ghost use Rattle.std.specs.Prelude.{◌≡◌, ⊤, None, true, option_map};
ghost use Rattle.edi_told.specs.Told.{WhereTold};
ghost use Rattle.edi_words.specs.View.{account_of};
ghost use Rattle.edi_statuses.specs.Outside.{lent, outside_of};
ghost use Rattle.edi_statuses.specs.Counts.{counts_of, HasCause, NoneFalls};
ghost use Rattle.edi_statuses.specs.EachObject.{RunStays, handed, is_at_drive};
ghost use Rattle.edi_main.specs.run.Blaming.{Blaming};
ghost use Rattle.edi_main.specs.run.OnMounted.{DriveAsked};
ghost use Rattle.edi_main.specs.run.OnAccounts.{IsGiven, RanAccount, RanWith};

use crate::run::code::run_code;
use crate::run::dumping::dump_code;
use crate::run::timing::time_code;
use edi_host::{Drive, Files, Sink, Source};
use edi_kernel::Kernel;
use edi_statuses::Ended;
use edi_target::Code;
use edi_trace::Choices;
use edi_words::Account;
use std::alloc::Global;

/// Runs the code and keeps this account of the run, as `time_code` or as `dump_code` does. A text that is given is that of the
/// code.
fn account_code<F: Files, D: Drive, S: Source, T: Sink, P: Sink>(
    alloc: Global,
    code: &Code,
    text: Option<&[u8]>,
    turns: u32,
    account: Account<'_>,
    record_file: Option<&str>,
    choices: &mut Choices,
    files: &mut F,
    drive: &mut D,
    input: &mut S,
    terminal: &mut T,
    printer: &mut P,
    kernel: &mut Kernel,
) -> Ended
    requires none_drawn { choices.old.drawn ≡ 0 }
    ensures ran { Blaming result.status (T.faults terminal.old) (T.faults terminal.new) (P.faults printer.old) (P.faults printer.new)
        (RanAccount (IsGiven (option_map (λ bytes. bytes.now) text.entry) code.now) turns choices.old.source
        (account_of account.entry) (option_map (λ name. name.now) record_file.entry) result.status result.due
        (outside_of F.contents D.contents S.left T.taken P.taken files.old drive.old input.old terminal.old printer.old)
        (outside_of F.contents D.contents S.left T.taken P.taken files.new drive.new input.new terminal.new printer.new))
        (lent kernel.old.store kernel.old.used kernel.new.store kernel.new.used) }
    ensures tells { WhereTold (F.contents files.old) (F.contents files.new) (λ old new. ⊤) }
    ensures cause { HasCause result.status
        (counts_of F.faults D.faults S.faults T.faults P.faults files.old drive.old input.old terminal.old printer.old)
        (counts_of F.faults D.faults S.faults T.faults P.faults files.new drive.new input.new terminal.new printer.new) }
    ensures later { NoneFalls
        (counts_of F.faults D.faults S.faults T.faults P.faults files.old drive.old input.old terminal.old printer.old)
        (counts_of F.faults D.faults S.faults T.faults P.faults files.new drive.new input.new terminal.new printer.new) }
    ensures size { D.count drive.new ≡ D.count drive.old }
    ensures asked { DriveAsked result.status (D.count drive.old) }
    ensures unmounted { is_at_drive result.status ≡ true
        → RunStays (handed files.old drive.old input.old terminal.old printer.old kernel.old)
        (handed files.new drive.new input.new terminal.new printer.new kernel.new) }
{
    match account {
        Account::Timeline(out) => time_code(
            alloc,
            code,
            turns,
            out,
            record_file,
            choices,
            files,
            drive,
            input,
            terminal,
            printer,
            kernel,
        ),
        Account::Dump(out) => dump_code(
            alloc,
            code,
            text,
            turns,
            out,
            record_file,
            choices,
            files,
            drive,
            input,
            terminal,
            printer,
            kernel,
        ),
    }
}

/// Runs the code as `run_code` does; or as `account_code` does, if an account is asked for.
pub(crate) fn run_with<F: Files, D: Drive, S: Source, T: Sink, P: Sink>(
    alloc: Global,
    code: &Code,
    text: Option<&[u8]>,
    turns: u32,
    account: Option<Account<'_>>,
    record_file: Option<&str>,
    choices: &mut Choices,
    files: &mut F,
    drive: &mut D,
    input: &mut S,
    terminal: &mut T,
    printer: &mut P,
    kernel: &mut Kernel,
) -> Ended
    requires none_drawn { choices.old.drawn ≡ 0 }
    ensures ran { Blaming result.status (T.faults terminal.old) (T.faults terminal.new) (P.faults printer.old) (P.faults printer.new)
        (RanWith (option_map account_of account.entry) (IsGiven (option_map (λ bytes. bytes.now) text.entry) code.now) turns choices.old.source
        (option_map (λ name. name.now) record_file.entry) result.status result.due
        (outside_of F.contents D.contents S.left T.taken P.taken files.old drive.old input.old terminal.old printer.old)
        (outside_of F.contents D.contents S.left T.taken P.taken files.new drive.new input.new terminal.new printer.new))
        (lent kernel.old.store kernel.old.used kernel.new.store kernel.new.used) }
    ensures tells { WhereTold (F.contents files.old) (F.contents files.new) (λ old new. ⊤) }
    ensures cause { HasCause result.status
        (counts_of F.faults D.faults S.faults T.faults P.faults files.old drive.old input.old terminal.old printer.old)
        (counts_of F.faults D.faults S.faults T.faults P.faults files.new drive.new input.new terminal.new printer.new) }
    ensures later { NoneFalls
        (counts_of F.faults D.faults S.faults T.faults P.faults files.old drive.old input.old terminal.old printer.old)
        (counts_of F.faults D.faults S.faults T.faults P.faults files.new drive.new input.new terminal.new printer.new) }
    ensures untouched { account.entry ≡ None → record_file.entry ≡ None → files.new ≡ files.old }
    ensures size { D.count drive.new ≡ D.count drive.old }
    ensures asked { DriveAsked result.status (D.count drive.old) }
    ensures unmounted { is_at_drive result.status ≡ true
        → RunStays (handed files.old drive.old input.old terminal.old printer.old kernel.old)
        (handed files.new drive.new input.new terminal.new printer.new kernel.new) }
{
    match account {
        None => run_code(
            alloc,
            code,
            turns,
            record_file,
            choices,
            files,
            drive,
            input,
            terminal,
            printer,
            kernel,
        ),
        Some(account) => account_code(
            alloc,
            code,
            text,
            turns,
            account,
            record_file,
            choices,
            files,
            drive,
            input,
            terminal,
            printer,
            kernel,
        ),
    }
}
