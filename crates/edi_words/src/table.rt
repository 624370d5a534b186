//! The table of commands.

ghost use Rattle.std.specs.Prelude.{◌≡◌, IfSome, option_map};
ghost use Rattle.edi_words.specs.Words as words;
ghost use Rattle.edi_words.specs.View.{account_of, texts, view, IsInRange};
ghost use Rattle.edi_words.specs.Inside.{given_view};

use crate::commands::{Account, ChoicesFrom, Command, Options};
use crate::given::Given;
use crate::rows::{
    bare_run, explored_file, file_run, get_file, guided_run, new_disk, only_file, only_files,
    put_file, sized_run, watched_run,
};

/// The command `run`.
fn run<'a>(operands: &[&'a str], given: &Given<'_, 'a>) -> Option<Command<'a>>
    ensures exact { option_map view result ≡ option_map (λ p. words.run p.0 p.1) (words.file_run (texts operands.now) (given_view given.now)) }
    ensures range { IfSome result IsInRange }
{
    let (file, options) = file_run(operands, given)?;
    Some(Command::Run { file, options })
}

/// The command `replay`.
fn replay<'a>(operands: &[&'a str], given: &Given<'_, 'a>) -> Option<Command<'a>>
    ensures exact { option_map view result ≡ option_map (λ p. words.replay p.0.0 p.0.1 p.1) (words.guided_run (texts operands.now) (given_view given.now)) }
    ensures range { IfSome result IsInRange }
{
    let (file, choices, turns) = guided_run(operands, given)?;
    Some(Command::Replay {
        file,
        choices,
        turns,
    })
}

/// The command `exec`.
fn exec<'a>(operands: &[&'a str], given: &Given<'_, 'a>) -> Option<Command<'a>>
    ensures exact { option_map view result ≡ option_map (λ p. words.exec p.0 p.1) (words.file_run (texts operands.now) (given_view given.now)) }
    ensures range { IfSome result IsInRange }
{
    let (file, options) = file_run(operands, given)?;
    Some(Command::Exec { file, options })
}

/// The command `boot`.
fn boot<'a>(operands: &[&'a str], given: &Given<'_, 'a>) -> Option<Command<'a>>
    ensures exact { option_map view result ≡ option_map words.boot (words.bare_run (texts operands.now) (given_view given.now)) }
    ensures range { IfSome result IsInRange }
{
    let options = bare_run(operands, given)?;
    Some(Command::Boot { options })
}

/// The command `compile`.
fn compile<'a>(operands: &[&'a str], given: &Given<'_, 'a>) -> Option<Command<'a>>
    ensures exact { option_map view result ≡ option_map (λ p. words.compile p.0 p.1) (words.only_files (texts operands.now) (given_view given.now)) }
    ensures range { IfSome result IsInRange }
{
    let (file, out) = only_files(operands, given)?;
    Some(Command::Compile { file, out })
}

/// The command `newdisk`.
fn newdisk<'a>(operands: &[&'a str], given: &Given<'_, 'a>) -> Option<Command<'a>>
    ensures exact { option_map view result ≡ option_map (λ p. words.newdisk p.0 p.1) (words.new_disk (texts operands.now) (given_view given.now)) }
    ensures range { IfSome result IsInRange }
{
    let (blocks, old) = new_disk(operands, given)?;
    Some(Command::NewDisk { blocks, old })
}

/// The command `put`.
fn put<'a>(operands: &[&'a str], given: &Given<'_, 'a>) -> Option<Command<'a>>
    ensures exact { option_map view result ≡ option_map (λ p. words.put p.0 p.1) (words.put_file (texts operands.now) (given_view given.now)) }
    ensures range { IfSome result IsInRange }
{
    let (file, title) = put_file(operands, given)?;
    Some(Command::Put { file, title })
}

/// The command `get`.
fn get<'a>(operands: &[&'a str], given: &Given<'_, 'a>) -> Option<Command<'a>>
    ensures exact { option_map view result ≡ option_map (λ p. words.get p.1 p.0) (words.get_file (texts operands.now) (given_view given.now)) }
    ensures range { IfSome result IsInRange }
{
    let (file, title) = get_file(operands, given)?;
    Some(Command::Get { title, file })
}

/// The command `list`.
fn list<'a>(operands: &[&'a str], given: &Given<'_, 'a>) -> Option<Command<'a>>
    ensures exact { option_map view result ≡ option_map words.list (words.only_file (texts operands.now) (given_view given.now)) }
    ensures range { IfSome result IsInRange }
{
    let file = only_file(operands, given)?;
    Some(Command::List { file })
}

/// The command `demo`.
fn demo<'a>(operands: &[&'a str], given: &Given<'_, 'a>) -> Option<Command<'a>>
    ensures exact { option_map view result ≡ option_map (λ p. words.demo p.0 p.1) (words.sized_run (texts operands.now) (given_view given.now)) }
    ensures range { IfSome result IsInRange }
{
    let (n, options) = sized_run(operands, given)?;
    Some(Command::Demo { n, options })
}

/// The command `check`.
fn check<'a>(operands: &[&'a str], given: &Given<'_, 'a>) -> Option<Command<'a>>
    ensures exact { option_map view result ≡ option_map words.check (words.only_file (texts operands.now) (given_view given.now)) }
    ensures range { IfSome result IsInRange }
{
    let file = only_file(operands, given)?;
    Some(Command::Check { file })
}

/// The command `explain`.
fn explain<'a>(operands: &[&'a str], given: &Given<'_, 'a>) -> Option<Command<'a>>
    ensures exact { option_map view result ≡ option_map words.explain (words.only_file (texts operands.now) (given_view given.now)) }
    ensures range { IfSome result IsInRange }
{
    let file = only_file(operands, given)?;
    Some(Command::Explain { file })
}

/// The command `walk`.
fn walk<'a>(operands: &[&'a str], given: &Given<'_, 'a>) -> Option<Command<'a>>
    ensures exact { option_map view result ≡ option_map (λ p. words.walk p.0.0 p.0.1 p.1) (words.guided_run (texts operands.now) (given_view given.now)) }
    ensures range { IfSome result IsInRange }
{
    let (file, choices, turns) = guided_run(operands, given)?;
    Some(Command::Walk {
        file,
        choices,
        turns,
    })
}

/// The command `watch`.
fn watch<'a>(operands: &[&'a str], given: &Given<'_, 'a>) -> Option<Command<'a>>
    ensures exact { option_map view result ≡ option_map (λ p. words.watch p.0.0 p.0.1 p.0.2 p.1) (words.watched_run (texts operands.now) (given_view given.now)) }
    ensures range { IfSome result IsInRange }
{
    let (file, stops, out, options) = watched_run(operands, given)?;
    Some(Command::Watch {
        file,
        stops,
        out,
        options,
    })
}

/// The command `explore`.
fn explore<'a>(operands: &[&'a str], given: &Given<'_, 'a>) -> Option<Command<'a>>
    ensures exact { option_map view result ≡ option_map (λ p. words.explore p.0 p.1) (words.explored_file (texts operands.now) (given_view given.now)) }
    ensures range { IfSome result IsInRange }
{
    let (file, options) = explored_file(operands, given)?;
    Some(Command::Explore { file, options })
}

/// The command of this name, of the disk, the tools and the debugger.
fn named_more<'a>(name: &str, operands: &[&'a str], given: &Given<'_, 'a>) -> Option<Command<'a>>
    ensures exact { option_map view result ≡ words.named_more name.now (texts operands.now) (given_view given.now) }
    ensures range { IfSome result IsInRange }
{
    if name == "put" {
        return put(operands, given);
    }
    if name == "get" {
        return get(operands, given);
    }
    if name == "list" {
        return list(operands, given);
    }
    if name == "demo" {
        return demo(operands, given);
    }
    if name == "check" {
        return check(operands, given);
    }
    if name == "explain" {
        return explain(operands, given);
    }
    if name == "walk" {
        return walk(operands, given);
    }
    if name == "watch" {
        return watch(operands, given);
    }
    None
}

/// The command of this name, without `--states` and `--shown`.
fn named_plain<'a>(name: &str, operands: &[&'a str], given: &Given<'_, 'a>) -> Option<Command<'a>>
    ensures exact { option_map view result ≡ words.named_plain name.now (texts operands.now) (given_view given.now) }
    ensures range { IfSome result IsInRange }
{
    if name == "run" {
        return run(operands, given);
    }
    if name == "replay" {
        return replay(operands, given);
    }
    if name == "exec" {
        return exec(operands, given);
    }
    if name == "boot" {
        return boot(operands, given);
    }
    if name == "compile" {
        return compile(operands, given);
    }
    if name == "newdisk" {
        return newdisk(operands, given);
    }
    named_more(name, operands, given)
}

/// The command of this name. Only `explore` takes `--states` and `--shown`.
fn named<'a>(name: &str, operands: &[&'a str], given: &Given<'_, 'a>) -> Option<Command<'a>>
    ensures exact { option_map view result ≡ words.named name.now (texts operands.now) (given_view given.now) }
    ensures range { IfSome result IsInRange }
{
    if name == "explore" {
        return explore(operands, given);
    }
    if !given.has_no_exploring() {
        return None;
    }
    named_plain(name, operands, given)
}

/// The command with this account, if it runs one program.
fn accounted<'a>(account: Account<'a>, command: Command<'a>) -> Option<Command<'a>>
    requires range { IsInRange command }
    ensures exact { option_map view result ≡ words.accounted (account_of account.entry) (view command.entry) }
    ensures range { IfSome result IsInRange }
{
    match command {
        Command::Run { file, options } => Some(Command::RunWith {
            file,
            account,
            options,
        }),
        Command::Replay {
            file,
            choices,
            turns,
        } => Some(Command::RunWith {
            file,
            account,
            options: Options {
                turns,
                choices: ChoicesFrom::File(choices),
                record_file: None,
            },
        }),
        Command::Exec { file, options } => Some(Command::ExecWith {
            file,
            account,
            options,
        }),
        Command::Demo { n, options } => Some(Command::DemoWith {
            n,
            account,
            options,
        }),
        _ => None,
    }
}

/// The command of this name with this account.
fn named_with<'a>(
    account: Account<'a>,
    name: &str,
    operands: &[&'a str],
    given: &Given<'_, 'a>,
) -> Option<Command<'a>>
    ensures exact { option_map view result ≡ words.named_with (account_of account.entry) name.now (texts operands.now) (given_view given.now) }
    ensures range { IfSome result IsInRange }
{
    let command = named(name, operands, given)?;
    accounted(account, command)
}

/// The command that the operands and options are: the first operand is its name.
pub(crate) fn command_in<'a>(given: &Given<'_, 'a>) -> Option<Command<'a>>
    ensures exact { option_map view result ≡ words.command_in (given_view given.now) }
    ensures range { IfSome result IsInRange }
{
    let (name, operands) = given.operands.split_first()?;
    if given.has_no_account() {
        return named(name, operands, given);
    }
    let account = given.account()?;
    named_with(account, name, operands, given)
}
