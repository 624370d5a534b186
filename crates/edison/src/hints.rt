//! Hints: one line on the error stream after a call that did not do its command, for who sits at a terminal. They come after
//! all that the call `edison` shows and are no part of it, so that no clause speaks of them.

use edi_calls::Cause;
use edi_main::Status;
use std::io::IsTerminal;

/// The commands, each with how it is called. The manual and its page agree with these lines (`.ci/documents`).
const USAGES: [(&str, &str); 15] = [
    (
        "run",
        "run FILE [--turns N] [--choices FILE | --seed N] [--record FILE] [--timeline NAME | --dump NAME]",
    ),
    (
        "replay",
        "replay FILE CHOICES [--turns N] [--timeline NAME | --dump NAME]",
    ),
    ("compile", "compile FILE OUT"),
    (
        "exec",
        "exec CODEFILE [--turns N] [--choices FILE | --seed N] [--record FILE] [--timeline NAME | --dump NAME]",
    ),
    ("list", "list CODEFILE"),
    ("check", "check FILE"),
    ("explain", "explain FILE"),
    (
        "explore",
        "explore FILE [--states N] [--shown N] [--turns N] [--record NAME]",
    ),
    ("walk", "walk FILE CHOICES [--turns N]"),
    (
        "watch",
        "watch FILE STOPS OUT [--turns N] [--choices FILE | --seed N] [--record FILE]",
    ),
    ("newdisk", "newdisk BLOCKS [--from FILE]"),
    ("put", "put FILE TITLE"),
    ("get", "get TITLE FILE"),
    (
        "demo",
        "demo N [--turns N] [--choices FILE | --seed N] [--record FILE] [--timeline NAME | --dump NAME]",
    ),
    (
        "boot",
        "boot [--turns N] [--choices FILE | --seed N] [--record FILE]",
    ),
];

/// What a command of the words is named, and its first two operands; each is empty where there is none; and which
/// options that keep something are there.
#[derive(Clone, Copy)]
struct Asked<'a> {
    command: &'a str,
    file: &'a str,
    second: &'a str,
    has_dump: bool,
    has_timeline: bool,
}

/// Whether a byte stands for itself in a shell.
fn is_plain(byte: u8) -> bool {
    byte.is_ascii_alphanumeric() || matches!(byte, b'.' | b'_' | b'-' | b'+' | b'/')
}

/// The name of a file as it may be shown: itself if it has letters, digits, `.`, `_`, `-`, `+` and `/` alone, else what the usage
/// calls it. So no control character reaches the terminal, and a name that is shown is one word to a shell.
fn shown_name<'a>(name: &'a str, called: &'static str) -> &'a str {
    for byte in name.as_bytes() {
        if !is_plain(*byte) {
            return called;
        }
    }
    name
}

/// What the usage of a command calls its second operand.
fn second_name(command: &str) -> &'static str {
    if command == "watch" {
        "STOPS"
    } else {
        "CHOICES"
    }
}

/// The first three words that are neither an option nor its value, and which options that keep something are there.
fn asked_by(words: &[String]) -> Asked<'_> {
    let mut asked = Asked {
        command: "",
        file: "",
        second: "",
        has_dump: false,
        has_timeline: false,
    };
    let mut is_value = false;
    for word in words {
        if is_value {
            is_value = false;
        } else if word.as_str().starts_with("-") {
            is_value = true;
            asked.has_dump = asked.has_dump || word.as_str() == "--dump";
            asked.has_timeline = asked.has_timeline || word.as_str() == "--timeline";
        } else if asked.command.is_empty() {
            asked.command = word.as_str();
        } else if asked.file.is_empty() {
            asked.file = word.as_str();
        } else if asked.second.is_empty() {
            asked.second = word.as_str();
        }
    }
    asked
}

/// How this command is called; nothing where there is none of this name.
fn usage_of(command: &str) -> &'static str {
    for (name, usage) in USAGES {
        if name == command {
            return usage;
        }
    }
    ""
}

/// Shows the names of the commands.
fn show_commands(rt: &HostRuntime) {
    let _ = eprint!(rt;
        "usage: edison COMMAND ..; COMMAND --help shows its words, man edison all. The commands:"
    );
    for (name, _) in USAGES {
        let _ = eprint!(rt; " {name}");
    }
    let _ = eprintln!(rt);
}

/// Shows how the command is called that was meant, or which commands there are.
fn show_usage(rt: &HostRuntime, command: &str) {
    let usage = usage_of(command);
    if usage.is_empty() {
        show_commands(rt);
    } else {
        let _ = eprintln!(rt; "usage: edison {usage}");
    }
}

/// Whether the words are those of a run that has its source.
fn has_source(asked: Asked<'_>) -> bool {
    asked.command == "run" || asked.command == "replay"
}

/// Whether the words are those of a run that takes a dump and a timeline.
fn is_kept(asked: Asked<'_>) -> bool {
    has_source(asked) || asked.command == "exec" || asked.command == "demo"
}

/// Shows which options keep more of a run: a dump, which has this, and a timeline. The one that the run has is not shown.
fn show_options(rt: &HostRuntime, asked: Asked<'_>, dumped: &str) {
    if asked.has_dump {
        let _ = eprint!(rt; "--timeline NAME keeps a picture");
    } else if asked.has_timeline {
        let _ = eprint!(rt; "--dump NAME keeps {dumped}");
    } else {
        let _ = eprint!(rt; "--dump NAME keeps {dumped}, --timeline NAME a picture");
    }
}

/// Shows what tells more of a run that stands still: of one that has its source also a command.
fn show_standstill(rt: &HostRuntime, asked: Asked<'_>) {
    let file = shown_name(asked.file, "FILE");
    if has_source(asked) {
        show_options(rt, asked, "who waits where, with all variables");
        let _ = eprintln!(rt; "; edison explore {file} shows all endings");
    } else if is_kept(asked) {
        show_options(rt, asked, "who waits where");
        let _ = eprintln!(rt);
    }
}

/// Shows of a command that reads two files which ones it has looked for.
fn show_absent(rt: &HostRuntime, asked: Asked<'_>) {
    let command = asked.command;
    if command == "replay" || command == "walk" || command == "watch" {
        let file = shown_name(asked.file, "FILE");
        let second = shown_name(asked.second, second_name(command));
        let _ = eprintln!(rt; "there is no file {file}, or no file {second}");
    }
}

/// Shows how a file is run that is no code.
fn show_code(rt: &HostRuntime, asked: Asked<'_>) {
    let command = asked.command;
    let file = shown_name(asked.file, "FILE");
    if command == "exec" || command == "list" {
        let _ = eprintln!(rt;
            "edison {command} takes a file that edison compile has written; edison run {file} runs a source file"
        );
    }
}

/// Shows what tells more of a run that has ended elsewhere than it was to: of one that has its source also a command. A code
/// file has no names, so that its dump has words in place of variables.
fn show_more(rt: &HostRuntime, asked: Asked<'_>) {
    let file = shown_name(asked.file, "FILE");
    if asked.command == "exec" {
        show_options(rt, asked, "the calls and words at the end");
    } else {
        show_options(rt, asked, "the calls and variables at the end");
    }
    if has_source(asked) {
        let _ = eprint!(rt; "; edison watch {file} STOPS OUT logs variables");
    }
}

/// Shows what tells more of a run that fails.
fn show_failure(rt: &HostRuntime, asked: Asked<'_>) {
    if is_kept(asked) {
        show_more(rt, asked);
        let _ = eprintln!(rt);
    }
}

/// Shows what tells more of a run that has used up its turns, and how it gets more.
fn show_turns(rt: &HostRuntime, asked: Asked<'_>) {
    if is_kept(asked) {
        show_more(rt, asked);
        let _ = eprint!(rt; "; ");
    }
    let _ = eprintln!(rt; "--turns N sets the turns");
}

/// Shows the hint for this status of these words, if there is one and the error stream is a terminal.
pub(crate) fn show(rt: &HostRuntime, words: &[String], status: Status) {
    if !rt.stderr().is_terminal() {
        return;
    }
    let asked = asked_by(words);
    match status {
        Status::Words => show_usage(rt, asked.command),
        Status::Refused(_, _) if asked.command != "explain" => {
            let file = shown_name(asked.file, "FILE");
            let _ = eprintln!(rt; "edison explain {file} says more");
        }
        Status::Stopped(Cause::Halt, _) => {}
        Status::Stopped(_, _) => show_failure(rt, asked),
        Status::Standstill => show_standstill(rt, asked),
        Status::Absent => show_absent(rt, asked),
        Status::BadCode(_) => show_code(rt, asked),
        Status::Turns => show_turns(rt, asked),
        _ => {}
    }
}
