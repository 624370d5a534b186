//! Scripts of calls. A line of a script is a word and what belongs to it:
//!
//! | Line | Meaning |
//! |---|---|
//! | `world` | all anew: no files, no disk, no input; nothing fails |
//! | `files N` | no files; their call number N fails, counted from 1 |
//! | `drive N`, `lands N` | a drive of the bytes, whose call number N fails; in the second form a write that fails takes effect |
//! | `input N TEXT` | this input, whose call number N fails |
//! | `terminal N ROOM`, `printer N ROOM` | it has room for so many bytes, and its put number N fails |
//! | a bar and a text | one more line of the bytes; a line feed stands between two of them |
//! | `bytes N B` | the bytes are N times B |
//! | `at N HEX` | these bytes of two digits each stand at N |
//! | `copy NAME` | the bytes are those of this file |
//! | `file NAME` | the bytes become this file, and there are none |
//! | `types N` | the bytes are the input, whose call number N fails |
//! | `call S WORDS` | a call with these words has the status S |
//! | `shows TEXT`, `prints TEXT` | what the terminal and the printer have taken since |
//! | `seen` | the terminal has taken the bytes since |
//! | `leaves TEXT` | what is left of the input |
//! | `holds NAME TEXT`, `none NAME` | the file with this name; that there is none |
//! | `same NAME NAME` | two files with the same bytes |
//! | `blocks N`, `sees N HEX`, `zeros N N` | the number of blocks of the drive; its bytes from N on; zeros from N on to N |
//! | `unchanged` | the drive has the bytes from before the call |
//! | `either NAME` | the disk has just this file under the title `t`, or none |
//!
//! In a TEXT `/` is a line feed and `~` the byte 25. The number `n` is that of the round. All that is shown and printed has to be
//! looked at before the next call.

use crate::rows::script::{byte, meant, number, parts, size, write_hex};
use crate::rows::world::World;
use edi_host::{MemoryDrive, MemoryFiles, MemorySink, MemorySource};
use std::alloc::Global;
use std::process::Abort;

// What a script has made so far.
#[derive(Drop)]
struct Stage {
    world: World,
    /// Of these, files and drives are made.
    bytes: Vec<u8>,
    /// The bytes of the drive before the last call.
    before: Vec<u8>,
    /// So many bytes of the terminal are looked at, and so many of the printer.
    shown: usize,
    printed: usize,
    round: u64,
}

/// Asserts that these bytes are all from this place on.
fn are_next(rt: &impl Abort, seen: &[u8], from: usize, wanted: &[u8], what: &str) {
    assert_eq!(rt; seen.get(from..), Some(wanted), "{what}");
}

/// Asserts that two lists have the same bytes.
fn are_same(rt: &impl Abort, found: &[u8], wanted: &[u8], what: &str) {
    assert_eq!(rt; found, wanted, "{what}");
}

impl Stage {
    fn new(rt: &impl Abort, alloc: Global, round: u64) -> Stage {
        Stage {
            world: World::new(rt, alloc),
            bytes: Vec::new(alloc),
            before: Vec::new(alloc),
            shown: 0,
            printed: 0,
            round,
        }
    }

    // The number of a call.
    fn number(&self, rt: &impl Abort, text: &str) -> u64 {
        if text == "n" {
            return self.round;
        }
        number(rt, text)
    }

    // All that was shown and printed is looked at.
    fn settle(&self, rt: &impl Abort, line: &str) {
        are_next(
            rt,
            self.world.devices.terminal.bytes(),
            self.shown,
            &[],
            line,
        );
        are_next(
            rt,
            self.world.devices.printer.bytes(),
            self.printed,
            &[],
            line,
        );
    }

    // A drive of the bytes.
    fn drive(&mut self, rt: &impl Abort, alloc: Global, text: &str, lands: bool) {
        let n = self.number(rt, text);
        assert!(rt; self.bytes.len() % 512 == 0);
        self.world.devices.drive = MemoryDrive::new(alloc, &self.bytes, &[n], lands).expect(
            rt, "memory",
        );
        self.bytes.clear();
    }

    // A sink with this plan and room.
    fn sink(&self, rt: &impl Abort, alloc: Global, text: &str) -> MemorySink {
        let (n, room) = parts(text);
        MemorySink::new(alloc, size(rt, room), &[self.number(rt, n)]).expect(rt, "memory")
    }

    // All anew.
    fn restart(&mut self, rt: &impl Abort, alloc: Global) {
        self.settle(rt, "world");
        self.world = World::new(rt, alloc);
        self.bytes.clear();
        self.shown = 0;
        self.printed = 0;
    }

    fn files(&mut self, rt: &impl Abort, alloc: Global, rest: &str) {
        let n = self.number(rt, rest);
        self.world.files = MemoryFiles::new(alloc, &[n]).expect(rt, "memory");
    }

    // An input of these bytes.
    fn source(&mut self, rt: &impl Abort, alloc: Global, n: &str, bytes: &[u8]) {
        let n = self.number(rt, n);
        self.world.devices.input = MemorySource::new(alloc, bytes, &[n]).expect(rt, "memory");
    }

    fn input(&mut self, rt: &impl Abort, alloc: Global, rest: &str) {
        let (n, text) = parts(rest);
        let bytes = meant(rt, alloc, text);
        self.source(rt, alloc, n, &bytes);
    }

    fn types(&mut self, rt: &impl Abort, alloc: Global, rest: &str) {
        let bytes = self.taken(alloc);
        self.source(rt, alloc, rest, &bytes);
    }

    fn terminal(&mut self, rt: &impl Abort, alloc: Global, rest: &str) {
        self.settle(rt, rest);
        self.world.devices.terminal = self.sink(rt, alloc, rest);
        self.shown = 0;
    }

    fn printer(&mut self, rt: &impl Abort, alloc: Global, rest: &str) {
        self.settle(rt, rest);
        self.world.devices.printer = self.sink(rt, alloc, rest);
        self.printed = 0;
    }
}

// The lines that write the bytes, and make files of them.
impl Stage {
    // The bytes, of which there are none then.
    fn taken(&mut self, alloc: Global) -> Vec<u8> {
        std::mem::replace(&mut self.bytes, Vec::new(alloc))
    }

    fn fill(&mut self, rt: &impl Abort, rest: &str) {
        let (count, value) = parts(rest);
        self.bytes.clear();
        self.bytes
            .resize(size(rt, count), byte(rt, value))
            .expect(rt, "memory");
    }

    fn put_at(&mut self, rt: &impl Abort, rest: &str) {
        let (at, hex) = parts(rest);
        write_hex(rt, &mut self.bytes, size(rt, at), hex);
    }

    fn copy(&mut self, rt: &impl Abort, alloc: Global, rest: &str) {
        self.bytes = file(rt, alloc, &self.world, rest);
    }

    fn file(&mut self, rt: &impl Abort, alloc: Global, rest: &str) {
        let bytes = self.taken(alloc);
        self.world.add(rt, alloc, rest, &bytes);
    }

    fn one_more(&mut self, rt: &impl Abort, text: &str) {
        if !self.bytes.is_empty() {
            self.bytes.push(b'\n').expect(rt, "memory");
        }
        self.bytes
            .extend_from_slice(text.as_bytes())
            .expect(rt, "memory");
    }
}

/// The bytes of a file.
fn file(rt: &impl Abort, alloc: Global, world: &World, name: &str) -> Vec<u8> {
    let bytes = world.files.get(name).expect(rt, name);
    bytes.to_vec(alloc).expect(rt, "memory")
}

impl Stage {
    fn call(&mut self, rt: &impl Abort, alloc: Global, rest: &str) {
        self.settle(rt, rest);
        self.before = self
            .world
            .devices
            .drive
            .bytes()
            .to_vec(alloc)
            .expect(rt, "memory");
        let (status, words) = parts(rest);
        let found = self.world.call(rt, alloc, words);
        assert_eq!(rt; found, byte(rt, status), "{words}");
    }

    // The terminal has taken these bytes since.
    fn has_shown(&mut self, rt: &impl Abort, wanted: &[u8], what: &str) {
        let seen = self.world.devices.terminal.bytes();
        are_next(rt, seen, self.shown, wanted, what);
        self.shown = seen.len();
    }

    fn shows(&mut self, rt: &impl Abort, alloc: Global, text: &str) {
        self.has_shown(rt, &meant(rt, alloc, text), text);
    }

    fn seen(&mut self, rt: &impl Abort, alloc: Global) {
        let wanted = self.taken(alloc);
        self.has_shown(rt, &wanted, "seen");
    }

    fn prints(&mut self, rt: &impl Abort, alloc: Global, text: &str) {
        let seen = self.world.devices.printer.bytes();
        are_next(rt, seen, self.printed, &meant(rt, alloc, text), text);
        self.printed = seen.len();
    }

    // The disk has just this file of the host under the title `t`, or no file.
    fn either(&mut self, rt: &impl Abort, alloc: Global, name: &str) {
        self.settle(rt, name);
        match self.world.call(rt, alloc, "get t got") {
            0 => self.are_same(rt, alloc, "got", name),
            12 => self.shows(rt, alloc, "absent/"),
            status => panic!(rt; "{name}: {status}"),
        }
    }

    // Two files have the same bytes.
    fn are_same(&self, rt: &impl Abort, alloc: Global, one: &str, other: &str) {
        let bytes = file(rt, alloc, &self.world, one);
        self.is_file(rt, other, &bytes);
    }

    // The file with this name has these bytes.
    fn is_file(&self, rt: &impl Abort, name: &str, bytes: &[u8]) {
        are_same(rt, self.world.files.get(name).expect(rt, name), bytes, name);
    }

    // The drive has these bytes from here on.
    fn sees(&self, rt: &impl Abort, alloc: Global, at: &str, hex: &str) {
        let mut wanted = vec![in alloc; 0; hex.len() / 2].expect(rt, "memory");
        write_hex(rt, &mut wanted, 0, hex);
        let rest = rest_of(rt, self.world.devices.drive.bytes(), at);
        are_same(rt, rest.get(..wanted.len()).expect(rt, hex), &wanted, hex);
    }

    // The drive has only zeros from here to there.
    fn are_zeros(&self, rt: &impl Abort, from: &str, to: &str) {
        let bytes = self.world.devices.drive.bytes();
        for byte in bytes.get(size(rt, from)..size(rt, to)).expect(rt, to) {
            assert_eq!(rt; *byte, 0);
        }
    }

    fn lacks(&self, rt: &impl Abort, name: &str) {
        assert!(rt; self.world.files.get(name).is_none(), "{name}");
    }

    // The drive has the bytes from before the call. No other word stands for another line.
    fn is_unchanged(&self, rt: &impl Abort, word: &str) {
        assert!(rt; word == "unchanged", "no line begins with {word}");
        are_same(rt, self.world.devices.drive.bytes(), &self.before, word);
    }

    fn leaves(&self, rt: &impl Abort, alloc: Global, text: &str) {
        let wanted = meant(rt, alloc, text);
        are_same(rt, self.world.devices.input.bytes(), &wanted, text);
    }

    fn holds(&self, rt: &impl Abort, alloc: Global, rest: &str) {
        let (name, text) = parts(rest);
        self.is_file(rt, name, &meant(rt, alloc, text));
    }

    fn blocks(&self, rt: &impl Abort, rest: &str) {
        let length = self.world.devices.drive.bytes().len();
        assert_eq!(rt; length / 512, size(rt, rest));
    }

    // The lines that look at files, the input and the drive.
    fn look(&self, rt: &impl Abort, alloc: Global, word: &str, rest: &str) {
        let (first, second) = parts(rest);
        match word {
            "leaves" => self.leaves(rt, alloc, rest),
            "holds" => self.holds(rt, alloc, rest),
            "same" => self.are_same(rt, alloc, first, second),
            "blocks" => self.blocks(rt, rest),
            "sees" => self.sees(rt, alloc, first, second),
            "zeros" => self.are_zeros(rt, first, second),
            "none" => self.lacks(rt, rest),
            _ => self.is_unchanged(rt, word),
        }
    }

    // Plays the lines of a script.
    fn lines(&mut self, rt: &impl Abort, alloc: Global, script: &str) {
        for line in script.split('\n') {
            self.line(rt, alloc, line);
        }
    }

    // Plays a line.
    fn line(&mut self, rt: &impl Abort, alloc: Global, line: &str) {
        let (word, rest) = parts(line);
        match word {
            "" => {}
            "|" => self.one_more(rt, rest),
            "bytes" => self.fill(rt, rest),
            "at" => self.put_at(rt, rest),
            "copy" => self.copy(rt, alloc, rest),
            "file" => self.file(rt, alloc, rest),
            "call" => self.call(rt, alloc, rest),
            "shows" => self.shows(rt, alloc, rest),
            "seen" => self.seen(rt, alloc),
            "prints" => self.prints(rt, alloc, rest),
            "either" => self.either(rt, alloc, rest),
            _ => self.make_or_look(rt, alloc, word, rest),
        }
    }

    // The lines that make objects, and those that look at them.
    fn make_or_look(&mut self, rt: &impl Abort, alloc: Global, word: &str, rest: &str) {
        match word {
            "world" => self.restart(rt, alloc),
            "files" => self.files(rt, alloc, rest),
            "drive" => self.drive(rt, alloc, rest, false),
            "lands" => self.drive(rt, alloc, rest, true),
            "input" => self.input(rt, alloc, rest),
            "types" => self.types(rt, alloc, rest),
            "terminal" => self.terminal(rt, alloc, rest),
            "printer" => self.printer(rt, alloc, rest),
            _ => self.look(rt, alloc, word, rest),
        }
    }
}

/// The bytes from a place on.
fn rest_of<'a>(rt: &impl Abort, bytes: &'a [u8], at: &str) -> &'a [u8] {
    bytes.get(size(rt, at)..).expect(rt, at)
}

/// Plays a script, in which the number `n` is that of the round.
pub fn play(rt: &impl Abort, alloc: Global, script: &str, round: u64) {
    play_behind(rt, alloc, "", script, round);
}

/// Plays two scripts as one.
pub fn play_behind(rt: &impl Abort, alloc: Global, front: &str, script: &str, round: u64) {
    let mut stage = Stage::new(rt, alloc, round);
    stage.lines(rt, alloc, front);
    stage.lines(rt, alloc, script);
    stage.settle(rt, "the end");
}
