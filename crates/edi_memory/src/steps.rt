//! The ten calls on a state in memory, each answered by a word, by nothing, or not at all.

ghost use Rattle.std.specs.Prelude.{◌≡◌, ◌≤◌, ◌<◌, length, IfSome, ◌%◌, slice_get};
ghost use Rattle.std.specs.Option.{option_copied, option_map};
ghost use Rattle.edi_calls.specs.State.{most_bytes, free, find_file};
ghost use Rattle.edi_calls.specs.Calls.{found_in, found_bytes, other_than, room_for, accept, display, print, find, more, read, fresh_buffer, write, close};
ghost use Rattle.edi_calls.specs.Calls.{close_as, stored, remove, remove_as, word_of, call, argument_words};
ghost use Rattle.edi_memory.specs.MemoryCalls.{new_index};
ghost use Rattle.edi_memory.specs.Memory.{found_of, state_of, FailsUsed, Reaches};

use crate::slots::{blocks_taken, find_slot, open_slot, slot_for};
use crate::state::{MemoryState, Reading, Stop};
use crate::stored::StoredFile;
use crate::titles::title_of;
use edi_calls::{FileKind, Outside, blocks_of, call_number, is_title};

/// The character that stands for the end of the input and of a file.
const END_OF_TEXT: u8 = 25;

/// The greatest number of bytes of a file.
const MOST_BYTES: usize = 261_120;

/// The blocks of the catalogue, which no file takes.
const CATALOGUE: usize = 33;

/// A word or a byte as a character.
fn character(word: u16) -> u8
    ensures { result ≡ word % 128 }
{
    (word % 128) as u8
}

/// Drops the found file where it has this title.
fn drop_titled(found: &mut Option<Reading>, title: &[u8])
    ensures { option_map found_of found.new ≡ other_than title.now (option_map found_of found.old) }
{
    if let Some(reading) = found {
        if reading.title.as_slice() == title {
            *found = None;
        }
    }
}

impl MemoryState {
    /// The next byte of the input.
    pub fn accept(&mut self) -> Result<Option<u16>, Stop>
        ensures exact { Reaches (accept (state_of self.old)) result (state_of self.old) (state_of self.new) }
        ensures used { FailsUsed 1 result }
    {
        let c = match self.input.pop_front() {
            Some(byte) => byte % 128,
            None => END_OF_TEXT,
        };
        Ok(Some(u16::from(c)))
    }

    /// Shows a character.
    pub fn display(&mut self, word: u16) -> Result<Option<u16>, Stop>
        ensures exact { Reaches (display word (state_of self.old)) result (state_of self.old) (state_of self.new) }
        ensures used { FailsUsed 2 result }
    {
        match self.shown.push(character(word)) {
            Ok(()) => Ok(None),
            Err(_) => Err(Stop::Failed(Outside::Terminal)),
        }
    }

    /// Prints a character.
    pub fn print(&mut self, word: u16) -> Result<Option<u16>, Stop>
        ensures exact { Reaches (print word (state_of self.old)) result (state_of self.old) (state_of self.new) }
        ensures used { FailsUsed 3 result }
    {
        match self.printed.push(character(word)) {
            Ok(()) => Ok(None),
            Err(_) => Err(Stop::Failed(Outside::Printer)),
        }
    }

    /// The file with this title.
    pub fn file(&self, title: &[u8]) -> Option<&StoredFile>
        ensures { option_copied result ≡ find_file (state_of self.now).slots title.now }
    {
        let index = find_slot(&self.slots, title)?;
        self.slots[index].as_ref()
    }

    /// The text file of this title at its start.
    fn reading(&self, title: Vec<u8>) -> Option<Reading>
        ensures { option_map found_of result ≡ found_in (state_of self.now) title.items }
    {
        let is_text = match self.file(&title) {
            Some(file) => file.kind() == FileKind::Text,
            None => false,
        };
        if is_text {
            Some(Reading { title, position: 0 })
        } else {
            None
        }
    }

    /// The text file of a title becomes the found file.
    pub fn find(&mut self, words: &[u16]) -> Result<Option<u16>, Stop>
        ensures exact { Reaches (find words.now (state_of self.old)) result (state_of self.old) (state_of self.new) }
        ensures used { FailsUsed 4 result }
    {
        let Ok(title) = title_of(self.alloc, words) else {
            return Err(Stop::Failed(Outside::Drive));
        };
        let found = match title {
            Some(title) => self.reading(title),
            None => None,
        };
        let is_found = found.is_some();
        self.found = found;
        Ok(Some(u16::from(is_found)))
    }

    /// Whether bytes of the found file are left.
    pub fn more(&self) -> Result<Option<u16>, Stop>
        ensures exact { Reaches (more (state_of self.now)) result (state_of self.now) (state_of self.now) }
        ensures used { FailsUsed 5 result }
    {
        let Some(reading) = &self.found else {
            return Err(Stop::NoFile);
        };
        let more = match self.file(&reading.title) {
            Some(file) => reading.position < file.bytes().len(),
            None => false,
        };
        Ok(Some(u16::from(more)))
    }

    /// The byte of the found file at its position.
    fn next_byte(&self, reading: &Reading) -> Option<u8>
        ensures exact { result ≡ slice_get (found_bytes (state_of self.now) (found_of reading.now)) reading.now.position }
        ensures within { IfSome result (λ _. reading.now.position < most_bytes) }
    {
        self.file(&reading.title)?
            .bytes()
            .get(reading.position)
            .copied()
    }

    /// The next byte of the found file.
    pub fn read(&mut self) -> Result<Option<u16>, Stop>
        ensures exact { Reaches (read (state_of self.old)) result (state_of self.old) (state_of self.new) }
        ensures used { FailsUsed 6 result }
    {
        let Some(reading) = &self.found else {
            return Err(Stop::NoFile);
        };
        let Some(byte) = self.next_byte(reading) else {
            return Ok(Some(u16::from(END_OF_TEXT)));
        };
        if let Some(reading) = &mut self.found {
            reading.position += 1;
        }
        Ok(Some(u16::from(byte % 128)))
    }

    /// Begins an empty file.
    pub fn fresh(&mut self) -> Result<Option<u16>, Stop>
        ensures exact { Reaches (fresh_buffer (state_of self.old)) result (state_of self.old) (state_of self.new) }
        ensures used { FailsUsed 7 result }
    {
        self.buffer = Some(Vec::new(self.alloc));
        Ok(None)
    }

    /// Appends a character to the file that is being written.
    pub fn write(&mut self, word: u16) -> Result<Option<u16>, Stop>
        ensures exact { Reaches (write word (state_of self.old)) result (state_of self.old) (state_of self.new) }
        ensures used { FailsUsed 8 result }
    {
        let Some(bytes) = &mut self.buffer else {
            return Err(Stop::NoFile);
        };
        if bytes.len() >= MOST_BYTES {
            return Err(Stop::FileLimit);
        }
        match bytes.push(character(word)) {
            Ok(()) => Ok(None),
            Err(_) => Err(Stop::Failed(Outside::Drive)),
        }
    }

    /// The number of free blocks.
    pub fn free(&self) -> usize
        ensures { result ≡ free (state_of self.now) }
    {
        (self.blocks as usize).saturating_sub(CATALOGUE + blocks_taken(&self.slots))
    }

    /// The slot where so many bytes are stored under this title, if they may be.
    pub fn room_for(&self, title: &[u8], size: usize) -> Option<usize>
        requires { size ≤ most_bytes }
        ensures exact { result ≡ room_for (state_of self.now) title.now size }
        ensures within { IfSome result (λ index. index < length self.now.slots.items) }
    {
        if blocks_of(size) <= self.free() {
            slot_for(&self.slots, title)
        } else {
            None
        }
    }

    /// The number of bytes that were written so far.
    fn written(&self) -> usize
        ensures exact { IfSome self.now.buffer (λ bytes. result ≡ length bytes.items) }
        ensures bound { result ≤ most_bytes }
    {
        match &self.buffer {
            Some(bytes) => bytes.len(),
            None => 0,
        }
    }

    /// Stores the file that is being written in the slot of this index.
    fn store_at(&mut self, title: Vec<u8>, index: usize)
        requires { index < length self.old.slots.items }
        ensures { IfSome self.old.buffer (λ bytes.
            state_of self.new ≡ stored title.items bytes.items index (state_of self.old)) }
    {
        drop_titled(&mut self.found, &title);
        if let Some(bytes) = self.buffer.take() {
            self.slots[index] = Some(StoredFile::new(title, FileKind::Text, false, bytes));
        }
    }

    /// Stores the file that is being written under a title, if that may be.
    fn store(&mut self, title: Vec<u8>) -> bool
        ensures { IfSome self.old.buffer (λ bytes. Reaches (close_as bytes.items title.items (state_of self.old))
            (Ok (Some (word_of result))) (state_of self.old) (state_of self.new)) }
    {
        let Some(index) = self.room_for(&title, self.written()) else {
            return false;
        };
        self.store_at(title, index);
        true
    }

    /// Stores the file that is being written under the title that words spell.
    pub fn close(&mut self, words: &[u16]) -> Result<Option<u16>, Stop>
        ensures exact { Reaches (close words.now (state_of self.old)) result (state_of self.old) (state_of self.new) }
        ensures used { FailsUsed 9 result }
    {
        if self.buffer.is_none() {
            return Err(Stop::NoFile);
        }
        let Ok(title) = title_of(self.alloc, words) else {
            return Err(Stop::Failed(Outside::Drive));
        };
        match title {
            Some(title) => Ok(Some(u16::from(self.store(title)))),
            None => Ok(Some(0)),
        }
    }

    /// Removes the file of this title, if that may be.
    fn remove_titled(&mut self, title: &[u8]) -> bool
        ensures { Reaches (remove_as title.now (state_of self.old)) (Ok (Some (word_of result))) (state_of self.old) (state_of self.new) }
    {
        let Some(index) = open_slot(&self.slots, title) else {
            return false;
        };
        drop_titled(&mut self.found, title);
        self.slots[index] = None;
        true
    }

    /// Removes the file of the title that words spell.
    pub fn remove(&mut self, words: &[u16]) -> Result<Option<u16>, Stop>
        ensures exact { Reaches (remove words.now (state_of self.old)) result (state_of self.old) (state_of self.new) }
        ensures used { FailsUsed 10 result }
    {
        let Ok(title) = title_of(self.alloc, words) else {
            return Err(Stop::Failed(Outside::Drive));
        };
        match title {
            Some(title) => Ok(Some(u16::from(self.remove_titled(&title)))),
            None => Ok(Some(0)),
        }
    }

    /// The slot for a new file of so many bytes, if there may be one of this title.
    pub fn new_index(&self, title: &[u8], size: usize) -> Option<usize>
        ensures exact { result ≡ new_index (state_of self.now) title.now size }
        ensures within { IfSome result (λ index. index < length self.now.slots.items) }
        ensures limit { IfSome result (λ _. size ≤ most_bytes) }
    {
        if is_title(title) && size <= MOST_BYTES && find_slot(&self.slots, title).is_none() {
            self.room_for(title, size)
        } else {
            None
        }
    }

    /// Makes the call of this number.
    pub fn step(&mut self, number: u8, args: &[u16]) -> Result<Option<u16>, Stop>
        requires from { 1 ≤ number }
        requires to { number ≤ 10 }
        requires arguments { length args.now ≡ argument_words number }
        ensures exact { Reaches (call number args.now (state_of self.old)) result (state_of self.old) (state_of self.new) }
        ensures used { FailsUsed number result }
    {
        match number {
            call_number::ACCEPT => self.accept(),
            call_number::DISPLAY => self.display(args[0]),
            call_number::PRINT => self.print(args[0]),
            call_number::FIND => self.find(args),
            call_number::MORE => self.more(),
            call_number::READ => self.read(),
            call_number::FRESH => self.fresh(),
            call_number::WRITE => self.write(args[0]),
            call_number::CLOSE => self.close(args),
            _ => self.remove(args),
        }
    }
}
