//! The numbers of the ten system calls. A code asks for a call by its number.

/// Takes a character of the input.
pub const ACCEPT: u8 = 1;
/// Shows a character on the terminal.
pub const DISPLAY: u8 = 2;
/// Prints a character.
pub const PRINT: u8 = 3;
/// Opens a file of a title for reading.
pub const FIND: u8 = 4;
/// Asks whether the open file has another character.
pub const MORE: u8 = 5;
/// Reads a character of the open file.
pub const READ: u8 = 6;
/// Begins a new file.
pub const FRESH: u8 = 7;
/// Writes a character to the new file.
pub const WRITE: u8 = 8;
/// Stores the new file under a title.
pub const CLOSE: u8 = 9;
/// Removes the file of a title.
pub const REMOVE: u8 = 10;
