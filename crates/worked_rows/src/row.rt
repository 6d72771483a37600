//! The lines of the input.

use std::alloc::{AllocError, Global};

/// The room where a line asks for none, in bytes.
const ROOM: usize = 1_000_000;

/// A line of the input.
#[derive(Drop)]
pub(crate) struct Row {
    /// The program, and the words that it is given.
    pub(crate) words: Vec<String>,
    /// The file that is the standard input.
    pub(crate) input: Option<String>,
    /// The room of the standard output, in bytes.
    pub(crate) room: usize,
}

/// What the next word of a line is.
#[derive(Clone, Copy)]
enum Place {
    Word,
    Input,
    Room,
}

impl Row {
    /// Takes a word of the line, and says what the next one is.
    fn take(&mut self, alloc: Global, place: Place, word: &str) -> Result<Place, AllocError> {
        match (place, word) {
            (Place::Word, "<") => return Ok(Place::Input),
            (Place::Word, ">") => return Ok(Place::Room),
            (Place::Word, _) => self.words.push(String::from_str(alloc, word)?)?,
            (Place::Input, _) => self.input = Some(String::from_str(alloc, word)?),
            (Place::Room, _) => self.room = word.parse().unwrap_or(0),
        }
        Ok(Place::Word)
    }
}

/// What the line says, whose words stand with one blank between each two.
pub(crate) fn row_of(alloc: Global, line: &str) -> Result<Row, AllocError> {
    let mut row = Row {
        words: Vec::new(alloc),
        input: None,
        room: ROOM,
    };
    let mut place = Place::Word;
    for word in line.split(' ') {
        place = row.take(alloc, place, word)?;
    }
    Ok(row)
}
