//! The files that a run can read.

use crate::row::Row;
use gl_outside::{FetchError, Files, MemoryShelf, Shelf};
use std::alloc::{AllocError, Global};

/// The most bytes of a file.
const MOST: u64 = 1 << 30;

/// So many blanks, if the name asks for them.
fn blanks(alloc: Global, name: &str) -> Result<Option<Vec<u8>>, AllocError> {
    let Some(number) = name.strip_prefix("blanks.") else {
        return Ok(None);
    };
    let count: usize = number.parse().unwrap_or(0);
    Ok(Some(vec![in alloc; b' '; count]?))
}

/// The bytes of a file of the folder, or None where there is no such file.
fn bytes_of<S: Shelf>(
    alloc: Global,
    folder: &mut S,
    name: &str,
) -> Result<Option<Vec<u8>>, AllocError> {
    if let Some(bytes) = blanks(alloc, name)? {
        return Ok(Some(bytes));
    }
    match folder.fetch(alloc, name, MOST) {
        Ok(bytes) => Ok(Some(bytes)),
        Err(FetchError::OutOfMemory) => Err(AllocError),
        Err(_) => Ok(None),
    }
}

/// Adds the bytes of a file of the folder under that name, if there is such a file.
fn add<S: Shelf>(
    alloc: Global,
    folder: &mut S,
    files: &mut Files,
    file: &str,
    name: &str,
) -> Result<(), AllocError> {
    match bytes_of(alloc, folder, file)? {
        Some(bytes) => files.add(String::from_str(alloc, name)?, bytes),
        None => Ok(()),
    }
}

/// The standard input and the files that the words name.
pub(crate) fn shelf_of<S: Shelf>(
    alloc: Global,
    folder: &mut S,
    row: &Row,
) -> Result<MemoryShelf, AllocError> {
    let mut files = Files::new(alloc);
    if let Some(input) = &row.input {
        add(alloc, folder, &mut files, input.as_str(), "-")?;
    }
    for word in row.words.iter().skip(1) {
        if word.as_str() != "-" {
            add(alloc, folder, &mut files, word.as_str(), word.as_str())?;
        }
    }
    Ok(MemoryShelf::new(files))
}
