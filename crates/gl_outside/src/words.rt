//! The words that a command is called with.

use std::alloc::{AllocError, AllocGlobal};
use std::env;
use std::io::{self, ErrorKind};
use std::rt::Env;

/// The words of the host, without the first, which is the command's name.
fn host_words<R: Env + AllocGlobal>(rt: &R) -> io::Result<Vec<String>> {
    Ok(env::args(rt)?.skip(1).collect(rt.alloc())?)
}

/// The words behind the command's name; none where one of them is no text, which no command takes. The error is want of
/// memory.
pub fn command_words<R: Env + AllocGlobal>(rt: &R) -> Result<Vec<String>, AllocError> {
    match host_words(rt) {
        Ok(words) => Ok(words),
        Err(error) if error.kind() == ErrorKind::InvalidData => Ok(Vec::new(rt.alloc())),
        Err(_) => Err(AllocError),
    }
}
