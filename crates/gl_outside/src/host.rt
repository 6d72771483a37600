//! The files, the standard input and the standard output of the computer: the edge that is trusted to pass
//! bytes on as they are.

ghost use Rattle.std.specs.Prelude.{◌≡◌, ◌≢◌, ◌+◌, ◌≤◌, IfOk, IfSome, length, vec_len};
ghost use Rattle.gl_outside.specs.declared.shelf.FetchError.TheVariants as error;

use crate::shelf::{FetchError, Shelf};
use crate::sink::{Sink, SinkFailed};
use std::alloc::Global;
use std::io::{ErrorKind, Read};
use std::marker::Model;
use std::rt::Files;
use std::{fs, io};

/// What a failing call of the system is to a shelf.
fn fault_of(e: io::Error) -> FetchError
    ensures { result ≢ error.TooLong }
{
    match e.kind() {
        ErrorKind::OutOfMemory => FetchError::OutOfMemory,
        _ => FetchError::Failed,
    }
}

/// All that a reader gives from here on, if it is at most `max` bytes. It reads on until the reader gives
/// nothing, or one byte too many.
fn read_up_to<R: Read + Drop>(alloc: Global, reader: R, max: u64) -> Result<Vec<u8>, FetchError>
    ensures bytes { IfOk result (λ v. IfSome (R.remaining reader) (λ bytes. v.items ≡ bytes)) }
    ensures within { IfOk result (λ v. vec_len v ≤ max) }
    ensures too_long { result ≡ Err error.TooLong
        → IfSome (R.remaining reader) (λ bytes. max + 1 ≤ length bytes) }
{
    let mut bytes = Vec::new(alloc);
    match reader.take(max.saturating_add(1)).read_to_end(&mut bytes) {
        Err(e) => Err(fault_of(e)),
        Ok(_) if bytes.len() as u64 > max => Err(FetchError::TooLong),
        Ok(_) => Ok(bytes),
    }
}

/// The files of the computer. The name `-` is the standard input.
#[derive(Drop)]
pub struct HostShelf<'a, R> {
    rt: &'a R,
    faults: u64,
}

/// It is seen as its count of faults.
impl<'a, R> Model for HostShelf<'a, R> {
    ghost use Rattle.std.specs.Prelude.{ℕ};

    ghost Value = { ℕ };

    ghost view = { λ s. s.faults };
}

impl<'a, R: Files + Input> HostShelf<'a, R> {
    /// It has no faults yet.
    pub fn new(rt: &'a R) -> HostShelf<'a, R>
        ensures { result ≡ 0 }
    {
        HostShelf { rt, faults: 0 }
    }

    fn read(&self, alloc: Global, name: &str, max: u64) -> Result<Vec<u8>, FetchError>
        ensures within { IfOk result (λ v. vec_len v ≤ max) }
    {
        if name == "-" {
            return read_up_to(alloc, self.rt.reader(), max);
        }
        match fs::open(self.rt, name) {
            Ok(file) => read_up_to(alloc, file, max),
            Err(e) => Err(fault_of(e)),
        }
    }
}

impl<R: Files + Input> Shelf for HostShelf<'_, R> {
    ghost use Rattle.std.specs.Prelude.{None};

    ghost holds = { λ _ _. None };

    ghost faults = { λ s. s };

    fn fetch(&mut self, alloc: Global, name: &str, max: u64) -> Result<Vec<u8>, FetchError> {
        let read = self.read(alloc, name, max);
        if let Err(FetchError::Failed) = read {
            self.faults = self.faults.saturating_add(1);
        }
        read
    }
}

/// The standard output of the computer.
#[derive(Drop)]
pub struct HostSink<'a, R> {
    rt: &'a R,
    faults: u64,
}

/// It is seen as its count of faults.
impl<'a, R> Model for HostSink<'a, R> {
    ghost use Rattle.std.specs.Prelude.{ℕ};

    ghost Value = { ℕ };

    ghost view = { λ s. s.faults };
}

impl<'a, R: Print> HostSink<'a, R> {
    /// It has no faults yet.
    pub fn new(rt: &'a R) -> HostSink<'a, R>
        ensures { result ≡ 0 }
    {
        HostSink { rt, faults: 0 }
    }
}

/// Writes all the bytes, and says whether the output took them.
fn write_whole<R: Print>(rt: &R, bytes: &[u8]) -> bool {
    let mut left = bytes;
    for _ in 0..u64::MAX {
        if left.is_empty() {
            return true;
        }
        match rt.write_some(left) {
            Ok(0) => return false,
            Ok(n) => left = &left[n..],
            Err(e) if e.kind() == ErrorKind::Interrupted => {}
            Err(_) => return false,
        }
    }
    false
}

impl<R: Print> Sink for HostSink<'_, R> {
    ghost use Rattle.std.specs.Prelude.{None};

    ghost written = { λ _. None };

    ghost faults = { λ s. s };

    fn put(&mut self, bytes: &[u8]) -> Result<(), SinkFailed> {
        if write_whole(self.rt, bytes) {
            return Ok(());
        }
        self.faults = self.faults.saturating_add(1);
        Err(SinkFailed)
    }
}

#[cfg(test)]
mod tests {
    use super::{HostShelf, HostSink};
    use crate::shelf::{FetchError, Shelf};
    use crate::sink::Sink;
    use std::fs;
    use std::test::Fail;

    #[test]
    fn reads_a_file_up_to_a_limit(rt: HostRuntime) -> Result<(), Fail> {
        fs::write(&rt, "gl_outside_test_file", "seven b")?;
        let mut shelf = HostShelf::new(&rt);
        let whole = shelf.fetch(rt.alloc(), "gl_outside_test_file", 7);
        assert_eq!(rt;
            whole.is_ok_and(|v| v.as_slice() == b"seven b".as_slice()),
            true
        );
        let long = shelf.fetch(rt.alloc(), "gl_outside_test_file", 6);
        assert_eq!(rt; long.err(), Some(FetchError::TooLong));
        let none = shelf.fetch(rt.alloc(), "gl_outside/no/such/file", 7);
        assert_eq!(rt; none.err(), Some(FetchError::Failed));
        fs::remove_file(&rt, "gl_outside_test_file")?;
        Ok(())
    }

    #[test]
    fn writes_to_the_standard_output(rt: HostRuntime) {
        let mut sink = HostSink::new(&rt);
        assert!(rt; sink.put(b"gl_outside\n").is_ok());
    }
}
