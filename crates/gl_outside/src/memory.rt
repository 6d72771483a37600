//! A shelf and a sink in memory, with faults.

ghost use Rattle.std.specs.Prelude.{◌≡◌, ◌≢◌, ◌↔◌, ℕ, ◌+◌, ◌≤◌, List, [], ◌++◌, take, length, vec_len};
ghost use Rattle.std.specs.Prelude.{None, Some, IfOk, IfSome, IsOk, OnOk, OnErr};
ghost use Rattle.gl_outside.specs.Outside.{HasRisen, Appends, AppendsFront};
ghost use Rattle.gl_outside.specs.Files.{bytes_of};
ghost use Rattle.gl_outside.specs.declared.shelf.FetchError.TheVariants as error;

use crate::files::Files;
use crate::shelf::{FetchError, Shelf};
use crate::sink::{Sink, SinkFailed};
use std::alloc::{AllocError, Global};
use std::marker::Model;

/// A shelf in memory. A name that is not there is a fault.
#[derive(Drop)]
pub struct MemoryShelf {
    files: Files,
    faults: u64,
}

impl Model for MemoryShelf {
    ghost use Rattle.gl_outside.specs.Files.{FaultyFiles, faulty_code};

    ghost Value = { FaultyFiles };

    ghost coded = { faulty_code };

    ghost view = { λ s. record { files = s.files; faults = s.faults } };
}

impl MemoryShelf {
    /// A shelf of these bytes.
    pub fn new(files: Files) -> MemoryShelf
        ensures { result ≡ record { files = files; faults = 0 } }
    {
        MemoryShelf { files, faults: 0 }
    }
}

impl Shelf for MemoryShelf {
    ghost use Rattle.std.specs.Prelude.{Option};
    ghost use Rattle.gl_outside.specs.Files.{bytes_of};

    ghost holds = { λ s name. bytes_of s.files name };

    ghost faults = { λ s. s.faults };

    /// The bytes of a name, as every shelf gives them. It fails exactly where the name is not there.
    fn fetch(&mut self, alloc: Global, name: &str, max: u64) -> Result<Vec<u8>, FetchError>
        ensures bytes { IfOk result (λ v. IfSome (bytes_of self.old.files name.now) (λ bytes. v.items ≡ bytes)) }
        ensures within { IfOk result (λ v. vec_len v ≤ max) }
        ensures too_long { result ≡ Err error.TooLong
            → IfSome (bytes_of self.old.files name.now) (λ bytes. max + 1 ≤ length bytes) }
        ensures failed { result ≡ Err error.Failed → HasRisen self.old.faults self.new.faults }
        ensures no_fault { result ≢ Err error.Failed → self.new.faults ≡ self.old.faults }
        ensures count { self.old.faults ≤ self.new.faults }
        ensures kept { (other : List ℕ) → bytes_of self.new.files other ≡ bytes_of self.old.files other }
        ensures files { self.new.files ≡ self.old.files }
        ensures missing { (result ≡ Err error.Failed) ↔ (bytes_of self.old.files name.now ≡ None) }
    {
        match self.files.find(name) {
            None => {
                self.faults = self.faults.saturating_add(1);
                Err(FetchError::Failed)
            }
            Some(bytes) => copy_within(alloc, bytes, max),
        }
    }
}

/// A copy of the bytes, if they are at most `max`.
pub(crate) fn copy_within(alloc: Global, bytes: &[u8], max: u64) -> Result<Vec<u8>, FetchError>
    ensures bytes { IfOk result (λ v. v.items ≡ bytes.now) }
    ensures within { IfOk result (λ v. vec_len v ≤ max) }
    ensures too_long { result ≡ Err error.TooLong → max + 1 ≤ length bytes.now }
    ensures no_failure { result ≢ Err error.Failed }
{
    if bytes.len() as u64 > max {
        return Err(FetchError::TooLong);
    }
    Ok(Vec::from_slice(alloc, bytes)?)
}

/// A sink in memory, with room that is reserved when it is made. Bytes beyond the room are a fault.
#[derive(Drop)]
pub struct MemorySink {
    bytes: Vec<u8>,
    room: usize,
    faults: u64,
}

impl Model for MemorySink {
    ghost use Rattle.std.specs.Prelude.{◌-◌, ◌≤◌, vec_len, vec_capacity};
    ghost use Rattle.gl_outside.specs.Files.{RoomyBytes, roomy_code};

    ghost Value = { RoomyBytes };

    ghost coded = { roomy_code };

    ghost view = { λ s. record { bytes = s.bytes.items; spare = s.room - vec_len s.bytes; faults = s.faults } };

    ghost invariant = { λ s. (vec_len s.bytes ≤ s.room) × (s.room ≤ vec_capacity s.bytes) };
}

impl MemorySink {
    /// A sink with room for that many bytes.
    pub fn new(alloc: Global, room: usize) -> Result<MemorySink, AllocError>
        ensures { IfOk result (λ s. s ≡ record { bytes = []; spare = room; faults = 0 }) }
    {
        let bytes = Vec::with_capacity(alloc, room)?;
        Ok(MemorySink {
            bytes,
            room,
            faults: 0,
        })
    }

    /// What it has taken.
    pub fn bytes(&self) -> &[u8]
        ensures { result.now ≡ self.now.bytes }
    {
        self.bytes.as_slice()
    }
}

impl Sink for MemorySink {
    ghost use Rattle.std.specs.Prelude.{Option, Some};

    ghost written = { λ s. Some s.bytes };

    ghost faults = { λ s. s.faults };

    /// Takes the bytes, as every sink does. It fails exactly where they have no room, and what it took then fills the
    /// room.
    fn put(&mut self, bytes: &[u8]) -> Result<(), SinkFailed>
        ensures ok { OnOk result (Appends (Some self.old.bytes) bytes.now (Some self.new.bytes)) }
        ensures no_fault { OnOk result (self.new.faults ≡ self.old.faults) }
        ensures err { OnErr result (AppendsFront (Some self.old.bytes) bytes.now (Some self.new.bytes)) }
        ensures failed { OnErr result (HasRisen self.old.faults self.new.faults) }
        ensures count { self.old.faults ≤ self.new.faults }
        ensures fits { IsOk result ↔ (length bytes.now ≤ self.old.spare) }
        ensures room { OnOk result (self.old.spare ≡ length bytes.now + self.new.spare) }
        ensures filled { OnErr result (self.new.bytes ≡ self.old.bytes ++ take self.old.spare bytes.now) }
        ensures full { OnErr result (self.new.spare ≡ 0) }
    {
        let spare = self.room - self.bytes.len();
        if bytes.len() <= spare {
            return match self.bytes.extend_from_slice(bytes) {
                Ok(()) => Ok(()),
                Err(_) => unreachable!(),
            };
        }
        match self.bytes.extend_from_slice(&bytes[..spare]) {
            Ok(()) => {}
            Err(_) => unreachable!(),
        }
        self.faults = self.faults.saturating_add(1);
        Err(SinkFailed)
    }
}

#[cfg(test)]
mod tests {
    use super::{MemoryShelf, MemorySink};
    use crate::files::Files;
    use crate::shelf::{FetchError, Shelf};
    use crate::sink::Sink;
    use crate::sound::{SoundShelf, SoundSink};
    use std::test::Fail;

    fn one_file(rt: &impl AllocGlobal) -> Result<Files, Fail> {
        let mut files = Files::new(rt.alloc());
        let name = String::from_str(rt.alloc(), "a")?;
        let bytes = Vec::from_slice(rt.alloc(), b"text")?;
        files.add(name, bytes)?;
        Ok(files)
    }

    #[test]
    fn shelves_give_the_bytes_of_a_name(rt: HostRuntime) -> Result<(), Fail> {
        let mut shelf = MemoryShelf::new(one_file(&rt)?);
        assert_eq!(rt;
            shelf.fetch(rt.alloc(), "a", 4)?.as_slice(),
            b"text".as_slice()
        );
        assert_eq!(rt;
            shelf.fetch(rt.alloc(), "a", 3).err(),
            Some(FetchError::TooLong)
        );
        assert_eq!(rt;
            shelf.fetch(rt.alloc(), "b", 4).err(),
            Some(FetchError::Failed)
        );
        let mut sound = SoundShelf::new(one_file(&rt)?);
        assert_eq!(rt; sound.fetch(rt.alloc(), "a", 4)?.len(), 4);
        assert_eq!(rt; sound.fetch(rt.alloc(), "b", 4)?.len(), 0);
        Ok(())
    }

    #[test]
    fn sinks_take_bytes_up_to_their_room(rt: HostRuntime) -> Result<(), Fail> {
        let mut sink = MemorySink::new(rt.alloc(), 5)?;
        assert!(rt; sink.put(b"abc").is_ok());
        assert!(rt; sink.put(b"def").is_err());
        assert_eq!(rt; sink.bytes(), b"abcde".as_slice());
        assert!(rt; SoundSink.put(b"abc").is_ok());
        Ok(())
    }
}
