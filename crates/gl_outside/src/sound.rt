//! A shelf and a sink without faults.

ghost use Rattle.std.specs.Prelude.{◌≡◌};

use crate::files::Files;
use crate::memory::copy_within;
use crate::shelf::{FetchError, Shelf};
use crate::sink::{Sink, SinkFailed};
use std::alloc::Global;
use std::marker::Model;

/// A shelf that never fails: a name that is not in its list has no bytes.
#[derive(Drop)]
pub struct SoundShelf {
    files: Files,
}

impl Model for SoundShelf {
    ghost use Rattle.std.specs.Prelude.{List};
    ghost use Rattle.gl_outside.specs.Files.{NamedBytes, named_code};

    ghost Value = { List NamedBytes };

    ghost coded = { named_code };

    ghost view = { λ s. s.files };
}

impl SoundShelf {
    /// A shelf of these bytes.
    pub fn new(files: Files) -> SoundShelf
        ensures { result ≡ files }
    {
        SoundShelf { files }
    }
}

impl Shelf for SoundShelf {
    ghost use Rattle.std.specs.Prelude.{Option, Some};
    ghost use Rattle.gl_outside.specs.Files.{bytes_or_none};

    ghost holds = { λ s name. Some (bytes_or_none s name) };

    ghost faults = { λ _. 0 };

    fn fetch(&mut self, alloc: Global, name: &str, max: u64) -> Result<Vec<u8>, FetchError> {
        match self.files.find(name) {
            None => Ok(Vec::new(alloc)),
            Some(bytes) => copy_within(alloc, bytes, max),
        }
    }
}

/// A sink that takes every byte, keeps none and tells nothing.
#[derive(Clone, Copy, Debug, PartialEq, Eq)]
pub struct SoundSink;

impl Sink for SoundSink {
    ghost use Rattle.std.specs.Prelude.{None};

    ghost written = { λ _. None };

    ghost faults = { λ _. 0 };

    fn put(&mut self, _bytes: &[u8]) -> Result<(), SinkFailed> {
        Ok(())
    }
}
