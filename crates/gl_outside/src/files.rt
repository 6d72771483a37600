//! Named bytes in memory.

ghost use Rattle.std.specs.Prelude.{◌≡◌, [], ◌∷◌, ◌++◌, OnOk, OnErr, string_bytes, option_map};
ghost use Rattle.gl_outside.specs.Files.{bytes_of};

use std::alloc::{AllocError, Global};
use std::marker::Model;

#[derive(Drop)]
struct File {
    name: String,
    bytes: Vec<u8>,
}

/// Named bytes, in the order in which they were added.
#[derive(Drop)]
pub struct Files {
    list: Vec<File>,
}

impl Model for Files {
    ghost use Rattle.std.specs.Prelude.{List, map};
    ghost use Rattle.gl_outside.specs.Files.{NamedBytes, named_code};
    ghost use Rattle.gl_outside.specs.FileViews.{named_bytes};

    ghost Value = { List NamedBytes };

    ghost coded = { named_code };

    ghost view = { λ f. map named_bytes f.list.items };
}

impl Files {
    /// No names.
    pub fn new(alloc: Global) -> Files
        ensures { result ≡ [] }
    {
        Files {
            list: Vec::new(alloc),
        }
    }

    /// Adds a name with its bytes. Of two with one name the first counts.
    pub fn add(&mut self, name: String, bytes: Vec<u8>) -> Result<(), AllocError>
        ensures ok { OnOk result (self.new ≡ self.old ++ (string_bytes name, bytes.items) ∷ []) }
        ensures err { OnErr result (self.new ≡ self.old) }
    {
        self.list.push(File { name, bytes })?;
        Ok(())
    }

    /// The bytes of a name.
    pub fn find(&self, name: &str) -> Option<&[u8]>
        ensures { option_map (λ b. b.now) result ≡ bytes_of self.now name.now }
    {
        for file in &self.list {
            if file.name.as_str() == name {
                return Some(file.bytes.as_slice());
            }
        }
        None
    }
}
