// A file: a name, and the bytes that it holds.
ghost use Rattle.std.specs.Prelude.{⊤, ◌≡◌, ◌≤◌, ◌↔◌, [], length, false, IsOk, IfOk, OnOk, OnErr};
ghost use Rattle.host.specs.Laws.{written};
ghost use Rattle.storage.specs.Held.{too_large};

use crate::bytes::write_at;
use fixed_vec::{CapacityError, FixedVec};
use std::alloc::AllocError;

// The ghost fields say of a file what a `FixedVec` knows of itself, where a law speaks of files.
#[derive(Copy, Debug, PartialEq, Eq)]
pub struct File {
    pub name: FixedVec<u8, 32>,
    pub content: FixedVec<u8, 2048>,
    ghost short: { length name.items ≤ 32 },
    ghost small: { length content.items ≤ 2048 },
}

impl Clone for File {
    ghost is_clone = { λ a b. b ≡ a };

    ghost is_infallible = { λ _. ⊤ };

    fn clone(&self) -> Result<File, AllocError> {
        Ok(*self)
    }
}

// A file without a name and without bytes.
impl Default for File {
    ghost is_default = { λ f. (f.name.items ≡ []) × (f.content.items ≡ []) };

    fn default() -> File {
        File {
            name: FixedVec::new(),
            content: FixedVec::new(),
        }
    }
}

impl File {
    // A file without bytes, unless the name is too long for one.
    pub fn new(name: &[u8]) -> Result<File, CapacityError>
        ensures fits { IsOk result ↔ (length name.now ≤ 32) }
        ensures file { IfOk result (λ f. (f.name.items ≡ name.now) × (f.content.items ≡ [])) }
    {
        Ok(File {
            name: FixedVec::try_from(name)?,
            content: FixedVec::new(),
        })
    }

    // Writes the bytes at the offset, with zeros in a gap before it. They fit, or the file stays.
    pub fn write(&mut self, offset: u64, source: &[u8]) -> Result<(), CapacityError>
        ensures fits { IsOk result ↔ (too_large 2048 offset source.now ≡ false) }
        ensures name { self.new.name ≡ self.old.name }
        ensures ok { OnOk result (self.new.content.items ≡ written self.old.content.items offset source.now) }
        ensures err { OnErr result (self.new.content ≡ self.old.content) }
    {
        write_at(&mut self.content, offset, source)
    }

    // Takes all bytes away.
    pub fn clear(&mut self)
        ensures name { self.new.name ≡ self.old.name }
        ensures content { self.new.content.items ≡ [] }
    {
        self.content.truncate(0);
    }
}
