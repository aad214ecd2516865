// The host's side of directories, over the same meaning as its files.
ghost use Rattle.host.specs.Laws.{OpenAt, EntryCount, EntryAt, Started};

use crate::answers::{DirEntry, Start};
use crate::file_host::FileHost;
use crate::token::Fresh;
use errno::ErrorCode;
use types::{DescriptorFlags, Handle, Lookupflags, Oflags};

pub trait DirHost: FileHost {
    // Opens a path below the directory. The two kinds of flags come apart, as in the source.
    fn open_at(
        &mut self,
        directory: Handle,
        lookup: Lookupflags,
        path: &[u8],
        oflags: Oflags,
        flags: DescriptorFlags,
    ) -> Result<Fresh, ErrorCode>
        ensures { OpenAt (Self.meaning self.old) directory.0 oflags.0 result (Self.meaning self.new) };

    fn entry_count(&mut self, directory: Handle) -> Result<u32, ErrorCode>
        ensures { EntryCount (Self.meaning self.old) directory.0 result (Self.meaning self.new) };

    // The entry at the index.
    fn entry(&mut self, directory: Handle, index: u32) -> Result<DirEntry, ErrorCode>
        ensures { EntryAt (Self.meaning self.old) directory.0 index result (Self.meaning self.new) };

    // Ends all handles and gives those that a new context begins with.
    fn start(&mut self) -> Start
        ensures { Started (Self.meaning self.old) result (Self.meaning self.new) };
}
