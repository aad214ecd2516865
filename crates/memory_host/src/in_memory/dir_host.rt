// The memory host's directory.
use super::MemoryHost;
use errno::ErrorCode;
use host::{DirEntry, DirHost, Fresh, Start};
use memory_dir::OpenOptions;
use types::{DescriptorFlags, Handle, Lookupflags, Oflags};

impl<'a> DirHost for MemoryHost<'a> {
    // There are no links to follow. The two kinds of flags come apart, as the trait has them.
    #[tactic(auto, using(crate::proofs::Kept::open_kept))]
    fn open_at(
        &mut self,
        directory: Handle,
        _lookup: Lookupflags,
        path: &[u8],
        oflags: Oflags,
        flags: DescriptorFlags,
    ) -> Result<Fresh, ErrorCode> {
        memory_dir::open(
            &mut self.disk,
            directory,
            path,
            OpenOptions { oflags, flags },
        )
    }

    #[tactic(auto, using(crate::proofs::Kept::count_kept))]
    fn entry_count(&mut self, directory: Handle) -> Result<u32, ErrorCode> {
        memory_dir::entry_count(&self.disk, directory)
    }

    #[tactic(auto, using(crate::proofs::Kept::entry_kept))]
    fn entry(&mut self, directory: Handle, index: u32) -> Result<DirEntry, ErrorCode> {
        memory_dir::entry(&self.disk, directory, index)
    }

    fn start(&mut self) -> Start {
        self.disk.handles.start()
    }
}
