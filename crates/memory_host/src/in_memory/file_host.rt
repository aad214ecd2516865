// The memory host's files and streams. The laws are proved of each method; what it answers within them is pinned by the
// functions that it calls.
ghost use Rattle.memory_host.specs.Bounds.{bounds};
ghost use Rattle.memory_host.specs.State.{meaning_of};

use super::MemoryHost;
use errno::ErrorCode;
use handles::Open;
use host::{DropFault, FileHost, FileStream, Stat, StreamError};
use types::Handle;

impl<'a> FileHost for MemoryHost<'a> {
    ghost meaning = { meaning_of };

    ghost bounded = { bounds };

    #[tactic(auto, using(crate::proofs::Kept::read_kept))]
    fn read_at(
        &mut self,
        file: Handle,
        buffer: &mut [u8],
        offset: u64,
    ) -> Result<usize, ErrorCode> {
        self.disk.read_at(file, buffer, offset)
    }

    #[tactic(auto, using(crate::proofs::Kept::write_kept))]
    fn write_at(&mut self, file: Handle, bytes: &[u8], offset: u64) -> Result<usize, ErrorCode> {
        self.disk.write_at(file, bytes, offset)
    }

    #[tactic(auto, using(crate::proofs::Kept::append_kept))]
    fn append(&mut self, file: Handle, bytes: &[u8]) -> Result<usize, ErrorCode> {
        self.disk.append(file, bytes)
    }

    #[tactic(auto, using(crate::proofs::Kept::stat_kept))]
    fn stat(&mut self, node: Handle) -> Result<Stat, ErrorCode> {
        self.disk.stat(node)
    }

    #[tactic(auto, using(crate::proofs::Kept::via_kept))]
    fn read_via_stream(&mut self, file: Handle, offset: u64) -> Result<FileStream, ErrorCode> {
        self.disk.read_via_stream(file, offset)
    }

    #[tactic(auto, using(crate::proofs::Kept::stream_kept))]
    fn read_stream(&mut self, input: Handle, buffer: &mut [u8]) -> Result<usize, StreamError> {
        self.take(input, buffer)
    }

    #[tactic(auto, using(crate::proofs::Kept::output_kept))]
    fn write_stream(&mut self, output: Handle, bytes: &[u8]) -> Result<(), ErrorCode> {
        self.give(output, bytes)
    }

    #[tactic(auto, using(crate::proofs::Kept::drop_kept))]
    fn drop_handle(&mut self, handle: Handle) -> Result<(), DropFault> {
        self.disk.handles.put(handle, Open::Free);
        Ok(())
    }
}
