// The host's side of files and streams. Every asking may be refused with a code but the drop, which may report a fault.
ghost use Rattle.host.specs.Meaning.{Meaning, Bounded};
ghost use Rattle.host.specs.Laws.{ReadAt, WriteAt, Append, StatOf, ReadViaStream, ReadStream, WriteStream, DropHandle};

use crate::answers::{DropFault, Stat, StreamError};
use crate::token::FileStream;
use errno::ErrorCode;
use types::Handle;

pub trait FileHost {
    ghost meaning: { Self → Meaning };

    // Reads from the file at the offset into the front of the buffer.
    fn read_at(&mut self, file: Handle, buffer: &mut [u8], offset: u64) -> Result<usize, ErrorCode>
        ensures { ReadAt (meaning self.old) file.0 offset buffer.old result buffer.new (meaning self.new) };

    // Writes the first of the bytes into the file at the offset.
    fn write_at(&mut self, file: Handle, bytes: &[u8], offset: u64) -> Result<usize, ErrorCode>
        ensures { WriteAt (meaning self.old) file.0 offset bytes.now result (meaning self.new) };

    // Writes the first of the bytes at the file's end.
    fn append(&mut self, file: Handle, bytes: &[u8]) -> Result<usize, ErrorCode>
        ensures { Append (meaning self.old) file.0 bytes.now result (meaning self.new) };

    // Tells of a file or a directory.
    fn stat(&mut self, node: Handle) -> Result<Stat, ErrorCode>
        ensures { StatOf (meaning self.old) node.0 result (meaning self.new) };

    // Opens a stream on the file from the offset.
    fn read_via_stream(&mut self, file: Handle, offset: u64) -> Result<FileStream, ErrorCode>
        ensures { ReadViaStream (meaning self.old) file.0 offset result (meaning self.new) };

    // Takes from an input, or from a stream on a file, into the front of the buffer.
    fn read_stream(&mut self, input: Handle, buffer: &mut [u8]) -> Result<usize, StreamError>
        ensures { ReadStream (meaning self.old) input.0 buffer.old result buffer.new (meaning self.new) };

    // Gives the output the whole piece, or is refused.
    fn write_stream(&mut self, output: Handle, bytes: &[u8]) -> Result<(), ErrorCode>
        ensures { WriteStream (meaning self.old) output.0 bytes.now result (meaning self.new) };

    fn drop_handle(&mut self, handle: Handle) -> Result<(), DropFault>
        ensures { DropHandle (meaning self.old) handle.0 (meaning self.new) };

    // No host goes beyond the limits.
    ghost bounded: { (host : Self) → Bounded (meaning host) };
}
