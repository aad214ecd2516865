// Handles that are owed. Neither token can lapse: each is moved on until it is spent.
ghost use Rattle.std.specs.Prelude.{◌≡◌};
ghost use Rattle.host.specs.Laws.{ReadStream, DropHandle};

use crate::answers::{DropFault, StreamError};
use crate::file_host::FileHost;
use types::Handle;

// What an opening has opened.
#[derive(Clone, Copy, Debug, PartialEq, Eq)]
pub enum NodeKind {
    File,
    Directory,
}

// A freshly opened handle, owed until it is placed into the table or handed back to the host.
pub struct Fresh {
    handle: Handle,
    kind: NodeKind,
}

impl Fresh {
    // For a host, whose opening gives the token.
    pub fn new(handle: Handle, kind: NodeKind) -> Fresh
        ensures { (result.handle ≡ handle) × (result.kind ≡ kind) }
    {
        Fresh { handle, kind }
    }

    // For the table, which then holds the handle.
    pub fn place(self) -> (Handle, NodeKind)
        ensures { (result.0 ≡ self.handle) × (result.1 ≡ self.kind) }
    {
        let Fresh { handle, kind } = self;
        (handle, kind)
    }

    pub fn hand_back<H: FileHost>(self, host: &mut H) -> Result<(), DropFault>
        ensures { DropHandle (H.meaning host.old) self.handle.0 (H.meaning host.new) }
    {
        let Fresh { handle, kind: _ } = self;
        host.drop_handle(handle)
    }
}

// A stream on a file, owed until it is dropped.
pub struct FileStream {
    handle: Handle,
}

impl FileStream {
    // For a host, whose opening of a stream gives the token.
    pub fn new(handle: Handle) -> FileStream
        ensures { result.handle ≡ handle }
    {
        FileStream { handle }
    }

    pub fn read<H: FileHost>(&self, host: &mut H, buffer: &mut [u8]) -> Result<usize, StreamError>
        ensures { ReadStream (H.meaning host.old) self.now.handle.0 buffer.old result buffer.new (H.meaning host.new) }
    {
        host.read_stream(self.handle, buffer)
    }

    pub fn close<H: FileHost>(self, host: &mut H) -> Result<(), DropFault>
        ensures { DropHandle (H.meaning host.old) self.handle.0 (H.meaning host.new) }
    {
        let FileStream { handle } = self;
        host.drop_handle(handle)
    }
}
