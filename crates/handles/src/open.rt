// What a handle of a host with one directory of files stands for.
ghost use Rattle.std.specs.Prelude.{◌≡◌};

use crate::file_number::FileNumber;
use host::NodeKind;
use types::DescriptorFlags;

#[derive(Clone, Copy, Debug, PartialEq, Eq)]
pub enum Node {
    Directory,
    File(FileNumber),
}

impl From<Node> for NodeKind {
    ghost use Rattle.handles.specs.Lives.{opened_kind};

    ghost from_gives = { λ node r. r ≡ opened_kind node };

    fn from(node: Node) -> NodeKind {
        match node {
            Node::Directory => NodeKind::Directory,
            Node::File(_) => NodeKind::File,
        }
    }
}

// The directory or a file, with the flags that it was opened with.
#[derive(Clone, Copy, Debug, PartialEq, Eq)]
pub struct Opened {
    pub node: Node,
    pub flags: DescriptorFlags,
}

// A stream on a file, with the file's flags and the place that the stream has come to.
#[derive(Clone, Copy, Debug, PartialEq, Eq)]
pub struct Stream {
    pub file: FileNumber,
    pub flags: DescriptorFlags,
    pub place: u64,
}

#[derive(Clone, Copy, Debug, PartialEq, Eq)]
pub enum Open {
    Free,
    Node(Opened),
    Stream(Stream),
    Stdin,
    Stdout,
    Stderr,
}

impl Open {
    ghost use Rattle.handles.specs.Slots.{is_free};

    pub(crate) fn is_free(&self) -> bool
        ensures { result ≡ is_free self.now }
    {
        matches!(self, Open::Free)
    }
}
