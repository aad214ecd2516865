// What a host answers beside numbers and codes.
ghost use Rattle.std.specs.Prelude.{◌≡◌};
ghost use Rattle.host.specs.declared.answers.StreamError.TheVariants.{LastOperationFailed};

use errno::ErrorCode;
use fixed_vec::FixedVec;
use types::{DescriptorFlags, Filetype, Handle};

// A name of at most 255 bytes.
pub type Name = FixedVec<u8, 255>;

// Why a stream brings nothing: it has ended, or the host refused.
#[derive(Clone, Copy, Debug, PartialEq, Eq)]
pub enum StreamError {
    Closed,
    LastOperationFailed(ErrorCode),
}

impl From<ErrorCode> for StreamError {
    ghost from_gives = { λ code r. r ≡ LastOperationFailed code };

    fn from(code: ErrorCode) -> StreamError {
        StreamError::LastOperationFailed(code)
    }
}

// What a host tells of a file or a directory. A directory has no bytes, and so the size 0.
#[derive(Clone, Copy, Debug, PartialEq, Eq)]
pub struct Stat {
    pub filetype: Filetype,
    pub flags: DescriptorFlags,
    pub serial: u64,
    pub size: u64,
}

// The host reports a fault in letting a handle go. It is gone all the same.
#[derive(Clone, Copy, Debug, PartialEq, Eq)]
pub struct DropFault;

// An entry of a directory, with its name.
#[derive(Clone, Copy, Debug, PartialEq, Eq)]
pub struct DirEntry {
    pub filetype: Filetype,
    pub serial: u64,
    pub name: Name,
}

// One of the three streams that every context has.
#[derive(Clone, Copy, Debug, PartialEq, Eq)]
pub struct StandardStream {
    pub handle: Handle,
    pub terminal: bool,
}

// A directory that is open from the start, under a name for the guest.
#[derive(Clone, Copy, Debug, Default, PartialEq, Eq)]
pub struct Preopen {
    pub handle: Handle,
    pub name: Name,
}

// What a context begins with.
#[derive(Clone, Copy, Debug, PartialEq, Eq)]
pub struct Start {
    pub stdin: StandardStream,
    pub stdout: StandardStream,
    pub stderr: StandardStream,
    pub preopens: FixedVec<Preopen, 8>,
}
