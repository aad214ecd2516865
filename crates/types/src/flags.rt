// Flags and rights: integers whose low bits have names. A guest's word passes only if it has no other bit.
ghost use Rattle.std.specs.Prelude.{◌≡◌, ℕ, ◌^◌, ◌<◌, bit_or};
ghost use Rattle.types.specs.Words.{Taken, contains as contains_all};

use errno::Errno;
use std::ops::BitOr;

// Flags as one number, of which each bit stands for itself.
pub trait Flags: Copy {
    ghost bits: { Self → ℕ };

    fn bits(self) -> u64
        ensures { result ≡ bits self };

    // Whether every bit of the other is set.
    final fn contains(self, other: Self) -> bool
        ensures { result ≡ contains_all (bits self) (bits other) }
    {
        self.bits() & other.bits() == other.bits()
    }
}

// A guest's word, of which none but the lowest `NAMED` bits may be set.
fn known_bits<const NAMED: u32>(word: u64) -> Result<u64, Errno>
    requires { NAMED < 64 }
    ensures { Taken (λ bits. bits) (2 ^ NAMED) word result }
{
    if word >> NAMED != 0 {
        return Err(Errno::Inval);
    }
    Ok(word)
}

// How an opening is read and written.
#[derive(Clone, Copy, Debug, Default, PartialEq, Eq)]
pub struct Fdflags(pub u16);

impl Fdflags {
    pub const APPEND: Fdflags = Fdflags(1 << 0);

    pub const DSYNC: Fdflags = Fdflags(1 << 1);

    pub const NONBLOCK: Fdflags = Fdflags(1 << 2);

    pub const RSYNC: Fdflags = Fdflags(1 << 3);

    pub const SYNC: Fdflags = Fdflags(1 << 4);
}

impl TryFrom<u32> for Fdflags {
    type Error = Errno;

    ghost try_from_gives = { λ word r. Taken (λ flags. flags.0) (2 ^ 5) word r };

    fn try_from(word: u32) -> Result<Fdflags, Errno> {
        Ok(Fdflags(known_bits::<5>(word as u64)? as u16))
    }
}

// What opening a path does beside opening it.
#[derive(Clone, Copy, Debug, Default, PartialEq, Eq)]
pub struct Oflags(pub u16);

impl Oflags {
    pub const CREAT: Oflags = Oflags(1 << 0);

    pub const DIRECTORY: Oflags = Oflags(1 << 1);

    pub const EXCL: Oflags = Oflags(1 << 2);

    pub const TRUNC: Oflags = Oflags(1 << 3);
}

impl Flags for Oflags {
    ghost bits = { λ flags. flags.0 };

    fn bits(self) -> u64 {
        u64::from(self.0)
    }
}

impl TryFrom<u32> for Oflags {
    type Error = Errno;

    ghost try_from_gives = { λ word r. Taken (λ flags. flags.0) (2 ^ 4) word r };

    fn try_from(word: u32) -> Result<Oflags, Errno> {
        Ok(Oflags(known_bits::<4>(word as u64)? as u16))
    }
}

// How a path is resolved.
#[derive(Clone, Copy, Debug, Default, PartialEq, Eq)]
pub struct Lookupflags(pub u32);

impl Lookupflags {
    pub const SYMLINK_FOLLOW: Lookupflags = Lookupflags(1 << 0);
}

impl TryFrom<u32> for Lookupflags {
    type Error = Errno;

    ghost try_from_gives = { λ word r. Taken (λ flags. flags.0) (2 ^ 1) word r };

    fn try_from(word: u32) -> Result<Lookupflags, Errno> {
        Ok(Lookupflags(known_bits::<1>(word as u64)? as u32))
    }
}

// How a host opens a file or a directory, and what it tells of one.
#[derive(Clone, Copy, Debug, Default, PartialEq, Eq)]
pub struct DescriptorFlags(pub u8);

impl DescriptorFlags {
    pub const READ: DescriptorFlags = DescriptorFlags(1 << 0);

    pub const WRITE: DescriptorFlags = DescriptorFlags(1 << 1);

    pub const FILE_INTEGRITY_SYNC: DescriptorFlags = DescriptorFlags(1 << 2);

    pub const DATA_INTEGRITY_SYNC: DescriptorFlags = DescriptorFlags(1 << 3);

    pub const REQUESTED_WRITE_SYNC: DescriptorFlags = DescriptorFlags(1 << 4);
}

impl Flags for DescriptorFlags {
    ghost bits = { λ flags. flags.0 };

    fn bits(self) -> u64 {
        self.0 as u64
    }
}

impl BitOr for DescriptorFlags {
    type Output = DescriptorFlags;

    ghost bitor_gives = { λ a b r. r.0 ≡ bit_or a.0 b.0 };

    fn bitor(self, other: DescriptorFlags) -> DescriptorFlags {
        DescriptorFlags(self.0 | other.0)
    }
}

// What may be done through an opening.
#[derive(Clone, Copy, Debug, Default, PartialEq, Eq)]
pub struct Rights(pub u64);

impl Rights {
    pub const FD_DATASYNC: Rights = Rights(1 << 0);

    pub const FD_READ: Rights = Rights(1 << 1);

    pub const FD_SEEK: Rights = Rights(1 << 2);

    pub const FD_FDSTAT_SET_FLAGS: Rights = Rights(1 << 3);

    pub const FD_SYNC: Rights = Rights(1 << 4);

    pub const FD_TELL: Rights = Rights(1 << 5);

    pub const FD_WRITE: Rights = Rights(1 << 6);

    pub const FD_ADVISE: Rights = Rights(1 << 7);

    pub const FD_ALLOCATE: Rights = Rights(1 << 8);

    pub const PATH_CREATE_DIRECTORY: Rights = Rights(1 << 9);

    pub const PATH_CREATE_FILE: Rights = Rights(1 << 10);

    pub const PATH_LINK_SOURCE: Rights = Rights(1 << 11);

    pub const PATH_LINK_TARGET: Rights = Rights(1 << 12);

    pub const PATH_OPEN: Rights = Rights(1 << 13);

    pub const FD_READDIR: Rights = Rights(1 << 14);

    pub const PATH_READLINK: Rights = Rights(1 << 15);

    pub const PATH_RENAME_SOURCE: Rights = Rights(1 << 16);

    pub const PATH_RENAME_TARGET: Rights = Rights(1 << 17);

    pub const PATH_FILESTAT_GET: Rights = Rights(1 << 18);

    pub const PATH_FILESTAT_SET_SIZE: Rights = Rights(1 << 19);

    pub const PATH_FILESTAT_SET_TIMES: Rights = Rights(1 << 20);

    pub const FD_FILESTAT_GET: Rights = Rights(1 << 21);

    pub const FD_FILESTAT_SET_SIZE: Rights = Rights(1 << 22);

    pub const FD_FILESTAT_SET_TIMES: Rights = Rights(1 << 23);

    pub const PATH_SYMLINK: Rights = Rights(1 << 24);

    pub const PATH_REMOVE_DIRECTORY: Rights = Rights(1 << 25);

    pub const PATH_UNLINK_FILE: Rights = Rights(1 << 26);

    pub const POLL_FD_READWRITE: Rights = Rights(1 << 27);

    pub const SOCK_SHUTDOWN: Rights = Rights(1 << 28);

    pub const SOCK_ACCEPT: Rights = Rights(1 << 29);
}

impl TryFrom<u64> for Rights {
    type Error = Errno;

    ghost try_from_gives = { λ word r. Taken (λ rights. rights.0) (2 ^ 30) word r };

    fn try_from(word: u64) -> Result<Rights, Errno> {
        Ok(Rights(known_bits::<30>(word)?))
    }
}
