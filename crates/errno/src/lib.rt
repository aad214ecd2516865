// How calls fail: an errno that the guest is told, or a trap that stops it; and the codes with which a host refuses.
#![tactic(auto)]

ghost use Rattle.std.specs.Prelude.{◌≡◌, Some};
ghost use Rattle.errno.specs.Numbers.{errno_number, errno_of};
ghost use Rattle.errno.specs.declared.Error.TheVariants.{Errno as ToldErrno};
ghost use Rattle.errno.specs.Texts.{errno_text, cause_text, error_text};

use std::fmt;

// The errnos that the calls answer.
#[derive(Clone, Copy, Debug, PartialEq, Eq)]
pub enum Errno {
    Success = 0,
    Acces = 2,
    Badf = 8,
    Exist = 20,
    Fbig = 22,
    Ilseq = 25,
    Intr = 27,
    Inval = 28,
    Io = 29,
    Isdir = 31,
    Mfile = 33,
    Nametoolong = 37,
    Noent = 44,
    Nomem = 48,
    Nospc = 51,
    Notdir = 54,
    Notsup = 58,
    Overflow = 61,
    Perm = 63,
    Rofs = 69,
    Spipe = 70,
}

// The number that witx gives the errno.
impl From<Errno> for u16 {
    ghost from_gives = { λ errno r. r ≡ errno_number errno };

    fn from(errno: Errno) -> u16 {
        errno as u16
    }
}

// The codes with which a host refuses.
#[derive(Clone, Copy, Debug, PartialEq, Eq)]
pub enum ErrorCode {
    Access,
    BadDescriptor,
    Exist,
    FileTooLarge,
    Interrupted,
    Io,
    IsDirectory,
    NoEntry,
    InsufficientSpace,
    NotDirectory,
    Unsupported,
    NotPermitted,
    ReadOnly,
}

impl From<ErrorCode> for Errno {
    ghost from_gives = { λ code r. r ≡ errno_of code };

    fn from(code: ErrorCode) -> Errno {
        match code {
            ErrorCode::Access => Errno::Acces,
            ErrorCode::BadDescriptor => Errno::Badf,
            ErrorCode::Exist => Errno::Exist,
            ErrorCode::FileTooLarge => Errno::Fbig,
            ErrorCode::Interrupted => Errno::Intr,
            ErrorCode::Io => Errno::Io,
            ErrorCode::IsDirectory => Errno::Isdir,
            ErrorCode::NoEntry => Errno::Noent,
            ErrorCode::InsufficientSpace => Errno::Nospc,
            ErrorCode::NotDirectory => Errno::Notdir,
            ErrorCode::Unsupported => Errno::Notsup,
            ErrorCode::NotPermitted => Errno::Perm,
            ErrorCode::ReadOnly => Errno::Rofs,
        }
    }
}

// Why a guest is stopped: it named memory that it does not have, or a host could not let a handle go.
#[derive(Clone, Copy, Debug, PartialEq, Eq)]
pub enum TrapCause {
    Pointer,
    Drop,
}

#[derive(Clone, Copy, Debug, PartialEq, Eq)]
pub enum Error {
    Errno(Errno),
    Trap(TrapCause),
}

impl From<Errno> for Error {
    ghost from_gives = { λ errno r. r ≡ ToldErrno errno };

    fn from(errno: Errno) -> Error {
        Error::Errno(errno)
    }
}

impl From<ErrorCode> for Error {
    ghost from_gives = { λ code r. r ≡ ToldErrno (errno_of code) };

    fn from(code: ErrorCode) -> Error {
        Error::Errno(Errno::from(code))
    }
}

impl fmt::Display for Errno {
    ghost output = { λ told. Some (errno_text told) };

    fn fmt<W: fmt::Write>(&self, f: &mut fmt::Formatter<W>) -> fmt::Result {
        write!(f, "errno {}", u16::from(*self))
    }
}

impl fmt::Display for TrapCause {
    ghost output = { λ cause. Some (cause_text cause) };

    fn fmt<W: fmt::Write>(&self, f: &mut fmt::Formatter<W>) -> fmt::Result {
        f.write_str(match self {
            TrapCause::Pointer => "trap pointer",
            TrapCause::Drop => "trap drop",
        })
    }
}

impl std::error::Error for Error {}

impl fmt::Display for Error {
    ghost output = { λ error. Some (error_text error) };

    fn fmt<W: fmt::Write>(&self, f: &mut fmt::Formatter<W>) -> fmt::Result {
        match self {
            Error::Errno(told) => write!(f, "{told}"),
            Error::Trap(cause) => write!(f, "{cause}"),
        }
    }
}
