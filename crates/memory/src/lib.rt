// A guest's memory is a byte slice of any length; addresses and lengths in it are 32-bit words.
#![tactic(auto)]

ghost use Rattle.std.specs.Prelude.{◌≡◌};
ghost use Rattle.memory.specs.Ranges.{checked, told};

use errno::{Errno, Error, TrapCause};

// What is wrong with what a guest named in its memory.
#[derive(Clone, Copy, Debug, PartialEq, Eq)]
pub enum GuestError {
    PtrOutOfBounds,
    PtrNotAligned,
    InvalidUtf8,
}

impl From<GuestError> for Error {
    ghost from_gives = { λ fault r. r ≡ told fault };

    fn from(fault: GuestError) -> Error {
        match fault {
            GuestError::PtrOutOfBounds => Error::Trap(TrapCause::Pointer),
            GuestError::PtrNotAligned => Error::Trap(TrapCause::Pointer),
            GuestError::InvalidUtf8 => Error::Errno(Errno::Ilseq),
        }
    }
}

// `len` bytes from an address on.
#[derive(Clone, Copy, Debug, PartialEq, Eq)]
pub struct Region {
    pub ptr: u32,
    pub len: u32,
}

impl Region {
    // Refuses a region that ends behind the memory.
    pub fn check(self, memory: &[u8]) -> Result<(), GuestError>
        ensures { result ≡ checked memory.now self }
    {
        if (memory.len() as u64) < self.ptr as u64 + self.len as u64 {
            return Err(GuestError::PtrOutOfBounds);
        }
        Ok(())
    }
}
