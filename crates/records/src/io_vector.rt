// A vector: a buffer to read into, or one to write from.
ghost use Rattle.std.specs.Prelude.{◌≡◌, ◌^◌, ◌<◌};
ghost use Rattle.records.specs.Layout.{vector_bytes, vector_of};
ghost use Rattle.std.proofs.Common.{rules};

use crate::{GuestType, Layout, Vector, array_at};
use memory::{GuestError, Region};

const LAYOUT: Layout = Layout { size: 8, align: 4 };

// A host only reads the buffer of a `Ciovec`, and fills that of an `Iovec`. Both lie alike.
#[derive(Clone, Copy, Debug, PartialEq, Eq)]
pub struct IoVector<const READ_ONLY: bool> {
    pub buf: u32,
    pub buf_len: u32,
}

pub type Iovec = IoVector<false>;

pub type Ciovec = IoVector<true>;

impl<const READ_ONLY: bool> IoVector<READ_ONLY> {
    fn to_bytes(&self) -> [u8; 8]
        ensures { result ≡ vector_bytes self.now }
    {
        let mut bytes = [0; 8];
        bytes[0..4].copy_from_slice(&self.buf.to_le_bytes());
        bytes[4..8].copy_from_slice(&self.buf_len.to_le_bytes());
        bytes
    }
}

impl<const READ_ONLY: bool> GuestType for IoVector<READ_ONLY> {
    const SIZE: u32 = LAYOUT.size;

    const ALIGN: u32 = LAYOUT.align;

    ghost SIZE = { 8 };

    ghost ALIGN = { 4 };

    ghost fits = { λ x. (x.buf < 2 ^ 32) × (x.buf_len < 2 ^ 32) };

    ghost bytes = { vector_bytes };

    ghost parsed = { vector_of };

    ghost long = { Prim.search rules };

    ghost back = { Prim.search rules };

    fn read(memory: &[u8], ptr: u64) -> Result<IoVector<READ_ONLY>, GuestError> {
        let bytes = LAYOUT.load(memory, ptr)?;
        Ok(IoVector {
            buf: u32::from_le_bytes(array_at(bytes, 0)),
            buf_len: u32::from_le_bytes(array_at(bytes, 4)),
        })
    }

    fn write(&self, memory: &mut [u8], ptr: u64) -> Result<(), GuestError> {
        LAYOUT.store(memory, ptr, &self.to_bytes())
    }
}

impl<const READ_ONLY: bool> Vector for IoVector<READ_ONLY> {
    ghost named = { λ x. record { ptr = x.buf; len = x.buf_len } };

    fn buffer(&self) -> Region {
        Region {
            ptr: self.buf,
            len: self.buf_len,
        }
    }
}
