// An entry of a listing, which its name follows.
ghost use Rattle.std.specs.Prelude.{◌≡◌, ◌^◌, ◌<◌};
ghost use Rattle.records.specs.Layout.{dirent_bytes, dirent_of};
ghost use Rattle.std.proofs.Common.{rules};

use crate::{GuestType, Layout, array_at};
use memory::GuestError;
use types::Filetype;

const LAYOUT: Layout = Layout { size: 24, align: 8 };

#[derive(Clone, Copy, Debug, PartialEq, Eq)]
pub struct Dirent {
    pub d_next: u64,
    pub d_ino: u64,
    pub d_namlen: u32,
    pub d_type: Filetype,
}

impl Dirent {
    // The whole record, for whoever copies as much of it as there is room for.
    #[tactic(auto, using(crate::proofs::Numbers::bytes_of_four, crate::proofs::Numbers::bytes_of_eight))]
    pub fn to_bytes(&self) -> [u8; 24]
        ensures { result ≡ dirent_bytes self.now }
    {
        let mut bytes = [0; 24];
        bytes[0..8].copy_from_slice(&self.d_next.to_le_bytes());
        bytes[8..16].copy_from_slice(&self.d_ino.to_le_bytes());
        bytes[16..20].copy_from_slice(&self.d_namlen.to_le_bytes());
        bytes[20] = u8::from(self.d_type);
        bytes
    }
}

impl GuestType for Dirent {
    const SIZE: u32 = LAYOUT.size;

    const ALIGN: u32 = LAYOUT.align;

    ghost SIZE = { 24 };

    ghost ALIGN = { 8 };

    ghost fits = { λ x. (x.d_next < 2 ^ 64) × (x.d_ino < 2 ^ 64) × (x.d_namlen < 2 ^ 32) };

    ghost bytes = { dirent_bytes };

    ghost parsed = { dirent_of };

    ghost long = { Prim.search rules };

    ghost back = { Prim.search rules };

    fn read(memory: &[u8], ptr: u64) -> Result<Dirent, GuestError> {
        let bytes = LAYOUT.load(memory, ptr)?;
        Ok(Dirent {
            d_next: u64::from_le_bytes(array_at(bytes, 0)),
            d_ino: u64::from_le_bytes(array_at(bytes, 8)),
            d_namlen: u32::from_le_bytes(array_at(bytes, 16)),
            d_type: Filetype::from(u8::from_le_bytes(array_at(bytes, 20))),
        })
    }

    fn write(&self, memory: &mut [u8], ptr: u64) -> Result<(), GuestError> {
        LAYOUT.store(memory, ptr, &self.to_bytes())
    }
}
