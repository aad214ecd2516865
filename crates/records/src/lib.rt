// Records of witx: how many bytes each has, where it may lie, and how it is read and written.
#![tactic(auto)]

ghost use Rattle.std.specs.Prelude.{◌≡◌, ℕ, ◌+◌, ◌≤◌, List, length, IfOk};
ghost use Rattle.memory.specs.declared.Region.{Region as RegionOf};
ghost use Rattle.memory.specs.Ranges.{bytes_at, bytes_of};
ghost use Rattle.records.specs.Layout.{placed, read_at, WriteAt};

use memory::{GuestError, Region};

mod dirent;
mod io_vector;

pub use dirent::Dirent;
pub use io_vector::{Ciovec, IoVector, Iovec};

// A record of witx in a guest's memory: how many bytes it has, at multiples of what it may lie, and how it is read and
// written. Its address is given in 64 bits, so that those of an array do not wrap.
pub trait GuestType: Sized {
    const SIZE: u32;

    const ALIGN: u32;

    ghost SIZE: { ℕ };

    ghost ALIGN: { ℕ };

    // Each field is within its width.
    ghost fits: { Self → Type 0 };

    ghost bytes: { Self → List ℕ };

    ghost parsed: { List ℕ → Self };

    fn read(memory: &[u8], ptr: u64) -> Result<Self, GuestError>
        ensures { result ≡ read_at SIZE ALIGN parsed memory.now ptr };

    fn write(&self, memory: &mut [u8], ptr: u64) -> Result<(), GuestError>
        ensures { WriteAt SIZE ALIGN (bytes self.now) memory.old ptr result memory.new };

    ghost long: { (x : Self) → length (bytes x) ≡ SIZE };

    ghost back: { (x : Self) → fits x → parsed (bytes x) ≡ x };
}

// A record that names a buffer.
pub trait Vector: GuestType {
    ghost named: { Self → RegionOf };

    // buf and buf_len.
    fn buffer(&self) -> Region
        ensures { result ≡ named self.now };
}

// A record's size and alignment, for reading and writing its bytes.
#[derive(Clone, Copy)]
struct Layout {
    size: u32,
    align: u32,
}

impl Layout {
    // The index of a record whose address is aligned and which ends within the memory.
    fn place(self, memory: &[u8], ptr: u64) -> Result<usize, GuestError>
        ensures { result ≡ placed self.size self.align memory.now ptr ptr }
    {
        if !ptr.is_multiple_of(self.align as u64) {
            return Err(GuestError::PtrNotAligned);
        }
        let end = ptr
            .checked_add(self.size as u64)
            .ok_or(GuestError::PtrOutOfBounds)?;
        if end > memory.len() as u64 {
            return Err(GuestError::PtrOutOfBounds);
        }
        Ok(ptr as usize)
    }

    fn load(self, memory: &[u8], ptr: u64) -> Result<&[u8], GuestError>
        ensures long { IfOk result (λ bytes. length bytes.now ≡ self.size) }
        ensures value { bytes_of result ≡ read_at self.size self.align (λ bs. bs) memory.now ptr }
    {
        let at = self.place(memory, ptr)?;
        Ok(&memory[at..at + self.size as usize])
    }

    fn store(self, memory: &mut [u8], ptr: u64, bytes: &[u8]) -> Result<(), GuestError>
        requires { length bytes.now ≡ self.size }
        ensures { WriteAt self.size self.align bytes.now memory.old ptr result memory.new }
    {
        let at = self.place(memory, ptr)?;
        memory[at..at + bytes.len()].copy_from_slice(bytes);
        Ok(())
    }
}

// The bytes of one field.
fn array_at<const N: usize>(bytes: &[u8], at: usize) -> [u8; N]
    requires { at + N ≤ length bytes.now }
    ensures { result ≡ bytes_at bytes.now at N }
{
    bytes[at..at + N].try_into().unwrap()
}
