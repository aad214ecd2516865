// The buffer of a vector call: the first of its vectors that is not empty.
ghost use Rattle.std.specs.Prelude.{◌≡◌, ◌+◌, ◌*◌};
ghost use Rattle.fuel.specs.Charges.{Is};
ghost use Rattle.fuel.specs.Vectors.{first, first_non_empty, vectors};

use crate::Fuel;
use errno::Error;
use memory::{GuestError, Region};
use records::{GuestType, Vector};

// `count` records from an address on.
#[derive(Clone, Copy, Debug, PartialEq, Eq)]
pub struct Array {
    pub ptr: u32,
    pub count: u32,
}

impl Array {
    // Where the record with an index begins.
    fn address<T: GuestType>(self, index: u32) -> u64
        ensures { result ≡ self.ptr + T.SIZE * index }
    {
        self.ptr as u64 + T::SIZE as u64 * index as u64
    }
}

// Reads the vectors in order, up to the first that is not empty.
#[tactic(auto, using(crate::proofs::Steps::from_here))]
fn find<T: Vector + Drop>(memory: &[u8], array: Array) -> Result<Option<Region>, GuestError>
    ensures { result ≡ first T.named (vectors T.SIZE T.ALIGN T.parsed memory.now array.count array.ptr) }
{
    for i in 0..array.count {
        let buffer = T::read(memory, array.address::<T>(i))?.buffer();
        if buffer.len != 0 {
            return Ok(Some(buffer));
        }
    }
    Ok(None)
}

// The buffer, or an empty one where every vector is empty. Charged for are the array and then the buffer.
pub fn first_non_empty<T: Vector + Drop>(
    fuel: &mut Fuel,
    memory: &[u8],
    array: Array,
) -> Result<Region, Error>
    ensures { Is (first_non_empty T.SIZE T.ALIGN T.parsed T.named memory.now array fuel.old.remaining)
        result fuel.new.remaining }
{
    fuel.consume_fuel_for_array::<T>(array.count)?;
    let Some(buffer) = find::<T>(memory, array)? else {
        return Ok(Region { ptr: 0, len: 0 });
    };
    fuel.consume_fuel(buffer.len as u64)?;
    Ok(buffer)
}
