// A path that a guest hands over.
#![tactic(auto)]

ghost use Rattle.fuel.specs.Charges.{Is};
ghost use Rattle.memory.specs.Ranges.{bytes_of};
ghost use Rattle.path.specs.Paths.{ReadString, found};

use errno::Error;
use fuel::Fuel;
use memory::{GuestError, Region};
use utf8::is_utf8;

// The bytes of a region, paid for.
fn paid_bytes<'a>(fuel: &mut Fuel, memory: &'a [u8], region: Region) -> Result<&'a [u8], Error>
    ensures { Is (found memory.now region fuel.old.remaining) (bytes_of result) fuel.new.remaining }
{
    fuel.consume_fuel(region.len as u64)?;
    region.check(memory)?;
    let start = region.ptr as usize;
    Ok(&memory[start..start + region.len as usize])
}

// The bytes of a path: charged for, then found in the memory, then checked to be UTF-8.
pub fn read_string<'a>(fuel: &mut Fuel, memory: &'a [u8], path: Region) -> Result<&'a [u8], Error>
    ensures { ReadString memory.now path fuel.old.remaining (bytes_of result) fuel.new.remaining }
{
    let bytes = paid_bytes(fuel, memory, path)?;
    if !is_utf8(bytes) {
        return Err(Error::from(GuestError::InvalidUtf8));
    }
    Ok(bytes)
}
