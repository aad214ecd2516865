// What a guest pays for with its fuel: its vectors and the buffer that they name.
#![tactic(auto)]

mod vectors;

ghost use Rattle.std.specs.Prelude.{◌*◌};
ghost use Rattle.fuel.specs.Charges.{Is, charged};

use errno::{Errno, Error};
use records::GuestType;
pub use vectors::{Array, first_non_empty};

// What a guest's calls may still be charged.
#[derive(Clone, Copy, Debug, PartialEq, Eq)]
pub struct Fuel {
    pub remaining: u64,
}

impl Fuel {
    // Takes a charge; one that is larger than the fuel is refused and leaves it.
    pub fn consume_fuel(&mut self, fuel: u64) -> Result<(), Error>
        ensures { Is (charged fuel self.old.remaining) result self.new.remaining }
    {
        if fuel > self.remaining {
            return Err(Error::Errno(Errno::Nomem));
        }
        self.remaining -= fuel;
        Ok(())
    }

    // Takes the charge for an array of `count` records.
    pub fn consume_fuel_for_array<T: GuestType>(&mut self, count: u32) -> Result<(), Error>
        ensures { Is (charged (T.SIZE * count) self.old.remaining) result self.new.remaining }
    {
        self.consume_fuel(T::SIZE as u64 * count as u64)
    }
}
