// What an output has taken.
ghost use Rattle.std.specs.Prelude.{⊤, ◌≡◌, ◌+◌, ◌≤◌, ◌↔◌, [], ◌++◌, length, IsOk, OnOk, OnErr};

use fixed_vec::{CapacityError, FixedVec};
use std::alloc::AllocError;

#[derive(Copy, Debug, PartialEq, Eq)]
pub struct Output {
    pub taken: FixedVec<u8, 8192>,
    ghost fits: { length taken.items ≤ 8192 },
}

impl Clone for Output {
    ghost is_clone = { λ a b. b ≡ a };

    ghost is_infallible = { λ _. ⊤ };

    fn clone(&self) -> Result<Output, AllocError> {
        Ok(*self)
    }
}

impl Output {
    pub fn new() -> Output
        ensures { result.taken.items ≡ [] }
    {
        Output {
            taken: FixedVec::new(),
        }
    }

    // Takes the whole piece, or none of it if it does not fit.
    pub fn write(&mut self, piece: &[u8]) -> Result<(), CapacityError>
        ensures fits { IsOk result ↔ (length self.old.taken.items + length piece.now ≤ 8192) }
        ensures ok { OnOk result (self.new.taken.items ≡ self.old.taken.items ++ piece.now) }
        ensures err { OnErr result (self.new ≡ self.old) }
    {
        self.taken.try_extend_from_slice(piece)
    }
}
