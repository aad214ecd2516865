// Which of a host's eight files.
ghost use Rattle.std.specs.Prelude.{◌≡◌, ◌<◌, ◌↔◌, IsSome, IfSome};

#[derive(Clone, Copy, Debug, PartialEq, Eq)]
pub struct FileNumber {
    number: usize,
    ghost small: { number < 8 },
}

// `new` and `get`, as std's `NonZero` has them: an error type, for a `TryFrom`, would say no more than `None`.
impl FileNumber {
    pub fn new(number: usize) -> Option<FileNumber>
        ensures some { IsSome result ↔ (number < 8) }
        ensures value { IfSome result (λ f. f.number ≡ number) }
    {
        if number >= 8 {
            return None;
        }
        Some(FileNumber { number })
    }

    pub fn get(self) -> usize
        ensures value { result ≡ self.number }
        ensures small { result < 8 }
    {
        self.number
    }
}
