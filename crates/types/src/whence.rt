// From where a seek counts.
ghost use Rattle.types.specs.Numbers.{whence_number};
ghost use Rattle.types.specs.Words.{Taken};

use errno::Errno;

#[derive(Clone, Copy, Debug, PartialEq, Eq)]
pub enum Whence {
    Set = 0,
    Cur = 1,
    End = 2,
}

impl TryFrom<u32> for Whence {
    type Error = Errno;

    ghost try_from_gives = { λ word r. Taken whence_number 3 word r };

    fn try_from(word: u32) -> Result<Whence, Errno> {
        match word {
            0 => Ok(Whence::Set),
            1 => Ok(Whence::Cur),
            2 => Ok(Whence::End),
            _ => Err(Errno::Inval),
        }
    }
}
