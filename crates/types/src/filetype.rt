// The types of files, as a listing and a file's state name them.
ghost use Rattle.std.specs.Prelude.{◌≡◌};
ghost use Rattle.types.specs.Numbers.{filetype_number, filetype_of};

#[derive(Clone, Copy, Debug, PartialEq, Eq)]
pub enum Filetype {
    Unknown = 0,
    BlockDevice = 1,
    CharacterDevice = 2,
    Directory = 3,
    RegularFile = 4,
    SymbolicLink = 7,
}

// The number that witx gives the type.
impl From<Filetype> for u8 {
    ghost from_gives = { λ filetype r. r ≡ filetype_number filetype };

    fn from(filetype: Filetype) -> u8 {
        filetype as u8
    }
}

// The type with that number. Any other number is a type that is not among ours: unknown.
impl From<u8> for Filetype {
    ghost from_gives = { λ number r. r ≡ filetype_of number };

    fn from(number: u8) -> Filetype {
        match number {
            1 => Filetype::BlockDevice,
            2 => Filetype::CharacterDevice,
            3 => Filetype::Directory,
            4 => Filetype::RegularFile,
            7 => Filetype::SymbolicLink,
            _ => Filetype::Unknown,
        }
    }
}
