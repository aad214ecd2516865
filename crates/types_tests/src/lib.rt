// Examples of the words that a guest passes, and of the numbers that it is told.
#![tactic(auto)]

use types::{Fdflags, Lookupflags, Oflags, Whence};

// Whether a word passes as whence, fdflags, oflags and lookupflags.
fn passed(word: u32) -> [bool; 4] {
    [
        Whence::try_from(word).is_ok(),
        Fdflags::try_from(word).is_ok(),
        Oflags::try_from(word).is_ok(),
        Lookupflags::try_from(word).is_ok(),
    ]
}

#[cfg(test)]
mod tests {
    use super::*;
    use errno::{Errno, ErrorCode};
    use types::Rights;

    // A row: a word, and whether it passes as whence, fdflags, oflags and lookupflags.
    #[test]
    fn words_that_pass(rt: HostRuntime) {
        let rows = [
            (0, [true, true, true, true]),
            (1, [true, true, true, true]),
            (2, [true, true, true, false]),
            (3, [false, true, true, false]),
            (15, [false, true, true, false]),
            (16, [false, true, false, false]),
            (31, [false, true, false, false]),
            (32, [false, false, false, false]),
            (256, [false, false, false, false]),
            (0x1_0000, [false, false, false, false]),
            (0x8000_0001, [false, false, false, false]),
        ];
        for (word, passes) in rows {
            assert_eq!(rt; passed(word), passes);
        }
        for (word, passes) in [(0x3fff_ffff, true), (0x4000_0000, false), (1 << 63, false)] {
            assert_eq!(rt; Rights::try_from(word).is_ok(), passes);
        }
    }

    #[test]
    fn flags_have_the_names_of_witx(rt: HostRuntime) {
        let fdflags = [
            Fdflags::APPEND.0,
            Fdflags::DSYNC.0,
            Fdflags::NONBLOCK.0,
            Fdflags::RSYNC.0,
            Fdflags::SYNC.0,
        ];
        assert_eq!(rt; fdflags, [1, 2, 4, 8, 16]);
        let oflags = [
            Oflags::CREAT.0,
            Oflags::DIRECTORY.0,
            Oflags::EXCL.0,
            Oflags::TRUNC.0,
        ];
        assert_eq!(rt; oflags, [1, 2, 4, 8]);
        assert_eq!(rt; Lookupflags::SYMLINK_FOLLOW.0, 1);
    }

    #[test]
    fn rights_have_the_names_of_witx(rt: HostRuntime) {
        let rights = [
            Rights::FD_DATASYNC,
            Rights::FD_READ,
            Rights::FD_SEEK,
            Rights::FD_FDSTAT_SET_FLAGS,
            Rights::FD_SYNC,
            Rights::FD_TELL,
            Rights::FD_WRITE,
            Rights::FD_ADVISE,
            Rights::FD_ALLOCATE,
            Rights::PATH_CREATE_DIRECTORY,
            Rights::PATH_CREATE_FILE,
            Rights::PATH_LINK_SOURCE,
            Rights::PATH_LINK_TARGET,
            Rights::PATH_OPEN,
            Rights::FD_READDIR,
            Rights::PATH_READLINK,
            Rights::PATH_RENAME_SOURCE,
            Rights::PATH_RENAME_TARGET,
            Rights::PATH_FILESTAT_GET,
            Rights::PATH_FILESTAT_SET_SIZE,
            Rights::PATH_FILESTAT_SET_TIMES,
            Rights::FD_FILESTAT_GET,
            Rights::FD_FILESTAT_SET_SIZE,
            Rights::FD_FILESTAT_SET_TIMES,
            Rights::PATH_SYMLINK,
            Rights::PATH_REMOVE_DIRECTORY,
            Rights::PATH_UNLINK_FILE,
            Rights::POLL_FD_READWRITE,
            Rights::SOCK_SHUTDOWN,
            Rights::SOCK_ACCEPT,
        ];
        for (bit, right) in rights.iter().enumerate() {
            assert_eq!(rt; right.0, 1 << bit);
        }
    }

    // The numbers that a guest sees of a host's codes.
    #[test]
    fn codes_have_the_numbers_of_witx(rt: HostRuntime) {
        let told = [
            (ErrorCode::Access, 2),
            (ErrorCode::BadDescriptor, 8),
            (ErrorCode::Exist, 20),
            (ErrorCode::FileTooLarge, 22),
            (ErrorCode::Interrupted, 27),
            (ErrorCode::Io, 29),
            (ErrorCode::IsDirectory, 31),
            (ErrorCode::NoEntry, 44),
            (ErrorCode::InsufficientSpace, 51),
            (ErrorCode::NotDirectory, 54),
            (ErrorCode::Unsupported, 58),
            (ErrorCode::NotPermitted, 63),
            (ErrorCode::ReadOnly, 69),
        ];
        for (code, number) in told {
            assert_eq!(rt; u16::from(Errno::from(code)), number);
        }
    }
}
