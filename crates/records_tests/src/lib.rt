// Records as witx lays them out, byte for byte.
#![tactic(auto)]

#[cfg(test)]
mod tests {
    use records::{Ciovec, Dirent, GuestType, Iovec};
    use types::Filetype;

    #[test]
    fn vectors_lie_as_witx_says(rt: HostRuntime) {
        let mut memory = [0xaau8; 16];
        let vector = Iovec {
            buf: 0x0403_0201,
            buf_len: 0x0807_0605,
        };
        assert!(rt; vector.write(&mut memory, 4).is_ok());
        assert_eq!(rt;
            memory,
            *b"\xaa\xaa\xaa\xaa\x01\x02\x03\x04\x05\x06\x07\x08\xaa\xaa\xaa\xaa"
        );
        assert!(rt; Ciovec::read(&memory, 12).is_err());
        let back = Ciovec {
            buf: 0x0403_0201,
            buf_len: 0x0807_0605,
        };
        assert_eq!(rt; Ciovec::read(&memory, 4), Ok(back));
    }

    #[test]
    fn a_dirent_lies_as_witx_says(rt: HostRuntime) {
        let entry = Dirent {
            d_next: 0x0807_0605_0403_0201,
            d_ino: 0x1817_1615_1413_1211,
            d_namlen: 0x2423_2221,
            d_type: Filetype::SymbolicLink,
        };
        let bytes =
            *b"\x01\x02\x03\x04\x05\x06\x07\x08\x11\x12\x13\x14\x15\x16\x17\x18\x21\x22\x23\x24\x07\x00\x00\x00";
        assert_eq!(rt; entry.to_bytes(), bytes);
        let mut memory = [0xaau8; 24];
        assert!(rt; entry.write(&mut memory, 0).is_ok());
        assert_eq!(rt; memory, bytes);
        assert_eq!(rt; u8::from(entry.d_type), 7);
        assert_eq!(rt; Dirent::read(&memory, 0), Ok(entry));
        // A type that is none of ours, and padding, which does not matter.
        memory[20] = 5;
        memory[23] = 1;
        let unknown = Dirent {
            d_type: Filetype::Unknown,
            ..entry
        };
        assert_eq!(rt; u8::from(unknown.d_type), 0);
        assert_eq!(rt; Dirent::read(&memory, 0), Ok(unknown));
    }
}
