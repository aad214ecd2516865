// Paths: the boundary sequences of RFC 3629, and paths at the ends of memory and of fuel.
use errno::Error;
use fuel::Fuel;
use memory::Region;
use path::read_string;

// The length of a path, if it is not refused, and the fuel that is left.
fn path_read(fuel: u64, memory: &[u8], path: Region) -> (Result<usize, Error>, u64) {
    let mut fuel = Fuel { remaining: fuel };
    let answer = read_string(&mut fuel, memory, path).map(|bytes| bytes.len());
    (answer, fuel.remaining)
}

#[cfg(test)]
mod tests {
    use super::*;
    use crate::{ILSEQ, NOMEM, POINTER};
    use utf8::is_utf8;

    #[test]
    fn boundary_sequences(rt: HostRuntime) {
        let good: [&[u8]; 12] = [
            b"",
            b"\x00",
            b"\x7f",
            b"\xc2\x80",
            b"\xdf\xbf",
            b"\xe0\xa0\x80",
            b"\xed\x9f\xbf",
            b"\xee\x80\x80",
            b"\xf0\x90\x80\x80",
            b"\xf3\xbf\xbf\xbf",
            b"\xf4\x8f\xbf\xbf",
            b"a\xc3\xbc\xe2\x82\xacb",
        ];
        for bytes in good {
            assert!(rt; is_utf8(bytes));
        }
        let bad: [&[u8]; 16] = [
            b"\x80",
            b"\xbf",
            b"\xc0\x80",
            b"\xc1\xbf",
            b"\xc2\x7f",
            b"\xc2\xc0",
            b"\xe0\x9f\xbf",
            b"\xed\xa0\x80",
            b"\xf0\x8f\xbf\xbf",
            b"\xf4\x90\x80\x80",
            b"\xf5\x80\x80\x80",
            b"\xff",
            b"a\xc2",
            b"a\xe2\x82",
            b"a\xf0\x90\x80",
            b"\xe2\x82a",
        ];
        for bytes in bad {
            assert!(rt; !is_utf8(bytes));
        }
    }

    // A row: a path's address and length, fuel; the answer and the fuel left.
    #[test]
    fn paths_at_the_edges(rt: HostRuntime) {
        let rows = [
            (0, 4, 4, Ok(4), 0),
            (0, 4, 3, Err(NOMEM), 3),
            // A cut character at the end, and one byte behind the memory.
            (0, 3, 5, Err(ILSEQ), 2),
            (1, 4, 5, Err(POINTER), 1),
            // Empty ones: at the end of memory, and behind it.
            (4, 0, 0, Ok(0), 0),
            (5, 0, 0, Err(POINTER), 0),
            // An end that would wrap in 32 bits, and fuel that refuses before the range is looked at.
            (u32::MAX, u32::MAX, 4_294_967_296, Err(POINTER), 1),
            (u32::MAX, u32::MAX, 0, Err(NOMEM), 0),
        ];
        for (ptr, len, fuel, expected, rest) in rows {
            let (answer, left) = path_read(fuel, b"ab\xc3\xbc", Region { ptr, len });
            assert_eq!(rt; answer, expected);
            assert_eq!(rt; left, rest);
        }
    }
}
