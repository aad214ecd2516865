// The first non-empty vector, looked for at the ends of memory and of fuel.
use errno::Error;
use fuel::{Array, Fuel, first_non_empty};
use memory::Region;
use records::Iovec;

// The buffer of a vector call, and the fuel that is left.
fn buffer_found(fuel: u64, memory: &[u8], array: Array) -> (Result<Region, Error>, u64) {
    let mut fuel = Fuel { remaining: fuel };
    let answer = first_non_empty::<Iovec>(&mut fuel, memory, array);
    (answer, fuel.remaining)
}

#[cfg(test)]
mod tests {
    use super::*;
    use crate::{NOMEM, POINTER};

    const EMPTY: Region = Region { ptr: 0, len: 0 };

    const FOUND: Region = Region { ptr: 7, len: 1 };

    // A row: so many bytes of the memory, an array's address and count, fuel; the answer and the fuel left.
    #[test]
    fn first_non_empty_at_the_edges(rt: HostRuntime) {
        // An empty vector at 8 and one of length 1 at 16.
        let memory = *b"\0\0\0\0\0\0\0\0\x09\0\0\0\0\0\0\0\x07\0\0\0\x01\0\0\0\0";
        let rows = [
            // It ends exactly at the end of memory, and one byte behind it.
            (24, 16, 1, 9, Ok(FOUND), 0),
            (23, 16, 1, 9, Err(POINTER), 1),
            // One vector of length 1.
            (25, 16, 1, 7, Err(NOMEM), 7),
            (25, 16, 1, 8, Err(NOMEM), 0),
            (25, 16, 1, 9, Ok(FOUND), 0),
            // An array that is not aligned, and arrays without vectors, which need not be.
            (25, 2, 1, 100, Err(POINTER), 92),
            (25, 2, 0, 100, Ok(EMPTY), 100),
            (0, u32::MAX, 0, 0, Ok(EMPTY), 0),
            // The first is passed over; all are empty; nothing behind the first non-empty one is read.
            (25, 8, 2, 17, Ok(FOUND), 0),
            (25, 8, 1, 8, Ok(EMPTY), 0),
            (24, 8, 1000, 8001, Ok(FOUND), 0),
            (16, 8, 2, 16, Err(POINTER), 0),
            // As many as there can be, with fuel for none, for all but one byte, and for all and the buffer.
            (25, 8, u32::MAX, 7, Err(NOMEM), 7),
            (25, 8, u32::MAX, 34_359_738_359, Err(NOMEM), 34_359_738_359),
            (25, 8, u32::MAX, 34_359_738_361, Ok(FOUND), 0),
            // An address and a count whose sum would wrap in 32 bits.
            (25, 4_294_967_292, u32::MAX, 34_359_738_360, Err(POINTER), 0),
        ];
        for (bytes, ptr, count, fuel, expected, rest) in rows {
            assert!(rt; bytes <= 25);
            let (answer, left) = buffer_found(fuel, &memory[0..bytes], Array { ptr, count });
            assert_eq!(rt; answer, expected);
            assert_eq!(rt; left, rest);
        }
    }
}
