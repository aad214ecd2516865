// What a guest's call goes through before any file is touched: fuel, vectors and a path, one line a step.
#![tactic(auto)]

use fuel::{Array, Fuel, first_non_empty};
use memory::Region;
use path::read_string;
use records::{Ciovec, GuestType};
use std::io;

const MEMORY: usize = 64;

const BLANK: [u8; MEMORY] = [0; MEMORY];

const FUEL: u64 = 64;

// Two vectors, of which the second names what the call is about: a path and a byte that is not UTF-8.
const VECTORS: Array = Array { ptr: 8, count: 2 };

const SECOND: u32 = 16;

const BYTES: &[u8; 10] = b"crest.dst\xff";

const START: usize = 40;

const END: usize = 50;

const BUFFER: Region = Region { ptr: 40, len: 10 };

const PATH: Region = Region { ptr: 40, len: 9 };

const NOTHING: Ciovec = Ciovec { buf: 0, buf_len: 0 };

const MISALIGNED: Array = Array { ptr: 2, count: 1 };

fn lay_vector(rt: &impl Print, memory: &mut [u8], ptr: u32, vector: Ciovec) -> io::Result<()> {
    match vector.write(memory, ptr as u64) {
        Ok(()) => println!(rt;
            "a vector at {ptr} names {} bytes at {}",
            vector.buf_len, vector.buf,
        ),
        Err(_) => println!(rt; "no vector at {ptr}"),
    }
}

fn find_buffer(rt: &impl Print, fuel: &mut Fuel, memory: &[u8], array: Array) -> io::Result<()> {
    println!(rt;
        "{} vectors from {} on, fuel {}",
        array.count, array.ptr, fuel.remaining
    )?;
    match first_non_empty::<Ciovec>(fuel, memory, array) {
        Ok(buffer) => println!(rt;
            "  the first non-empty one names {} bytes at {}, fuel left {}",
            buffer.len, buffer.ptr, fuel.remaining
        ),
        Err(error) => println!(rt; "  {error}, fuel left {}", fuel.remaining),
    }
}

fn check_path(rt: &impl Print, fuel: &mut Fuel, memory: &[u8], path: Region) -> io::Result<()> {
    println!(rt;
        "a path of {} bytes at {}, fuel {}",
        path.len, path.ptr, fuel.remaining
    )?;
    match read_string(fuel, memory, path) {
        Ok(bytes) => println!(rt;
            "  text of {} bytes, fuel left {}",
            bytes.len(),
            fuel.remaining
        ),
        Err(error) => println!(rt; "  {error}, fuel left {}", fuel.remaining),
    }
}

fn lay_out(rt: &impl Print, memory: &mut [u8; MEMORY]) -> io::Result<()> {
    memory[START..END].copy_from_slice(BYTES);
    lay_vector(rt, memory, VECTORS.ptr, NOTHING)?;
    lay_vector(
        rt,
        memory,
        SECOND,
        Ciovec {
            buf: BUFFER.ptr,
            buf_len: BUFFER.len,
        },
    )
}

fn make_calls(rt: &impl Print, memory: &[u8]) -> io::Result<()> {
    let mut fuel = Fuel { remaining: FUEL };
    find_buffer(rt, &mut fuel, memory, VECTORS)?;
    check_path(rt, &mut fuel, memory, PATH)?;
    check_path(rt, &mut fuel, memory, BUFFER)?;
    find_buffer(rt, &mut fuel, memory, MISALIGNED)?;
    find_buffer(rt, &mut fuel, memory, VECTORS)
}

fn main(rt: HostRuntime) -> io::Result<()> {
    let mut memory = BLANK;
    lay_out(&rt, &mut memory)?;
    make_calls(&rt, &memory)
}
