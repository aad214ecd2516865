// A host in memory is started and asked for a file: one line an asking, with its answer below.
#![tactic(auto)]

use errno::{Errno, ErrorCode};
use host::{DirHost, FileHost, FileStream, Start, StreamError};
use memory_host::MemoryHost;
use std::io;
use types::{DescriptorFlags, Handle, Lookupflags, Oflags};

const NO_INPUT: &[u8; 0] = b"";

const NAME: &[u8; 6] = b"speeds";

const RECORDS: &[u8; 8] = b"900 850 ";

const START: u64 = 0;

const GAP: u64 = 10;

const LATER: u64 = 14;

const ROOM: usize = 24;

fn refused(rt: &impl Print, code: ErrorCode) -> io::Result<()> {
    println!(rt; "  refused with {}", Errno::from(code))
}

fn started(rt: &impl Print, start: &Start, root: Handle) -> io::Result<()> {
    println!(rt;
        "start: streams {}, {} and {}, {} directory at {}",
        start.stdin.handle.0,
        start.stdout.handle.0,
        start.stderr.handle.0,
        start.preopens.len(),
        root.0,
    )
}

// Opens the file, and keeps its handle as a table would.
fn open(rt: &impl Print, host: &mut MemoryHost, directory: Handle) -> io::Result<Option<Handle>> {
    println!(rt; "open a file below {}, creating it", directory.0)?;
    let flags = DescriptorFlags::READ | DescriptorFlags::WRITE;
    match host.open_at(
        directory,
        Lookupflags::default(),
        NAME,
        Oflags::CREAT,
        flags,
    ) {
        Ok(fresh) => {
            let (handle, _) = fresh.place();
            println!(rt; "  handle {}", handle.0)?;
            Ok(Some(handle))
        }
        Err(code) => {
            refused(rt, code)?;
            Ok(None)
        }
    }
}

fn write(rt: &impl Print, host: &mut MemoryHost, file: Handle, offset: u64) -> io::Result<()> {
    println!(rt; "write {} bytes at {offset}", RECORDS.len())?;
    match host.write_at(file, RECORDS, offset) {
        Ok(n) => println!(rt; "  {n} bytes stand"),
        Err(code) => refused(rt, code),
    }
}

fn read(rt: &impl Print, host: &mut MemoryHost, file: Handle, offset: u64) -> io::Result<()> {
    let mut buffer = [0; ROOM];
    println!(rt; "read up to {ROOM} bytes at {offset}")?;
    match host.read_at(file, &mut buffer, offset) {
        Ok(n) => println!(rt; "  {n} bytes, the first is {}", buffer[0]),
        Err(code) => refused(rt, code),
    }
}

fn take(rt: &impl Print, host: &mut MemoryHost, stream: &FileStream) -> io::Result<()> {
    let mut buffer = [0; ROOM];
    println!(rt; "take up to {ROOM} bytes from the stream")?;
    match stream.read(host, &mut buffer) {
        Ok(n) => println!(rt; "  {n} bytes, the first is {}", buffer[0]),
        Err(StreamError::Closed) => println!(rt; "  closed"),
        Err(StreamError::LastOperationFailed(code)) => refused(rt, code),
    }
}

fn stream(rt: &impl Print, host: &mut MemoryHost, file: Handle, offset: u64) -> io::Result<()> {
    println!(rt; "a stream from {offset}")?;
    match host.read_via_stream(file, offset) {
        Ok(stream) => {
            let first = take(rt, host, &stream);
            let second = take(rt, host, &stream);
            let dropped = stream.close(host);
            first?;
            second?;
            match dropped {
                Ok(()) => println!(rt; "the stream is dropped"),
                Err(_) => println!(rt; "the stream is dropped, with a fault"),
            }
        }
        Err(code) => refused(rt, code),
    }
}

fn list(rt: &impl Print, host: &mut MemoryHost, directory: Handle) -> io::Result<()> {
    println!(rt; "the entries of {}", directory.0)?;
    let count = match host.entry_count(directory) {
        Ok(count) => count,
        Err(code) => return refused(rt, code),
    };
    for index in 0..count {
        match host.entry(directory, index) {
            Ok(entry) => println!(rt;
                "  a name of {} bytes, serial number {}",
                entry.name.len(),
                entry.serial,
            )?,
            Err(code) => refused(rt, code)?,
        }
    }
    Ok(())
}

fn size(rt: &impl Print, host: &mut MemoryHost, file: Handle) -> io::Result<()> {
    println!(rt; "the size of {}", file.0)?;
    match host.stat(file) {
        Ok(stat) => println!(rt; "  {} bytes", stat.size),
        Err(code) => refused(rt, code),
    }
}

fn let_go(rt: &impl Print, host: &mut MemoryHost, file: Handle) -> io::Result<()> {
    println!(rt; "drop {}", file.0)?;
    match host.drop_handle(file) {
        Ok(()) => println!(rt; "  gone"),
        Err(_) => println!(rt; "  gone, with a fault"),
    }
}

fn main(rt: HostRuntime) -> io::Result<()> {
    let mut host = MemoryHost::new(NO_INPUT);
    let start = host.start();
    let Some(preopen) = start.preopens.first() else {
        return Ok(());
    };
    let root = preopen.handle;
    started(&rt, &start, root)?;
    let Some(file) = open(&rt, &mut host, root)? else {
        return Ok(());
    };
    write(&rt, &mut host, file, START)?;
    write(&rt, &mut host, file, GAP)?;
    read(&rt, &mut host, file, START)?;
    stream(&rt, &mut host, file, LATER)?;
    list(&rt, &mut host, root)?;
    size(&rt, &mut host, file)?;
    let_go(&rt, &mut host, file)?;
    size(&rt, &mut host, file)
}
