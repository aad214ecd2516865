// What is asked of files in memory: over what is open and the files that there are. All bytes are moved that can be.
#![tactic(auto)]

ghost use Rattle.std.specs.Prelude.{◌≡◌, List};
ghost use Rattle.handles.specs.declared.open.Open.{Open as OpenOf};
ghost use Rattle.memory_files.specs.Disk.{disk_of};
ghost use Rattle.memory_files.specs.Askings.{read_at as reading, write_at as writing, append as appending, put_bytes as putting, stat as stat_told, read_via_stream as streaming, take_file as taking};

use errno::ErrorCode;
use files::Files;
use handles::{FileNumber, Handles, Node, Open, Stream};
use host::{FileStream, Stat, StreamError};
use types::{DescriptorFlags, Filetype, Handle};

// What is open, and which files there are.
#[derive(Debug, PartialEq, Eq, Drop)]
pub struct MemoryDisk {
    pub handles: Handles,
    pub files: Files,
}

impl MemoryDisk {
    ghost use Rattle.memory_files.specs.Disk.{disk, blank};

    // Nothing is open, and there are no files.
    pub fn new() -> MemoryDisk
        ensures { disk result ≡ blank }
    {
        MemoryDisk {
            handles: Handles::new(),
            files: Files::new(),
        }
    }

    pub fn read_at(&self, file: Handle, buffer: &mut [u8], offset: u64) -> Result<usize, ErrorCode>
        ensures { (result, buffer.new) ≡ reading (disk self.now) file.0 offset buffer.old }
    {
        let (file, _) = self.handles.file_for(file, DescriptorFlags::READ)?;
        Ok(storage::read_at(self.files.content(file), offset, buffer))
    }

    pub fn write_at(&mut self, file: Handle, bytes: &[u8], offset: u64) -> Result<usize, ErrorCode>
        ensures { (result, disk self.new) ≡ writing (disk self.old) file.0 offset bytes.now }
    {
        write_at(&self.handles, &mut self.files, file, bytes, offset)
    }

    pub fn append(&mut self, file: Handle, bytes: &[u8]) -> Result<usize, ErrorCode>
        ensures { (result, disk self.new) ≡ appending (disk self.old) file.0 bytes.now }
    {
        append(&self.handles, &mut self.files, file, bytes)
    }

    // The directory has the serial number 0, the files have those from 1 on.
    pub fn stat(&self, node: Handle) -> Result<Stat, ErrorCode>
        ensures { result ≡ stat_told (disk self.now) node.0 }
    {
        let opened = self.handles.opened(node)?;
        match opened.node {
            Node::Directory => Ok(Stat {
                filetype: Filetype::Directory,
                flags: opened.flags,
                serial: 0,
                size: 0,
            }),
            Node::File(file) => {
                if file.get() >= self.files.count() {
                    return Err(ErrorCode::BadDescriptor);
                }
                Ok(Stat {
                    filetype: Filetype::RegularFile,
                    flags: opened.flags,
                    serial: file.get() as u64 + 1,
                    size: self.files.content(file).len() as u64,
                })
            }
        }
    }

    pub fn read_via_stream(&mut self, file: Handle, offset: u64) -> Result<FileStream, ErrorCode>
        ensures { (result, disk self.new) ≡ streaming (disk self.old) file.0 offset }
    {
        read_via_stream(&mut self.handles, &self.files, file, offset)
    }

    // Takes from the stream behind the handle.
    pub fn take(
        &mut self,
        handle: Handle,
        stream: Stream,
        buffer: &mut [u8],
    ) -> Result<usize, StreamError>
        ensures { (result, buffer.new, disk self.new) ≡ taking (disk self.old) handle.0 stream buffer.old }
    {
        take(&mut self.handles, &self.files, handle, stream, buffer)
    }
}

// The four askings below change one half of a disk, and leave the other to whoever reads it meanwhile.
pub fn write_at(
    handles: &Handles,
    files: &mut Files,
    file: Handle,
    bytes: &[u8],
    offset: u64,
) -> Result<usize, ErrorCode>
    ensures { (result, disk_of handles.now files.new) ≡ writing (disk_of handles.now files.old) file.0 offset bytes.now }
{
    let (file, _) = handles.file_for(file, DescriptorFlags::WRITE)?;
    put(files, file, bytes, offset)
}

pub fn append(
    handles: &Handles,
    files: &mut Files,
    file: Handle,
    bytes: &[u8],
) -> Result<usize, ErrorCode>
    ensures { (result, disk_of handles.now files.new) ≡ appending (disk_of handles.now files.old) file.0 bytes.now }
{
    let (file, _) = handles.file_for(file, DescriptorFlags::WRITE)?;
    let end = files.content(file).len();
    put(files, file, bytes, end as u64)
}

// Puts all of the bytes into the file, or none.
fn put(files: &mut Files, file: FileNumber, bytes: &[u8], offset: u64) -> Result<usize, ErrorCode>
    ensures { (slots : List OpenOf) → (result, disk_of slots files.new) ≡ putting (disk_of slots files.old) file offset bytes.now }
{
    files
        .write(file, offset, bytes)
        .map_err(|_| ErrorCode::FileTooLarge)?;
    Ok(bytes.len())
}

pub fn read_via_stream(
    handles: &mut Handles,
    files: &Files,
    file: Handle,
    offset: u64,
) -> Result<FileStream, ErrorCode>
    ensures { (result, disk_of handles.new files.now) ≡ streaming (disk_of handles.old files.now) file.0 offset }
{
    let (file, flags) = handles.file_for(file, DescriptorFlags::READ)?;
    let handle = handles.free_handle()?;
    let stream = Stream {
        file,
        flags,
        place: offset,
    };
    handles.put(handle, Open::Stream(stream));
    Ok(FileStream::new(handle))
}

// Takes from the stream behind the handle.
pub fn take(
    handles: &mut Handles,
    files: &Files,
    handle: Handle,
    stream: Stream,
    buffer: &mut [u8],
) -> Result<usize, StreamError>
    ensures { (result, buffer.new, disk_of handles.new files.now) ≡ taking (disk_of handles.old files.now) handle.0 stream buffer.old }
{
    if buffer.is_empty() {
        return Ok(0);
    }
    let content = files.content(stream.file);
    if stream.place >= content.len() as u64 {
        return Err(StreamError::Closed);
    }
    let n = storage::read_at(content, stream.place, buffer);
    let moved = Stream {
        place: stream.place + n as u64,
        ..stream
    };
    handles.put(handle, Open::Stream(moved));
    Ok(n)
}
