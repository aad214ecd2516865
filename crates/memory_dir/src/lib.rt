// What is asked of a directory in memory: its entries, and the opening of paths.
#![tactic(auto)]

ghost use Rattle.std.specs.Prelude.{◌≡◌, true, Ok, Some};
ghost use Rattle.handles.specs.Names.{is_name};
ghost use Rattle.handles.specs.Lives.{opened_kind};
ghost use Rattle.memory_files.specs.Disk.{disk as disk_of};
ghost use Rattle.memory_files.specs.Askings.{give};
ghost use Rattle.memory_dir.specs.Askings.{entry_count as counting, EntryAt, node_of, fresh, open_directory as opening_directory, open_existing as opening_existing, OpenNew, OpenName, OpenAt};

use errno::ErrorCode;
use handles::{FileNumber, Node, Open, Opened, is_dot, is_name};
use host::{DirEntry, Fresh, Name, NodeKind};
use memory_files::MemoryDisk;
use types::{DescriptorFlags, Filetype, Flags, Handle, Oflags};

// What opening a path does beside opening it, and what may be done with what it opens.
#[derive(Clone, Copy, Debug, Default, PartialEq, Eq)]
pub struct OpenOptions {
    pub oflags: Oflags,
    pub flags: DescriptorFlags,
}

pub fn entry_count(disk: &MemoryDisk, directory: Handle) -> Result<u32, ErrorCode>
    ensures { result ≡ counting (disk_of disk.now) directory.0 }
{
    disk.handles.directory(directory)?;
    Ok(disk.files.count() as u32)
}

// The files are listed as they were created.
pub fn entry(disk: &MemoryDisk, directory: Handle, index: u32) -> Result<DirEntry, ErrorCode>
    ensures { EntryAt (disk_of disk.now) directory.0 index result }
{
    disk.handles.directory(directory)?;
    let own = disk.files.name(index as usize).ok_or(ErrorCode::NoEntry)?;
    let mut entry = DirEntry {
        filetype: Filetype::RegularFile,
        serial: index as u64 + 1,
        name: Name::new(),
    };
    entry.name.try_extend_from_slice(own).unwrap();
    Ok(entry)
}

// Opens the directory itself, a file in it, or a new one.
pub fn open(
    disk: &mut MemoryDisk,
    directory: Handle,
    path: &[u8],
    options: OpenOptions,
) -> Result<Fresh, ErrorCode>
    ensures { OpenAt (disk_of disk.old) directory.0 path.now options.oflags.0 options.flags result (disk_of disk.new) }
{
    disk.handles.directory(directory)?;
    if is_dot(path) {
        return open_directory(disk, options);
    }
    if !is_name(path) {
        return Err(ErrorCode::NoEntry);
    }
    open_name(disk, path, options)
}

fn open_name(disk: &mut MemoryDisk, name: &[u8], options: OpenOptions) -> Result<Fresh, ErrorCode>
    requires { is_name name.now ≡ true }
    ensures { OpenName (disk_of disk.old) name.now options.oflags.0 options.flags result (disk_of disk.new) }
{
    match disk.files.find(name) {
        Some(file) => open_existing(disk, file, options),
        None => open_new(disk, name, options),
    }
}

fn open_directory(disk: &mut MemoryDisk, options: OpenOptions) -> Result<Fresh, ErrorCode>
    ensures { (result, disk_of disk.new) ≡ opening_directory (disk_of disk.old) options.oflags.0 options.flags }
{
    if options.oflags.contains(Oflags::CREAT) || options.oflags.contains(Oflags::TRUNC) {
        return Err(ErrorCode::IsDirectory);
    }
    let handle = disk.handles.free_handle()?;
    Ok(open_node(disk, handle, Node::Directory, options.flags))
}

fn open_existing(
    disk: &mut MemoryDisk,
    file: FileNumber,
    options: OpenOptions,
) -> Result<Fresh, ErrorCode>
    ensures { (result, disk_of disk.new) ≡ opening_existing (disk_of disk.old) file options.oflags.0 options.flags }
{
    if options.oflags.contains(Oflags::CREAT) && options.oflags.contains(Oflags::EXCL) {
        return Err(ErrorCode::Exist);
    }
    if options.oflags.contains(Oflags::DIRECTORY) {
        return Err(ErrorCode::NotDirectory);
    }
    let handle = disk.handles.free_handle()?;
    if options.oflags.contains(Oflags::TRUNC) {
        disk.files.clear(file);
    }
    Ok(open_node(disk, handle, Node::File(file), options.flags))
}

fn open_new(disk: &mut MemoryDisk, name: &[u8], options: OpenOptions) -> Result<Fresh, ErrorCode>
    requires { is_name name.now ≡ true }
    ensures { OpenNew (disk_of disk.old) name.now options.oflags.0 options.flags result (disk_of disk.new) }
{
    if !options.oflags.contains(Oflags::CREAT) || options.oflags.contains(Oflags::DIRECTORY) {
        return Err(ErrorCode::NoEntry);
    }
    let handle = disk.handles.free_handle()?;
    let file = disk.files.create(name).ok_or(ErrorCode::InsufficientSpace)?;
    Ok(open_node(disk, handle, Node::File(file), options.flags))
}

fn open_node(disk: &mut MemoryDisk, handle: Handle, node: Node, flags: DescriptorFlags) -> Fresh
    ensures { (Ok result, disk_of disk.new) ≡ give (disk_of disk.old) (node_of node flags) (fresh (opened_kind node)) (Some handle.0) }
{
    disk.handles.put(handle, Open::Node(Opened { node, flags }));
    Fresh::new(handle, NodeKind::from(node))
}
