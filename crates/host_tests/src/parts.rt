// What a caller may do with the parts of a memory host: copy what it is given, and read files while a stream on one moves.
use files::Files;
use handles::{Handles, Stream};
use host::{DirEntry, Preopen, Start};
use memory_files::take;
use storage::{File, Output};
use types::{DescriptorFlags, Handle};

fn twice<T: Copy>(value: T) -> (T, T) {
    (value, value)
}

#[test]
fn what_is_given_is_copied(rt: HostRuntime) {
    let mut handles = Handles::new();
    let (start, again): (Start, Start) = twice(handles.start());
    assert_eq!(rt; start, again);
    let (preopen, again): (Preopen, Preopen) = twice(Preopen::default());
    assert_eq!(rt; preopen, again);
    let entry = DirEntry {
        filetype: types::Filetype::RegularFile,
        serial: 1,
        name: preopen.name,
    };
    let (entry, again) = twice(entry);
    assert_eq!(rt; entry, again);
    let (file, again) = twice(File::default());
    assert_eq!(rt; file, again);
    let (output, again) = twice(Output::new());
    assert_eq!(rt; output, again);
}

#[test]
fn files_are_read_while_a_stream_moves(rt: HostRuntime) {
    let mut handles = Handles::new();
    let mut files = Files::new();
    assert_eq!(rt; files.put(b"speeds", b"900 850 "), Ok(()));
    assert!(rt; files.find(b"speeds").is_some());
    if let Some(file) = files.find(b"speeds") {
        let bytes = files.content(file);
        let mut buffer = [0; 4];
        let stream = Stream {
            file,
            flags: DescriptorFlags::READ,
            place: 4,
        };
        let taken = take(&mut handles, &files, Handle(4), stream, &mut buffer);
        assert_eq!(rt; taken, Ok(4));
        assert_eq!(rt; buffer.as_slice(), b"850 ".as_slice());
        assert_eq!(rt; bytes, b"900 850 ".as_slice());
    }
}
