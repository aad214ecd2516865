// The files and how many there are.
ghost use Rattle.std.specs.Prelude.{◌≡◌, ◌≤◌, ◌<◌, ◌↔◌, true, false, [], length, map, replicate, IsOk, OnOk, OnErr, IfSome, IfNone, slice_index_or, slice_set};
ghost use Rattle.std.specs.Option.{option_copied};
ghost use Rattle.host.specs.Laws.{written};
ghost use Rattle.handles.specs.Names.{is_name};
ghost use Rattle.storage.specs.Held.{too_large};

use errno::ErrorCode;
use fixed_vec::CapacityError;
use handles::{FileNumber, is_name};
use storage::File;

// There is a place for each of the eight numbers, whether or not its file exists. So every number has bytes to read and
// to write, which in a vector of those that exist it would not have.
#[derive(Debug, PartialEq, Eq, Drop)]
pub struct Files {
    files: [File; 8],
    count: usize,
    ghost few: { count ≤ 8 },
    ghost eight: { length files ≡ 8 },
}

impl Files {
    ghost use Rattle.storage.specs.File.{name_of};
    ghost use Rattle.files.specs.Lists.{listing, blank, content_at, with_content, Found, Created, put_new, put_file, file_in};

    #[tactic(auto, using(crate::proofs::Maps::all_empty))]
    pub fn new() -> Files
        ensures { listing result ≡ blank }
    {
        Files {
            files: Default::default(),
            count: 0,
        }
    }

    // The files that exist.
    fn listed(&self) -> &[File]
        ensures names { map name_of result.now ≡ (listing self.now).names }
        ensures few { length result.now ≤ 8 }
    {
        &self.files[..self.count]
    }

    #[tactic(auto, using(crate::proofs::Maps::names_count))]
    pub fn count(&self) -> usize
        ensures value { result ≡ length (listing self.now).names }
        ensures few { result ≤ 8 }
    {
        self.listed().len()
    }

    pub fn find(&self, name: &[u8]) -> Option<FileNumber>
        ensures { Found (listing self.now) name.now result }
    {
        let index = self
            .listed()
            .iter()
            .position(|file| file.name.as_slice() == name)?;
        FileNumber::new(index)
    }

    // The name of the file at the index.
    pub fn name(&self, index: usize) -> Option<&[u8]>
        ensures some { IfSome result (λ name. (index < length (listing self.now).names) × (slice_index_or (listing self.now).names index [] ≡ name.now)) }
        ensures short { IfSome result (λ name. length name.now ≤ 32) }
        ensures none { IfNone result (length (listing self.now).names ≤ index) }
    {
        Some(self.listed().get(index)?.name.as_slice())
    }

    pub fn content(&self, file: FileNumber) -> &[u8]
        ensures { result.now ≡ content_at (listing self.now) file.number }
    {
        &self.files[file.get()].content
    }

    // Writes the bytes at the offset, with zeros in a gap before it. They fit, or the files stay.
    #[tactic(auto, using(crate::proofs::Maps::names_kept, crate::proofs::Maps::content_kept, crate::proofs::Maps::content_written))]
    pub fn write(
        &mut self,
        file: FileNumber,
        offset: u64,
        source: &[u8],
    ) -> Result<(), CapacityError>
        ensures fits { IsOk result ↔ (too_large 2048 offset source.now ≡ false) }
        ensures ok { OnOk result (listing self.new ≡ with_content (listing self.old) file.number (written (content_at (listing self.old) file.number) offset source.now)) }
        ensures err { OnErr result (listing self.new ≡ listing self.old) }
    {
        self.files[file.get()].write(offset, source)
    }

    // Takes all bytes of the file away.
    #[tactic(auto, using(crate::proofs::Maps::names_kept, crate::proofs::Maps::content_emptied))]
    pub fn clear(&mut self, file: FileNumber)
        ensures { listing self.new ≡ with_content (listing self.old) file.number [] }
    {
        self.files[file.get()].clear();
    }

    // A file without bytes, behind all others. There is none if eight exist or if the name is too long.
    #[tactic(auto, using(crate::proofs::Maps::names_count, crate::proofs::Maps::names_more, crate::proofs::Maps::content_emptied))]
    pub fn create(&mut self, name: &[u8]) -> Option<FileNumber>
        ensures { Created (listing self.old) name.now result (listing self.new) }
    {
        let number = FileNumber::new(self.count)?;
        self.files[number.get()] = File::new(name).ok()?;
        self.count += 1;
        Some(number)
    }

    // Adds a file with these bytes.
    pub fn put(&mut self, name: &[u8], bytes: &[u8]) -> Result<(), ErrorCode>
        ensures { (result, listing self.new) ≡ put_file (listing self.old) name.now bytes.now }
    {
        if !is_name(name) {
            return Err(ErrorCode::NoEntry);
        }
        if self.find(name).is_some() {
            return Err(ErrorCode::Exist);
        }
        self.put_new(name, bytes)
    }

    fn put_new(&mut self, name: &[u8], bytes: &[u8]) -> Result<(), ErrorCode>
        requires { is_name name.now ≡ true }
        ensures { (result, listing self.new) ≡ put_new (listing self.old) name.now bytes.now }
    {
        if bytes.len() > 2048 {
            return Err(ErrorCode::FileTooLarge);
        }
        let file = self.create(name).ok_or(ErrorCode::InsufficientSpace)?;
        self.write(file, 0, bytes)
            .map_err(|_| ErrorCode::FileTooLarge)
    }

    // The bytes of the file of that name.
    pub fn get(&self, name: &[u8]) -> Option<&[u8]>
        ensures { option_copied result ≡ file_in (listing self.now) name.now }
    {
        Some(self.content(self.find(name)?))
    }
}
