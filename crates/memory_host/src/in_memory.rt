// The host, and how it takes from inputs and gives to outputs. Whoever holds it may fill and read its files and outputs.
ghost use Rattle.std.specs.Prelude.{◌≡◌};
ghost use Rattle.memory_host.specs.State.{state, empty};
ghost use Rattle.memory_host.specs.Streams.{take_input as taking_input, read_stream as taking, write_stream as giving};

mod dir_host;
mod file_host;

use errno::ErrorCode;
use handles::Open;
use host::StreamError;
use memory_files::MemoryDisk;
use storage::{Output, read_at};
use types::Handle;

#[derive(Drop)]
pub struct MemoryHost<'a> {
    pub disk: MemoryDisk,
    // What still waits on standard input.
    input: &'a [u8],
    pub stdout: Output,
    pub stderr: Output,
}

impl<'a> MemoryHost<'a> {
    // A host without files, to which standard input is lent.
    pub fn new(input: &'a [u8]) -> MemoryHost<'a>
        ensures { state result ≡ empty input.now }
    {
        MemoryHost {
            disk: MemoryDisk::new(),
            input,
            stdout: Output::new(),
            stderr: Output::new(),
        }
    }
}

impl MemoryHost<'_> {
    // Takes all bytes that wait and for which there is room.
    fn take(&mut self, input: Handle, buffer: &mut [u8]) -> Result<usize, StreamError>
        ensures { (result, buffer.new, state self.new) ≡ taking (state self.old) input.0 buffer.old }
    {
        match self.disk.handles.get(input) {
            Open::Stream(stream) => self.disk.take(input, stream, buffer),
            Open::Stdin => self.take_input(buffer),
            _ => Err(StreamError::from(ErrorCode::BadDescriptor)),
        }
    }

    #[tactic(auto, using(std::proofs::lemmas::List::take_rest))]
    fn take_input(&mut self, buffer: &mut [u8]) -> Result<usize, StreamError>
        ensures { (result, buffer.new, state self.new) ≡ taking_input (state self.old) buffer.old }
    {
        if buffer.is_empty() {
            return Ok(0);
        }
        if self.input.is_empty() {
            return Err(StreamError::Closed);
        }
        let n = read_at(self.input, 0, buffer);
        self.input = &self.input[n..];
        Ok(n)
    }

    // Gives the output the whole piece, or none of it.
    fn give(&mut self, output: Handle, piece: &[u8]) -> Result<(), ErrorCode>
        ensures { (result, state self.new) ≡ giving (state self.old) output.0 piece.now }
    {
        let taken = match self.disk.handles.get(output) {
            Open::Stdout => self.stdout.write(piece),
            Open::Stderr => self.stderr.write(piece),
            _ => return Err(ErrorCode::BadDescriptor),
        };
        taken.map_err(|_| ErrorCode::InsufficientSpace)
    }
}
