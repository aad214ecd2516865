// It refuses with a code of its choice, and brings what waits on standard input one byte at a time.
ghost use Rattle.std.specs.Prelude.{◌≡◌};
ghost use Rattle.host_tests.specs.Grudging.{meaning_of, bounds};

use errno::ErrorCode;
use fixed_vec::FixedVec;
use host::{
    DirEntry, DirHost, DropFault, FileHost, FileStream, Fresh, StandardStream, Start, Stat,
    StreamError,
};
use types::{DescriptorFlags, Handle, Lookupflags, Oflags};

#[derive(Drop)]
pub struct Grudging {
    pub code: ErrorCode,
    // Which of the three streams are open.
    pub live: [bool; 3],
    // How many zeros wait on standard input.
    pub waiting: usize,
}

impl FileHost for Grudging {
    ghost meaning = { meaning_of };

    ghost bounded = { bounds };

    fn read_at(
        &mut self,
        _file: Handle,
        _buffer: &mut [u8],
        _offset: u64,
    ) -> Result<usize, ErrorCode> {
        Err(self.code)
    }

    fn write_at(&mut self, _file: Handle, _bytes: &[u8], _offset: u64) -> Result<usize, ErrorCode> {
        Err(self.code)
    }

    fn append(&mut self, _file: Handle, _bytes: &[u8]) -> Result<usize, ErrorCode> {
        Err(self.code)
    }

    fn stat(&mut self, _node: Handle) -> Result<Stat, ErrorCode> {
        Err(self.code)
    }

    fn read_via_stream(&mut self, _file: Handle, _offset: u64) -> Result<FileStream, ErrorCode> {
        Err(self.code)
    }

    #[tactic(auto, using(crate::proofs::Grudges::read_none, crate::proofs::Grudges::read_closed, crate::proofs::Grudges::read_one))]
    fn read_stream(&mut self, input: Handle, buffer: &mut [u8]) -> Result<usize, StreamError> {
        if input.0 != 0 || !self.live[0] {
            return Err(StreamError::from(self.code));
        }
        if buffer.is_empty() {
            return Ok(0);
        }
        if self.waiting == 0 {
            return Err(StreamError::Closed);
        }
        buffer[0] = 0;
        self.waiting -= 1;
        Ok(1)
    }

    fn write_stream(&mut self, _output: Handle, _bytes: &[u8]) -> Result<(), ErrorCode> {
        Err(self.code)
    }

    #[tactic(auto, using(crate::proofs::Grudges::drop_past))]
    fn drop_handle(&mut self, handle: Handle) -> Result<(), DropFault> {
        // Of a slice that was changed through `get_mut`, no proof knows the elements.
        let index = handle.0 as usize;
        if index < self.live.len() {
            self.live[index] = false;
        }
        Err(DropFault)
    }
}

// The two kinds of flags of an opening come apart, as the trait has them.
impl DirHost for Grudging {
    fn open_at(
        &mut self,
        _directory: Handle,
        _lookup: Lookupflags,
        _path: &[u8],
        _oflags: Oflags,
        _flags: DescriptorFlags,
    ) -> Result<Fresh, ErrorCode> {
        Err(self.code)
    }

    fn entry_count(&mut self, _directory: Handle) -> Result<u32, ErrorCode> {
        Err(self.code)
    }

    #[tactic(auto, using(crate::proofs::Grudges::entry_law))]
    fn entry(&mut self, _directory: Handle, _index: u32) -> Result<DirEntry, ErrorCode> {
        Err(self.code)
    }

    fn start(&mut self) -> Start {
        self.live = [true, true, true];
        // A host without terminals has the like: a constructor for both would say no more than this literal.
        let terminal = |handle: u32| StandardStream {
            handle: Handle(handle),
            terminal: true,
        };
        Start {
            stdin: terminal(0),
            stdout: terminal(1),
            stderr: terminal(2),
            preopens: FixedVec::new(),
        }
    }
}

#[cfg(test)]
mod tests {
    use super::*;

    fn host() -> Grudging {
        Grudging {
            code: ErrorCode::Interrupted,
            live: [false, false, false],
            waiting: 2,
        }
    }

    // What it answers to every read that it refuses.
    const REFUSED: Result<usize, StreamError> = Err(StreamError::LastOperationFailed(
        ErrorCode::Interrupted,
    ));

    #[test]
    fn one_byte_at_a_time(rt: HostRuntime) {
        let mut host = host();
        let start = host.start();
        assert_eq!(rt; start.preopens.len(), 0);
        let stdin = start.stdin.handle;
        let mut buffer: [u8; 3] = [255; 3];
        assert_eq!(rt; host.read_stream(stdin, &mut buffer), Ok(1));
        assert_eq!(rt; buffer, [0, 255, 255]);
        assert_eq!(rt; host.read_stream(stdin, &mut buffer), Ok(1));
        assert_eq!(rt; buffer, [0, 255, 255]);
        assert_eq!(rt;
            host.read_stream(stdin, &mut buffer),
            Err(StreamError::Closed)
        );
        assert_eq!(rt; buffer, [0, 255, 255]);
    }

    #[test]
    fn refusals_and_faults(rt: HostRuntime) {
        let mut host = host();
        let mut buffer: [u8; 3] = [255; 3];
        assert_eq!(rt; host.read_stream(Handle(0), &mut buffer), REFUSED);
        let start = host.start();
        assert_eq!(rt;
            host.write_stream(start.stdout.handle, b"ab"),
            Err(ErrorCode::Interrupted)
        );
        assert_eq!(rt; host.drop_handle(start.stdin.handle), Err(DropFault));
        assert_eq!(rt; host.read_stream(start.stdin.handle, &mut buffer), REFUSED);
        assert_eq!(rt; buffer, [255, 255, 255]);
    }
}
