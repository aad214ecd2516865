// What a host with one directory of files has open from the start: three streams, and its directory as "/".
ghost use Rattle.std.specs.Prelude.{◌≡◌, [], ◌∷◌};
ghost use Rattle.handles.specs.Names.{slash};
ghost use Rattle.handles.specs.Starts.{started, Gives};

use crate::handles::Handles;
use crate::open::{Node, Open, Opened};
use fixed_vec::FixedVec;
use host::{Name, Preopen, StandardStream, Start};
use types::{DescriptorFlags, Handle};

impl Handles {
    // Ends all handles. None of the streams is a terminal.
    pub fn start(&mut self) -> Start
        ensures { (Gives result) × (self.new ≡ started) }
    {
        *self = Handles::new();
        self.slots[0] = Open::Stdin;
        self.slots[1] = Open::Stdout;
        self.slots[2] = Open::Stderr;
        let root = Opened {
            node: Node::Directory,
            flags: DescriptorFlags::READ | DescriptorFlags::WRITE,
        };
        self.slots[3] = Open::Node(root);
        // A host with terminals has the like: a constructor for both would say no more than this literal.
        let no_terminal = |handle: u32| StandardStream {
            handle: Handle(handle),
            terminal: false,
        };
        let preopen = Preopen {
            handle: Handle(3),
            name: root_name(),
        };
        Start {
            stdin: no_terminal(0),
            stdout: no_terminal(1),
            stderr: no_terminal(2),
            preopens: FixedVec::try_from([preopen].as_slice()).unwrap(),
        }
    }
}

fn root_name() -> Name
    ensures { result.items ≡ slash ∷ [] }
{
    Name::try_from(b"/".as_slice()).unwrap()
}
