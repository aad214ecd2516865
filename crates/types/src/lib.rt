// The types of WASI preview 1 that the calls take and answer, with their numbers from witx.
#![tactic(auto)]

mod filetype;
mod flags;
mod whence;

pub use filetype::Filetype;
pub use flags::{DescriptorFlags, Fdflags, Flags, Lookupflags, Oflags, Rights};
pub use whence::Whence;

// A descriptor number, as a guest knows an opening.
#[derive(Clone, Copy, Debug, PartialEq, Eq)]
pub struct Fd(pub u32);

// A host's name for something that it holds open. No guest ever sees one. The default only fills unused
// places, and is no handle to be used.
#[derive(Clone, Copy, Debug, Default, PartialEq, Eq)]
pub struct Handle(pub u32);
