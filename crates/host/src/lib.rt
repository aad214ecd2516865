// What the calls ask of a host: files, streams and directories behind handles. Each asking has one law over what the
// host means, so that code above is written and proved once, for every host.
#![tactic(auto)]

mod answers;
mod dir_host;
mod file_host;
mod token;

pub use answers::{DirEntry, DropFault, Name, Preopen, StandardStream, Start, Stat, StreamError};
pub use dir_host::DirHost;
pub use file_host::FileHost;
pub use token::{FileStream, Fresh, NodeKind};
