// Stores of bytes of a fixed capacity, for hosts without a heap: files with their names, and what an output has taken.
#![tactic(auto)]

mod bytes;
mod file;
mod output;

pub use bytes::read_at;
pub use file::File;
pub use output::Output;
