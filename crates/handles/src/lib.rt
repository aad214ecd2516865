// A fixed table of handles, for hosts without a heap: what is open behind each of 80 numbers.
#![tactic(auto)]

mod file_number;
mod handles;
mod name;
mod open;
mod start;

pub use file_number::FileNumber;
pub use handles::Handles;
pub use name::{is_dot, is_name};
pub use open::{Node, Open, Opened, Stream};
