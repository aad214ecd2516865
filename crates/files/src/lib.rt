// A fixed directory of files, for a host without a heap: up to eight, in the order in which they were created.
#![tactic(auto)]

mod files;

pub use files::Files;
