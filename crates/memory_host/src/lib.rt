// A host in fixed memory: one directory of up to eight files, 80 handles, and two outputs.
#![tactic(auto)]

mod in_memory;

pub use in_memory::MemoryHost;
