// An unhelpful host, to show what the laws allow: it refuses nearly everything, and faults on every drop.
#![tactic(auto)]

mod grudging;
#[cfg(test)]
mod parts;

pub use grudging::Grudging;
