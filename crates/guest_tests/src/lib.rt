// Examples on the edges of what a guest hands over: vectors, fuel and paths.
#![tactic(auto)]

mod paths;
mod vectors;

use errno::{Errno, Error, TrapCause};

const ILSEQ: Error = Error::Errno(Errno::Ilseq);

const NOMEM: Error = Error::Errno(Errno::Nomem);

const POINTER: Error = Error::Trap(TrapCause::Pointer);

#[cfg(test)]
mod tests {
    use super::*;

    #[test]
    fn errnos_have_the_numbers_of_witx(rt: HostRuntime) {
        assert_eq!(rt; u16::from(Errno::Ilseq), 25);
        assert_eq!(rt; u16::from(Errno::Nomem), 48);
    }
}
