// A borrowed link is one.
use crate::{Dial, Link};
use ld_io::Failed;

impl<L: Link> Link for &mut L {
    ghost peers = { λ l. L.peers l.now };

    ghost did = { λ l. L.did l.now };

    ghost faults = { λ l. L.faults l.now };

    fn next_peer(&mut self) -> Result<bool, Failed> {
        (**self).next_peer()
    }

    fn read(&mut self, buf: &mut [u8]) -> Result<usize, Failed> {
        (**self).read(buf)
    }

    fn write(&mut self, piece: &[u8]) -> Result<usize, Failed> {
        (**self).write(piece)
    }
}

impl<L: Dial> Dial for &mut L {
    fn dial(&mut self, node: u8) -> Result<(), Failed> {
        (**self).dial(node)
    }

    fn rest(&mut self, milliseconds: u32) {
        (**self).rest(milliseconds)
    }

    fn failures(&self) -> u64 {
        (**self).failures()
    }
}
