// A borrowed crowd is one.
use crate::{Crowd, Heard, News, Turn};
use ld_io::{Failed, NoMemory};

impl<C: Crowd> Crowd for &mut C {
    ghost left = { λ c. C.left c.now };

    ghost did = { λ c. C.did c.now };

    ghost faults = { λ c. C.faults c.now };

    fn turn(&mut self, may_wait: bool) -> Result<Turn, Failed> {
        (**self).turn(may_wait)
    }

    fn read(&mut self, peer: u64, buf: &mut [u8]) -> Result<Heard, Failed> {
        (**self).read(peer, buf)
    }

    fn say(&mut self, peer: u64, bytes: &[u8]) -> Result<(), NoMemory> {
        (**self).say(peer, bytes)
    }

    fn is_full(&self, peer: u64) -> bool {
        (**self).is_full(peer)
    }

    fn finish(&mut self, peer: u64) {
        (**self).finish(peer)
    }

    fn dismiss(&mut self, peer: u64) {
        (**self).dismiss(peer)
    }

    fn note(&mut self, news: News) {
        (**self).note(news)
    }
}
