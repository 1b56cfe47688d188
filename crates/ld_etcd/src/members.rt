// Connections to the members of an etcd.
ghost use Rattle.std.specs.Prelude.{◌≡◌, ◌≤◌, ◌∷◌, List, length, IfOk};
ghost use Rattle.ld_past.specs.Events.{Event};
ghost use Rattle.ld_etcd.specs.Request.{connects, sends};

use std::io::ErrorKind;

/// The members of an etcd, one of which is connected at a time. Each call takes a limited time.
pub trait Members {
    /// The connections that were asked for and the pieces that were handed over, the newest first.
    ghost did: { Self → List Event };

    /// How many there are.
    fn count(&self) -> usize;

    /// The host and the port of a member, as a request names it.
    fn host(&self, member: usize) -> &str;

    /// Closes the connection that is there, and connects to this member, the first one being 0.
    fn connect(&mut self, member: usize) -> Result<(), ErrorKind>
        ensures { did self.new ≡ connects member ∷ did self.old };

    /// Writes all of the bytes. Where it fails a part of them may be written, from the front.
    fn write(&mut self, bytes: &[u8]) -> Result<(), ErrorKind>
        ensures { did self.new ≡ sends bytes.now ∷ did self.old };

    /// Takes the next bytes that came, and says how many. None is the end.
    fn read(&mut self, buf: &mut [u8]) -> Result<usize, ErrorKind>
        ensures bound { IfOk result (λ n. n ≤ length buf.new) }
        ensures len { length buf.new ≡ length buf.old }
        ensures did { did self.new ≡ did self.old };
}
