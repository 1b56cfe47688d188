// A disk as its users see it.
ghost use Rattle.std.specs.Prelude.{◌≡◌, ◌≤◌, ◌<◌, ◌+◌, ◌-◌, List, ℕ, Option, Some, min, length, take, drop, IfOk, IfSome, OnOk, None, is_ok, true, false, ◌==◌};
ghost use Rattle.std.specs.Option.{option_map};
ghost use Rattle.ld_io.specs.Causes.{HasCause};
ghost use Rattle.ld_disk.specs.Images.{overwrite, Torn, Follows, Only, IsHonest};
ghost use Rattle.ld_disk.specs.Moments.{Elapses, SpendsOne, Unchanged};
ghost use Rattle.ld_disk.specs.Plain.{Plain, after_call, succeeds, after_read, read_succeeds, stands, armed_with};

use ld_io::{Failed, NoMemory};

/// What a crash leaves of the bytes written since the last successful sync, in a disk in memory.
#[derive(Clone, Copy, PartialEq, Eq)]
pub enum Picture {
    /// None of these writes was made.
    Old,
    /// All were made.
    New,
    /// All were made, but each such byte holds this value.
    Byte(u8),
}

/// What a disk in memory is told to do. A count of 1 is the next call, and 0 none.
#[derive(Clone, Copy)]
pub enum Fault {
    /// That writing call fails.
    FailAt(u64),
    /// That call of `read` fails.
    FailReadAt(u64),
    /// The disk crashes in that writing call.
    CrashAt(u64, Picture),
}

/// A disk: bytes that are read and written in place, and are safe from a crash after a sync.
///
/// Between two successful syncs each written range, and every byte past the old end, may hold any bytes after a
/// crash, and all others stay. A call fails only where the disk's own count of faults rose in it.
pub trait Disk {
    /// The bytes that a read gives, where the disk tells.
    ghost seen: { Self → Option (List ℕ) };

    /// What a crash at this moment may leave.
    ghost may_leave: { Self → List ℕ → Type 0 };

    /// The moment, as a number that doesn't fall.
    ghost moment: { Self → ℕ };

    /// What a crash at some moment from that one on might have left, during a call or between two.
    ghost left_since: { Self → ℕ → List ℕ → Type 0 };

    /// What each call will do, where the disk tells: a disk in memory says exactly which calls fail or crash, and what
    /// is read afterwards. A disk that doesn't tell still keeps all that is said of images, moments and faults.
    ghost plain: { Self → Option Plain };

    /// For how many writing calls there is room.
    ghost room: { Self → ℕ };

    /// Up to which offset they may write.
    ghost reach: { Self → ℕ };

    /// How often a call has failed, up to the greatest 64-bit number.
    ghost faults: { Self → ℕ };

    /// Which disk it is: no call changes that.
    ghost identity: { Self → ℕ };

    /// Fills all of `buf` that lies before the disk's end, and says how much that is.
    fn read(&mut self, at: u64, buf: &mut [u8]) -> Result<usize, Failed>
        ensures bound { IfOk result (λ n. n ≤ length buf.new) }
        ensures len { length buf.new ≡ length buf.old }
        ensures bytes { IfOk result (λ n. IfSome (seen self.old) (λ bytes.
            (n ≡ min (length bytes - at) (length buf.old)) × (take n buf.new ≡ take n (drop at bytes)))) }
        ensures exact { IfSome (plain self.old) (λ p. (plain self.new ≡ Some (after_read p)) × (is_ok result ≡ read_succeeds p.crashed p.armed)) }
        ensures same { Unchanged seen may_leave moment left_since self.old self.new }
        ensures room { (room self.new ≡ room self.old) × (reach self.new ≡ reach self.old) }
        ensures itself { identity self.new ≡ identity self.old }
        ensures cause { HasCause (faults self.old) (faults self.new) result };

    /// Writes over what is there, and past the end; a gap before the offset reads as zeros.
    fn write_at(&mut self, at: u64, bytes: &[u8]) -> Result<(), Failed>
        requires room { 0 < room self.old }
        requires place { at + length bytes.now ≤ reach self.old }
        ensures written { OnOk result (seen self.new ≡ option_map (overwrite at bytes.now) (seen self.old)) }
        ensures honest { IsHonest (seen self.old) → IsHonest (seen self.new) }
        ensures exact { IfSome (plain self.old) (λ p. (plain self.new ≡ Some (after_call (Some (at, bytes.now)) p)) × (is_ok result ≡ succeeds p)) }
        ensures crash { Follows (Torn at (length bytes.now)) (may_leave self.old) (may_leave self.new) }
        ensures time { Elapses (moment self.old) (moment self.new) (left_since self.old) (left_since self.new) (may_leave self.new) }
        ensures spends { SpendsOne (room self.old) (room self.new) (reach self.old) (reach self.new) }
        ensures itself { identity self.new ≡ identity self.old }
        ensures cause { HasCause (faults self.old) (faults self.new) result };

    /// After it, a crash leaves what a read gives.
    fn sync(&mut self) -> Result<(), Failed>
        requires room { 0 < room self.old }
        ensures durable { OnOk result (IfSome (seen self.old) (λ bytes. Only bytes (may_leave self.new))) }
        ensures same { OnOk result (seen self.new ≡ seen self.old) }
        ensures honest { IsHonest (seen self.old) → IsHonest (seen self.new) }
        ensures exact { IfSome (plain self.old) (λ p. (plain self.new ≡ Some (after_call None p)) × (is_ok result ≡ succeeds p)) }
        ensures crash { (c : List ℕ) → may_leave self.new c → may_leave self.old c }
        ensures time { Elapses (moment self.old) (moment self.new) (left_since self.old) (left_since self.new) (may_leave self.new) }
        ensures spends { SpendsOne (room self.old) (room self.new) (reach self.old) (reach self.new) }
        ensures itself { identity self.new ≡ identity self.old }
        ensures cause { HasCause (faults self.old) (faults self.new) result };

    /// How many bytes there are.
    fn len(&mut self) -> Result<u64, Failed>
        ensures exact { (plain self.new ≡ plain self.old) × IfSome (plain self.old) (λ p. is_ok result ≡ stands p) }
        ensures len { IfOk result (λ n. IfSome (seen self.old) (λ bytes. n ≡ length bytes)) }
        ensures same { Unchanged seen may_leave moment left_since self.old self.new }
        ensures room { (room self.new ≡ room self.old) × (reach self.new ≡ reach self.old) }
        ensures itself { identity self.new ≡ identity self.old }
        ensures cause { HasCause (faults self.old) (faults self.new) result };

    /// Makes room for that many further calls of `write_at` and `sync`, the writes up to offset `end`. It is the one
    /// call that takes memory, and a refusal changes nothing.
    fn reserve(&mut self, end: u64, calls: u64) -> Result<(), NoMemory>
        ensures room { OnOk result ((calls ≤ room self.new) × (end ≤ reach self.new)) }
        ensures exact { plain self.new ≡ plain self.old }
        ensures no_less { (room self.old ≤ room self.new) × (reach self.old ≤ reach self.new) }
        ensures same { Unchanged seen may_leave moment left_since self.old self.new }
        ensures itself { identity self.new ≡ identity self.old }
        ensures faults { faults self.new ≡ faults self.old };

    /// Tells a disk in memory to fail. Others ignore it.
    fn arm(&mut self, fault: Fault)
        ensures exact { plain self.new ≡ option_map (armed_with fault) (plain self.old) }
        ensures same { Unchanged seen may_leave moment left_since self.old self.new }
        ensures room { (room self.new ≡ room self.old) × (reach self.new ≡ reach self.old) }
        ensures itself { identity self.new ≡ identity self.old }
        ensures faults { faults self.new ≡ faults self.old };

    /// What is read is one of the things that a crash may leave.
    ghost reads_an_image: { (disk : Self) (bytes : List ℕ) → seen disk ≡ Some bytes → may_leave disk bytes };

    /// This moment is one of those since an earlier one.
    ghost counts_now: { (disk : Self) (t : ℕ) (c : List ℕ) → t ≤ moment disk → may_leave disk c → left_since disk t c };

    /// Since this moment there is no other.
    ghost only_now: { (disk : Self) (c : List ℕ) → left_since disk (moment disk) c → may_leave disk c };

    /// What each call will do is told of the bytes that are read.
    ghost plain_is_seen: { (disk : Self) (p : Plain) → plain disk ≡ Some p → seen disk ≡ Some p.state.bytes };
}
