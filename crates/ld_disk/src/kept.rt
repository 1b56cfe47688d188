// What a disk in memory holds, and its record of writing calls, by which it answers for every moment.
ghost use Rattle.std.specs.Prelude.{◌≡◌, ◌<◌, ◌≤◌, ◌+◌, ◌*◌, ◌-◌, ◌^◌, ◌∷◌, [], ◌++◌, List, ℕ, length, take, drop, max, min, replicate, OnOk, OnErr, None, Some};
ghost use Rattle.std.specs.Vec.{vec_capacity};
ghost use Rattle.ld_disk.specs.Images.{overwrite};
ghost use Rattle.ld_disk.specs.Record.{piece_of, pieces, made, painted, run, start, state_of, read_after, torn_by, written, synced, extent, needed, farthest, nearest};
ghost use Rattle.ld_disk.specs.Moments.{Elapses};

use crate::Picture;
use crate::bytes::{extend_within, push_within, put, put_copies};
use crate::entry::{Entry, Piece};
use ld_io::NoMemory;
use std::alloc::Global;

#[derive(Drop)]
pub(crate) struct Kept {
    bytes: Vec<u8>,
    stable: Vec<u8>,
    arena: Vec<u8>,
    pending: Vec<Piece>,
    calls: Vec<Entry>,
    /// How many bytes at the front no write since the last successful sync has touched: there what is read is safe.
    untouched: usize,
    room: u64,
    reach: u64,
    ghost told: { run arena.items start calls.items ≡ state_of stable.items (pieces arena.items pending.items) bytes.items },
    ghost calls_within: { extent calls.items ≤ length arena.items },
    ghost pieces_fit: { (needed pending.items ≤ length arena.items) × (farthest pending.items ≤ reach) },
    ghost some: { 0 < length bytes.items },
    ghost bytes_fit: { (length bytes.items ≤ reach) × (reach ≤ vec_capacity bytes) },
    ghost stable_fit: { (length stable.items ≤ reach) × (reach ≤ vec_capacity stable) × (0 < length stable.items) },
    ghost untouched_fits: { (untouched ≤ length bytes.items) × (untouched ≤ length stable.items) },
    ghost untouched_is_safe: { take untouched bytes.items ≡ take untouched stable.items },
    ghost writes_behind: { untouched ≤ nearest untouched pending.items },
    ghost arena_fits: { length arena.items + room * reach ≤ vec_capacity arena },
    ghost calls_fit: { (length pending.items + room ≤ vec_capacity pending) × (length calls.items + room ≤ vec_capacity calls) },
}

/// Makes one write as a picture has it.
fn make(bytes: &mut Vec<u8>, arena: &[u8], piece: Piece, picture: Picture)
    requires within { piece.from + piece.len ≤ length arena.now }
    requires room { piece.at + piece.len ≤ vec_capacity bytes.old }
    requires bound { piece.at + piece.len < 2 ^ 64 }
    ensures bytes { bytes.new.items ≡ made picture (piece_of arena.now piece) bytes.old.items }
    ensures len { (length bytes.old.items ≤ length bytes.new.items) × (length bytes.new.items ≤ max (length bytes.old.items) (piece.at + piece.len)) }
    ensures capacity { vec_capacity bytes.old ≤ vec_capacity bytes.new }
{
    match picture {
        Picture::Old => {}
        Picture::New => put(
            bytes,
            piece.at as usize,
            &arena[piece.from..piece.from + piece.len],
        ),
        Picture::Byte(byte) => put_copies(bytes, piece.at as usize, piece.len, byte),
    }
}

/// Puts what a crash with this picture leaves in the place of the bytes.
fn paint(
    bytes: &mut Vec<u8>,
    stable: &[u8],
    arena: &[u8],
    pending: &[Piece],
    reach: u64,
    picture: Picture,
)
    requires fit { (needed pending.now ≤ length arena.now) × (farthest pending.now ≤ reach) }
    requires stable { length stable.now ≤ reach }
    requires room { reach ≤ vec_capacity bytes.old }
    ensures bytes { bytes.new.items ≡ painted picture stable.now (pieces arena.now pending.now) }
    ensures len { (length stable.now ≤ length bytes.new.items) × (length bytes.new.items ≤ reach) }
    ensures capacity { vec_capacity bytes.old ≤ vec_capacity bytes.new }
{
    bytes.clear();
    extend_within(bytes, stable);
    'writes: for piece in pending {
        make(bytes, arena, *piece, picture);
    }
}

/// Leaves the bytes as they are, or puts what a crash leaves in their place.
fn tear(
    bytes: &mut Vec<u8>,
    stable: &[u8],
    arena: &[u8],
    pending: &[Piece],
    reach: u64,
    crash: Option<Picture>,
)
    requires fit { (needed pending.now ≤ length arena.now) × (farthest pending.now ≤ reach) }
    requires stable { length stable.now ≤ reach }
    requires bytes { (0 < length bytes.old.items) × (length bytes.old.items ≤ reach) }
    requires some { 0 < length stable.now }
    requires room { reach ≤ vec_capacity bytes.old }
    ensures len { (0 < length bytes.new.items) × (length bytes.new.items ≤ reach) }
    ensures bytes { bytes.new.items ≡ read_after crash stable.now (pieces arena.now pending.now) bytes.old.items }
    ensures capacity { vec_capacity bytes.old ≤ vec_capacity bytes.new }
{
    if let Some(picture) = crash {
        paint(bytes, stable, arena, pending, reach, picture);
    }
}

impl Kept {
    ghost use Rattle.std.specs.Prelude.{IfOk};
    ghost use Rattle.ld_disk.specs.Kept.{kept_state, kept_moment, kept_since, KeptElapses};

    /// A new disk: one stable byte 0.
    pub(crate) fn new(alloc: Global) -> Result<Kept, NoMemory>
        ensures state { IfOk result (λ kept. kept_state kept ≡ start) }
    {
        let mut bytes = Vec::with_capacity(alloc, 1)?;
        bytes.push(0)?;
        let mut stable = Vec::with_capacity(alloc, 1)?;
        stable.push(0)?;
        Ok(Kept {
            bytes,
            stable,
            arena: Vec::new(alloc),
            pending: Vec::new(alloc),
            calls: Vec::new(alloc),
            untouched: 0,
            room: 0,
            reach: 1,
        })
    }

    /// Writes, and crashes where a picture is given.
    pub(crate) fn write(&mut self, at: u64, bytes: &[u8], crash: Option<Picture>)
        requires room { 0 < self.old.room }
        requires place { at + length bytes.now ≤ self.old.reach }
        ensures state { kept_state self.new ≡ torn_by crash (written (at, bytes.now) (kept_state self.old)) }
        ensures time { KeptElapses self.old self.new }
        ensures spends { (self.new.room + 1 ≡ self.old.room) × (self.new.reach ≡ self.old.reach) }
    {
        let piece = Piece {
            at,
            from: self.arena.len(),
            len: bytes.len(),
        };
        extend_within(&mut self.arena, bytes);
        push_within(&mut self.pending, piece);
        push_within(&mut self.calls, Entry::Write(piece, crash));
        self.untouched = self.untouched.min(at as usize);
        put(&mut self.bytes, at as usize, bytes);
        tear(
            &mut self.bytes,
            &self.stable,
            &self.arena,
            &self.pending,
            self.reach,
            crash,
        );
        self.room -= 1;
    }

    /// Makes what is read safe.
    pub(crate) fn sync(&mut self)
        requires room { 0 < self.old.room }
        ensures state { kept_state self.new ≡ synced None (kept_state self.old) }
        ensures time { KeptElapses self.old self.new }
        ensures spends { (self.new.room + 1 ≡ self.old.room) × (self.new.reach ≡ self.old.reach) }
    {
        push_within(&mut self.calls, Entry::Sync(None));
        self.stable.truncate(self.untouched);
        extend_within(&mut self.stable, &self.bytes[self.untouched..]);
        self.pending.clear();
        self.untouched = self.bytes.len();
        self.room -= 1;
    }

    /// Crashes in a sync.
    pub(crate) fn crash(&mut self, picture: Picture)
        requires room { 0 < self.old.room }
        ensures state { kept_state self.new ≡ synced (Some picture) (kept_state self.old) }
        ensures time { KeptElapses self.old self.new }
        ensures spends { (self.new.room + 1 ≡ self.old.room) × (self.new.reach ≡ self.old.reach) }
    {
        push_within(&mut self.calls, Entry::Sync(Some(picture)));
        paint(
            &mut self.bytes,
            &self.stable,
            &self.arena,
            &self.pending,
            self.reach,
            picture,
        );
        self.room -= 1;
    }

    /// Fills all of the buffer that lies before the end.
    pub(crate) fn read(&self, at: u64, buf: &mut [u8]) -> usize
        ensures bound { result ≤ length buf.new }
        ensures len { length buf.new ≡ length buf.old }
        ensures bytes { (result ≡ min (length self.now.bytes.items - at) (length buf.old)) × (take result buf.new ≡ take result (drop at self.now.bytes.items)) }
    {
        let start = self.bytes.len().min(at as usize);
        let rest = &self.bytes[start..];
        let count = rest.len().min(buf.len());
        buf[..count].copy_from_slice(&rest[..count]);
        count
    }

    pub(crate) fn len(&self) -> u64
        ensures { result ≡ length self.now.bytes.items }
    {
        self.bytes.len() as u64
    }

    /// Makes room for that many further writing calls, the writes up to that offset.
    pub(crate) fn reserve(&mut self, end: u64, calls: u64) -> Result<(), NoMemory>
        ensures room { OnOk result ((calls ≤ self.new.room) × (end ≤ self.new.reach)) }
        ensures no_less { (self.old.room ≤ self.new.room) × (self.old.reach ≤ self.new.reach) }
        ensures state { kept_state self.new ≡ kept_state self.old }
        ensures bytes { self.new.bytes.items ≡ self.old.bytes.items }
        ensures past { (self.new.arena.items ≡ self.old.arena.items) × (self.new.calls.items ≡ self.old.calls.items) }
    {
        let room = self.room.max(calls);
        let reach = self.reach.max(end);
        let more = room.checked_mul(reach).ok_or(NoMemory)?;
        self.arena.reserve(more as usize)?;
        self.pending.reserve(room as usize)?;
        self.calls.reserve(room as usize)?;
        self.bytes.reserve(reach as usize - self.bytes.len())?;
        self.stable.reserve(reach as usize - self.stable.len())?;
        self.room = room;
        self.reach = reach;
        Ok(())
    }

    /// Puts a new disk in its place.
    pub(crate) fn wipe(&mut self)
        ensures state { kept_state self.new ≡ start }
    {
        self.untouched = 0;
        self.bytes.truncate(1);
        self.bytes[0] = 0;
        self.stable.truncate(1);
        self.stable[0] = 0;
        self.arena.clear();
        self.pending.clear();
        self.calls.clear();
    }
}
