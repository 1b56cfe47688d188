// Laws of disks whose failures are known.
ghost use Rattle.std.specs.Prelude.{◌≡◌, ◌-◌, ◌<◌, ◌≤◌, ℕ, List, length, Option, None, Some, true, false, is_some};
ghost use Rattle.ld_disk.specs.Record.{State, synced};
ghost use Rattle.ld_disk.specs.Plain.{Plain, Call, IsTold, IsSound, all_made, all_succeed, after_calls, reads_fine};
ghost use Rattle.ld_disk.specs.declared.disk.Picture.{Picture};

/// A crash is no sync: the writes since the last successful sync stay what they were, and of several crashes the
/// last one decides what is read.
pub fn last_picture_decides()
    ensures { (s : State) (first second : Picture) → synced (Some second) (synced (Some first) s) ≡ synced (Some second) s }
{}

/// Of writing calls in a row, those before the one that the disk is told of are made, and that one fails. Where it
/// comes later, or there is none, all are made.
pub fn fault_comes_in_its_call()
    ensures comes { (calls : List Call) (k : ℕ) (how : Option Picture) (p : Plain) → IsTold k how p → k ≤ length calls
        → (all_succeed calls p ≡ false) × ((after_calls calls p).armed ≡ None) × ((after_calls calls p).crashed ≡ is_some how) }
    ensures passes { (calls : List Call) (k : ℕ) (how : Option Picture) (p : Plain) → IsTold k how p → length calls < k
        → (all_succeed calls p ≡ true) × IsTold (k - length calls) how (after_calls calls p) × ((after_calls calls p).state ≡ all_made calls p.state) }
    ensures sound { (calls : List Call) (p : Plain) → IsSound p
        → (all_succeed calls p ≡ true) × IsSound (after_calls calls p) × ((after_calls calls p).state ≡ all_made calls p.state) }
{}

/// No read fails of a disk that stands and is told of no fault, or of one in a writing call.
pub fn reads_are_fine()
    ensures told { (k : ℕ) (how : Option Picture) (p : Plain) → IsTold k how p → reads_fine p ≡ true }
    ensures sound { (p : Plain) → IsSound p → reads_fine p ≡ true }
{}
