// The format's laws.
ghost use Rattle.std.specs.Prelude.{◌≡◌, ◌≢◌, ◌<◌, ◌≤◌, ◌^◌, ◌++◌, ◌∷◌, [], List, ℕ, length, if◌then◌else◌, Option, None};
ghost use Rattle.ld_journal.specs.Format.{records, Fits, IsJournal, IsDamaged, append_calls};
ghost use Rattle.ld_journal.specs.Pictures.{IsSafe, is_there, crashed_by, appended};
ghost use Rattle.ld_disk.specs.Record.{State};
ghost use Rattle.ld_disk.specs.Plain.{Plain, IsTold, after_calls, all_made};
ghost use Rattle.ld_disk.specs.declared.disk.Picture.{Picture};

/// Bytes are a journal of one list of bodies at most, and no journal is damaged. Where they begin with the records of
/// some bodies, the list begins with these.
pub fn has_one_reading()
    ensures one { (bytes : List ℕ) (here there : List (List ℕ)) → IsJournal here bytes → IsJournal there bytes → here ≡ there }
    ensures whole { (place : ℕ) (bytes : List ℕ) (bodies : List (List ℕ)) → IsJournal bodies bytes → IsDamaged place bytes → ⊥ }
    ensures front { (bodies all : List (List ℕ)) (rest : List ℕ) → Fits bodies → IsJournal all (records bodies ++ rest)
        → (more : List (List ℕ)) × (all ≡ bodies ++ more) × IsJournal more rest }
{}

/// Of a fault in one of an append's four writing calls, that call and the pictures of the crashes since then decide
/// whether a load finds the body: exactly where the gate's write was made, and the last picture has that gate open.
/// Without a crash it is as it was written.
pub fn picture_decides()
    ensures { (bodies : List (List ℕ)) (body after : List ℕ) (gate place call : ℕ) (how : Option Picture) (later : List Picture) (p : Plain)
        → gate ≢ 1 → place ≡ length (records bodies) → Fits bodies → length body < 2 ^ 32
        → IsSafe (records bodies ++ gate ∷ after) p.state → IsTold call how p → call ≤ 4
        → IsJournal (if is_there call how later then bodies ++ body ∷ [] else bodies) (crashed_by later (after_calls (append_calls place body) p).state).bytes }
{}

/// What is read is safe after a load and after an append, and a crash in the sync of a later load changes nothing of it.
pub fn finished_calls_are_safe()
    ensures load { (s : State) → IsSafe s.bytes (all_made (None ∷ []) s) }
    ensures append { (place : ℕ) (body bytes : List ℕ) (s : State) → IsSafe bytes s
        → IsSafe (appended place body bytes) (all_made (append_calls place body) s) }
    ensures crash { (bytes : List ℕ) (later : List Picture) (s : State) → IsSafe bytes s → IsSafe bytes (crashed_by later s) }
{}
