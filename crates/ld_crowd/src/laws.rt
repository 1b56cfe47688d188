// Laws of a course.
ghost use Rattle.std.specs.Prelude.{◌≡◌, ◌≢◌, ◌+◌, ◌++◌, ◌∷◌, [], ℕ, List, length};
ghost use Rattle.ld_crowd.specs.Course.{Taken, after_taken, of, answered, IsTalk, answers_all, in_turn, after_peers};

/// One frame more of a peer is its answers more and the next state; what passed with the others stays.
pub fn one_frame_more<S, M>()
    ensures its { (after : S → M → S) (answers : S → M → List ℕ) (frame : M → List ℕ) (g : ℕ) (m : M) (s : S) (ts : List (Taken M)) (got : List ℕ) (sent : List ℕ) (rest : List ℕ)
        → IsTalk after answers frame g s ts got sent (frame m ++ rest)
        → IsTalk after answers frame g s (ts ++ (g, m) ∷ []) got (sent ++ answers (after_taken after s ts) m) rest }
    ensures others { (after : S → M → S) (answers : S → M → List ℕ) (frame : M → List ℕ) (g : ℕ) (h : ℕ) (m : M) (s : S) (ts : List (Taken M)) (got : List ℕ) (sent : List ℕ) (held : List ℕ)
        → g ≢ h → IsTalk after answers frame g s ts got sent held
        → IsTalk after answers frame g s (ts ++ (h, m) ∷ []) got sent held }
    ensures state { (after : S → M → S) (h : ℕ) (m : M) (s : S) (ts : List (Taken M))
        → after_taken after s (ts ++ (h, m) ∷ []) ≡ after (after_taken after s ts) m }
{}

/// Where the frames of each peer stand together, the states, and the frames and the answers of each peer, are those of
/// serving one peer after the other.
pub fn one_after_the_other<S, M>()
    ensures state { (after : S → M → S) (s : S) (peers : List (List M)) → after_taken after s (in_turn 0 peers) ≡ after_peers after s peers }
    ensures said { (after : S → M → S) (answers : S → M → List ℕ) (s : S) (before : List (List M)) (ms : List M) (more : List (List M))
        → answered after answers (length before) s (in_turn 0 (before ++ ms ∷ more)) ≡ answers_all after answers (after_peers after s before) ms }
    ensures heard { (before : List (List M)) (ms : List M) (more : List (List M)) → of (length before) (in_turn 0 (before ++ ms ∷ more)) ≡ ms }
{}
