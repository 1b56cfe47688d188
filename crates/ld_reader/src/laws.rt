// What holds of a reader's items over any list of its calls.
ghost use Rattle.std.specs.Prelude.{◌≤◌, ◌+◌, ℕ, List, All};
ghost use Rattle.ld_msg.specs.Reading.{Item};
ghost use Rattle.ld_reader.specs.Tiling.{Tiles, TileByCalls, items_of, StandsWithin};

/// What a reader's calls give, one after the other, tiles the numbers from its first one on: no number is passed over,
/// and none is given twice. For each call's items tile the numbers from the reader's next one before it to its next one
/// after it, and an ask leaves that.
pub fn items_join()
    ensures { (from to : ℕ) (calls : List (List (ℕ × Item))) → TileByCalls from calls to → Tiles from (items_of calls) to }
{}

/// Items that tile these numbers stand within them.
pub fn items_stay_within()
    ensures { (from to until : ℕ) (items : List (ℕ × Item)) → Tiles from items to → to ≤ until + 1 → All (StandsWithin from until) items }
{}
