// Areas of a disk, each an offset and a length.
ghost use Rattle.std.specs.Prelude.{◌≡◌, ◌≤◌, ◌+◌, ◌^◌, List, ℕ};
ghost use Rattle.std.specs.List.{All};
ghost use Rattle.ld_layout.specs.Areas.{least_place, end_of, IsFree, Rise};

/// The least offset at which so many bytes overlap none of the areas, which rise by offset and end at 2^40 or before it.
pub fn least_place(size: u64, areas: &[(u64, u64)]) -> u64
    requires rise { Rise areas.now }
    requires ends { All (λ a. end_of a ≤ 2 ^ 40) areas.now }
    requires size { size ≤ 2 ^ 40 }
    ensures least { result ≡ least_place size 0 areas.now }
    ensures free { IsFree size result areas.now }
    ensures bound { result ≤ 2 ^ 40 }
{
    let mut at = 0;
    'areas: for (place, len) in areas {
        if at + size <= *place {
            return at;
        }
        at = at.max(*place + *len);
    }
    at
}

/// Where areas rise by offset, the offset that is found overlaps none of them, and no offset before it is free.
pub fn least_places_are_free()
    ensures free { (size at : ℕ) (areas : List (ℕ × ℕ)) → Rise areas → IsFree size (least_place size at areas) areas }
    ensures least { (size at place : ℕ) (areas : List (ℕ × ℕ)) → at ≤ place → IsFree size place areas → least_place size at areas ≤ place }
{}
