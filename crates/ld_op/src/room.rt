// Places in a tree, made before what comes under their keys.
ghost use Rattle.std.specs.Prelude.{◌≡◌, ◌⊎◌, ℕ, true, OnOk};
ghost use Rattle.ld_op.specs.Places.{filled, has_place};

use ld_ids::NoMemory;
use std::collections::BTreeMap;

/// Makes a place for the key where nothing stands under it. Without memory nothing changes.
pub(crate) fn reserve<V: Drop>(map: &mut BTreeMap<u32, Option<V>>, key: u32) -> Result<(), NoMemory>
    ensures same { filled map.new.entries ≡ filled map.old.entries }
    ensures place { OnOk result (has_place key map.new.entries ≡ true) }
    ensures places { (q : ℕ) → has_place q map.old.entries ≡ true → has_place q map.new.entries ≡ true }
    ensures only { (q : ℕ) → has_place q map.new.entries ≡ true → (q ≡ key) ⊎ (has_place q map.old.entries ≡ true) }
{
    let _ = map.len();
    if map.contains_key(&key) {
        return Ok(());
    }
    map.insert(key, None)?;
    Ok(())
}
