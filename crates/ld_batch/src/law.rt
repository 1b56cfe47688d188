// The law of batches.
ghost use Rattle.std.specs.Prelude.{◌≡◌, ◌↔◌, List, ℕ};
ghost use Rattle.ld_ids.specs.Bytes.{AreBytes};
ghost use Rattle.ld_batch.specs.Batch.{unpacked, Messages as Unpacks, IsBatchOf};

/// Bytes are unpacked to some messages exactly where they are the batch of these, at least one and at most 1,024, each
/// of at most 65,535 bytes. So each list of messages has one spelling.
pub fn unpacks_what_is_packed()
    ensures { (bytes : List ℕ) (messages : List (List ℕ)) → AreBytes bytes → (unpacked bytes ≡ Unpacks messages) ↔ IsBatchOf bytes messages }
{}
