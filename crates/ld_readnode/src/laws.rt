// What holds of the pages of a node, asked for one after the other.
ghost use Rattle.std.specs.Prelude.{◌≡◌, ◌≤◌, ◌<◌, ◌-◌, ◌^◌, ℕ, None, Some, false};
ghost use Rattle.ld_table.specs.Table.{Ordered};
ghost use Rattle.ld_lsn.specs.Number.{epoch_of, esn_of, numbered, last_esn};
ghost use Rattle.ld_msg.specs.declared.msg.Summary.{Summary};
ghost use Rattle.ld_msg.specs.declared.msg.Body.TheVariants.{DigestAsk};
ghost use Rattle.ld_op.specs.Plain.{Log, summary_at, is_lost};
ghost use Rattle.ld_op.specs.Whole.{AreNumbered};
ghost use Rattle.ld_op.specs.Answers.{entries_within, readable, read_answer};
ghost use Rattle.ld_readnode.specs.Answered.{digest_in};
ghost use Rattle.ld_readnode.specs.Joined.{Cover};

/// The pages of a digest cover the epoch to its end: asked for from one of its numbers on and then from the number
/// behind each page, while the node's state doesn't change, they join, they have each entry from that number on just
/// once, and they end. The entries rise and stand under their numbers.
pub fn digests_join()
    ensures { (g : Log) (epoch from : ℕ) → Ordered g.entries → AreNumbered g → numbered epoch 0 ≤ from → from ≤ numbered epoch last_esn
        → Cover (λ n. digest_in g (DigestAsk n)) (numbered epoch last_esn) from (entries_within g from (numbered epoch last_esn)) }
{}

/// So do the pages that a reader is given: of a clean epoch up to the place before its bridge, and of one that isn't
/// clean up to the released number. They have each entry but bridges.
pub fn read_pages_join()
    ensures clean { (g : Log) (generation released round epoch from : ℕ) (y : Summary) → Ordered g.entries → AreNumbered g
        → summary_at g epoch ≡ Some y → is_lost g epoch ≡ false → y.end < 2 ^ 32 → g.trim < from → numbered epoch 1 ≤ from → from < numbered epoch y.end
        → Cover (λ n. read_answer generation g released round n) (numbered epoch (y.end - 1)) from (readable g from (numbered epoch (y.end - 1))) }
    ensures open { (g : Log) (generation released round epoch from : ℕ) → Ordered g.entries → AreNumbered g
        → summary_at g epoch ≡ None → is_lost g epoch ≡ false → epoch_of released ≡ epoch → 0 < esn_of released → g.trim < from → numbered epoch 1 ≤ from → from ≤ released
        → Cover (λ n. read_answer generation g released round n) released from (readable g from released) }
{}
