// What a sequencer holds stays in its bounds, and what it sends from there is messages.
ghost use Rattle.std.specs.Prelude.{◌≡◌, ◌≤◌, ◌<◌, ◌++◌, ℕ, List, Bool};
ghost use Rattle.std.specs.List.{AllByRecursion};
ghost use Rattle.ld_ids.specs.Id.{IsNode, IsLog};
ghost use Rattle.ld_ids.specs.declared.set.Spec.{Spec};
ghost use Rattle.ld_ids.specs.Choice.{nodes_of};
ghost use Rattle.ld_msg.specs.declared.msg.Who.TheVariants as whos;
ghost use Rattle.ld_msg.specs.declared.msg.Msg.{Msg};
ghost use Rattle.ld_msg.specs.declared.msg.Body.{Body};
ghost use Rattle.ld_msg.specs.declared.msg.Entry.{Entry};
ghost use Rattle.ld_msg.specs.Bounds.{IsLng, Is64, IsEpoch, IsPage};
ghost use Rattle.ld_msg.specs.Digest.{Told, no_digest, with_page, with_asks, with_lost, plan};
ghost use Rattle.ld_msg.specs.Network.{posted};
ghost use Rattle.ld_msg.specs.Sequencer.{Append, Planned, Storing, storing_of, settled_by, digest_asks, item_stores, append_stores};
ghost use Rattle.ld_node_bounds.specs.Messages.{AreMessages};
ghost use Rattle.ld_sequencer_bounds.specs.Sequencers.{IsAppend, IsTold, IsPlanned, IsStoring, Posts};

/// A digest of an epoch is in its bounds at first and stays so, and so is the plan that follows from it, whatever of it nodes
/// settle.
pub fn recoveries_stay_in_bounds()
    ensures start { (s : Spec) (e : ℕ) → AllByRecursion IsNode (nodes_of s) → AllByRecursion (IsTold e) (no_digest s e) }
    ensures page { (e y from upto trim lng : ℕ) (es : List Entry) (d : List Told) → IsPage from upto es → Is64 trim → IsLng lng → AllByRecursion (IsTold e) d → AllByRecursion (IsTold e) (with_page e y from upto trim lng es d) }
    ensures anew { (e : ℕ) (d : List Told) → AllByRecursion (IsTold e) d → AllByRecursion (IsTold e) (with_asks e d) }
    ensures lost { (e y : ℕ) (d : List Told) → AllByRecursion (IsTold e) d → AllByRecursion (IsTold e) (with_lost y d) }
    ensures plan { (e : ℕ) (loss : Bool) (d : List Told) → AllByRecursion (IsTold e) d → IsStoring e (storing_of (plan e loss d)) }
    ensures settled { (e y : ℕ) (p : ℕ → Bool) (g : Storing) → IsStoring e g → IsStoring e (settled_by p y g) }
{}

/// What the sequencer of an epoch asks for and stores, for itself or for an epoch before its own, may go to the nodes of its
/// log; and what may go to nodes is sent as messages.
pub fn posts_are_messages()
    ensures asks { (own e : ℕ) (d : List Told) → IsEpoch own → 1 ≤ e → e < own → AllByRecursion (IsTold e) d → Posts own (digest_asks d) }
    ensures items { (own e lng wave : ℕ) (s : Spec) (lost : List ℕ) (loss : Bool) (is : List (ℕ × Planned)) → IsEpoch own → IsLng lng → 1 ≤ e → e < own → AllByRecursion IsNode (nodes_of s) → AllByRecursion (IsPlanned e) is → Posts own (item_stores s lost loss lng wave is) }
    ensures appends { (own lng : ℕ) (s : Spec) (lost : List ℕ) (ps : List (ℕ × Append)) → IsEpoch own → IsLng lng → AllByRecursion IsNode (nodes_of s) → AllByRecursion (IsAppend own) ps → Posts own (append_stores s lost lng ps) }
    ensures sent { (own l : ℕ) (bs : List (ℕ × Body)) (ms : List Msg) → IsLog l → Posts own bs → AreMessages ms → AreMessages (ms ++ posted (whos.Sequencer own) l bs) }
{}
