// A node's plain state stays in its bounds, and what it answers from there is messages.
ghost use Rattle.std.specs.Prelude.{◌≡◌, ◌≤◌, ℕ, List, Option, Some, Bool};
ghost use Rattle.std.specs.List.{AllByRecursion};
ghost use Rattle.ld_table.specs.Table.{find, put};
ghost use Rattle.ld_ids.specs.Id.{IsNode, IsLog};
ghost use Rattle.ld_ids.specs.Set.{IsSet, members};
ghost use Rattle.ld_msg.specs.declared.msg.Who.TheVariants as whos;
ghost use Rattle.ld_msg.specs.declared.msg.Msg.{Msg};
ghost use Rattle.ld_msg.specs.declared.msg.Body.{Body};
ghost use Rattle.ld_msg.specs.declared.msg.Summary.{Summary};
ghost use Rattle.ld_msg.specs.Bounds.{Is64, IsSummary, IsMessage, ballot_of};
ghost use Rattle.ld_msg.specs.Network.{posted};
ghost use Rattle.ld_op.specs.declared.op.Op.{Op};
ghost use Rattle.ld_op.specs.Plain.{Plain, unformatted, log_of, apply};
ghost use Rattle.ld_op.specs.Bounds.{IsOp};
ghost use Rattle.ld_op.specs.Answers.{on_release};
ghost use Rattle.ld_op.specs.Handles.{handled_by, answer_message};
ghost use Rattle.ld_op.specs.Ticks.{on_tick, node_asks, refill_asks};
ghost use Rattle.ld_node_bounds.specs.States.{last_handed_out, last_carried, IsClosed, IsPlain, IsReleased};
ghost use Rattle.ld_node_bounds.specs.Messages.{AreMessages, IsKept, MayAnswer, IsHandled, IsTicked};

/// A plain state is in its bounds before any op, and each op within them leaves it there; so does each that a
/// journal's body can carry. Each summary in it is one of the epoch that it stands under.
pub fn states_stay_plain()
    ensures start { (most : ℕ) → IsPlain most unformatted }
    ensures op { (most : ℕ) (p : Plain) (o : Op) → last_handed_out ≤ most → IsPlain most p → IsKept most o → IsPlain most (apply p o) }
    ensures carried { (p : Plain) (o : Op) → IsPlain last_carried p → IsOp o → IsPlain last_carried (apply p o) }
    ensures summaries { (most : ℕ) (p : Plain) (l e : ℕ) (y : Summary) → IsPlain most p → find e (log_of p l).summaries ≡ Some y → IsSummary e y }
{}

/// What a node in its bounds makes of a message is in its bounds, and what it answers is a message that a frame can
/// carry.
pub fn answers_are_messages()
    ensures handled { (most n released : ℕ) (p : Plain) (m : Msg) → most ≤ last_carried → IsPlain most p → IsNode n → Is64 released → IsMessage m → m.to ≡ whos.Node n
        → IsHandled n m.from (handled_by n p.generation (log_of p m.log) m.log (ballot_of m.from) released m.body) }
    ensures sent { (n : ℕ) (m : Msg) (o : Option Body) → IsMessage m → MayAnswer n m.from o → AreMessages (answer_message n m o) }
{}

/// What a look makes a node in its bounds do is in its bounds, and its asks of other nodes are messages
/// that a frame can carry.
pub fn asks_are_messages()
    ensures ticked { (most l : ℕ) (p : Plain) (closed : List (ℕ × Summary)) → IsPlain most p
        → ((e : ℕ) (y : Summary) → find e closed ≡ Some y → IsClosed (e, y)) → IsTicked (on_tick (log_of p l) closed) }
    ensures sent { (n l from : ℕ) (set : List ℕ) → IsNode n → IsLog l → 1 ≤ from → Is64 from → AllByRecursion IsNode set
        → AreMessages (posted (whos.Node n) l (node_asks n set from)) }
    ensures refill { (most n l : ℕ) (p : Plain) (flags : List Bool) → IsPlain most p → IsNode n → IsLog l → IsSet flags
        → AreMessages (posted (whos.Node n) l (refill_asks n (members flags) (log_of p l))) }
{}

/// Released numbers stay in their bounds as each is raised.
pub fn released_numbers_stay()
    ensures { (rs : List (ℕ × ℕ)) (l r before : ℕ) → AllByRecursion IsReleased rs → IsLog l → Is64 r → Is64 before → AllByRecursion IsReleased (put l (on_release before r) rs) }
{}
