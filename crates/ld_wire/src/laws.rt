// Laws of frames.
ghost use Rattle.std.specs.Prelude.{◌≡◌, ◌++◌, ◌∷◌, [], ℕ, List, None, Some};
ghost use Rattle.ld_ids.specs.Bytes.{AreBytes};
ghost use Rattle.ld_msg.specs.declared.msg.Msg.{Msg};
ghost use Rattle.ld_msg.specs.Bounds.{IsMessage};
ghost use Rattle.ld_wire.specs.declared.fault.WireFault.{WireFault};
ghost use Rattle.ld_wire.specs.Frames.{frame_of};
ghost use Rattle.ld_wire.specs.Judging.{Complete, Waits, Refused, judge};
ghost use Rattle.ld_wire.specs.Streams.{drained, first, fed, all_fed, joined, untouched, AreMessages, frames_of};

/// A message's frame, with whatever comes behind it, is judged to be that message and what comes behind; and what is
/// judged to be a message begins with its frame.
#[tactic(auto, using(crate::proofs::Judges::judge_frame, crate::proofs::Judges::read_back))]
pub fn frames_are_read_back()
    ensures there { (m : Msg) (rest : List ℕ) → IsMessage m → judge (frame_of m ++ rest) ≡ Complete m rest }
    ensures back { (bytes : List ℕ) (m : Msg) (rest : List ℕ) → AreBytes bytes → judge bytes ≡ Complete m rest → (bytes ≡ frame_of m ++ rest) × IsMessage m }
{}

/// A message has one frame, no two messages have the same, and no frame is a proper prefix of another.
#[tactic(auto, using(crate::proofs::Judges::one_spelling))]
pub fn frames_differ()
    ensures { (m n : Msg) (rest : List ℕ) → IsMessage m → IsMessage n → frame_of m ++ rest ≡ frame_of n → (m ≡ n) × (rest ≡ []) }
{}

/// What is short of a message's frame waits for more.
#[tactic(auto, using(crate::proofs::Judges::prefix_waits))]
pub fn prefixes_wait()
    ensures { (m : Msg) (bytes : List ℕ) (next : ℕ) (rest : List ℕ) → IsMessage m → bytes ++ next ∷ rest ≡ frame_of m → judge bytes ≡ Waits }
{}

/// More bytes change no message and no fault that bytes begin with.
#[tactic(auto, using(crate::proofs::Judges::complete_extends, crate::proofs::Judges::refused_extends))]
pub fn judgments_stay()
    ensures message { (bytes more : List ℕ) (m : Msg) (rest : List ℕ) → judge bytes ≡ Complete m rest → judge (bytes ++ more) ≡ Complete m (rest ++ more) }
    ensures fault { (bytes more : List ℕ) (fault : WireFault) → judge bytes ≡ Refused fault → judge (bytes ++ more) ≡ Refused fault }
{}

/// What a stream gives is what its first frame gives and then what the rest gives, one frame after the other.
#[tactic(auto, using(crate::proofs::Streams::drained_complete, crate::proofs::Streams::drained_waits, crate::proofs::Streams::drained_refused))]
pub fn frames_are_taken_in_order()
    ensures message { (bytes : List ℕ) (m : Msg) (rest : List ℕ) → judge bytes ≡ Complete m rest → drained bytes ≡ first m (drained rest) }
    ensures waits { (bytes : List ℕ) → judge bytes ≡ Waits → drained bytes ≡ record { messages = []; rest = bytes; fault = None } }
    ensures fault { (bytes : List ℕ) (fault : WireFault) → judge bytes ≡ Refused fault → drained bytes ≡ record { messages = []; rest = bytes; fault = Some fault } }
{}

/// A stream gives the same messages, leaves the same bytes and ends with the same fault, in whatever pieces it is fed.
/// Where it is the frames of messages, these messages come, and nothing is left.
#[tactic(auto, using(crate::proofs::Streams::any_cutting, crate::proofs::Streams::all_taken))]
pub fn any_pieces_give_the_same()
    ensures same { (pieces : List (List ℕ)) → all_fed untouched pieces ≡ drained (joined pieces) }
    ensures sent { (messages : List Msg) (pieces : List (List ℕ)) → AreMessages messages → joined pieces ≡ frames_of messages
        → all_fed untouched pieces ≡ record { messages = messages; rest = []; fault = None } }
{}
