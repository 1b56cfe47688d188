// The bounds of every state that a run reaches.
ghost use Rattle.std.specs.Prelude.{◌≡◌, ℕ, List, Some, true, false};
ghost use Rattle.std.specs.List.{AllByRecursion};
ghost use Rattle.ld_table.specs.Named.{find_named};
ghost use Rattle.ld_ids.specs.Id.{IsLog};
ghost use Rattle.ld_config.specs.declared.config.Config.{Config};
ghost use Rattle.ld_config.specs.Bounds.{IsInBounds};
ghost use Rattle.ld_schedule.specs.declared.event.Event.{Event as Happening};
ghost use Rattle.ld_msg.specs.declared.msg.Msg.{Msg};
ghost use Rattle.ld_msg.specs.Bounds.{IsMessage, IsActor, IsNodeHere};
ghost use Rattle.ld_msg.specs.Network.{message};
ghost use Rattle.ld_msg.specs.Register.{epochs_in, is_crowded};
ghost use Rattle.ld_msg.specs.Sequencer.{Sequencer};
ghost use Rattle.ld_msg.specs.Reader.{Reader};
ghost use Rattle.ld_op.specs.Bounds.{AreEpochs};
ghost use Rattle.ld_machine.specs.Config.{has_log, first_spec, looks_at, spec_of};
ghost use Rattle.ld_machine.specs.State.{State, start, finish, node_at, sent_state, sequencer_of, reader_of};
ghost use Rattle.ld_machine.specs.Step.{happens, delivers, marked, spec_set};
ghost use Rattle.ld_machine.specs.Calm.{Move, event_of, moves, moved};
ghost use Rattle.ld_machine.specs.Run.{step, state_after};
ghost use Rattle.ld_bounds.specs.Specs.{IsSpecFor};
ghost use Rattle.ld_bounds.specs.Registers.{IsLook};
ghost use Rattle.ld_bounds.specs.Nodes.{IsNodeState};
ghost use Rattle.ld_bounds.specs.Sequencers.{IsSequencer};
ghost use Rattle.ld_bounds.specs.Readers.{IsReader};
ghost use Rattle.ld_node_bounds.specs.Messages.{AreMessages};
ghost use Rattle.ld_bounds.specs.Sound.{IsEvent, IsSound, IsDoneSoundly, AreFair, is_node};

use ld_schedule::Event;

/// The state with which a run starts is sound.
pub fn start_is_sound()
    ensures { (c : Config) → IsInBounds c → IsSound c (start c) }
{}

/// What an event does to a sound state leaves a sound one, and it sends messages that a frame can carry.
pub fn events_are_sound()
    ensures { (c : Config) (s : State) (e : Happening) → IsInBounds c → IsEvent e → IsSound c s → IsDoneSoundly c (happens c s e) }
{}

/// What a step of a run does to a sound state, of a calm too, leaves a sound one, and it sends messages that a frame can carry.
pub fn moves_are_sound()
    ensures done { (c : Config) (s : State) (m : Move) → IsInBounds c → IsEvent (event_of m) → IsSound c s → IsDoneSoundly c (moves c s m) }
    ensures state { (c : Config) (s : State) (m : Move) → IsInBounds c → IsEvent (event_of m) → IsSound c s → IsSound c (moved c s m).state }
{}

/// What a delivery does to a sound state leaves a sound one, and it sends messages that a frame can carry.
pub fn deliveries_are_sound()
    ensures { (c : Config) (s : State) (i : ℕ) → IsInBounds c → IsSound c s → IsDoneSoundly c (delivers c s i) }
{}

/// A sound state stays sound as such messages are sent, some at a time, and as messages are delivered or lost.
pub fn networks_stay_sound()
    ensures sent { (c : Config) (s : State) (ms : List Msg) → IsSound c s → AreMessages ms → IsSound c (sent_state s ms) }
    ensures marked { (c : Config) (s : State) (i : ℕ) → IsSound c s → IsSound c (marked s i) }
{}

/// A sound state stays sound by each step, and by each delivery of a flow.
pub fn steps_stay_sound()
    ensures step { (c : Config) (s : State) (e : Happening) → IsInBounds c → IsEvent e → IsSound c s → IsSound c (step c s e).state }
    ensures delivery { (c : Config) (s : State) (i : ℕ) → IsInBounds c → IsSound c s → IsSound c (finish (delivers c s i)).state }
{}

/// Each state that a run reaches is sound.
pub fn runs_are_sound()
    ensures { (c : Config) (es : List Happening) → IsInBounds c → AllByRecursion IsEvent es → IsSound c (state_after c (start c) es) }
{}

/// An event is within its bounds by the types of its parts.
pub fn events_are_events(event: &Event)
    ensures { IsEvent event.now }
{
    if let Event::Open { until, .. } = event {
        let _until = until.value();
    }
    if let Event::OpenOne { until, .. } = event {
        let _until = until.value();
    }
    if let Event::OpenMessages { until, .. } = event {
        let _until = until.value();
    }
    if let Event::Set { set, .. } = event {
        let _count = set.len();
    }
}

/// Each message of a run, and of a sound state, is one that a frame can carry, and one of its ends is a node.
pub fn messages_are_messages()
    ensures run { (c : Config) (es : List Happening) (i : ℕ) (m : Msg) → IsInBounds c → AllByRecursion IsEvent es → message (state_after c (start c) es).network i ≡ Some m → IsMessage m }
    ensures message { (c : Config) (s : State) (i : ℕ) (m : Msg) → IsSound c s → message s.network i ≡ Some m → IsMessage m }
    ensures fair { (c : Config) (s : State) → IsSound c s → AreFair s.network.sent }
{}

/// The ends of a message that a frame can carry are actors within their bounds, and only a node sends to one that is none.
pub fn messages_join_actors()
    ensures ends { (m : Msg) → IsMessage m → IsActor m.from × IsActor m.to }
    ensures node { (m : Msg) → IsMessage m → is_node m.to ≡ false → IsNodeHere m.from }
{}

/// The register of a sound state has room for each log of the configuration, and its logs with their epochs rise.
pub fn logs_are_few()
    ensures room { (c : Config) (s : State) (l : ℕ) → IsInBounds c → IsSound c s → has_log c l ≡ true → is_crowded s.register l ≡ false }
    ensures epochs { (c : Config) (s : State) → IsInBounds c → IsSound c s → AreEpochs 1 (epochs_in s.register.logs) }
{}

/// The logs of a configuration in its bounds have numbers of logs.
pub fn logs_are_logs()
    ensures { (c : Config) (l : ℕ) → IsInBounds c → has_log c l ≡ true → IsLog l }
{}

/// What later activations of a log of the configuration use, what counts as long as nothing is set, and what a look at an epoch of it
/// shows in a sound state is that log's and within the configuration's bounds.
pub fn specs_are_specs()
    ensures set { (c : Config) (s : State) (l : ℕ) → IsInBounds c → IsSound c s → has_log c l ≡ true → IsSpecFor c l (spec_set c s l) }
    ensures fixed { (c : Config) (s : State) (l e : ℕ) → IsInBounds c → IsSound c s → has_log c l ≡ true → IsSpecFor c l (spec_of c s.register l e) }
    ensures first { (c : Config) (l : ℕ) → IsInBounds c → has_log c l ≡ true → IsSpecFor c l (first_spec c l) }
    ensures look { (c : Config) (s : State) (l e : ℕ) → IsInBounds c → IsSound c s → has_log c l ≡ true → IsLook c l e (looks_at c s.register l e) }
{}

/// Each node, sequencer and reader of a sound state is in its bounds.
pub fn actors_are_sound()
    ensures node { (c : Config) (s : State) (n : ℕ) → IsSound c s → IsNodeState (node_at s n) }
    ensures sequencer { (c : Config) (s : State) (name : List ℕ) (q : Sequencer) → IsSound c s → find_named name s.sequencers ≡ Some q → IsSequencer c s.register q }
    ensures reader { (c : Config) (s : State) (name : List ℕ) (d : Reader) → IsSound c s → find_named name s.readers ≡ Some d → IsReader c d }
    ensures sequencer_of { (c : Config) (s : State) (l e : ℕ) (q : List ℕ × Sequencer) → IsSound c s → sequencer_of l e s.sequencers ≡ Some q → IsSequencer c s.register q.1 }
    ensures reader_of { (c : Config) (s : State) (r : ℕ) (d : List ℕ × Reader) → IsSound c s → reader_of r s.readers ≡ Some d → IsReader c d.1 × (find_named d.0 s.readers ≡ Some d.1) }
{}
