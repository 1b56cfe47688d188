// Who may send and who may get the messages of a kind.
ghost use Rattle.std.specs.Prelude.{◌≡◌};
ghost use Rattle.ld_wire.specs.Roles.{may_be, sender, receiver, by_sequencer};

/// Which actors may stand at one end of a message.
#[derive(Clone, Copy)]
pub enum Role {
    /// A node.
    Node,
    /// The log's sequencer.
    Sequencer,
    /// A reader.
    Reader,
    /// A reader, or a node that refills.
    Asker,
    /// Each of them.
    Anyone,
}

impl Role {
    /// Whether an actor of this tag may be it.
    pub fn may_be(&self, tag: u8) -> bool
        ensures { result ≡ may_be self.now tag }
    {
        match self {
            Role::Node => tag == 0,
            Role::Sequencer => tag == 1,
            Role::Reader => tag == 2,
            Role::Asker => tag == 0 || tag == 2,
            Role::Anyone => tag <= 2,
        }
    }
}

fn by_sequencer(kind: u8) -> bool
    ensures { result ≡ by_sequencer kind }
{
    kind == 1 || kind == 7 || kind == 10 || kind == 11 || kind == 18
}

/// Who sends the messages of a kind.
#[tactic(auto, unfolding(crate::specs::Roles::sender))]
pub fn sender(kind: u8) -> Role
    ensures { result ≡ sender kind }
{
    if by_sequencer(kind) {
        return Role::Sequencer;
    }
    if kind == 12 {
        return Role::Asker;
    }
    if kind == 20 {
        return Role::Reader;
    }
    Role::Node
}

/// Who gets the messages of a kind.
#[tactic(auto, unfolding(crate::specs::Roles::receiver))]
pub fn receiver(kind: u8) -> Role
    ensures { result ≡ receiver kind }
{
    if kind == 4 {
        return Role::Anyone;
    }
    if by_sequencer(kind) || kind == 12 || kind == 20 {
        return Role::Node;
    }
    if 13 <= kind && kind != 17 {
        return Role::Asker;
    }
    Role::Sequencer
}
