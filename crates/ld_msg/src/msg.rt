// Messages.
ghost use Rattle.std.specs.Prelude.{◌≡◌, IfOk};
ghost use Rattle.ld_msg.specs.Bounds.{ballot_of};
ghost use Rattle.ld_msg.specs.Digest.{is_bridge};

use crate::Entries;
use ld_ids::{LogId, NoMemory, NodeId, NodeSet, Payload};
use ld_lsn::Lsn;
use std::alloc::Global;

/// Who sends or gets a message of a log.
#[derive(Clone, Copy)]
pub enum Who {
    /// A node.
    Node(NodeId),
    /// The log's sequencer of this epoch.
    Sequencer(u32),
    /// The reader of this place in the order of opening.
    Reader(u32),
}

impl Who {
    /// The ballot of a message that this one sends: the epoch of a sequencer, and else 0.
    pub fn ballot(&self) -> u32
        ensures { result ≡ ballot_of self.now }
    {
        match self {
            Who::Node(_) => 0,
            Who::Sequencer(epoch) => *epoch,
            Who::Reader(_) => 0,
        }
    }
}

/// What stands under a number.
#[derive(Drop)]
pub enum What {
    /// A record.
    Rec(Payload),
    /// No record.
    Hole,
    /// No record from here to the end of the epoch.
    Bridge,
    /// Its record is lost, if it had one.
    Plug,
    /// A record that another node sends.
    Withheld,
}

impl What {
    /// The same once more.
    pub fn copy(&self, alloc: Global) -> Result<What, NoMemory>
        ensures { IfOk result (λ copy. copy ≡ self.now) }
    {
        match self {
            What::Rec(payload) => Ok(What::Rec(payload.copy(alloc)?)),
            What::Hole => Ok(What::Hole),
            What::Bridge => Ok(What::Bridge),
            What::Plug => Ok(What::Plug),
            What::Withheld => Ok(What::Withheld),
        }
    }

    /// Whether it is a bridge.
    pub fn is_bridge(&self) -> bool
        ensures { result ≡ is_bridge self.now }
    {
        match self {
            What::Rec(_) => false,
            What::Hole => false,
            What::Bridge => true,
            What::Plug => false,
            What::Withheld => false,
        }
    }
}

/// What a node holds under a number, and the epoch of the sequencer that sent it.
#[derive(Drop)]
pub struct Entry {
    pub number: Lsn,
    pub ballot: u32,
    pub what: What,
}

impl Entry {
    /// The same entry once more.
    pub fn copy(&self, alloc: Global) -> Result<Entry, NoMemory>
        ensures { IfOk result (λ copy. copy ≡ self.now) }
    {
        Ok(Entry {
            number: self.number,
            ballot: self.ballot,
            what: self.what.copy(alloc)?,
        })
    }
}

/// How an epoch was closed: by which sequencer, its trim point then, where its bridge stands, and whether the plan said what
/// is lost.
#[derive(Clone, Copy)]
pub struct Summary {
    pub ballot: u32,
    pub lng: u32,
    pub trim: Lsn,
    pub end: u32,
    pub loss: bool,
}

/// What a message says. The ballot of a message between a sequencer and a node is the sequencer's epoch.
#[derive(Drop)]
pub enum Body {
    /// Store this under the number.
    Store {
        number: Lsn,
        lng: u32,
        what: What,
    },
    /// It is stored, durably.
    Stored {
        number: Lsn,
    },
    /// The node is sealed by a greater epoch.
    SealedHere {
        number: Lsn,
        sealed: u32,
    },
    /// The node is lost for the number's epoch, under a generation.
    LostHere {
        number: Lsn,
        round: u32,
        generation: u32,
        end: Lsn,
    },
    /// The number's epoch is closed and clean here.
    CleanHere {
        number: Lsn,
        summary: Summary,
    },
    /// The number is trimmed here.
    TrimmedHere {
        number: Lsn,
        trim: Lsn,
    },
    /// Which entries of the epoch are there, from the number on?
    DigestAsk {
        from: Lsn,
    },
    /// These, and no others up to a number.
    DigestPage {
        from: Lsn,
        upto: Lsn,
        trim: Lsn,
        lng: u32,
        entries: Entries,
    },
    /// The epoch is closed so.
    Clean {
        epoch: u32,
        summary: Summary,
    },
    /// Readers may have all up to the number.
    Release {
        released: Lsn,
    },
    /// All up to the number may go.
    Trim {
        trim: Lsn,
    },
    /// What stands at the number?
    ReadAsk {
        round: u32,
        from: Lsn,
    },
    /// Which records, holes and plugs stand from the number up to another, and whether the epoch is clean here.
    ReadPage {
        round: u32,
        from: Lsn,
        upto: Lsn,
        clean: bool,
        entries: Entries,
    },
    /// The epoch ends at or before the number, and whether what stood from its end on may be lost.
    ReadEnded {
        round: u32,
        from: Lsn,
        end: Lsn,
        loss: bool,
    },
    /// The number is trimmed.
    ReadTrim {
        round: u32,
        from: Lsn,
        trim: Lsn,
    },
    /// The number isn't released.
    ReadWait {
        round: u32,
        from: Lsn,
        released: Lsn,
    },
    /// What stands from this number on? Of each record one node of the set alone sends the payload: the first one of its
    /// ring that isn't excluded.
    ReadOne {
        round: u32,
        from: Lsn,
        set: NodeSet,
        excluded: NodeSet,
    },
}

impl Body {
    /// The same once more.
    pub fn copy(&self, alloc: Global) -> Result<Body, NoMemory>
        ensures { IfOk result (λ copy. copy ≡ self.now) }
    {
        match self {
            Body::Store { number, lng, what } => Ok(Body::Store {
                number: *number,
                lng: *lng,
                what: what.copy(alloc)?,
            }),
            Body::Stored { number } => Ok(Body::Stored { number: *number }),
            Body::SealedHere { number, sealed } => Ok(Body::SealedHere {
                number: *number,
                sealed: *sealed,
            }),
            Body::LostHere {
                number,
                round,
                generation,
                end,
            } => Ok(Body::LostHere {
                number: *number,
                round: *round,
                generation: *generation,
                end: *end,
            }),
            Body::CleanHere { number, summary } => Ok(Body::CleanHere {
                number: *number,
                summary: *summary,
            }),
            Body::TrimmedHere { number, trim } => Ok(Body::TrimmedHere {
                number: *number,
                trim: *trim,
            }),
            Body::DigestAsk { from } => Ok(Body::DigestAsk { from: *from }),
            Body::DigestPage {
                from,
                upto,
                trim,
                lng,
                entries,
            } => Ok(Body::DigestPage {
                from: *from,
                upto: *upto,
                trim: *trim,
                lng: *lng,
                entries: entries.copy(alloc)?,
            }),
            Body::Clean { epoch, summary } => Ok(Body::Clean {
                epoch: *epoch,
                summary: *summary,
            }),
            Body::Release { released } => Ok(Body::Release {
                released: *released,
            }),
            Body::Trim { trim } => Ok(Body::Trim { trim: *trim }),
            Body::ReadAsk { round, from } => Ok(Body::ReadAsk {
                round: *round,
                from: *from,
            }),
            Body::ReadPage {
                round,
                from,
                upto,
                clean,
                entries,
            } => Ok(Body::ReadPage {
                round: *round,
                from: *from,
                upto: *upto,
                clean: *clean,
                entries: entries.copy(alloc)?,
            }),
            Body::ReadEnded {
                round,
                from,
                end,
                loss,
            } => Ok(Body::ReadEnded {
                round: *round,
                from: *from,
                end: *end,
                loss: *loss,
            }),
            Body::ReadTrim { round, from, trim } => Ok(Body::ReadTrim {
                round: *round,
                from: *from,
                trim: *trim,
            }),
            Body::ReadWait {
                round,
                from,
                released,
            } => Ok(Body::ReadWait {
                round: *round,
                from: *from,
                released: *released,
            }),
            Body::ReadOne {
                round,
                from,
                set,
                excluded,
            } => Ok(Body::ReadOne {
                round: *round,
                from: *from,
                set: *set,
                excluded: *excluded,
            }),
        }
    }
}

/// A message of a log.
#[derive(Drop)]
pub struct Msg {
    pub from: Who,
    pub to: Who,
    pub log: LogId,
    pub body: Body,
}

impl Msg {
    /// The same message once more.
    pub fn copy(&self, alloc: Global) -> Result<Msg, NoMemory>
        ensures { IfOk result (λ copy. copy ≡ self.now) }
    {
        Ok(Msg {
            from: self.from,
            to: self.to,
            log: self.log,
            body: self.body.copy(alloc)?,
        })
    }
}
