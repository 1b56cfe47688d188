// The commands.
use crate::{FileName, Listen, Reach};
use ld_config::Config;
use ld_ids::{LogId, NodeId};
use ld_lsn::Lsn;
use ld_msg::Style;

/// What the arguments ask for.
#[derive(Drop)]
pub enum Command {
    /// A schedule from standard input is run, and its transcript written to standard output.
    Replay,
    /// The schedule that is made from the seed, with this many events (at most 100,000), is run, and a summary of it
    /// written to standard output.
    Exercise { seed: u64, events: u32 },
    /// A node serves its peers, one after the other.
    Node(NodeWords),
    /// A node serves its peers, several at once.
    Crowd(CrowdWords),
    /// Payloads from standard input are appended to a log.
    Append(AppendWords),
    /// Records of a log are read, and written to standard output.
    Tail(TailWords),
    /// What the register says of a log is written to standard output.
    Register(RegisterWords),
    /// What the register and each node say of a log is written to standard output.
    Status(StatusWords),
    /// A stopped node learns what it missed, and fetches what it lost.
    Mend(MendWords),
    /// A stopped node takes the place of one that is gone, in the closed epochs of a log.
    Replace(ReplaceWords),
    /// What the store of a stopped node says is written to standard output.
    Show(ShowWords),
    /// A log is trimmed.
    Trim(TrimWords),
    /// A register is copied to another place.
    Copy(CopyWords),
}

/// What the arguments say of a node that serves.
#[derive(Drop)]
pub struct NodeWords {
    /// The node's number, which is among the configuration's nodes.
    pub id: NodeId,
    /// The configuration.
    pub config: Config,
    /// The file of the node's store.
    pub store: FileName,
    /// The file of the register of epochs, which has another name.
    pub register: FileName,
    /// Where the node listens.
    pub listen: Listen,
    /// After how many turns the node ends: 1 to 1,000,000,000, or 2^64-1 where the arguments don't say it.
    pub turns: u64,
    /// Whether a blank store is formatted first.
    pub format: bool,
    /// Whether nothing but the cause of a failure is told on standard error.
    pub quiet: bool,
}

/// What the arguments say of a node that serves several peers at once.
#[derive(Drop)]
pub struct CrowdWords {
    /// The node.
    pub node: NodeWords,
    /// Its peers.
    pub company: Company,
}

/// How many peers a node has, and how long it waits for them.
#[derive(Clone, Copy)]
pub struct Company {
    /// How many peers are there at once at most, 2 to 1,000. Others wait until one goes.
    pub peers: u32,
    /// After how many seconds without a byte a peer is dismissed, 1 to 86,400.
    pub idle: u32,
}

/// What the arguments say of a log that is appended to or read.
#[derive(Drop)]
pub struct LogWords {
    /// The configuration.
    pub config: Config,
    /// The log's number, which is among the configuration's logs.
    pub log: LogId,
    /// The file of the register of epochs.
    pub register: FileName,
    /// Where the configuration's nodes are.
    pub reach: Reach,
    /// After how many rounds the command gives up: 1 to 1,000,000, or 2^64-1 where a reader follows the log and the arguments
    /// don't say it.
    pub rounds: u64,
    /// How many milliseconds a dial, a read or a write takes at most, 100 to 60,000.
    pub limit: u32,
}

/// What the arguments say of a log that is appended to, and how its lines are read.
#[derive(Drop)]
pub struct AppendWords {
    /// The log, and how it is reached.
    pub of: LogWords,
    /// How many messages a visit of a node writes at most before it reads their answers, 1 to 128.
    pub in_flight: u32,
    /// Whether each line is the messages of a batch, with commas between them.
    pub batches: bool,
    /// Whether the log may move: whether the configuration may name other nodes than the log's greatest epoch has, another
    /// replication factor, or another number of extras.
    pub moves: bool,
    /// Whether each line is the text of a payload, and not its bytes in hexadecimal digits.
    pub text: bool,
}

/// How what a reader gets is written.
#[derive(Clone, Copy)]
pub enum Shown {
    /// As the lines of a transcript.
    Lines,
    /// As the texts of payloads.
    Text,
    /// As an object a line.
    Json,
}

/// What the arguments say of a log that is read, and which records of it.
#[derive(Drop)]
pub struct TailWords {
    /// The log, and how it is reached.
    pub of: LogWords,
    /// The first number that is read, from e0n1 on.
    pub from: Lsn,
    /// The last number that is read, which isn't below the first; the greatest one where the log is followed.
    pub until: Lsn,
    /// How payloads come, and are written.
    pub style: Style,
    /// How many milliseconds pass at most between two rounds of which the first gave nothing: 1 to 60,000 where the log is
    /// followed, otherwise 0.
    pub pause: u32,
    /// How records and gaps are written.
    pub shown: Shown,
}

/// What the arguments say of a log of which the register is asked.
#[derive(Drop)]
pub struct RegisterWords {
    /// The configuration.
    pub config: Config,
    /// The log's number, which is among the configuration's logs.
    pub log: LogId,
    /// The file of the register of epochs.
    pub register: FileName,
    /// The first epoch that is told, 1 to 4,294,967,295.
    pub from: u32,
    /// Whether each line is an object.
    pub json: bool,
}

/// What the arguments say of a log of which the register and the nodes are asked.
#[derive(Drop)]
pub struct StatusWords {
    /// The configuration.
    pub config: Config,
    /// The log's number, which is among the configuration's logs.
    pub log: LogId,
    /// The file of the register of epochs.
    pub register: FileName,
    /// Where the configuration's nodes are.
    pub reach: Reach,
    /// How many milliseconds a dial, a read or a write takes at most, 100 to 60,000.
    pub limit: u32,
    /// How many of the last epochs are told, 1 to 1,000,000.
    pub epochs: u32,
    /// Whether each line is an object.
    pub json: bool,
}

/// What the arguments say of a stopped node that learns what it missed, and fetches what it lost.
#[derive(Drop)]
pub struct MendWords {
    /// The node's number, which is among the configuration's nodes.
    pub id: NodeId,
    /// The configuration.
    pub config: Config,
    /// The file of the node's store.
    pub store: FileName,
    /// The file of the register of epochs, which has another name.
    pub register: FileName,
    /// Where the configuration's nodes are.
    pub reach: Reach,
    /// After how many rounds the command gives up, 1 to 1,000,000.
    pub rounds: u32,
    /// How many milliseconds a dial, a read or a write takes at most, 100 to 60,000.
    pub limit: u32,
}

/// What the arguments say of a stopped node that takes the place of one that is gone.
#[derive(Drop)]
pub struct ReplaceWords {
    /// The number of the node that takes the place, which is among the configuration's nodes.
    pub id: NodeId,
    /// The number of the node that is gone, which is another one of the configuration's nodes.
    pub of: NodeId,
    /// The configuration.
    pub config: Config,
    /// The log's number, which is among the configuration's logs.
    pub log: LogId,
    /// The file of the store of the node that takes the place.
    pub store: FileName,
    /// The file of the register of epochs, which has another name.
    pub register: FileName,
}

/// What the arguments say of a stopped node whose store is shown.
#[derive(Drop)]
pub struct ShowWords {
    /// The node's number, which is among the configuration's nodes.
    pub id: NodeId,
    /// The configuration.
    pub config: Config,
    /// The file of the node's store.
    pub store: FileName,
    /// Whether each line is an object.
    pub json: bool,
}

/// What the arguments say of a log that is trimmed, and up to which number.
#[derive(Drop)]
pub struct TrimWords {
    /// The log, and how it is reached.
    pub of: LogWords,
    /// The last number that is trimmed, from e0n1 on.
    pub upto: Lsn,
}

/// What the arguments say of a register that is copied.
#[derive(Drop)]
pub struct CopyWords {
    /// The file of the register that is copied.
    pub from: FileName,
    /// The place of the register that it is copied to, which has another name.
    pub register: FileName,
}

/// The things of the environment that a command needs.
#[derive(Drop)]
pub struct Places {
    /// The file of the node's store, where the command opens one.
    pub store: Option<FileName>,
    /// The file of the register of epochs. A command that only shows a store has none: the name is empty here.
    pub register: FileName,
    /// The file of the register that is copied to the other one, where the command does so.
    pub copied: Option<FileName>,
    /// Where the node listens. A command that doesn't has the port 0 here.
    pub listen: Listen,
    /// Where the nodes of a log are. A command that dials none has the port 0 here.
    pub reach: Reach,
    /// How many milliseconds a dial, a read or a write takes at most.
    pub limit: u32,
    /// The node's peers, where it serves several at once.
    pub company: Option<Company>,
    /// Whether nothing but the cause of a failure is told on standard error. A command that isn't a node has false here.
    pub quiet: bool,
}
