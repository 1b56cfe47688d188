// Why the arguments are no command.
ghost use Rattle.std.specs.Prelude.{◌≡◌, ◌≢◌, MatchBool};
ghost use Rattle.ld_words.specs.declared.refusal.Refusal.TheVariants.{NoMemory as Memory};

use crate::argument::Argument;
use crate::cause::{AddressesFault, addresses_cause, config_cause};
use clap::Error;
use ld_config::ConfigFault;
use ld_ids::{LogId, NoMemory, NodeId};
use std::alloc::{AllocError, Global};

/// What is said of an argument.
fn of_one(alloc: Global, name: Argument, rest: &str) -> Result<String, AllocError> {
    format!(in alloc; "--{} {rest}", name.name())
}

/// What is said of two arguments.
fn of_two(
    alloc: Global,
    before: &str,
    one: Argument,
    between: &str,
    other: Argument,
    after: &str,
) -> Result<String, AllocError> {
    format!(in alloc;
        "{before}--{} {between} --{}{after}",
        one.name(),
        other.name()
    )
}

/// Why the arguments are no command.
#[derive(Drop)]
pub enum Refusal {
    /// They are none by their form: an unknown word, one too many, one that is missing.
    Form(Error),
    /// The argument isn't given.
    Missing {
        name: Argument,
    },
    /// The argument's value isn't a number within these bounds, in digits without a sign or a leading zero.
    Number {
        name: Argument,
        least: u64,
        most: u64,
    },
    /// The argument's value isn't a log sequence number, spelt `eXnY`.
    Lsn {
        name: Argument,
    },
    /// The configuration is refused.
    Config(ConfigFault),
    /// The node that an argument says is none of the configuration's.
    Stranger {
        name: Argument,
        node: NodeId,
    },
    /// The log is none of the configuration's.
    StrangeLog(LogId),
    /// The file that an argument says and the register are the same.
    OneFile {
        name: Argument,
    },
    /// The node that takes a place is the one that has it.
    OneNode,
    /// None of two arguments is given, of which one has to be.
    Neither {
        one: Argument,
        other: Argument,
    },
    /// Two arguments are given, of which one may be.
    Both {
        one: Argument,
        other: Argument,
    },
    /// An argument is given without another one, to which it belongs.
    Without {
        name: Argument,
        other: Argument,
    },
    /// The argument's value is no address.
    Address {
        name: Argument,
    },
    /// The addresses of nodes are refused.
    Addresses(AddressesFault),
    /// The first number that is to be read is 0, or above the last.
    Order,
    /// The number up to which a log is trimmed is 0.
    NoTrim,
    /// One copy of each record is asked for, and messages too.
    Styles,
    /// There is no command of this name.
    Unknown,
    /// There is no memory left to tell.
    NoMemory,
}

impl Refusal {
    /// Whether memory was wanting.
    pub fn is_memory(&self) -> bool
        ensures { MatchBool result (self.now ≡ Memory) (self.now ≢ Memory) }
    {
        matches!(self, Refusal::NoMemory)
    }

    /// A text for a person.
    pub fn text(&self, alloc: Global) -> Result<String, AllocError> {
        match self {
            Refusal::Form(error) => format!(in alloc; "{error}"),
            Refusal::Missing { name } => of_one(alloc, *name, "isn't given"),
            Refusal::Number { name, least, most } => format!(in alloc;
                "--{} isn't a number from {least} to {most}, in digits without a sign or a leading zero",
                name.name()
            ),
            Refusal::Lsn { name } => of_one(
                alloc,
                *name,
                "isn't a number eXnY, X and Y from 0 to 4294967295 in digits without a sign or a leading zero",
            ),
            Refusal::Config(fault) => config_cause(alloc, fault),
            Refusal::Stranger { name, node } => format!(in alloc;
                "--{} is {}, which isn't one of the configuration's nodes",
                name.name(),
                node.number()
            ),
            Refusal::StrangeLog(log) => format!(in alloc;
                "--log is {}, which isn't one of the configuration's logs",
                log.number()
            ),
            Refusal::OneFile { name } => of_one(alloc, *name, "and --register are the same file"),
            Refusal::OneNode => String::from_str(alloc, "--id and --of are the same node"),
            Refusal::Neither { one, other } => {
                of_two(alloc, "one of ", *one, "and", *other, " has to be given")
            }
            Refusal::Both { one, other } => {
                of_two(alloc, "", *one, "and", *other, " can't be given at once")
            }
            Refusal::Without { name, other } => {
                of_two(alloc, "", *name, "can't be given without", *other, "")
            }
            Refusal::Address { name } => of_one(
                alloc,
                *name,
                "isn't HOST:PORT, with an IPv4 address, an IPv6 address in brackets or a name, and a port from 0 to 65535",
            ),
            Refusal::Addresses(fault) => addresses_cause(alloc, fault),
            Refusal::Order => String::from_str(alloc, "--from is e0n0 or above --until"),
            Refusal::NoTrim => String::from_str(alloc, "--upto is e0n0, which trims nothing"),
            Refusal::Styles => String::from_str(
                alloc,
                "--one-copy and --messages can't be asked for at once",
            ),
            Refusal::Unknown => String::from_str(alloc, "there is no such command"),
            Refusal::NoMemory => String::from_str(alloc, "out of memory"),
        }
    }
}

impl From<NoMemory> for Refusal {
    ghost from_gives = { λ _ refusal. refusal ≡ Memory };

    fn from(_: NoMemory) -> Refusal {
        Refusal::NoMemory
    }
}

impl From<AllocError> for Refusal {
    ghost from_gives = { λ _ refusal. refusal ≡ Memory };

    fn from(_: AllocError) -> Refusal {
        Refusal::NoMemory
    }
}
