// Why a configuration or the addresses of nodes are refused, for a person.
use ld_config::{ConfigFault, Field};
use ld_ids::NodeId;
use std::alloc::{AllocError, Global};

/// Why the addresses of nodes are refused.
#[derive(Drop)]
pub enum AddressesFault {
    /// They are no JSON text: this is the byte offset of the syntax error.
    NotJson(usize),
    /// They are no JSON object.
    NotObject,
    /// The node of the configuration isn't there.
    Missing(NodeId),
    /// The name of a member, which is the number of no node of the configuration.
    Stranger(String),
    /// The node's address isn't HOST:PORT.
    Form(NodeId),
    /// The node's port is 0.
    PortZero(NodeId),
}

/// What is refused of the addresses, and what it has to be.
pub fn addresses_cause(alloc: Global, fault: &AddressesFault) -> Result<String, AllocError> {
    match fault {
        AddressesFault::NotJson(offset) => {
            format!(in alloc;
                "--at is refused: it isn't JSON: there is a syntax error at byte offset {offset}"
            )
        }
        AddressesFault::NotObject => format!(in alloc;
            "--at is refused: it isn't an object from each node's number to its address"
        ),
        AddressesFault::Missing(node) => format!(in alloc;
            "--at is refused: node {} of the configuration has no address",
            node.number()
        ),
        AddressesFault::Stranger(name) => format!(in alloc;
            "--at is refused: {name:?} is none of the configuration's nodes"
        ),
        AddressesFault::Form(node) => format!(in alloc;
            "--at is refused: the address of node {} isn't HOST:PORT, with an IPv4 address, an IPv6 address in brackets or a name, and a port from 1 to 65535",
            node.number()
        ),
        AddressesFault::PortZero(node) => format!(in alloc;
            "--at is refused: the port of node {} is 0",
            node.number()
        ),
    }
}

/// Which part of the configuration is refused, its value, and what it has to be.
pub fn config_cause(alloc: Global, fault: &ConfigFault) -> Result<String, AllocError> {
    match fault {
        ConfigFault::NotJson => format!(in alloc; "the configuration is refused: it isn't JSON"),
        ConfigFault::Shape(field) => format!(in alloc;
            "the configuration is refused: {} isn't {}",
            part(*field),
            shape(*field)
        ),
        ConfigFault::Range(field, value) => format!(in alloc;
            "the configuration is refused: {} is {value}, which isn't {}",
            quantity(*field),
            range(*field)
        ),
        ConfigFault::Twice(log) => format!(in alloc;
            "the configuration is refused: the log {} is there twice",
            log.number()
        ),
        ConfigFault::NoMemory => format!(in alloc; "out of memory"),
    }
}

/// The name of a part.
fn part(field: Field) -> &'static str {
    match field {
        Field::Top => "the whole",
        Field::Nodes => "nodes",
        Field::Node => "one of nodes",
        Field::Logs => "logs",
        Field::Log => "one of logs",
        Field::Id => "id",
        Field::Set => "set",
        Field::Member => "one of set",
        Field::R => "r",
        Field::Extras => "extras",
    }
}

/// What shape a part has.
fn shape(field: Field) -> &'static str {
    match field {
        Field::Top => "an object of nodes and logs alone",
        Field::Nodes | Field::Logs | Field::Set => "a list",
        Field::Log => "an object of id, set, r and perhaps extras alone",
        _ => "a whole number",
    }
}

/// The name of what has a range in a part: its value, or its length.
fn quantity(field: Field) -> &'static str {
    match field {
        Field::Nodes => "the length of nodes",
        Field::Logs => "the length of logs",
        Field::Set => "the length of set",
        _ => part(field),
    }
}

/// The range of a part.
fn range(field: Field) -> &'static str {
    match field {
        Field::Nodes | Field::Set => "1 or more",
        Field::Node => "1 to 16, each named once",
        Field::Logs => "1 to 64",
        Field::Id => "1 to 65535",
        Field::Member => "one of nodes, each named once",
        Field::R => "1 to the size of the set",
        Field::Extras => "0 to 3",
        _ => "in range",
    }
}
