// Addresses: where a node listens, and where the nodes are.
ghost use Rattle.std.specs.Prelude.{◌≡◌, ◌++◌, ◌∷◌, [], OnOk, OnErr, string_bytes};

use ld_ids::{NoMemory, NodeId};
use std::alloc::Global;
use std::marker::Model;

/// An address `HOST:PORT`, as it stands in the arguments: an IPv4 address, an IPv6 address in brackets, or a name. It is
/// seen as its bytes.
#[derive(Drop)]
pub struct Address {
    text: String,
}

impl Model for Address {
    ghost use Rattle.std.specs.Prelude.{List, ℕ, string_bytes};

    ghost Value = { List ℕ };

    ghost view = { λ address. string_bytes address.text };
}

impl Address {
    /// The address of this text, which isn't copied.
    pub(crate) fn new(text: String) -> Address
        ensures { result ≡ string_bytes text }
    {
        Address { text }
    }

    /// The text.
    pub fn as_str(&self) -> &str
        ensures { result.now ≡ self.now }
    {
        self.text.as_str()
    }
}

/// The address of a node.
#[derive(Drop)]
pub struct NodeAddress {
    /// The node.
    pub node: NodeId,
    /// Where it is.
    pub address: Address,
}

/// Addresses of nodes, in an order of the nodes.
#[derive(Drop)]
pub struct Addresses {
    addresses: Vec<NodeAddress>,
}

impl Model for Addresses {
    ghost use Rattle.std.specs.Prelude.{List};
    ghost use Rattle.ld_words.specs.declared.address.NodeAddress.{NodeAddress};

    ghost Value = { List NodeAddress };

    ghost view = { λ a. a.addresses.items };
}

impl Addresses {
    /// No addresses.
    pub(crate) fn new(alloc: Global) -> Addresses
        ensures { result ≡ [] }
    {
        Addresses {
            addresses: Vec::new(alloc),
        }
    }

    /// The addresses.
    pub fn as_slice(&self) -> &[NodeAddress]
        ensures { result.now ≡ self.now }
    {
        &self.addresses
    }

    /// One address more, at the end. Without memory nothing changes.
    pub(crate) fn push(&mut self, address: NodeAddress) -> Result<(), NoMemory>
        ensures ok { OnOk result (self.new ≡ self.old ++ address ∷ []) }
        ensures err { OnErr result (self.new ≡ self.old) }
    {
        match self.addresses.push(address) {
            Ok(()) => Ok(()),
            Err(_) => Err(NoMemory),
        }
    }
}

/// Where a node listens.
#[derive(Drop)]
pub enum Listen {
    /// At this port of 127.0.0.1; 0 is a port that the system chooses.
    Port(u16),
    /// At this address. Its port may be 0 too.
    At(Address),
}

/// Where the nodes are.
#[derive(Drop)]
pub enum Reach {
    /// At ports of 127.0.0.1: node N at the Nth above this one, which is 1 to 65,519.
    Above(u16),
    /// Each node of the configuration at its own address, in rising order of the nodes. No port is 0.
    At(Addresses),
}
