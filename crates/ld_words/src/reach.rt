// Where a node listens, and where the nodes are.
ghost use Rattle.std.specs.Prelude.{◌≡◌, List, MatchResult, IfOk, is_some, codes, decimal, Some, None};
ghost use Rattle.clap.specs.Walk.{Text};
ghost use Rattle.clap.specs.Words.{rows_of, found_of, first_of};
ghost use Rattle.serde_json.specs.Data.{string};
ghost use Rattle.serde_json.specs.Find.{get};
ghost use Rattle.serde_json.specs.View.{view};
ghost use Rattle.serde_json.specs.Read.{read};
ghost use Rattle.ld_ids.specs.Set.{members};
ghost use Rattle.ld_words.specs.declared.address.Listen.{Listen as Listening};
ghost use Rattle.ld_words.specs.declared.address.NodeAddress.{NodeAddress as OfNode};
ghost use Rattle.ld_words.specs.declared.address.Reach.{Reach as Reaching};
ghost use Rattle.ld_words.specs.Meaning.{IsAddress, IsAddressIn, AreAddressesIn, SaysAddresses, IsAt, IsListen, IsReach};
ghost use Rattle.ld_words.specs.Refuses.{Refuses};
ghost use Rattle.ld_words.specs.Bounds.{HasEach};

use crate::argument::Argument;
use crate::arguments::{number, text, value};
use crate::cause::AddressesFault;
use crate::host::port_of;
use crate::refusal::Refusal;
use crate::{Address, Addresses, Listen, NodeAddress, Reach};
use clap::ArgMatches;
use itoa::Buffer;
use ld_ids::{NodeId, NodeSet};
use serde_json::{Error, Map, Value};
use std::alloc::Global;

/// Whether the argument is given.
pub fn is_given(matches: &ArgMatches<'_>, name: &str) -> bool
    ensures { result ≡ is_some (first_of name.now (rows_of (found_of matches.now))) }
{
    value(matches, name).is_some()
}

/// The address that an argument is. Its port may be 0.
fn listen_address(alloc: Global, matches: &ArgMatches<'_>) -> Result<Address, Refusal>
    ensures { MatchResult result
        (λ address. (first_of (codes "listen") (rows_of (found_of matches.now)) ≡ Some address) × IsAddress 0 address)
        (Refuses ((address : Text) → first_of (codes "listen") (rows_of (found_of matches.now)) ≡ Some address → IsAddress 0 address → ⊥)) }
{
    let text = text(matches, "listen")?;
    match port_of(text) {
        Some(_) => Ok(Address::new(String::from_str(alloc, text)?)),
        None => Err(Refusal::Address {
            name: Argument::of("listen"),
        }),
    }
}

/// Where a node listens.
pub fn listen(alloc: Global, matches: &ArgMatches<'_>) -> Result<Listen, Refusal>
    ensures { MatchResult result
        (IsListen (rows_of (found_of matches.now)))
        (Refuses ((l : Listening) → IsListen (rows_of (found_of matches.now)) l → ⊥)) }
{
    match (is_given(matches, "port"), is_given(matches, "listen")) {
        (true, false) => Ok(Listen::Port(number(matches, "port", 0, 65_535)? as u16)),
        (false, true) => Ok(Listen::At(listen_address(alloc, matches)?)),
        (true, true) => Err(Refusal::Both {
            one: Argument::of("port"),
            other: Argument::of("listen"),
        }),
        (false, false) => Err(Refusal::Neither {
            one: Argument::of("port"),
            other: Argument::of("listen"),
        }),
    }
}

/// The text that an object has for a node.
fn text_of<'v>(object: &'v Value, node: NodeId) -> Result<&'v str, Refusal>
    ensures { MatchResult result
        (λ text. get (decimal node) (view object.now) ≡ Some (string text.now))
        (Refuses ((text : Text) → get (decimal node) (view object.now) ≡ Some (string text) → ⊥)) }
{
    let mut buffer = Buffer::new();
    let Some(value) = object.get(buffer.format(node.number())) else {
        return Err(Refusal::Addresses(AddressesFault::Missing(node)));
    };
    match value.as_str() {
        Some(text) => Ok(text),
        None => Err(Refusal::Addresses(AddressesFault::Form(node))),
    }
}

/// The address that an object has for a node.
fn address_of(alloc: Global, object: &Value, node: NodeId) -> Result<NodeAddress, Refusal>
    ensures { MatchResult result
        (IsAddressIn (view object.now) node)
        (Refuses ((a : OfNode) → IsAddressIn (view object.now) node a → ⊥)) }
{
    let text = text_of(object, node)?;
    let Some(port) = port_of(text) else {
        return Err(Refusal::Addresses(AddressesFault::Form(node)));
    };
    if port == 0 {
        return Err(Refusal::Addresses(AddressesFault::PortZero(node)));
    }
    let address = Address::new(String::from_str(alloc, text)?);
    Ok(NodeAddress { node, address })
}

/// The addresses that an object has for these nodes.
fn addresses_in(alloc: Global, object: &Value, nodes: &NodeSet) -> Result<Addresses, Refusal>
    ensures { MatchResult result
        (AreAddressesIn (view object.now) (members nodes.now))
        (Refuses ((list : List OfNode) → AreAddressesIn (view object.now) (members nodes.now) list → ⊥)) }
{
    let mut addresses = Addresses::new(alloc);
    for place in 0..nodes.len() {
        let Some(node) = nodes.nth(place) else {
            unreachable!();
        };
        addresses.push(address_of(alloc, object, node)?)?;
    }
    Ok(addresses)
}

/// Whether the text is the number of one of these nodes.
fn is_number_of(text: &str, nodes: &NodeSet) -> bool {
    for place in 0..nodes.len() {
        if let Some(node) = nodes.nth(place) {
            let mut buffer = Buffer::new();
            if buffer.format(node.number()) == text {
                return true;
            }
        }
    }
    false
}

/// The first member whose name is the number of none of these nodes, as what is refused.
fn stranger(alloc: Global, object: &Map<String, Value>, nodes: &NodeSet) -> Refusal {
    for name in object.keys() {
        if !is_number_of(name.as_str(), nodes) {
            return match String::from_str(alloc, name.as_str()) {
                Ok(name) => Refusal::Addresses(AddressesFault::Stranger(name)),
                Err(_) => Refusal::NoMemory,
            };
        }
    }
    Refusal::Addresses(AddressesFault::NotObject)
}

/// The byte offset at which a text stops to be JSON; of one that is cut short its length.
fn offset_of(text: &str, error: &Error) -> usize {
    if error.is_eof() {
        return text.len();
    }
    let mut lines_left = error.line().saturating_sub(1);
    let mut offset = error.column().saturating_sub(1);
    for byte in text.as_bytes() {
        if lines_left == 0 {
            break;
        }
        if *byte == b'\n' {
            lines_left -= 1;
        }
        offset = offset.saturating_add(1);
    }
    offset
}

/// The value that a JSON text is.
fn value_of(alloc: Global, text: &str) -> Result<Value, Refusal>
    ensures { MatchResult result (λ v. read text.now ≡ Some (view v)) (Refuses (read text.now ≡ None)) }
{
    match Value::from_str(alloc, text) {
        Ok(value) => Ok(value),
        Err(error) => {
            if error.is_memory() {
                return Err(Refusal::NoMemory);
            }
            let offset = offset_of(text, &error);
            Err(Refusal::Addresses(AddressesFault::NotJson(offset)))
        }
    }
}

/// The addresses that a text says for these nodes.
fn addresses(alloc: Global, text: &str, nodes: &NodeSet) -> Result<Addresses, Refusal>
    ensures { MatchResult result
        (SaysAddresses text.now nodes.now)
        (Refuses ((list : List OfNode) → SaysAddresses text.now nodes.now list → ⊥)) }
{
    let value = value_of(alloc, text)?;
    let Some(object) = value.as_object() else {
        return Err(Refusal::Addresses(AddressesFault::NotObject));
    };
    let addresses = addresses_in(alloc, &value, nodes)?;
    if object.len() == nodes.len() {
        Ok(addresses)
    } else {
        Err(stranger(alloc, object, nodes))
    }
}

/// The addresses that an argument says for these nodes.
fn at(alloc: Global, matches: &ArgMatches<'_>, nodes: &NodeSet) -> Result<Addresses, Refusal>
    ensures { MatchResult result
        (IsAt (rows_of (found_of matches.now)) nodes.now)
        (Refuses ((list : List OfNode) → IsAt (rows_of (found_of matches.now)) nodes.now list → ⊥)) }
{
    addresses(alloc, text(matches, "at")?, nodes)
}

/// Where these nodes are.
pub fn reach(alloc: Global, matches: &ArgMatches<'_>, nodes: &NodeSet) -> Result<Reach, Refusal>
    ensures says { MatchResult result
        (IsReach (rows_of (found_of matches.now)) nodes.now)
        (Refuses ((r : Reaching) → IsReach (rows_of (found_of matches.now)) nodes.now r → ⊥)) }
    ensures bounds { IfOk result (HasEach nodes.now) }
{
    match (is_given(matches, "port"), is_given(matches, "at")) {
        (true, false) => Ok(Reach::Above(number(matches, "port", 1, 65_519)? as u16)),
        (false, true) => Ok(Reach::At(at(alloc, matches, nodes)?)),
        (true, true) => Err(Refusal::Both {
            one: Argument::of("port"),
            other: Argument::of("at"),
        }),
        (false, false) => Err(Refusal::Neither {
            one: Argument::of("port"),
            other: Argument::of("at"),
        }),
    }
}
