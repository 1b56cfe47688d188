// Where a command listens, and where it dials nodes.
use ld_real::{DialAddress, Dialing, Listening};
use ld_words::{Listen, Reach};
use std::alloc::{AllocError, Global};

/// Where a node listens, for the link.
pub fn listening(listen: &Listen) -> Listening<'_> {
    match listen {
        Listen::Port(port) => Listening::Port(*port),
        Listen::At(address) => Listening::At(address.as_str()),
    }
}

/// What a person is told where a node listens, up to the port or the address.
pub fn listening_text(listen: &Listen) -> &'static str {
    match listen {
        Listen::Port(_) => "ld: listening on port ",
        Listen::At(_) => "ld: listening on ",
    }
}

/// The addresses of nodes, where some are said.
pub fn addresses_of(alloc: Global, reach: &Reach) -> Result<Vec<DialAddress<'_>>, AllocError> {
    let mut addresses = Vec::new(alloc);
    if let Reach::At(of) = reach {
        for of in of.as_slice() {
            addresses.push(DialAddress {
                node: of.node.number(),
                address: of.address.as_str(),
            })?;
        }
    }
    Ok(addresses)
}

/// Where nodes are dialed, for the link.
pub fn dialing<'a>(reach: &Reach, addresses: &'a [DialAddress<'a>]) -> Dialing<'a> {
    match reach {
        Reach::Above(port) => Dialing::Above(*port),
        Reach::At(_) => Dialing::At(addresses),
    }
}
