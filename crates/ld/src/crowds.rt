// Where the peers of a node come that are there at once, and how many.
use crate::places::listening;
use ld_real::resolved;
use ld_words::{Company, Listen, Places};
use std::io::Result;
use std::net::{Ipv4Addr, SocketAddr};

/// The peers of a command that has none at once: it never listens for them.
const NOBODY: Company = Company { peers: 0, idle: 1 };

/// The socket address where the peers of a command come that are there at once, and how many. It fails where the resolver
/// doesn't know the address.
pub fn gathering(rt: &HostRuntime, places: &Places) -> Result<(SocketAddr, Company)> {
    match &places.company {
        Some(company) => Ok((resolved(rt, listening(&places.listen))?, *company)),
        None => Ok((SocketAddr::from((Ipv4Addr::LOCALHOST, 0)), NOBODY)),
    }
}

/// Whether a node listens at a port of 127.0.0.1, which is told then without its address.
pub fn is_by_port(listen: &Listen) -> bool {
    matches!(listen, Listen::Port(_))
}
