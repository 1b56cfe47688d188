// Which records in etcd a text names.
ghost use Rattle.std.specs.Prelude.{◌≡◌, true, false};

use std::alloc::{AllocError, AllocFailed, Global};
use thiserror::Error;

/// What a text begins with that names records in etcd.
const SCHEME: &str = "etcd:";

/// The places of members, each HOST:PORT, and the prefix of the records' keys.
#[derive(Drop)]
pub struct Place {
    pub members: Vec<String>,
    pub prefix: String,
}

/// Why a text that begins with `etcd:` names no records.
#[derive(Clone, Copy, Debug, PartialEq, Eq, Error)]
pub enum PlaceFault {
    /// There is no `/` with a prefix behind it.
    #[error("behind the places stands a / and the prefix of the keys")]
    NoPrefix,
    /// What stands before a `,` or the `/` isn't HOST:PORT.
    #[error("a place is HOST:PORT, the port 1 to 65535")]
    BadPlace,
    /// There is no memory left.
    #[error("out of memory")]
    NoMemory,
}

impl From<AllocError> for PlaceFault {
    fn from(_: AllocError) -> PlaceFault {
        PlaceFault::NoMemory
    }
}

impl<T: Drop> From<AllocFailed<T>> for PlaceFault {
    fn from(_: AllocFailed<T>) -> PlaceFault {
        PlaceFault::NoMemory
    }
}

/// The records that a text names, `etcd:PLACE[,PLACE..]/PREFIX`. None where it doesn't begin with `etcd:`: it names a file.
pub fn place_of(alloc: Global, text: &str) -> Result<Option<Place>, PlaceFault> {
    let Some(rest) = text.strip_prefix(SCHEME) else {
        return Ok(None);
    };
    let Some((places, prefix)) = rest.split_once('/') else {
        return Err(PlaceFault::NoPrefix);
    };
    if prefix.is_empty() {
        return Err(PlaceFault::NoPrefix);
    }
    let mut members = Vec::new(alloc);
    for place in places.split(',') {
        if !is_place(place) {
            return Err(PlaceFault::BadPlace);
        }
        members.push(String::from_str(alloc, place)?)?;
    }
    let prefix = String::from_str(alloc, prefix)?;
    Ok(Some(Place { members, prefix }))
}

/// Whether a text is a host, a colon and a port.
fn is_place(place: &str) -> bool {
    match place.rsplit_once(':') {
        Some((host, port)) => !host.is_empty() && port.parse::<u16>().is_ok_and(|port| port > 0),
        None => false,
    }
}
