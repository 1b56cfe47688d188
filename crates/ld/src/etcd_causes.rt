// What a person is told of a register in etcd that failed.
use crate::causes::Found;
use ld_cli::{Status, Which};
use ld_etcd::{Cause, PlaceFault};
use std::io::Result;

/// Tells why the register in etcd failed, or which record is none. False where the status is no fault of it.
pub fn tell_etcd(rt: &HostRuntime, status: &Status, found: &Found<'_, '_>) -> Result<bool> {
    let name = found.places.register.as_str();
    match status {
        Status::Register => {
            let cause = found.etcd.unwrap_or(Cause::NotEtcd);
            eprintln!(rt; "ld: the register {name} failed: {cause}")?;
            Ok(true)
        }
        Status::Damaged {
            which: Which::Register,
            place,
        } => {
            let place = *place;
            eprintln!(rt;
                "ld: register place {place}: the record {place:016x} of {name} isn't one of a register of this program, or is damaged"
            )?;
            Ok(true)
        }
        _ => Ok(false),
    }
}

/// Tells why the register's name is none.
pub fn tell_place(rt: &HostRuntime, fault: PlaceFault) -> Result<()> {
    eprintln!(rt;
        "ld: invalid arguments: --register etcd:PLACE[,PLACE..]/PREFIX names a register in etcd: {fault}"
    )
}

/// Tells that there is no mark for this process's records.
pub fn tell_no_mark(rt: &HostRuntime) -> Result<()> {
    eprintln!(rt; "ld: the register failed: the system gives no random bytes")
}

/// Tells that a register is copied to one in etcd alone.
pub fn tell_no_place(rt: &HostRuntime, name: &str) -> Result<()> {
    eprintln!(rt;
        "ld: invalid arguments: --register is {name}, and a register is copied to one in etcd alone: --register etcd:PLACE[,PLACE..]/PREFIX"
    )
}
