// A register's file whose changes are made in etcd.
use crate::causes::{tell_early, tell_status};
use crate::reasons::file_reason;
use ld_cli::{Status, Which};
use ld_etcd::{Cause, Etcd, Place, TcpMembers};
use ld_real::FileDisk;
use ld_shared::{CopyFault, copy};
use std::io::{ErrorKind, Result};

/// The names of both registers, and why their last calls failed.
#[derive(Clone, Copy)]
struct Both<'a> {
    from: &'a str,
    to: &'a str,
    file: Option<ErrorKind>,
    etcd: Option<Cause>,
}

/// Makes the changes of the register's file `from` at this place in etcd, whose name is `to`, and writes how many they are.
/// It tells the status where it isn't Ok. Other processes don't change the file meanwhile.
pub fn make_copy(rt: &HostRuntime, from: &str, to: &str, place: Place) -> Status {
    let mut file = FileDisk::in_turn(rt, from);
    let members = TcpMembers::new(rt, place.members);
    let mut records = Etcd::new(rt.alloc(), members, place.prefix);
    let fault = match copy(rt.alloc(), &mut file, &mut records) {
        Ok(count) => return tell_count(rt, count),
        Err(fault) => fault,
    };
    let both = Both {
        from,
        to,
        file: file.cause(),
        etcd: records.cause(),
    };
    let status = status_of(fault);
    // Where standard error can't be written, there is nobody left to tell.
    let _ = tell_copy(rt, &status, fault, both);
    status
}

/// Writes how many changes a copy has.
fn tell_count(rt: &HostRuntime, count: u64) -> Status {
    if println!(rt; "copied {count}").is_ok() {
        return Status::Ok;
    }
    let _ = tell_early(rt, &[], &Status::Write);
    Status::Write
}

/// The status of a copy that isn't made.
fn status_of(fault: CopyFault) -> Status {
    match fault {
        CopyFault::Disk | CopyFault::Failed => Status::Register,
        CopyFault::Damaged(place) | CopyFault::NoRecord(place) => Status::Damaged {
            which: Which::Register,
            place,
        },
        CopyFault::Taken(_) => Status::Usage,
        CopyFault::NoMemory => Status::NoMemory,
    }
}

/// Tells why a copy isn't made.
fn tell_copy(rt: &HostRuntime, status: &Status, fault: CopyFault, both: Both<'_>) -> Result<()> {
    if fault == CopyFault::NoMemory {
        return tell_early(rt, &[], status);
    }
    tell_status(rt, status)?;
    let (from, to) = (both.from, both.to);
    match fault {
        CopyFault::Disk => {
            eprintln!(rt;
                "ld: the register's file {from} failed: {}",
                file_reason(both.file)
            )
        }
        CopyFault::Damaged(place) => eprintln!(rt;
            "ld: register place {place}: {from} isn't a register of this program, or is damaged"
        ),
        CopyFault::Taken(number) => eprintln!(rt;
            "ld: the register {to} has a record {number:016x} that isn't of this copy: a copy is made only where there is none, or the beginning of the same one"
        ),
        CopyFault::NoRecord(number) => eprintln!(rt;
            "ld: register place {number}: the record {number:016x} of {to} isn't one of a register of this program, or is damaged"
        ),
        CopyFault::Failed => {
            let cause = both.etcd.unwrap_or(Cause::NotEtcd);
            eprintln!(rt; "ld: the register {to} failed: {cause}")?;
            eprintln!(rt; "ld: the copy may be made in part: the same command goes on from there")
        }
        CopyFault::NoMemory => Ok(()),
    }
}
