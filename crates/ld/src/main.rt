// The program `ld`: the top call over the standard streams, files and sockets.
#![tactic(auto)]

mod causes;
mod copies;
mod crowds;
mod etcd_causes;
mod files;
mod guard;
mod places;
mod reasons;
mod registers;
mod texts;

use causes::{Found, tell, tell_early, tell_not_listening, tell_one_file, tell_status};
use copies::make_copy;
use crowds::{gathering, is_by_port};
use etcd_causes::{tell_no_mark, tell_no_place, tell_place};
use files::{are_one_file, disk_of};
use guard::held_back;
use ld_cli::{Status, run};
use ld_dial::Framed;
use ld_etcd::{Cause, Place, PlaceFault, place_of};
use ld_hints::Recent;
use ld_ready::Ready;
use ld_real::{Announced, AnnouncedCrowd, StdSink, StdSource, TcpCrowd, TcpLink, Tried};
use ld_text::{Form, ShownSink, TextSource};
use ld_words::{FileName, Listen, Places, Reach, places};
use places::{addresses_of, dialing, listening, listening_text};
use registers::NamedRegister;
use std::io::{Error, ErrorKind, IsTerminal, writer};
use std::process::ExitCode;
use std::rt::Stderr;
use std::time::Duration;
use texts::forms_of;

fn main(rt: HostRuntime) -> ExitCode {
    let status = match words_of(&rt) {
        Ok(words) => perform(&rt, &words),
        Err(error) => without_words(&rt, &error),
    };
    ExitCode::from(status.code())
}

/// Tells why there are no words: memory ended, or a word is no text, which is no command.
fn without_words(rt: &HostRuntime, error: &Error) -> Status {
    let status = if error.kind() == ErrorKind::OutOfMemory {
        Status::NoMemory
    } else {
        Status::Usage
    };
    ends_early(rt, &[], status)
}

/// Tells a status that comes before anything is called.
fn ends_early(rt: &HostRuntime, words: &[String], status: Status) -> Status {
    // Where standard error can't be written, there is nobody left to tell.
    let _ = tell_early(rt, words, &status);
    status
}

/// Finds the files that the arguments name, and where they listen or dial. What a command has no use for is never opened.
fn perform(rt: &HostRuntime, words: &[String]) -> Status {
    let alloc = rt.alloc();
    let Ok(places) = places(alloc, words) else {
        return ends_early(rt, words, Status::NoMemory);
    };
    let places = places.unwrap_or(Places {
        store: None,
        register: FileName::new(String::new(alloc)),
        copied: None,
        listen: Listen::Port(0),
        reach: Reach::Above(0),
        limit: 0,
        company: None,
        quiet: false,
    });
    if are_one_file(rt, &places) {
        let _ = tell_one_file(rt);
        return Status::Usage;
    }
    match &places.copied {
        Some(from) => copy_into(rt, from.as_str(), places.register.as_str()),
        None => carry_out(rt, words, &places),
    }
}

/// Makes the changes of a register's file in the register of the other name, which is one in etcd.
fn copy_into(rt: &HostRuntime, from: &str, to: &str) -> Status {
    match place_in_etcd(rt, to) {
        Ok(Some(place)) => make_copy(rt, from, to, place),
        Ok(None) => {
            let _ = tell_status(rt, &Status::Usage);
            let _ = tell_no_place(rt, to);
            Status::Usage
        }
        Err(status) => status,
    }
}

/// What is known of the calls that failed.
#[derive(Clone, Copy)]
struct Failures {
    disk: Option<ErrorKind>,
    register: Option<ErrorKind>,
    is_in_etcd: bool,
    etcd: Option<Cause>,
    is_listening: bool,
    port: Option<ErrorKind>,
    nodes: Tried,
}

/// Carries out what the arguments name, and tells the status where it isn't Ok.
fn carry_out(rt: &HostRuntime, words: &[String], places: &Places) -> Status {
    let Some(forms) = forms_of(rt.alloc(), words) else {
        return ends_early(rt, words, Status::NoMemory);
    };
    let lines = Recent::new(rt.alloc(), StdSource::standard(rt.stdin()));
    let Ok(mut input) = TextSource::new(rt.alloc(), lines, forms.is_text) else {
        return ends_early(rt, words, Status::NoMemory);
    };
    let (status, failures) = match call(rt, words, places, forms.shown, &mut input) {
        Ok(ended) => ended,
        Err(status) => return status,
    };
    if status != Status::Ok {
        let (line, is_ended) = match &status {
            Status::BadSchedule { line, .. } => {
                let lines = input.inner();
                (lines.line(*line), lines.is_ended(*line))
            }
            _ => (None, false),
        };
        let found = Found {
            words,
            places,
            line,
            is_ended,
            is_text: forms.is_text,
            disk: failures.disk,
            register: failures.register,
            is_in_etcd: failures.is_in_etcd,
            etcd: failures.etcd,
            is_listening: failures.is_listening,
            port: failures.port,
            nodes: failures.nodes,
        };
        let _ = tell(rt, &status, &found);
    }
    status
}

/// Makes what the arguments name, and calls the top call. An error is a status that came before the call, and was told.
fn call<I: Ready>(
    rt: &HostRuntime,
    words: &[String],
    places: &Places,
    shown: Form,
    input: &mut I,
) -> Result<(Status, Failures), Status> {
    let alloc = rt.alloc();
    let Ok(mut disk) = disk_of(rt, words, places) else {
        return Err(ends_early(rt, words, Status::NoMemory));
    };
    let Ok(text) = String::from_str(alloc, listening_text(&places.listen)) else {
        return Err(ends_early(rt, words, Status::NoMemory));
    };
    let Ok(addresses) = addresses_of(alloc, &places.reach) else {
        return Err(ends_early(rt, words, Status::NoMemory));
    };
    let mut link = Announced::new(rt, listening(&places.listen), person(rt, places), text);
    let Ok(text) = String::from_str(alloc, listening_text(&places.listen)) else {
        return Err(ends_early(rt, words, Status::NoMemory));
    };
    let (address, company) = match gathering(rt, places) {
        Ok(found) => found,
        Err(error) => {
            let _ = tell_status(rt, &Status::Link);
            let _ = tell_not_listening(rt, &places.listen, Some(error.kind()));
            return Err(Status::Link);
        }
    };
    let idle = Duration::from_secs(u64::from(company.idle));
    let sockets = TcpCrowd::new(rt, alloc, address, company.peers as usize, idle);
    let mut crowd = AnnouncedCrowd::new(
        sockets,
        is_by_port(&places.listen),
        watcher(rt, places),
        text,
    );
    let mut register = register_of(rt, places)?;
    let dialing = dialing(&places.reach, &addresses);
    let mut nodes = Framed::new(alloc, TcpLink::dialing(rt, dialing, places.limit));
    let mut out = ShownSink::new(alloc, StdSink::new(writer(rt)), shown);
    let status = match held_back(alloc, words, &mut register) {
        Some(status) => status,
        None => run(
            alloc,
            words,
            input,
            &mut out,
            &mut disk,
            &mut register,
            &mut link,
            &mut nodes,
            &mut crowd,
        ),
    };
    let failures = Failures {
        disk: disk.cause(),
        register: register.file_cause(),
        is_in_etcd: register.is_in_etcd(),
        etcd: register.etcd_cause(),
        is_listening: link.is_listening() || crowd.is_listening(),
        port: match crowd.cause() {
            Some(cause) => Some(cause),
            None => link.tried().cause(),
        },
        nodes: nodes.into_link().tried(),
    };
    Ok((status, failures))
}

/// Where a person is told that a node of one peer after the other listens, unless it is to be quiet; what reads standard
/// error otherwise finds the status first.
fn person(rt: &HostRuntime, places: &Places) -> Option<Stderr> {
    if rt.stderr().is_terminal() {
        watcher(rt, places)
    } else {
        None
    }
}

/// Where it is told what a node of several peers does, a terminal or not, unless it is to be quiet.
fn watcher(rt: &HostRuntime, places: &Places) -> Option<Stderr> {
    if places.quiet {
        None
    } else {
        Some(rt.stderr())
    }
}

/// Where the register of a name is in etcd; none where it is a file. A status where the name is none, which was told.
fn place_in_etcd(rt: &HostRuntime, name: &str) -> Result<Option<Place>, Status> {
    match place_of(rt.alloc(), name) {
        Ok(place) => Ok(place),
        Err(PlaceFault::NoMemory) => Err(ends_early(rt, &[], Status::NoMemory)),
        Err(fault) => {
            let _ = tell_status(rt, &Status::Usage);
            let _ = tell_place(rt, fault);
            Err(Status::Usage)
        }
    }
}

/// The register that the arguments name: records in etcd, or a file. A status where there is none, which was told.
fn register_of<'a>(rt: &'a HostRuntime, places: &'a Places) -> Result<NamedRegister<'a>, Status> {
    let name = places.register.as_str();
    let Some(place) = place_in_etcd(rt, name)? else {
        return Ok(NamedRegister::file(rt, name, places.quiet));
    };
    match NamedRegister::etcd(rt, place) {
        Ok(register) => Ok(register),
        Err(_) => {
            let _ = tell_status(rt, &Status::Register);
            let _ = tell_no_mark(rt);
            Err(Status::Register)
        }
    }
}

/// The command-line arguments after the program's name.
fn words_of(rt: &HostRuntime) -> std::io::Result<Vec<String>> {
    let mut words = Vec::new(rt.alloc());
    for word in std::env::args(rt)?.skip(1) {
        words.push(word)?;
    }
    Ok(words)
}
