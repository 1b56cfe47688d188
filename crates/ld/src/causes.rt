// What a person is told of a run that didn't end well.
use crate::etcd_causes::tell_etcd;
use crate::files::store_of;
use crate::reasons::{address_reason, file_reason, port_reason};
use ld_cli::{Status, Which};
use ld_config::{Config, ConfigFault};
use ld_etcd::Cause;
use ld_hints::explain;
use ld_ids::Spec;
use ld_real::Tried;
use ld_text::{TextFault, payload_of};
use ld_wire::WireFault;
use ld_words::{Listen, Places, Reach, config_cause, reason};
use std::io::{ErrorKind, Result};

/// What is known of a run beside its status.
#[derive(Clone, Copy)]
pub struct Found<'a, 'b> {
    /// The command-line arguments.
    pub words: &'a [String],
    /// The files, and where the command listens or dials.
    pub places: &'a Places,
    /// What was read of the line with a syntax error, where that is kept.
    pub line: Option<&'b [u8]>,
    /// Whether that was read with the byte that ends it.
    pub is_ended: bool,
    /// Whether the lines of the input are texts of payloads.
    pub is_text: bool,
    /// The system's reason for the last failed call of the store's file.
    pub disk: Option<ErrorKind>,
    /// The system's reason for the last failed call of the register's file.
    pub register: Option<ErrorKind>,
    /// Whether the register is in etcd.
    pub is_in_etcd: bool,
    /// Why the last call to etcd failed.
    pub etcd: Option<Cause>,
    /// Whether the address was bound.
    pub is_listening: bool,
    /// The system's reason for the last failed call at the address.
    pub port: Option<ErrorKind>,
    /// Which calls to nodes failed.
    pub nodes: Tried,
}

/// Writes a status to standard error that comes before anything is called, and its cause in plain words.
pub fn tell_early(rt: &HostRuntime, words: &[String], status: &Status) -> Result<()> {
    tell_status(rt, status)?;
    match status {
        Status::Usage => tell_usage(rt, words),
        Status::Write => tell_write(rt),
        _ => tell_memory(rt),
    }
}

/// Writes to standard error that the store and the register are one file.
pub fn tell_one_file(rt: &HostRuntime) -> Result<()> {
    tell_status(rt, &Status::Usage)?;
    eprintln!(rt;
        "ld: --store and --register are the same file, or one is a symbolic link to a file that isn't there"
    )
}

/// Writes to standard error that the register's file wasn't there, and was made.
pub fn tell_made(rt: &HostRuntime, path: &str) -> Result<()> {
    eprintln!(rt; "ld: a new register was made: {path}")
}

/// Writes a status to standard error.
pub fn tell_status(rt: &HostRuntime, status: &Status) -> Result<()> {
    eprintln!(rt; "ld: status {}", status.code())
}

fn tell_memory(rt: &HostRuntime) -> Result<()> {
    eprintln!(rt; "ld: out of memory")
}

fn tell_write(rt: &HostRuntime) -> Result<()> {
    eprintln!(rt; "ld: writing standard output failed")
}

/// Writes the status to standard error, and its cause in plain words.
pub fn tell(rt: &HostRuntime, status: &Status, found: &Found<'_, '_>) -> Result<()> {
    tell_status(rt, status)?;
    if found.is_in_etcd && tell_etcd(rt, status, found)? {
        return Ok(());
    }
    match status {
        Status::Ok => Ok(()),
        Status::Usage => tell_usage(rt, found.words),
        Status::BadSchedule { line, place } => tell_line(rt, *line, *place, found),
        Status::NoMemory => tell_memory(rt),
        Status::Read => eprintln!(rt; "ld: reading standard input failed"),
        Status::Write => tell_write(rt),
        Status::Disk => eprintln!(rt;
            "ld: the store's file {} failed: {}",
            store_of(found.places),
            file_reason(found.disk)
        ),
        Status::Register => tell_register(rt, found),
        Status::Link => tell_link(rt, found),
        Status::BadFrame(fault) => tell_frame(rt, *fault),
        Status::Damaged { which, place } => eprintln!(rt;
            "ld: {} place {place}: {} isn't a {} of this program, or is damaged",
            name_of(*which),
            file_of(*which, found.places),
            name_of(*which)
        ),
        Status::Blank => tell_blank(rt, found),
        Status::JournalFull(which) => eprintln!(rt;
            "ld: the {}'s journal is full: it has at most 2^40 bytes",
            name_of(*which)
        ),
        Status::GenLimit => {
            eprintln!(rt; "ld: this node was formatted 2^32-1 times, which is all that there are")
        }
        Status::NotDone => tell_waiting(rt, found.words),
        Status::Preempted(by) => eprintln!(rt;
            "ld: preempted by {by}: another sequencer has taken the log over in that epoch"
        ),
        Status::LogLimit => eprintln!(rt;
            "ld: the register holds 64 other logs, which is all that it can"
        ),
        Status::EpochLimit => eprintln!(rt; "ld: the log's epochs are used up"),
        Status::EpochFull => eprintln!(rt; "ld: the epoch is full: it has 2^32-2 places"),
        Status::SwapLimit => eprintln!(rt;
            "ld: nodes of this log have taken others' places 2^32-1 times, which is all that there are"
        ),
        Status::Moves { from, to } => tell_move(rt, found.words, from, to),
    }
}

/// Tells that a store isn't formatted.
fn tell_blank(rt: &HostRuntime, found: &Found<'_, '_>) -> Result<()> {
    let by = if is_command(found.words, "node") {
        ""
    } else {
        "`ld node` with "
    };
    eprintln!(rt;
        "ld: the store's file {} isn't formatted: is it the right one? {by}--format formats it, for a node that has kept nothing yet",
        store_of(found.places)
    )
}

/// Tells that an `append` or a `trim` would move its log.
fn tell_move(rt: &HostRuntime, words: &[String], from: &Spec, to: &Spec) -> Result<()> {
    eprint!(rt; "ld: the log's greatest epoch has")?;
    tell_spec(rt, from)?;
    eprint!(rt; ", and the configuration says")?;
    tell_spec(rt, to)?;
    if is_command(words, "trim") {
        return eprintln!(rt; ": a trim doesn't move a log; `ld append` with --move does");
    }
    eprintln!(rt; ": with --move the next epoch has what the configuration says")
}

/// Tells the nodes, the replication factor and the extras of a log.
fn tell_spec(rt: &HostRuntime, spec: &Spec) -> Result<()> {
    let mut before = " set ";
    for place in 0..spec.set.len() {
        if let Some(node) = spec.set.nth(place) {
            eprint!(rt; "{before}{}", node.number())?;
            before = ",";
        }
    }
    eprint!(rt; " r {} extras {}", spec.r, spec.extras)
}

/// The journal by its name.
fn name_of(which: Which) -> &'static str {
    match which {
        Which::Store => "store",
        Which::Register => "register",
    }
}

/// The file of a journal.
fn file_of<'a>(which: Which, places: &'a Places) -> &'a str {
    match which {
        Which::Store => store_of(places),
        Which::Register => places.register.as_str(),
    }
}

/// How the commands are spelt.
const USAGE: &str = "ld: usage: ld replay < SCHEDULE
ld:        ld exercise --seed N --events M
ld:        ld node --id N --config TEXT --store FILE --register FILE (--port P | --listen HOST:PORT) (--turns K | --peers N [--idle S] [--turns K]) [--format] [--quiet]
ld:        ld append --config TEXT --log L --register FILE (--port P | --at TEXT) --rounds K [--limit MS] [--in-flight W] [--batches] [--move] [--text] < PAYLOADS
ld:        ld tail --config TEXT --log L --register FILE (--port P | --at TEXT) [--limit MS] --from LSN (--until LSN --rounds K | --follow [--pause MS] [--rounds K]) [--one-copy | --messages] [--text | --json]
ld:        ld trim --config TEXT --log L --register FILE (--port P | --at TEXT) --rounds K [--limit MS] --upto LSN
ld:        ld register --config TEXT --log L --register FILE [--from E] [--json]
ld:        ld register --copy FILE --register etcd:PLACE[,PLACE..]/PREFIX
ld:        ld status --config TEXT --log L --register FILE (--port P | --at TEXT) [--limit MS] [--epochs K] [--json]
ld:        ld show --id N --config TEXT --store FILE [--json]
ld:        ld mend --id N --config TEXT --store FILE --register FILE (--port P | --at TEXT) --rounds K [--limit MS]
ld:        ld replace --id M --of N --config TEXT --log L --store FILE --register FILE";

/// Whether the arguments begin with this command's name.
fn is_command(words: &[String], name: &str) -> bool {
    words.first().is_some_and(|word| word.as_str() == name)
}

/// Tells why the register's file failed, and where it is missing what makes one.
fn tell_register(rt: &HostRuntime, found: &Found<'_, '_>) -> Result<()> {
    eprintln!(rt;
        "ld: the register's file {} failed: {}",
        found.places.register.as_str(),
        file_reason(found.register)
    )?;
    if found.register == Some(ErrorKind::NotFound) && !is_command(found.words, "node") {
        return eprintln!(rt;
            "ld: `ld node` with --format makes the register; is this the file that the nodes were formatted with?"
        );
    }
    Ok(())
}

/// Tells which calls of the link failed.
fn tell_link(rt: &HostRuntime, found: &Found<'_, '_>) -> Result<()> {
    if !is_command(found.words, "node") {
        return tell_nodes(rt, found);
    }
    match &found.places.listen {
        Listen::Port(port) if found.is_listening => {
            eprintln!(rt; "ld: port {port} gives no further connection")
        }
        Listen::At(address) if found.is_listening => {
            eprintln!(rt; "ld: {} gives no further connection", address.as_str())
        }
        listen => tell_not_listening(rt, listen, found.port),
    }
}

/// Tells why a node can't listen there.
pub fn tell_not_listening(
    rt: &HostRuntime,
    listen: &Listen,
    cause: Option<ErrorKind>,
) -> Result<()> {
    match listen {
        Listen::Port(port) => eprintln!(rt;
            "ld: listening on port {port} failed: {}",
            port_reason(cause)
        ),
        Listen::At(address) => eprintln!(rt;
            "ld: listening on {} failed: {}",
            address.as_str(),
            address_reason(cause)
        ),
    }
}

/// Tells where a node is that didn't answer.
fn tell_node(rt: &HostRuntime, before: &str, node: u8, reach: &Reach) -> Result<()> {
    match reach {
        Reach::Above(port) => {
            let port = port.saturating_add(u16::from(node));
            eprint!(rt; "{before} node {node} at port {port}")
        }
        Reach::At(addresses) => {
            for of in addresses.as_slice() {
                if of.node.number() == node {
                    return eprint!(rt; "{before} node {node} at {}", of.address.as_str());
                }
            }
            Ok(())
        }
    }
}

/// What isn't done after all rounds.
fn undone(words: &[String]) -> &'static str {
    if is_command(words, "trim") {
        return "the log isn't trimmed so far at each node";
    }
    if is_command(words, "mend") {
        return "the node still lacks what standard output says";
    }
    "not done in these rounds"
}

/// Tells which nodes didn't answer, and where they are.
fn tell_nodes(rt: &HostRuntime, found: &Found<'_, '_>) -> Result<()> {
    let mut before = if is_command(found.words, "status") {
        "ld: no answer from"
    } else {
        eprint!(rt; "ld: {}: calls to nodes failed", undone(found.words))?;
        ": no answer from"
    };
    for node in 1..17u8 {
        if found.nodes.has_failed(node) {
            tell_node(rt, before, node, &found.places.reach)?;
            before = ",";
        }
    }
    eprintln!(rt;)?;
    eprintln!(rt; "ld: is each of them up, and is it that node that listens there?")
}

/// Tells what a run waits for that reached each node and isn't done.
fn tell_waiting(rt: &HostRuntime, words: &[String]) -> Result<()> {
    eprintln!(rt; "ld: {}, though no call to a node failed", undone(words))?;
    if is_command(words, "trim") {
        return eprintln!(rt; "ld: more --rounds may help");
    }
    if is_command(words, "mend") {
        return eprintln!(rt;
            "ld: more --rounds fetch more; an open epoch can be fetched once an `ld append` has closed it"
        );
    }
    if is_command(words, "tail") {
        let until = word_behind(words, "--until");
        let upto = if until.is_empty() {
            ""
        } else {
            ", up to --until "
        };
        return eprintln!(rt;
            "ld: awaited are the numbers from the last one on standard output, or where there is none from --from{upto}{until}: they aren't released yet, or never were appended. Where all nodes were started again since the last append, nobody tells what was released: an `ld append` without input closes the epoch, and then its records can be read"
        );
    }
    eprintln!(rt; "ld: too few nodes have stored what isn't acknowledged; more --rounds may help")
}

/// Tells why the arguments are invalid.
fn tell_usage(rt: &HostRuntime, words: &[String]) -> Result<()> {
    match reason(rt.alloc(), words) {
        Ok(reason) => eprintln!(rt; "ld: invalid arguments: {}", first_part(reason.as_str()))?,
        Err(_) => eprintln!(rt; "ld: invalid arguments")?,
    }
    eprintln!(rt; "{USAGE}")
}

/// A reason up to its first empty line: behind it stands how the commands are spelt, which is told here in another way.
fn first_part(reason: &str) -> &str {
    let reason = reason.trim();
    let reason = reason.strip_prefix("error: ").unwrap_or(reason);
    match reason.split_once("\n\n") {
        Some((first, _)) => first,
        None => reason,
    }
}

/// The word behind this one, which may also stand in it behind an equals sign.
fn word_behind<'a>(words: &'a [String], name: &str) -> &'a str {
    let mut is_next = false;
    for word in words {
        if is_next {
            return word.as_str();
        }
        is_next = word.as_str() == name;
        if let Some(rest) = word.as_str().strip_prefix(name) {
            if let Some(value) = rest.strip_prefix("=") {
                return value;
            }
        }
    }
    ""
}

/// How a line of payloads is spelt.
fn payload_hint(words: &[String]) -> &'static str {
    if words.iter().any(|word| word.as_str() == "--batches") {
        "a line is 1 to 1,024 messages with commas between them, each an even number of hexadecimal digits 0 to 9 and a to f, or - for none; or trim and a number, as trim e1n5"
    } else {
        "a line is a payload, an even number of hexadecimal digits 0 to 9 and a to f, or - for none; or trim and a number, as trim e1n5"
    }
}

/// Why the end of a line is a syntax error, where the syntax error is there.
fn end_reason(place: u64, found: &Found<'_, '_>) -> Option<&'static str> {
    let line = found.line?;
    let left = line.get(place as usize..)?;
    if left.is_empty() && !found.is_ended {
        return Some("the last line has no newline");
    }
    if left == b"\r".as_slice() && found.is_ended {
        return Some("a carriage return stands before the newline");
    }
    None
}

/// Tells which line is the text of no payload, and where.
fn tell_text(rt: &HostRuntime, line: u64, found: &Found<'_, '_>) -> Result<()> {
    let Some(bytes) = found.line else {
        return eprintln!(rt; "ld: line {line}: this is no payload's text");
    };
    match payload_of(rt.alloc(), bytes) {
        Err(TextFault::Bad(place)) => eprintln!(rt;
            "ld: line {line} place {place}: in a payload's text \\n, \\r and \\\\ are the bytes 10, 13 and 92, and \\x with two digits 0 to 9 and a to f is a byte that is no part of a UTF-8 character"
        ),
        _ if !found.is_ended => eprintln!(rt; "ld: line {line}: the last line has no newline"),
        _ => eprintln!(rt; "ld: line {line}: a payload has at most 65535 bytes"),
    }
}

/// Tells which line has a syntax error, where it is, and how such a line is spelt.
fn tell_line(rt: &HostRuntime, line: u64, place: u64, found: &Found<'_, '_>) -> Result<()> {
    if found.is_text {
        return tell_text(rt, line, found);
    }
    if let Some(reason) = end_reason(place, found) {
        return eprintln!(rt; "ld: line {line} place {place}: {reason}");
    }
    if is_command(found.words, "append") {
        let hint = payload_hint(found.words);
        return eprintln!(rt; "ld: line {line} place {place}: {hint}");
    }
    let reason = if line == 1 {
        "this is no configuration"
    } else {
        "no event is spelt so"
    };
    eprintln!(rt; "ld: line {line} place {place}: {reason}")?;
    let Some(bytes) = found.line else {
        return Ok(());
    };
    if line == 1 {
        return tell_config(rt, bytes);
    }
    match explain(rt.alloc(), bytes, place as usize) {
        Ok(shown) => eprint!(rt; "{shown}"),
        Err(_) => Ok(()),
    }
}

/// Tells which field of a configuration is at fault, and its value.
fn tell_config(rt: &HostRuntime, line: &[u8]) -> Result<()> {
    let alloc = rt.alloc();
    let fault = match Config::read(alloc, line) {
        Ok(_) => return eprintln!(rt; "ld: the line has to end with one byte 10"),
        Err(ConfigFault::NoMemory) => return Ok(()),
        Err(fault) => fault,
    };
    match config_cause(alloc, &fault) {
        Ok(cause) => eprintln!(rt; "ld: {cause}"),
        Err(_) => Ok(()),
    }
}

/// Tells where the bytes of a peer begin no frame.
fn tell_frame(rt: &HostRuntime, fault: WireFault) -> Result<()> {
    match fault {
        WireFault::TooLong(length) => {
            eprintln!(rt;
                "ld: frame length {length}: a frame has at most 8388608 bytes behind its length; is this a peer of ld?"
            )
        }
        WireFault::BadKind(kind) => eprintln!(rt; "ld: frame kind {kind}: there is no such kind"),
        WireFault::BadField(kind, place) => {
            eprintln!(rt;
                "ld: frame kind {kind} place {place}: the field there is cut off or out of its range"
            )
        }
        WireFault::NoMemory => eprintln!(rt; "ld: out of memory"),
    }
}
