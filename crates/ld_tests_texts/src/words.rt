// Words and the command that they ask for, one line for each command. Words that ask for none stand in tools/lines.py, for the built program.
use ld_msg::Style;
use ld_words::{
    Command, CrowdWords, Listen, LogWords, NodeWords, Places, Reach, places, read, reason,
};
use std::alloc::Global;
use std::test::Fail;

/// The words of a line, which are parted by one blank.
fn words_of(alloc: Global, line: &str) -> Result<Vec<String>, Fail> {
    let mut words = Vec::new(alloc);
    for word in line.split(' ') {
        words.push(word.to_string(alloc)?)?;
    }
    Ok(words)
}

/// The port of 127.0.0.1 that a node listens at; 100,000 where it listens at an address.
fn of_listen(listen: &Listen) -> u64 {
    match listen {
        Listen::Port(port) => u64::from(*port),
        Listen::At(_) => 100_000,
    }
}

/// The port below those of the nodes; 100,000 where they have addresses.
fn of_reach(reach: &Reach) -> u64 {
    match reach {
        Reach::Above(port) => u64::from(*port),
        Reach::At(_) => 100_000,
    }
}

/// The numbers of a node's words.
fn of_node(node: &NodeWords) -> [u64; 7] {
    [
        3,
        u64::from(node.id.number()),
        of_listen(&node.listen),
        node.turns,
        u64::from(node.format),
        0,
        0,
    ]
}

/// The numbers of the words of a node that serves several peers at once.
fn of_crowd(words: &CrowdWords) -> [u64; 7] {
    let node = of_node(&words.node);
    [
        node[0],
        node[1],
        node[2],
        node[3],
        node[4],
        u64::from(words.company.peers),
        u64::from(words.company.idle),
    ]
}

/// The numbers of a log's words.
fn of_log(kind: u64, words: &LogWords, style: u64, from: u64, until: u64) -> [u64; 7] {
    [
        kind,
        u64::from(words.log.number()),
        of_reach(&words.reach),
        words.rounds,
        style,
        from,
        until,
    ]
}

/// A number for a style.
fn of_style(style: Style) -> u64 {
    match style {
        Style::EachCopy => 0,
        Style::OneCopy => 1,
        Style::OfMessages => 2,
    }
}

/// A number for the command, and its own numbers; 0 for none.
fn of_command(command: &Option<Command>) -> [u64; 7] {
    match command {
        Some(Command::Replay) => [1, 0, 0, 0, 0, 0, 0],
        Some(Command::Exercise { seed, events }) => [2, *seed, u64::from(*events), 0, 0, 0, 0],
        Some(Command::Node(node)) => of_node(node),
        Some(Command::Crowd(words)) => of_crowd(words),
        Some(Command::Append(words)) => of_log(
            4,
            &words.of,
            u64::from(words.batches),
            u64::from(words.moves),
            u64::from(words.in_flight),
        ),
        Some(Command::Tail(words)) => of_log(
            5,
            &words.of,
            of_style(words.style),
            words.from.value(),
            words.until.value(),
        ),
        Some(Command::Register(words)) => [
            6,
            u64::from(words.log.number()),
            u64::from(words.from),
            u64::from(words.json),
            0,
            0,
            0,
        ],
        Some(Command::Status(words)) => [
            7,
            u64::from(words.log.number()),
            of_reach(&words.reach),
            u64::from(words.limit),
            u64::from(words.epochs),
            u64::from(words.json),
            0,
        ],
        Some(Command::Mend(words)) => [
            8,
            u64::from(words.id.number()),
            of_reach(&words.reach),
            u64::from(words.rounds),
            u64::from(words.limit),
            0,
            0,
        ],
        Some(Command::Replace(words)) => [
            9,
            u64::from(words.id.number()),
            u64::from(words.of.number()),
            u64::from(words.log.number()),
            0,
            0,
            0,
        ],
        Some(Command::Show(words)) => [
            10,
            u64::from(words.id.number()),
            u64::from(words.json),
            0,
            0,
            0,
            0,
        ],
        Some(Command::Trim(words)) => of_log(11, &words.of, 0, words.upto.value(), 0),
        Some(Command::Copy(_)) => [12, 0, 0, 0, 0, 0, 0],
        None => [0; 7],
    }
}

/// How long a reader rests at most between two rounds; 0 for another command.
fn pause_of(alloc: Global, line: &str) -> Result<u32, Fail> {
    let words = words_of(alloc, line)?;
    match read(alloc, &words)? {
        Some(Command::Tail(words)) => Ok(words.pause),
        _ => Ok(0),
    }
}

/// The numbers of the command that the line asks for.
fn asked(alloc: Global, line: &str) -> Result<[u64; 7], Fail> {
    let words = words_of(alloc, line)?;
    Ok(of_command(&read(alloc, &words)?))
}

const NODE: &str =
    "node --config {\"nodes\":[1,2,3],\"logs\":[{\"id\":1,\"set\":[1,2,3],\"r\":2}]} --store s --register r --id 3 --turns=1000000000 --format --port=65535";

const APPEND: &str =
    "append --config {\"nodes\":[1],\"logs\":[{\"id\":65535,\"set\":[1],\"r\":1}]} --register r --rounds=1000000 --port=65519 --log=65535 --batches";

const TAIL: &str =
    "tail --config {\"nodes\":[1],\"logs\":[{\"id\":1,\"set\":[1],\"r\":1}]} --register r --log 1 --port 7000 --rounds 9 --from e0n1 --until e1n0 --one-copy";

const CROWD: &str =
    "node --config {\"nodes\":[1],\"logs\":[{\"id\":1,\"set\":[1],\"r\":1}]} --store s --register r --id 1 --port 0 --peers 1000";

const REGISTER: &str =
    "register --config {\"nodes\":[1],\"logs\":[{\"id\":7,\"set\":[1],\"r\":1}]} --register r --log 7";

const STATUS: &str =
    "status --config {\"nodes\":[1],\"logs\":[{\"id\":7,\"set\":[1],\"r\":1}]} --register r --log 7 --port 7000";

const MEND: &str =
    "mend --config {\"nodes\":[1,2],\"logs\":[{\"id\":7,\"set\":[1],\"r\":1}]} --store s --register r --port 7000 --id";

const REPLACE: &str =
    "replace --config {\"nodes\":[1,2,3],\"logs\":[{\"id\":7,\"set\":[1,2],\"r\":2}]} --store s --register r --id 3";

const SHOW: &str =
    "show --config {\"nodes\":[1,16],\"logs\":[{\"id\":7,\"set\":[1],\"r\":1}]} --store s --id 16";

const TRIM: &str =
    "trim --config {\"nodes\":[1],\"logs\":[{\"id\":7,\"set\":[1],\"r\":1}]} --register r --log 7 --port 7000 --rounds 9";

const COPY: &str = "register --register r --copy t";

const FOLLOW: &str =
    "tail --config {\"nodes\":[1],\"logs\":[{\"id\":1,\"set\":[1],\"r\":1}]} --register r --log 1 --port 7000 --from e0n1 --follow";

#[test]
fn words_ask_to_follow(rt: HostRuntime) -> Result<(), Fail> {
    let most = u64::MAX;
    for (more, expected, pause) in [
        ("", [5, 1, 7_000, most, 0, 1, most], 1_000),
        (
            " --rounds 3 --pause 60000",
            [5, 1, 7_000, 3, 0, 1, most],
            60_000,
        ),
        (" --pause 0", [0, 0, 0, 0, 0, 0, 0], 0),
        (" --until e1n1", [0, 0, 0, 0, 0, 0, 0], 0),
    ] {
        let mut words = FOLLOW.to_string(rt.alloc())?;
        words.push_str(more)?;
        assert_eq!(rt; asked(rt.alloc(), words.as_str())?, expected);
        assert_eq!(rt; pause_of(rt.alloc(), words.as_str())?, pause);
    }
    Ok(())
}

#[test]
fn words_may_leave_options_out(rt: HostRuntime) -> Result<(), Fail> {
    let most = u64::MAX;
    for (line, more, expected) in [
        (CROWD, "", [3, 1, 0, most, 0, 1_000, 60]),
        (
            CROWD,
            " --turns 5 --idle 86400",
            [3, 1, 0, 5, 0, 1_000, 86_400],
        ),
        (CROWD, " --idle 86401", [0, 0, 0, 0, 0, 0, 0]),
        (CROWD, " --idle 0", [0, 0, 0, 0, 0, 0, 0]),
        (REGISTER, "", [6, 7, 1, 0, 0, 0, 0]),
        (
            REGISTER,
            " --from 4294967295",
            [6, 7, 4_294_967_295, 0, 0, 0, 0],
        ),
        (REGISTER, " --from 0", [0, 0, 0, 0, 0, 0, 0]),
        (STATUS, "", [7, 7, 7_000, 10_000, 16, 0, 0]),
        (
            STATUS,
            " --epochs 1 --limit 100",
            [7, 7, 7_000, 100, 1, 0, 0],
        ),
        (STATUS, " --epochs 0", [0, 0, 0, 0, 0, 0, 0]),
        (REGISTER, " --json", [6, 7, 1, 1, 0, 0, 0]),
        (STATUS, " --json", [7, 7, 7_000, 10_000, 16, 1, 0]),
        (
            APPEND,
            " --in-flight 128",
            [4, 65_535, 65_519, 1_000_000, 1, 0, 128],
        ),
        (APPEND, " --in-flight 129", [0, 0, 0, 0, 0, 0, 0]),
        (APPEND, " --in-flight 0", [0, 0, 0, 0, 0, 0, 0]),
    ] {
        let mut words = line.to_string(rt.alloc())?;
        words.push_str(more)?;
        assert_eq!(rt; asked(rt.alloc(), words.as_str())?, expected);
    }
    Ok(())
}

#[test]
fn words_ask_for_commands_of_an_operator(rt: HostRuntime) -> Result<(), Fail> {
    for (line, more, expected) in [
        (
            MEND,
            " 2 --rounds 1000000",
            [8, 2, 7_000, 1_000_000, 10_000, 0, 0],
        ),
        (
            MEND,
            " 1 --rounds 1 --limit 100",
            [8, 1, 7_000, 1, 100, 0, 0],
        ),
        (MEND, " 3 --rounds 1", [0, 0, 0, 0, 0, 0, 0]),
        (MEND, " 2 --rounds 1000001", [0, 0, 0, 0, 0, 0, 0]),
        (REPLACE, " --of 1 --log 7", [9, 3, 1, 7, 0, 0, 0]),
        (REPLACE, " --of 3 --log 7", [0, 0, 0, 0, 0, 0, 0]),
        (REPLACE, " --of 4 --log 7", [0, 0, 0, 0, 0, 0, 0]),
        (REPLACE, " --of 1 --log 8", [0, 0, 0, 0, 0, 0, 0]),
        (SHOW, "", [10, 16, 0, 0, 0, 0, 0]),
        (SHOW, " --json", [10, 16, 1, 0, 0, 0, 0]),
        (TRIM, " --upto e1n2", [11, 7, 7_000, 9, 0, 4_294_967_298, 0]),
        (TRIM, " --upto e0n1", [11, 7, 7_000, 9, 0, 1, 0]),
        (TRIM, " --upto e0n0", [0, 0, 0, 0, 0, 0, 0]),
        (COPY, "", [12, 0, 0, 0, 0, 0, 0]),
        (COPY, " --json", [0, 0, 0, 0, 0, 0, 0]),
        (COPY, " --from 1", [0, 0, 0, 0, 0, 0, 0]),
        (REGISTER, " --copy t", [0, 0, 0, 0, 0, 0, 0]),
        ("register --register r --copy r", "", [0, 0, 0, 0, 0, 0, 0]),
    ] {
        let mut words = line.to_string(rt.alloc())?;
        words.push_str(more)?;
        assert_eq!(rt; asked(rt.alloc(), words.as_str())?, expected);
    }
    Ok(())
}

#[test]
fn words_ask_for_commands(rt: HostRuntime) -> Result<(), Fail> {
    let cases = [
        ("replay --", [1, 0, 0, 0, 0, 0, 0]),
        (
            "exercise --events=100000 --seed 18446744073709551615",
            [2, 18_446_744_073_709_551_615, 100_000, 0, 0, 0, 0],
        ),
        (NODE, [3, 3, 65_535, 1_000_000_000, 1, 0, 0]),
        (APPEND, [4, 65_535, 65_519, 1_000_000, 1, 0, 1]),
        (TAIL, [5, 1, 7_000, 9, 1, 1, 4_294_967_296]),
        ("help", [0, 0, 0, 0, 0, 0, 0]),
    ];
    for (line, expected) in cases {
        assert_eq!(rt; asked(rt.alloc(), line)?, expected);
    }
    Ok(())
}

/// The places that the line names: whether the store's file and the register's are those, the port where it listens or
/// the one below those of the nodes, and the limit; 0 where it names none.
fn named(alloc: Global, line: &str) -> Result<(bool, bool, u64, u32), Fail> {
    let words = words_of(alloc, line)?;
    let Some(places) = places(alloc, &words)? else {
        return Ok((false, false, 0, 0));
    };
    let there = places.register.as_str() == "r";
    match &places.store {
        Some(store) => Ok((store.as_str() == "s", there, of_listen(&places.listen), 0)),
        None => Ok((false, there, of_reach(&places.reach), places.limit)),
    }
}

/// The files that the line names: of the store, of the register and of a register that is copied, with blanks between them, and a
/// hyphen for each that there isn't.
fn files_of(alloc: Global, line: &str) -> Result<String, Fail> {
    let words = words_of(alloc, line)?;
    let mut files = String::new(alloc);
    if let Some(places) = places(alloc, &words)? {
        match &places.store {
            Some(store) => files.push_str(store.as_str())?,
            None => files.push_str("-")?,
        }
        files.push_str(" ")?;
        files.push_str(places.register.as_str())?;
        match &places.copied {
            Some(copied) => {
                files.push_str(" ")?;
                files.push_str(copied.as_str())?;
            }
            None => files.push_str(" -")?,
        }
    }
    Ok(files)
}

#[test]
fn commands_name_their_files(rt: HostRuntime) -> Result<(), Fail> {
    for (line, more, expected) in [
        (MEND, " 2 --rounds 1", "s r -"),
        (REPLACE, " --of 1 --log 7", "s r -"),
        (SHOW, "", "s  -"),
        (TRIM, " --upto e0n1", "- r -"),
        (COPY, "", "- r t"),
        (REGISTER, "", "- r -"),
    ] {
        let mut words = line.to_string(rt.alloc())?;
        words.push_str(more)?;
        assert!(rt; files_of(rt.alloc(), words.as_str())?.as_str() == expected);
    }
    Ok(())
}

/// Whether the line asks for a command that tells nothing but the cause of a failure.
fn is_quiet(alloc: Global, line: &str) -> Result<bool, Fail> {
    let words = words_of(alloc, line)?;
    match places(alloc, &words)? {
        Some(places) => Ok(places.quiet),
        None => Ok(false),
    }
}

#[test]
fn a_node_may_be_quiet(rt: HostRuntime) -> Result<(), Fail> {
    for (line, more, expected) in [
        (NODE, "", false),
        (NODE, " --quiet", true),
        (CROWD, "", false),
        (CROWD, " --idle 9 --quiet", true),
        (NODE, " --quiet --quiet", false),
        (APPEND, "", false),
        (APPEND, " --quiet", false),
    ] {
        let mut words = line.to_string(rt.alloc())?;
        words.push_str(more)?;
        assert_eq!(rt; is_quiet(rt.alloc(), words.as_str())?, expected);
    }
    Ok(())
}

const AT: &str =
    "append --config {\"nodes\":[3,1,16],\"logs\":[{\"id\":1,\"set\":[1],\"r\":1}]} --register r --rounds=1 --log=1 --limit 100 --at {\"16\":\"logs-3.example:1\",\"1\":\"10.0.0.1:65535\",\"3\":\"[2001:db8::2]:7401\"}";

#[test]
fn places_of_commands(rt: HostRuntime) -> Result<(), Fail> {
    for (line, expected) in [
        (NODE, (true, true, 65_535, 0)),
        (TAIL, (false, true, 7_000, 10_000)),
        (AT, (false, true, 100_000, 100)),
        ("replay", (false, false, 0, 0)),
    ] {
        assert_eq!(rt; named(rt.alloc(), line)?, expected);
    }
    Ok(())
}

/// Whether the line's address at this place, counted from 0, is this node's, and this text.
fn is_at(alloc: Global, line: &str, place: usize, node: u8, text: &str) -> Result<bool, Fail> {
    let words = words_of(alloc, line)?;
    let Some(places) = places(alloc, &words)? else {
        return Ok(false);
    };
    let Reach::At(addresses) = &places.reach else {
        return Ok(false);
    };
    match addresses.as_slice().get(place) {
        Some(of) => Ok(of.node.number() == node && of.address.as_str() == text),
        None => Ok(false),
    }
}

#[test]
fn nodes_have_their_addresses(rt: HostRuntime) -> Result<(), Fail> {
    for (place, node, text) in [
        (0, 1, "10.0.0.1:65535"),
        (1, 3, "[2001:db8::2]:7401"),
        (2, 16, "logs-3.example:1"),
    ] {
        assert!(rt; is_at(rt.alloc(), AT, place, node, text)?);
    }
    assert!(rt; !is_at(rt.alloc(), AT, 3, 16, "logs-3.example:1")?);
    Ok(())
}

/// Whether the words of a node that listens there ask for a node that listens at just this address.
fn listens(alloc: Global, address: &str) -> Result<bool, Fail> {
    let mut words = words_of(
        alloc,
        "node --config {\"nodes\":[1],\"logs\":[{\"id\":1,\"set\":[1],\"r\":1}]} --store s --register r --id 1 --turns 1 --listen",
    )?;
    words.push(address.to_string(alloc)?)?;
    match places(alloc, &words)? {
        Some(places) => match &places.listen {
            Listen::At(of) => Ok(of.as_str() == address),
            Listen::Port(_) => Ok(false),
        },
        None => Ok(false),
    }
}

#[test]
fn a_node_listens_at_an_address(rt: HostRuntime) -> Result<(), Fail> {
    for (address, expected) in [
        ("0.0.0.0:0", true),
        ("[::]:7401", true),
        ("[fe80::1%2]:65535", true),
        ("a:0", true),
        ("Node_1.logs-3.example:65535", true),
        ("10.0.0.300:7401", false),
        ("::1:7401", false),
        ("a:07401", false),
    ] {
        assert!(rt; listens(rt.alloc(), address)? == expected);
    }
    Ok(())
}

/// Whether the reason against the line has this text in it.
fn reason_has(alloc: Global, line: &str, text: &str) -> Result<bool, Fail> {
    let words = words_of(alloc, line)?;
    Ok(reason(alloc, &words)?.contains(text))
}

#[test]
fn a_reason_names_what_is_refused(rt: HostRuntime) -> Result<(), Fail> {
    assert!(rt; reason_has(rt.alloc(), "replay more", "more")?);
    Ok(())
}
