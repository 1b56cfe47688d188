// Records in etcd, whose members are in memory.
use ld_etcd::{Cause, Etcd, MemMembers, Reply};
use ld_records::{Appended, Records, RecordsFault};
use std::alloc::Global;
use std::test::Fail;

/// A response with this status line, and this body.
fn answers(alloc: Global, status: &str, body: &str) -> Option<Reply> {
    let text = format!(in alloc;
        "HTTP/1.1 {status}\r\nContent-Length: {}\r\n\r\n{body}",
        body.len()
    )
    .ok()?;
    let bytes = Vec::from_slice(alloc, text.as_bytes()).ok()?;
    Some(Reply::Answers(bytes))
}

/// Records under the prefix `p` of so many members, which reply so.
fn records(alloc: Global, members: u32, replies: Vec<Reply>) -> Option<Etcd<MemMembers>> {
    let mut hosts = Vec::new(alloc);
    for number in 0..members {
        let host = format!(in alloc; "host{number}:2379").ok()?;
        hosts.push(host).ok()?;
    }
    let prefix = String::from_str(alloc, "p").ok()?;
    Some(Etcd::new(alloc, MemMembers::new(alloc, hosts, replies), prefix))
}

/// What a read of a record answers: 256 for none, 999 where memory ended, else the value's first byte.
fn read<C: Records>(alloc: Global, records: &mut C, number: u64) -> Result<u32, RecordsFault> {
    let mut value = Vec::new(alloc);
    if !records.read(alloc, number, &mut value)? {
        return Ok(256);
    }
    match value.first() {
        Some(byte) => Ok(u32::from(*byte)),
        None => Ok(257),
    }
}

/// What a read of record 0 answers where a member answers so, and why it failed.
fn reads(
    alloc: Global,
    status: &str,
    body: &str,
) -> Option<(Result<u32, RecordsFault>, Option<Cause>)> {
    let mut replies = Vec::new(alloc);
    for _ in 0..3u8 {
        replies.push(answers(alloc, status, body)?).ok()?;
    }
    let mut etcd = records(alloc, 1, replies)?;
    let answer = read(alloc, &mut etcd, 0);
    Some((answer, etcd.cause()))
}

/// What a read of record 0 answers where a member's answer has no record and so many bytes, and why it failed.
fn reads_long(alloc: Global, size: usize) -> Option<(Result<u32, RecordsFault>, Option<Cause>)> {
    let none = r#"{"header":{}}"#;
    let spaces = " ".repeat(alloc, size.saturating_sub(none.len())).ok()?;
    let body = format!(in alloc; "{none}{spaces}").ok()?;
    reads(alloc, "200 OK", body.as_str())
}

/// Whether a read of record 0 sends one request, and this body in it.
fn read_sends(alloc: Global, body: &str) -> Option<bool> {
    let mut replies = Vec::new(alloc);
    replies.push(answers(alloc, "200 OK", PAIR)?).ok()?;
    let mut etcd = records(alloc, 1, replies)?;
    let _ = read(alloc, &mut etcd, 0);
    match etcd.members().sent() {
        [request] => Some(body_of(request) == body.as_bytes()),
        _ => Some(false),
    }
}

/// How an append of the bytes 1 and 2 ends where the members reply so, how many requests were sent, and whether they all were
/// the first one.
fn appends(
    alloc: Global,
    members: u32,
    replies: Vec<Reply>,
) -> Option<(Result<Appended, RecordsFault>, usize, bool)> {
    let mut etcd = records(alloc, members, replies)?;
    let answer = etcd.append(alloc, 0, &[1, 2]);
    let sent = etcd.members().sent();
    let mut is_one = true;
    for request in sent {
        is_one = is_one && sent.first().is_some_and(|first| same_body(first, request));
    }
    Some((answer, sent.len(), is_one))
}

/// Whether two requests have one body.
fn same_body(one: &[u8], other: &[u8]) -> bool {
    body_of(one) == body_of(other)
}

/// What stands behind a request's head.
fn body_of(request: &[u8]) -> &[u8] {
    for at in 4..request.len() {
        if request[at - 4..at] == [13, 10, 13, 10] {
            return &request[at..];
        }
    }
    &[]
}

const PAIR: &str =
    r#"{"header":{"revision":"3"},"kvs":[{"key":"cC8wMDAwMDAwMDAwMDAwMDAw","create_revision":"3","mod_revision":"3","version":"1","value":"AQI="}],"count":"1"}"#;

const MADE: &str =
    r#"{"header":{"revision":"3"},"succeeded":true,"responses":[{"response_put":{"header":{"revision":"3"}}}]}"#;

const OWN: &str =
    r#"{"header":{"revision":"3"},"responses":[{"response_range":{"header":{"revision":"3"},"kvs":[{"key":"cC8wMDAwMDAwMDAwMDAwMDAw","create_revision":"3","mod_revision":"3","version":"1","value":"AQI="}],"count":"1"}}]}"#;

const OTHER: &str =
    r#"{"header":{"revision":"3"},"responses":[{"response_range":{"header":{"revision":"3"},"kvs":[{"key":"cC8wMDAwMDAwMDAwMDAwMDAw","create_revision":"3","mod_revision":"3","version":"1","value":"CQ=="}],"count":"1"}}]}"#;

#[test]
fn a_record_is_read_and_nothing_else(rt: HostRuntime) -> Result<(), Fail> {
    let alloc = rt.alloc();
    assert!(rt; reads(alloc, "200 OK", PAIR) == Some((Ok(1), None)));
    assert!(rt; reads(alloc, "200 OK", r#"{"header":{"revision":"3"}}"#) == Some((Ok(256), None)));
    let gone = Some((Err(RecordsFault::Damaged(0)), Some(Cause::NoRecord(0))));
    let later =
        r#"{"header":{},"kvs":[{"key":"cC8wMDAwMDAwMDAwMDAwMDAx","version":"1","value":"AQI="}]}"#;
    assert!(rt; reads(alloc, "200 OK", later) == gone);
    let changed =
        r#"{"header":{},"kvs":[{"key":"cC8wMDAwMDAwMDAwMDAwMDAw","version":"2","value":"AQI="}]}"#;
    assert!(rt; reads(alloc, "200 OK", changed) == gone);
    let junk =
        r#"{"header":{},"kvs":[{"key":"cC8wMDAwMDAwMDAwMDAwMDAw","version":"1","value":"A!"}]}"#;
    assert!(rt; reads(alloc, "200 OK", junk) == gone);
    Ok(())
}

#[test]
fn a_read_asks_for_2000_keys_in_no_order(rt: HostRuntime) -> Result<(), Fail> {
    let body = r#"{"key":"cC8wMDAwMDAwMDAwMDAwMDAw","range_end":"cDA=","limit":2000}"#;
    assert!(rt; read_sends(rt.alloc(), body) == Some(true));
    Ok(())
}

#[test]
fn an_answer_of_more_than_16_mib_is_refused(rt: HostRuntime) -> Result<(), Fail> {
    let alloc = rt.alloc();
    let most = 1 << 24;
    assert!(rt; reads_long(alloc, most) == Some((Ok(256), None)));
    let refused = Some((Err(RecordsFault::Failed), Some(Cause::NoResponse)));
    assert!(rt; reads_long(alloc, most + 1) == refused);
    Ok(())
}

#[test]
fn what_is_no_answer_of_etcd_is_no_empty_list(rt: HostRuntime) -> Result<(), Fail> {
    let alloc = rt.alloc();
    let not_etcd = Some((Err(RecordsFault::Failed), Some(Cause::NotEtcd)));
    assert!(rt; reads(alloc, "200 OK", "{}") == not_etcd);
    assert!(rt; reads(alloc, "200 OK", "") == not_etcd);
    let leaderless = r#"{"error":"etcdserver: no leader","code":14}"#;
    let refused = Some((Err(RecordsFault::Failed), Some(Cause::Status(503))));
    assert!(rt; reads(alloc, "503 Service Unavailable", leaderless) == refused);
    let full = r#"{"error":"etcdserver: mvcc: database space exceeded","code":8}"#;
    assert!(rt;
        reads(alloc, "429 Too Many Requests", full)
            == Some((Err(RecordsFault::Failed), Some(Cause::Full)))
    );
    Ok(())
}

#[test]
fn a_record_is_made_once(rt: HostRuntime) -> Result<(), Fail> {
    let alloc = rt.alloc();
    assert!(rt; appends_replied(alloc, &[MADE]) == Some((Ok(Appended::Made), 1, true)));
    assert!(rt; appends_replied(alloc, &[OTHER]) == Some((Ok(Appended::Taken), 1, true)));
    assert!(rt; appends_replied(alloc, &["", OWN]) == Some((Ok(Appended::Made), 2, true)));
    assert!(rt; appends_replied(alloc, &["", "", OTHER]) == Some((Ok(Appended::Taken), 3, true)));
    assert!(rt;
        appends_replied(alloc, &["", "", "", OWN]) == Some((Err(RecordsFault::Failed), 3, true))
    );
    Ok(())
}

/// How an append ends where the members answer so: where the text is empty, nothing comes.
fn appends_replied(
    alloc: Global,
    bodies: &[&str],
) -> Option<(Result<Appended, RecordsFault>, usize, bool)> {
    let mut replies = Vec::new(alloc);
    for body in bodies {
        let reply = if body.is_empty() {
            Reply::Silent
        } else {
            answers(alloc, "200 OK", body)?
        };
        replies.push(reply).ok()?;
    }
    appends(alloc, 3, replies)
}
