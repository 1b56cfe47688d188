// One request and its response over HTTP/1.1.
ghost use Rattle.std.specs.Prelude.{◌≡◌, ◌≤◌, ◌^◌, ◌++◌, codes, length, IfOk, OnOk};
ghost use Rattle.http1.specs.Client.{new_client};
ghost use Rattle.ld_etcd.specs.Request.{posted, Asks};

use crate::{Cause, Members};
use http1::{BodySize, Client, Event, Header, Limits};
use httparse::spans::EMPTY_HEADER_SPAN;
use std::alloc::Global;
use std::io::ErrorKind;

/// The greatest body of a response that is taken.
const MOST: usize = 1 << 24;

/// A response's status and body.
#[derive(Drop)]
pub(crate) struct Response {
    pub code: u16,
    pub body: Vec<u8>,
}

/// Posts a body to a path of the connected member, and reads the whole response. One whose body has more than 16 MiB is refused
/// with `NoResponse`.
pub(crate) fn post<M: Members>(
    alloc: Global,
    members: &mut M,
    member: usize,
    path: &str,
    body: &[u8],
) -> Result<Response, Cause>
    ensures asks { Asks path.now body.now (M.did members.old) (M.did members.new) }
    ensures short { IfOk result (λ response. length response.body.items ≤ 2 ^ 24) }
{
    let mut client = Client::new(Limits::default());
    let request = write_request(
        alloc,
        &mut client,
        members.host(member),
        path.as_bytes(),
        body,
    )?;
    if let Err(kind) = members.write(&request) {
        return Err(Cause::Unanswered(kind));
    }
    read_response(alloc, members, &mut client)
}

/// The bytes of a request.
#[tactic(auto, unfolding(crate::specs::Request::posted))]
fn write_request(
    alloc: Global,
    client: &mut Client,
    host: &str,
    path: &[u8],
    body: &[u8],
) -> Result<Vec<u8>, Cause>
    ensures { IfOk result (λ bytes. bytes.items ≡ posted client.old host.now path.now body.now) }
{
    let mut out = Vec::new(alloc);
    let headers = [
        Header {
            name: b"host",
            value: host.as_bytes(),
        },
        Header {
            name: b"content-type",
            value: b"application/json",
        },
    ];
    let size = BodySize::Known(body.len() as u64);
    let Ok(()) = client.write_request(&mut out, b"POST", path, &headers, size) else {
        return Err(Cause::Unreachable(ErrorKind::InvalidInput));
    };
    let Ok(()) = client.write_data(&mut out, body) else {
        return Err(Cause::Unreachable(ErrorKind::InvalidInput));
    };
    let Ok(()) = client.write_end(&mut out, &[]) else {
        return Err(Cause::Unreachable(ErrorKind::InvalidInput));
    };
    Ok(out)
}

/// Reads a response to its end, whose body has 16 MiB at most.
fn read_response<M: Members>(
    alloc: Global,
    members: &mut M,
    client: &mut Client,
) -> Result<Response, Cause>
    ensures did { M.did members.new ≡ M.did members.old }
    ensures short { IfOk result (λ response. length response.body.items ≤ 2 ^ 24) }
{
    let mut response = Response {
        code: 0,
        body: Vec::new(alloc),
    };
    let mut input = Vec::new(alloc);
    let mut start = 0usize;
    let mut headers = [EMPTY_HEADER_SPAN; 64];
    'steps: for _ in 0..u64::MAX {
        if start > input.len() {
            return Err(Cause::NoResponse);
        }
        let mut needs_more = false;
        let unread = &input[start..];
        let Ok(step) = client.read(unread, &mut headers) else {
            return Err(Cause::NoResponse);
        };
        match step.event {
            Event::Head(head) => response.code = head.code,
            Event::Data(span) => take_piece(&mut response.body, span.of(unread))?,
            Event::End(_) => return Ok(response),
            Event::Informational(_) => {}
            Event::NeedMore => needs_more = true,
            _ => return Err(Cause::NoResponse),
        }
        start += step.consumed;
        if needs_more {
            take_more(members, &mut input)?;
        }
    }
    Err(Cause::NoResponse)
}

/// Puts a piece of a body behind what came of it. Where both have more than 16 MiB it refuses with `NoResponse`.
fn take_piece(body: &mut Vec<u8>, piece: &[u8]) -> Result<(), Cause>
    ensures taken { OnOk result (body.new.items ≡ body.old.items ++ piece.now) }
    ensures short { OnOk result (length body.new.items ≤ 2 ^ 24) }
{
    if body.len() > MOST || piece.len() > MOST - body.len() {
        return Err(Cause::NoResponse);
    }
    body.extend_from_slice(piece)?;
    Ok(())
}

/// Puts what comes next behind what came.
fn take_more<M: Members>(members: &mut M, input: &mut Vec<u8>) -> Result<(), Cause>
    ensures { M.did members.new ≡ M.did members.old }
{
    if input.len() > 2 * MOST {
        return Err(Cause::NoResponse);
    }
    let mut piece = [0; 4096];
    match members.read(&mut piece) {
        Ok(0) => Err(Cause::Unanswered(ErrorKind::UnexpectedEof)),
        Ok(count) => {
            input.extend_from_slice(&piece[..count])?;
            Ok(())
        }
        Err(kind) => Err(Cause::Unanswered(kind)),
    }
}
