// What the line of a message says of its body.
ghost use Rattle.std.specs.Prelude.{◌≡◌};
ghost use Rattle.ld_machine.specs.State.{kind_of, shown};

use ld_lsn::Lsn;
use ld_msg::Body;
use ld_transcript::Kind;

/// What kind of message it is.
pub fn kind_of(body: &Body) -> Kind
    ensures { result ≡ kind_of body.now }
{
    match body {
        Body::Store { .. } => Kind::Store,
        Body::Stored { .. } => Kind::Stored,
        Body::SealedHere { .. } => Kind::SealedHere,
        Body::LostHere { .. } => Kind::LostHere,
        Body::CleanHere { .. } => Kind::CleanHere,
        Body::TrimmedHere { .. } => Kind::TrimmedHere,
        Body::DigestAsk { .. } => Kind::DigestAsk,
        Body::DigestPage { .. } => Kind::DigestPage,
        Body::Clean { .. } => Kind::Clean,
        Body::Release { .. } => Kind::Release,
        Body::Trim { .. } => Kind::Trim,
        Body::ReadAsk { .. } => Kind::ReadAsk,
        Body::ReadOne { .. } => Kind::ReadOne,
        Body::ReadPage { .. } => Kind::ReadPage,
        Body::ReadEnded { .. } => Kind::ReadEnded,
        Body::ReadTrim { .. } => Kind::ReadTrim,
        Body::ReadWait { .. } => Kind::ReadWait,
    }
}

/// The number that the line shows.
pub fn shown(body: &Body) -> Lsn
    ensures { result ≡ shown body.now }
{
    match body {
        Body::Store { number, .. } => *number,
        Body::Stored { number } => *number,
        Body::SealedHere { sealed, .. } => Lsn::new(*sealed, 0),
        Body::LostHere { number, .. } => *number,
        Body::CleanHere { number, summary } => Lsn::new(number.home().0, summary.end),
        Body::TrimmedHere { trim, .. } => *trim,
        Body::DigestAsk { from } => *from,
        Body::DigestPage { from, .. } => *from,
        Body::Clean { epoch, summary } => Lsn::new(*epoch, summary.end),
        Body::Release { released } => *released,
        Body::Trim { trim } => *trim,
        Body::ReadAsk { from, .. } => *from,
        Body::ReadOne { from, .. } => *from,
        Body::ReadPage { from, .. } => *from,
        Body::ReadEnded { end, .. } => *end,
        Body::ReadTrim { trim, .. } => *trim,
        Body::ReadWait { released, .. } => *released,
    }
}
