// What a sequencer that is driven is asked for.
use ld_ids::Payload;
use ld_lsn::Lsn;

/// What a sequencer is asked to do.
#[derive(Drop)]
pub enum Request {
    /// It appends a payload.
    Append(Payload),
    /// It trims the log up to a number.
    Trim(Lsn),
}
