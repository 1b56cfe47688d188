// Decisions.
ghost use Rattle.std.specs.Prelude.{◌≡◌, ℕ, length, map, true, false, option_copied, option_map, if◌then◌else◌};
ghost use Rattle.ld_table.specs.Named.{same};
ghost use Rattle.ld_table.specs.Words.{numbers_from};
ghost use Rattle.ld_op.specs.Plain.{log_of};
ghost use Rattle.ld_op.specs.Answers.{is_same, same_what, store_decision, digest_decision};
ghost use Rattle.ld_msg.specs.declared.msg.What.TheVariants.{Rec};
ghost use Rattle.ld_op.specs.Cells.{each_what, each_entry, each_log, each_plain, is_rec};
ghost use Rattle.ld_op.specs.declared.pointed.Place.{Place as Spot};
ghost use Rattle.ld_seal.specs.Decided.{IsStore, IsDigestAsk, told, store_decided, digest_decided, is_compare, payload_in, payload_of, found_same, compared};

use ld_ids::{LogId, Payload};
use ld_lsn::Lsn;
use ld_msg::{Body, Msg, Summary, What};
use ld_op::{Place, Plain, Pointed};

/// What a node makes of a sequencer's message, the first of these that holds.
#[derive(Clone, Copy)]
pub enum Decision {
    /// The epoch is lost here: under this generation, with this end where the epoch is clean here, else 0.
    Lost(u32, Lsn),
    /// The epoch is clean here.
    Clean(Summary),
    /// The number is trimmed here, with all up to this one.
    Trimmed(Lsn),
    /// The node is sealed by a greater ballot.
    Sealed(u32),
    /// What is sent is there already, or the node is sealed by this very ballot.
    Same,
    /// The node takes it.
    Take,
    /// A record of this number, ballot and length is there: what is sent is the same, or is taken, by its payload, which
    /// stands there.
    Compare(Place),
}

/// Whether what is sent is there already.
#[derive(Clone, Copy)]
enum Sameness {
    Same,
    Other,
    /// By its payload, which stands there.
    Compare(Place),
}

/// What the node makes of a store. The message is a Store.
pub fn on_store(plain: &Plain, msg: &Msg) -> Decision
    requires { IsStore msg.now.body }
    ensures other { (f : ℕ → ℕ) → is_compare result ≡ false → result ≡ store_decided (each_plain f plain.now.state) msg.now }
    ensures compare { (place : Spot) → result ≡ Decision.Compare place → (f : ℕ → ℕ)
        → store_decided (each_plain f plain.now.state) msg.now ≡ (if same (map f (numbers_from place.at place.len)) (payload_of msg.now.body) then Decision.Same else Decision.Take) }
    ensures length { (place : Spot) → result ≡ Decision.Compare place → place.len ≡ length (payload_of msg.now.body) }
{
    match &msg.body {
        Body::Store { number, what, .. } => {
            decide_store(plain, msg.log, *number, msg.from.ballot(), what)
        }
        _ => Decision::Same,
    }
}

/// What the node makes of an ask for a digest. The message is a DigestAsk.
pub fn on_digest(plain: &Plain, msg: &Msg) -> Decision
    requires { IsDigestAsk msg.now.body }
    ensures { result ≡ digest_decided plain.now.state msg.now }
{
    match &msg.body {
        Body::DigestAsk { from } => decide_digest(plain, msg.log, *from, msg.from.ballot()),
        _ => Decision::Same,
    }
}

#[tactic(auto, unfolding(ld_op::specs::Answers::store_decision))]
fn decide_store(plain: &Plain, log: LogId, number: Lsn, ballot: u32, what: &What) -> Decision
    ensures compared { (f : ℕ → ℕ) → told plain.now.state.generation (store_decision (each_log f (log_of plain.now.state log)) (record { number = number; ballot = ballot; what = what.now })) ≡ compared f (payload_in what.now) result }
    ensures length { (place : Spot) → result ≡ Decision.Compare place → place.len ≡ length (payload_in what.now) }
{
    let epoch = number.epoch();
    if plain.is_lost_in(log, epoch) {
        return Decision::Lost(plain.generation(), plain.end_of(log, epoch));
    }
    if let Some(summary) = plain.summary(log, epoch) {
        return Decision::Clean(summary);
    }
    let trim = plain.trim(log);
    if number.value() <= trim.value() {
        return Decision::Trimmed(trim);
    }
    let sealed = plain.sealed(log);
    if ballot < sealed {
        return Decision::Sealed(sealed);
    }
    match compare_there(ballot, what, plain.entry(log, number)) {
        Sameness::Same => Decision::Same,
        Sameness::Other => Decision::Take,
        Sameness::Compare(place) => Decision::Compare(place),
    }
}

#[tactic(auto, unfolding(ld_op::specs::Answers::digest_decision))]
fn decide_digest(plain: &Plain, log: LogId, from: Lsn, ballot: u32) -> Decision
    ensures { result ≡ told plain.now.state.generation (digest_decision (log_of plain.now.state log) ballot from) }
{
    let epoch = from.epoch();
    if plain.is_lost_in(log, epoch) {
        return Decision::Lost(plain.generation(), plain.end_of(log, epoch));
    }
    if let Some(summary) = plain.summary(log, epoch) {
        return Decision::Clean(summary);
    }
    let sealed = plain.sealed(log);
    if ballot < sealed {
        return Decision::Sealed(sealed);
    }
    if ballot == sealed {
        Decision::Same
    } else {
        Decision::Take
    }
}

/// Whether what is sent is there already, with the same ballot.
fn compare_there(ballot: u32, what: &What, there: Option<&Pointed>) -> Sameness
    ensures same { (f : ℕ → ℕ) (number : ℕ) → is_same (record { number = number; ballot = ballot; what = what.now }) (option_map (each_entry f) (option_copied there.entry)) ≡ found_same f (payload_in what.now) result }
    ensures length { (place : Spot) → result ≡ Sameness.Compare place → place.len ≡ length (payload_in what.now) }
{
    match there {
        Some(entry) => {
            if entry.ballot() == ballot {
                compare_what(what, entry)
            } else {
                Sameness::Other
            }
        }
        None => Sameness::Other,
    }
}

/// Whether an entry holds this. A record of another length is another.
fn compare_what(what: &What, there: &Pointed) -> Sameness
    ensures same { (f : ℕ → ℕ) → same_what (each_what f there.now.what) what.now ≡ found_same f (payload_in what.now) result }
    ensures length { (place : Spot) → result ≡ Sameness.Compare place → place.len ≡ length (payload_in what.now) }
{
    match what {
        What::Rec(payload) => compare_record(payload, there),
        What::Hole => compare_other(what, there),
        What::Bridge => compare_other(what, there),
        What::Plug => compare_other(what, there),
        What::Withheld => compare_other(what, there),
    }
}

/// Whether an entry holds a record of this payload.
fn compare_record(payload: &Payload, there: &Pointed) -> Sameness
    ensures same { (f : ℕ → ℕ) → same_what (each_what f there.now.what) (Rec payload.now) ≡ found_same f payload.now result }
    ensures length { (place : Spot) → result ≡ Sameness.Compare place → place.len ≡ length payload.now }
{
    match there.place() {
        Some(place) => {
            if place.len == payload.len() as u64 {
                Sameness::Compare(place)
            } else {
                Sameness::Other
            }
        }
        None => Sameness::Other,
    }
}

/// Whether an entry holds this, which is no record.
fn compare_other(what: &What, there: &Pointed) -> Sameness
    requires { is_rec what.now ≡ false }
    ensures same { (f : ℕ → ℕ) → same_what (each_what f there.now.what) what.now ≡ found_same f (payload_in what.now) result }
    ensures length { (place : Spot) → result ≡ Sameness.Compare place → place.len ≡ length (payload_in what.now) }
{
    if there.holds(what) {
        Sameness::Same
    } else {
        Sameness::Other
    }
}
