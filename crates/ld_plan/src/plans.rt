// The plan of a digest.
ghost use Rattle.std.specs.Prelude.{◌≡◌, ◌≤◌, ◌<◌, ◌++◌, ◌-◌, ◌^◌, ℕ, true, IfOk, OnOk};
ghost use Rattle.ld_table.specs.Table.{find};
ghost use Rattle.ld_lsn.specs.Number.{numbered, last_esn};
ghost use Rattle.ld_msg.specs.Digest.{best, no_record, content, digest_trim, trim_place, top_place, plan};
ghost use Rattle.ld_plan.specs.Claims.{claims_of, decided_by};
ghost use Rattle.ld_plan.specs.Decision.{IsDecision, record_items_from, lets_plan};

use crate::{Claim, Decided, Items, Plan};
use ld_digest::{Digest, Told};
use ld_ids::NoMemory;
use ld_lsn::Lsn;
use ld_msg::{Entry, What};
use std::alloc::Global;

// The greatest offset of an epoch.
const LAST_ESN: u32 = u32::MAX;

// Adds the claims of a node.
fn add_claims<'a>(claims: &mut Vec<Claim<'a>>, entries: &'a [Entry]) -> Result<(), NoMemory>
    ensures { OnOk result (claims.new.items ≡ claims.old.items ++ entries.entry.now) }
{
    for entry in entries {
        claims.push(Claim::of(entry))?;
    }
    Ok(())
}

// The claims of all nodes, the highest node first.
fn all_claims<'a>(alloc: Global, told: &'a [Told]) -> Result<Vec<Claim<'a>>, NoMemory>
    ensures { IfOk result (λ claims. claims.items ≡ claims_of told.entry.now) }
{
    let mut claims = Vec::new(alloc);
    for place in (0..told.len()).rev() {
        add_claims(&mut claims, told[place].entries())?;
    }
    Ok(claims)
}

// What all claims decide, the greatest ballot first, of equal ones the lowest node's.
fn decided<'a>(alloc: Global, told: &'a [Told]) -> Result<Decided<'a>, NoMemory>
    ensures { IfOk result (λ decided. IsDecision told.entry.now decided) }
{
    let mut claims = all_claims(alloc, told)?;
    claims.sort_by_key(|claim| claim.ballot())?;
    let mut decided = Decided::nothing(alloc);
    while let Some(claim) = claims.pop() {
        decided.claim(claim)?;
    }
    Ok(decided)
}

// The greatest trim that a node has told.
#[tactic(auto, unfolding(ld_msg::specs::Digest::digest_trim))]
fn greatest_trim(told: &[Told]) -> Lsn
    ensures { result ≡ digest_trim told.now }
{
    let mut greatest = Lsn::from_u64(0);
    for one in told {
        greatest = greatest.max(one.trim());
    }
    greatest
}

// The trim as an offset of the epoch.
fn trim_place(epoch: u32, trim: Lsn) -> u32
    ensures place { result ≡ trim_place epoch trim }
    ensures below { result < last_esn }
{
    if trim.epoch() < epoch {
        0
    } else if epoch < trim.epoch() {
        LAST_ESN - 1
    } else {
        trim.esn().min(LAST_ESN - 1)
    }
}

// What a plan has where no record is decided: a plug, where it says what is lost, and else a hole.
fn no_record(loss: bool) -> What
    ensures { result ≡ no_record loss }
{
    if loss { What::Plug } else { What::Hole }
}

// The record that is decided for the number, or else a value that represents none.
fn what(alloc: Global, decided: &Decided, loss: bool, number: Lsn) -> Result<What, NoMemory>
    ensures { IfOk result (λ what. what ≡ content loss (find number decided.now.entries)) }
{
    match decided.entry(number) {
        Some(claim) => match claim.what() {
            What::Rec(payload) => Ok(What::Rec(payload.copy(alloc)?)),
            What::Hole | What::Bridge | What::Plug | What::Withheld => Ok(no_record(loss)),
        },
        None => Ok(no_record(loss)),
    }
}

// What stands from an offset of the epoch up to the end.
#[tactic(auto, unfolding(crate::specs::Decision::record_items_from))]
fn items(
    alloc: Global,
    epoch: u32,
    decided: &Decided,
    loss: bool,
    from: u32,
    end: u32,
) -> Result<Items, NoMemory>
    requires { from ≤ end }
    ensures { IfOk result (λ items. items ≡ record_items_from epoch loss decided.now.entries from (end - from)) }
{
    let mut items = Items::empty(alloc);
    for place in from..end {
        let number = Lsn::new(epoch, place);
        items.push(number, what(alloc, decided, loss, number)?)?;
    }
    Ok(items)
}

/// The plan by which the digest's epoch is closed, where enough nodes told. Where the digest is spent it is one that
/// says what is lost.
///
/// The statement of a number is that of the greatest ballot over all entries of the number and all
/// bridges below it; of equal ballots the lowest node's, and of one node's the entry's. The end is
/// one above the greatest offset whose statement is a record, a hole or a plug, at least 1, and above the
/// trim and the greatest last known good offset that was told. Above these two and below the end stands
/// the record where the statement is one, else a plug where it says what is lost, and else a hole; at
/// the end stands the bridge.
///
/// It takes the time of sorting the digest's entries, and that of a look-up for each item.
#[tactic(auto, unfolding(ld_msg::specs::Digest::plan, ld_msg::specs::Digest::plan_end))]
pub fn plan(alloc: Global, digest: &Digest, loss: bool) -> Result<Plan, NoMemory>
    requires { lets_plan digest.now.spec loss digest.now.told ≡ true }
    ensures { IfOk result (λ plan'. plan' ≡ plan digest.now.epoch loss digest.now.told) }
{
    let epoch = digest.epoch();
    let told = digest.told();
    let decided = decided(alloc, told)?;
    let trim = greatest_trim(told);
    let lng = digest.lng();
    let trimmed = trim_place(epoch, trim);
    let floor = trimmed.max(lng);
    let end = decided.top().max(floor) + 1;
    let mut items = items(alloc, epoch, &decided, loss, floor + 1, end)?;
    items.push(Lsn::new(epoch, end), What::Bridge)?;
    Ok(Plan {
        trim,
        lng,
        end,
        loss,
        items,
    })
}
