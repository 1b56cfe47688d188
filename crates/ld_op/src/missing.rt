// What a lost log lacks.
ghost use Rattle.std.specs.Prelude.{◌≡◌, ◌≤◌, ◌<◌, ◌+◌, ◌^◌, ℕ, IfSome, IfNone, is_none};
ghost use Rattle.ld_table.specs.Table.{find};
ghost use Rattle.ld_table.specs.Words.{first};
ghost use Rattle.ld_lsn.specs.Number.{numbered};
ghost use Rattle.ld_op.specs.Places.{AreUnderTheirNumbers};
ghost use Rattle.ld_op.specs.Ticks.{missing};
ghost use Rattle.ld_op.specs.Whole.{IsWhole, HasAll, IsLowest, IsNext, IsLast, IsFirstIn, HaveEntries};

use crate::entries::EntryMap;
use crate::log::LogState;
use ld_lsn::Lsn;
use ld_msg::Summary;

impl EntryMap {
    /// Each entry stands under its own number.
    pub(crate) fn numbers_agree(&self)
        ensures { AreUnderTheirNumbers self.now }
    {
        let _ = self.map.len();
    }
}

impl LogState {
    /// The lowest number that is missing: it stands above the trim and below the end of a clean epoch that was lost,
    /// and has no entry. It takes time in the entries from the number on up to which nothing was missing after the last
    /// op, as the log keeps that.
    pub(crate) fn first_missing(&self) -> Option<Lsn>
        ensures value { result ≡ first (missing self.now.log) }
        ensures lowest { IfSome result (λ number. IsWhole self.now.log number) }
        ensures none { IfNone result (HasAll self.now.log) }
    {
        self.summaries_rise();
        let mut from = self.whole;
        'epochs: while let Some((epoch, summary)) = self.lost_from(from.epoch()) {
            let number = self.first_in(from, epoch, &summary);
            if number.is_some() {
                return number;
            }
            if epoch == self.lost_to() {
                return None;
            }
            from = Lsn::epoch_end(epoch);
        }
        None
    }

    /// The first clean epoch from one on, where it is one of those that were lost.
    fn lost_from(&self, from: u32) -> Option<(u32, Summary)>
        ensures found { IfSome result (λ epoch. IsNext self.now.log from epoch) }
        ensures none { IfNone result (IsLast self.now.log from) }
    {
        self.summaries_rise();
        match self.clean_from(from) {
            Some((epoch, summary)) => {
                if epoch <= self.lost_to() {
                    Some((epoch, summary))
                } else {
                    None
                }
            }
            None => None,
        }
    }

    /// The first number of a clean epoch from one on, above the trim and below the end, without an entry.
    fn first_in(&self, from: Lsn, epoch: u32, summary: &Summary) -> Option<Lsn>
        ensures found { IfSome result (λ number. IsFirstIn self.now.log from epoch summary.now number) }
        ensures none { IfNone result (HaveEntries self.now.log from epoch (numbered epoch summary.now.end)) }
    {
        let above = self.trim().value().saturating_add(1);
        let start = above.max(Lsn::new(epoch, 1).value()).max(from.value());
        let end = Lsn::new(epoch, summary.end).value();
        for number in start..end {
            if self.entry(Lsn::from_u64(number)).is_none() {
                return Some(Lsn::from_u64(number));
            }
        }
        None
    }
}
