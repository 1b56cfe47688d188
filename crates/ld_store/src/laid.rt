// How a journal lies on its disk, beside its index.
ghost use Rattle.std.specs.Prelude.{◌≡◌, ◌<◌, ◌≤◌, ◌+◌, ◌^◌, ℕ, Some, IfSome, is_some};
ghost use Rattle.ld_msg.specs.Register.{record_length};
ghost use Rattle.ld_op.specs.Plain.{Plain as State};
ghost use Rattle.ld_layout.specs.LaidOut.{segment_of, later_of, laid_out, gate_behind, ops_behind, recorded};
ghost use Rattle.ld_layout.specs.Layout.{switches, switch_number};
ghost use Rattle.ld_segment.specs.Lies.{Slots, segment_for, slots_after, slots_with};
ghost use Rattle.ld_store.specs.Laid.{layout_in, slots_in, placed_in, full_in};

use ld_layout::{FULL_OPS, Growth, Layout, Segment, full_ops};

/// Where its segments lie; the offset of the slot behind the head that counts and that of the other one, and whether that
/// one's gate is open.
#[derive(Drop)]
pub(crate) struct Laid {
    pub(crate) layout: Layout,
    pub(crate) this: u64,
    pub(crate) other: u64,
    pub(crate) is_open: bool,
}

impl Laid {
    /// No record stands there.
    pub(crate) fn empty() -> Laid {
        Laid {
            layout: Layout {
                ops: 0,
                end: 0,
                later: None,
                grows: Growth::Still,
            },
            this: 0,
            other: 0,
            is_open: false,
        }
    }

    /// The gate behind the last record.
    pub(crate) fn gate(&self) -> u64
        ensures { result ≡ gate_behind self.now.layout.end self.now.layout.later }
    {
        match &self.layout.later {
            Some(segment) => segment.end,
            None => self.layout.end,
        }
    }

    /// How many switches there were.
    pub(crate) fn number(&self) -> u64
        ensures { result ≡ switch_number (later_of self.now.layout.later) }
    {
        match &self.layout.later {
            Some(segment) => segment.number,
            None => 0,
        }
    }

    /// The number of ops with which the current segment is full.
    pub(crate) fn full_ops(&self) -> u64
        ensures { result ≡ full_in self.now.layout.later }
    {
        match &self.layout.later {
            Some(segment) => full_ops(segment.grows).max(segment.based),
            None => FULL_OPS,
        }
    }

    /// After a switch to the new segment, where there is one.
    pub(crate) fn switched(self, next: Option<Segment>) -> Laid
        requires end { self.layout.end ≤ 2 ^ 40 }
        ensures layout { (index : State) (size : ℕ) → is_some next ≡ switches (layout_in self index) size → IfSome next (λ g. segment_of g ≡ segment_for (layout_in self index) size)
            → layout_in result index ≡ placed_in (layout_in self index) size }
        ensures slots { (index : State) (size : ℕ) → is_some next ≡ switches (layout_in self index) size → slots_in result ≡ slots_with (layout_in self index) (slots_in self) size }
    {
        let Laid {
            layout,
            this,
            other,
            is_open,
        } = self;
        match next {
            Some(segment) => with_segment(layout, this, other, segment),
            None => Laid {
                layout,
                this,
                other,
                is_open,
            },
        }
    }

    /// With a record of so many bytes more, which is an op's or a mark's.
    pub(crate) fn with_record(self, size: u64, is_op: bool) -> Laid
        requires end { gate_behind self.layout.end self.layout.later + record_length size < 2 ^ 64 }
        requires ops { ops_behind self.layout.ops self.layout.later + 1 < 2 ^ 64 }
        ensures layout { result.layout ≡ recorded self.layout size is_op }
        ensures slots { slots_in result ≡ slots_in self }
    {
        let Laid {
            layout,
            this,
            other,
            is_open,
        } = self;
        Laid {
            layout: layout.with_record(size, is_op),
            this,
            other,
            is_open,
        }
    }
}

/// After a switch to the new segment. The first one comes with both slots; a later one writes the slot that doesn't count.
fn with_segment(layout: Layout, this: u64, other: u64, next: Segment) -> Laid
    requires end { layout.end ≤ 2 ^ 40 }
    ensures layout { result.layout ≡ record layout { later = Some next } }
    ensures slots { (index : State) (z : Slots) → z.this ≡ this → z.other ≡ other → slots_in result ≡ slots_after (laid_out layout index) z (later_of layout.later) }
{
    let Layout {
        ops,
        end,
        later,
        grows,
    } = layout;
    match later {
        Some(_) => Laid {
            layout: Layout {
                ops,
                end,
                later: Some(next),
                grows,
            },
            this: other,
            other: this,
            is_open: true,
        },
        None => Laid {
            layout: Layout {
                ops,
                end,
                later: Some(next),
                grows,
            },
            this: end + 15,
            other: end + 32,
            is_open: false,
        },
    }
}
