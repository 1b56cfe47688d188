// What a look at a register showed.
ghost use Rattle.std.specs.Prelude.{◌≡◌, ◌==◌, Some};
ghost use Rattle.ld_ids.specs.Set.{members};
ghost use Rattle.ld_msg.specs.Reader.{has_seen as shows, seen_nodes as shown_nodes, sees_swap as shows_swap};
ghost use Rattle.ld_reader.specs.Shown.{shown_view};

use ld_ids::{NodeSet, Spec};
use ld_msg::Summary;
use ld_register::View;
use std::marker::Model;

/// What a look at an epoch of a log showed.
#[derive(Clone, Copy)]
pub struct Seen {
    at: u32,
    epoch: u32,
    lce: u32,
    swaps: u32,
    summary: Option<Summary>,
    spec: Spec,
}

impl Model for Seen {
    ghost use Rattle.ld_msg.specs.Register.{View};

    ghost Value = { View };

    ghost view = { λ a. record { at = a.at; epoch = a.epoch; lce = a.lce; swaps = a.swaps; summary = a.summary; spec = a.spec } };

    ghost inverse = { λ a. record { at = a.at; epoch = a.epoch; lce = a.lce; swaps = a.swaps; summary = a.summary; spec = a.spec } };
}

impl Seen {
    /// A look at this epoch, by what the register showed. `first` counts where it showed no nodes.
    pub fn new(first: &Spec, at: u32, view: &View) -> Seen
        ensures { result ≡ shown_view first.now at view.now }
    {
        let spec = match &view.spec {
            Some(spec) => *spec,
            None => *first,
        };
        Seen {
            at,
            epoch: view.epoch,
            lce: view.lce,
            swaps: view.swaps,
            summary: view.summary,
            spec,
        }
    }

    /// The nodes that it showed.
    pub fn nodes(&self) -> NodeSet
        ensures { result ≡ self.now.spec.set }
    {
        self.spec.set
    }

    /// Whether it was a look at this epoch.
    pub fn is_at(&self, epoch: u32) -> bool
        ensures { result ≡ (self.now.at == epoch) }
    {
        self.at == epoch
    }

    // Whether it was a look at this epoch, which was handed out by then.
    fn shows(&self, epoch: u32) -> bool
        ensures { result ≡ shows epoch (Some self.now) }
    {
        self.at == epoch && epoch <= self.epoch
    }
}

/// Whether the last look was at this epoch, which was handed out by then.
pub fn has_seen(seen: &Option<Seen>, epoch: u32) -> bool
    ensures { result ≡ shows epoch seen.now }
{
    match seen {
        Some(seen) => seen.shows(epoch),
        None => false,
    }
}

/// Whether a look shows another count of swaps than the last one, which counts as 0 before the first
/// look: sets have changed since.
pub fn sees_swap(seen: &Option<Seen>, look: &Seen) -> bool
    ensures { result ≡ shows_swap seen.now look.now }
{
    match seen {
        Some(seen) => seen.swaps != look.swaps,
        None => look.swaps != 0,
    }
}

/// The nodes that the last look showed, none before the first one.
#[tactic(auto, unfolding(ld_ids::specs::Set::members_from))]
pub fn seen_nodes(seen: &Option<Seen>) -> NodeSet
    ensures { members result ≡ shown_nodes seen.now }
{
    match seen {
        Some(seen) => seen.nodes(),
        None => NodeSet::empty(),
    }
}
