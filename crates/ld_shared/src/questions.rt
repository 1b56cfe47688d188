// The five calls of a register.
use crate::asking::{Copy, Question};
use ld_ids::{LogId, NodeId, Spec};
use ld_msg::Summary;
use ld_register::{Drawn, Grant, Register, RegisterFault, View};
use std::alloc::Global;

/// An activation of a log with these nodes, factor and extras.
#[derive(Drop)]
pub(crate) struct Activation<'a> {
    pub spec: &'a Spec,
}

impl<'a> Question<Grant> for Activation<'a> {
    ghost use Rattle.ld_register.specs.Bounds.{IsSpec};
    ghost use Rattle.ld_register.specs.Calls.{activated, after_activate};
    ghost use Rattle.ld_shared.specs.Fits.{ActivationFits};
    ghost use Rattle.ld_shared.specs.Free.{activation_free};
    ghost use Rattle.ld_shared.specs.Told.{activated_told};

    ghost is_valid = { λ q. IsSpec q.spec.now };

    ghost answer = { λ q c. activated c q.spec.now };

    ghost after = { λ q c. after_activate c q.spec.now };

    ghost fits = { λ q result. ActivationFits q.spec.now.log result };

    ghost free_fits = { λ q r free. activation_free _ r free };

    ghost is_told = { λ q c none. activated_told c q.spec.now none };

    fn ask(&self, alloc: Global, copy: &mut Copy) -> Result<Grant, RegisterFault> {
        copy.activate(alloc, self.spec)
    }
}

/// A close of a log's epoch.
#[derive(Drop)]
pub(crate) struct Closing<'a> {
    pub log: LogId,
    pub epoch: u32,
    pub summary: &'a Summary,
    pub short: bool,
}

impl<'a> Question<Option<Spec>> for Closing<'a> {
    ghost use Rattle.ld_msg.specs.Bounds.{IsSummary};
    ghost use Rattle.ld_register.specs.Calls.{closed, after_close};
    ghost use Rattle.ld_shared.specs.Fits.{CloseFits};
    ghost use Rattle.ld_shared.specs.Free.{close_free};
    ghost use Rattle.ld_shared.specs.Told.{closed_told};

    ghost is_valid = { λ q. IsSummary q.epoch q.summary.now };

    ghost answer = { λ q c. closed c q.log q.epoch q.summary.now q.short };

    ghost after = { λ q c. after_close c q.log q.epoch q.summary.now q.short };

    ghost fits = { λ q result. CloseFits q.log q.summary.now.ballot q.short result };

    ghost free_fits = { λ q r free. close_free _ _ _ r free };

    ghost is_told = { λ q c none. closed_told c q.log q.epoch q.summary.now q.short none };

    fn ask(&self, alloc: Global, copy: &mut Copy) -> Result<Option<Spec>, RegisterFault> {
        copy.close(alloc, self.log, self.epoch, self.summary, self.short)
    }
}

/// A draw of a node's next generation.
#[derive(Drop)]
pub(crate) struct Drawing {
    pub node: NodeId,
}

impl Question<Drawn> for Drawing {
    ghost use Rattle.ld_register.specs.Calls.{drawn, after_draw};
    ghost use Rattle.ld_shared.specs.Fits.{DrawFits};
    ghost use Rattle.ld_shared.specs.Free.{draw_free};
    ghost use Rattle.ld_shared.specs.Told.{drawn_told};

    ghost is_valid = { λ _. Unit {0} };

    ghost answer = { λ q c. drawn c q.node };

    ghost after = { λ q c. after_draw c q.node };

    ghost fits = { λ _ result. DrawFits result };

    ghost free_fits = { λ _ r free. draw_free r free };

    ghost is_told = { λ q c none. drawn_told c q.node none };

    fn ask(&self, alloc: Global, copy: &mut Copy) -> Result<Drawn, RegisterFault> {
        copy.draw(alloc, self.node)
    }
}

/// A swap of a member for a spare.
#[derive(Drop)]
pub(crate) struct Swapping {
    pub log: LogId,
    pub upto: u32,
    pub member: NodeId,
    pub spare: NodeId,
}

impl Question<u32> for Swapping {
    ghost use Rattle.ld_register.specs.Calls.{swapped, after_swap};
    ghost use Rattle.ld_shared.specs.Fits.{SwapFits};
    ghost use Rattle.ld_shared.specs.Free.{swap_free};
    ghost use Rattle.ld_shared.specs.Told.{swapped_told};

    ghost is_valid = { λ _. Unit {0} };

    ghost answer = { λ q c. swapped c q.log q.upto q.member q.spare };

    ghost after = { λ q c. after_swap c q.log q.upto q.member q.spare };

    ghost fits = { λ _ result. SwapFits result };

    ghost free_fits = { λ _ r free. swap_free r free };

    ghost is_told = { λ q c none. swapped_told c q.log q.upto q.member q.spare none };

    fn ask(&self, alloc: Global, copy: &mut Copy) -> Result<u32, RegisterFault> {
        copy.swap(alloc, self.log, self.upto, self.member, self.spare)
    }
}

/// A look at a log.
#[derive(Drop)]
pub(crate) struct Looking {
    pub log: LogId,
    pub e: u32,
}

impl Question<View> for Looking {
    ghost use Rattle.std.specs.Prelude.{Ok};
    ghost use Rattle.ld_register.specs.Calls.{looked};
    ghost use Rattle.ld_shared.specs.Fits.{LookFits};
    ghost use Rattle.ld_shared.specs.Free.{look_free};

    ghost is_valid = { λ _. Unit {0} };

    ghost answer = { λ q c. Ok (looked c q.log q.e) };

    ghost after = { λ _ c. c };

    ghost fits = { λ q result. LookFits q.log q.e result };

    ghost free_fits = { λ q r free. look_free _ _ r free };

    ghost is_told = { λ _ _ _ free. free };

    fn ask(&self, alloc: Global, copy: &mut Copy) -> Result<View, RegisterFault> {
        copy.look(alloc, self.log, self.e)
    }
}
