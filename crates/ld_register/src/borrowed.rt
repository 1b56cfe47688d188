// A borrowed register is one.
use crate::{Drawn, Grant, Register, RegisterFault, View};
use ld_ids::{LogId, NodeId, Spec};
use ld_msg::Summary;
use std::alloc::Global;

impl<G: Register> Register for &mut G {
    ghost told = { λ r. G.told r.now };

    ghost holds = { λ r. G.holds r.now };

    ghost may_hold = { λ r. G.may_hold r.now };

    ghost leaves = { λ r. G.leaves r.now };

    ghost tells = { λ r. G.tells r.now };

    ghost damaged = { λ r. G.damaged r.now };

    ghost faults = { λ r. G.faults r.now };

    ghost identity = { λ r. r.ghost_name };

    ghost holds_one = { λ r. G.holds_one r.now };

    ghost held_is_told = { λ r. G.held_is_told r.now };

    ghost held_may_be = { λ r. G.held_may_be r.now };

    ghost left_is_held = { λ r. G.left_is_held r.now };

    ghost left_alone = { λ r. G.left_alone r.now };

    ghost tells_what_is_held = { λ r. G.tells_what_is_held r.now };

    ghost held_is_whole = { λ r. G.held_is_whole r.now };

    fn activate(&mut self, alloc: Global, spec: &Spec) -> Result<Grant, RegisterFault> {
        (**self).activate(alloc, spec)
    }

    fn close(
        &mut self,
        alloc: Global,
        log: LogId,
        epoch: u32,
        summary: &Summary,
        short: bool,
    ) -> Result<Option<Spec>, RegisterFault> {
        (**self).close(alloc, log, epoch, summary, short)
    }

    fn draw(&mut self, alloc: Global, node: NodeId) -> Result<Drawn, RegisterFault> {
        (**self).draw(alloc, node)
    }

    fn swap(
        &mut self,
        alloc: Global,
        log: LogId,
        upto: u32,
        member: NodeId,
        spare: NodeId,
    ) -> Result<u32, RegisterFault> {
        (**self).swap(alloc, log, upto, member, spare)
    }

    fn look(&mut self, alloc: Global, log: LogId, e: u32) -> Result<View, RegisterFault> {
        (**self).look(alloc, log, e)
    }
}
