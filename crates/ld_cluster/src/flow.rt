// A flow: deliveries one after the other.
ghost use Rattle.std.specs.Prelude.{◌≡◌, OnOk, OnErr};
ghost use Rattle.ld_schedule.specs.declared.event.Event.TheVariants.{Flow};
ghost use Rattle.ld_msg.specs.Network.{oldest_new};
ghost use Rattle.ld_machine.specs.Run.{step, flows};
ghost use Rattle.ld_cluster.specs.Standing.{config_of, state_of, IsReached};
ghost use Rattle.ld_cluster.specs.Steps.{IsStep, IsStepInPart, HasFlowed, more_deliveries, steps_of};

use crate::cluster::Cluster;
use crate::finish::add_none;
use ld_ids::NoMemory;
use ld_transcript::Lines;
use std::alloc::Global;

impl Cluster {
    /// Up to so many of the oldest new messages are delivered, and `none` is written where there is none.
    pub(crate) fn flow_most(
        &mut self,
        alloc: Global,
        most: u32,
        lines: &mut Lines,
    ) -> Result<(), NoMemory>
        requires reached { IsReached self.old }
        ensures whole { OnOk result (IsStep self.old self.new lines.old lines.new (step (config_of self.old) (state_of self.old) (Flow most)) (steps_of (config_of self.old) (state_of self.old) (Flow most))) }
        ensures part { OnErr result (IsStepInPart self.old self.new lines.old lines.new (step (config_of self.old) (state_of self.old) (Flow most)) (steps_of (config_of self.old) (state_of self.old) (Flow most))) }
    {
        let before = lines.len();
        self.deliver_most(alloc, most, lines)?;
        add_none(before, lines)?;
        Ok(())
    }

    /// Up to so many of the oldest new messages are delivered.
    fn deliver_most(&mut self, alloc: Global, most: u32, lines: &mut Lines) -> Result<(), NoMemory>
        requires reached { IsReached self.old }
        ensures whole { OnOk result (HasFlowed self.old lines.old most self.new lines.new) }
        ensures part { OnErr result (IsStepInPart self.old self.new lines.old lines.new (flows most (config_of self.old) (state_of self.old)) (more_deliveries (config_of self.old) (state_of self.old) most (oldest_new (state_of self.old).network))) }
    {
        let mut left = most;
        'deliveries: while 0 < left {
            let more = self.flow(alloc, lines)?;
            if !more {
                return Ok(());
            }
            left -= 1;
        }
        Ok(())
    }
}
