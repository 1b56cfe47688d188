// A register in a file that other programs use too.
ghost use Rattle.std.specs.Prelude.{◌≡◌, ◌⊎◌, ◌≤◌, IsErrOf, IfOk, OnErr};
ghost use Rattle.ld_io.specs.Causes.{Rose};
ghost use Rattle.ld_register.specs.Calls.{IsView, IsFree};

use crate::{FileDisk, SharedFile};
use ld_ids::{LogId, NodeId, Spec};
use ld_msg::Summary;
use ld_register::{DiskRegister, Drawn, Grant, Register, RegisterFault, View};
use std::alloc::Global;
use std::io::ErrorKind;
use std::rt::Files;

/// How often a look that finds damage is made again.
const LOOKS: u32 = 8;

/// A register in a file. Each call loads it anew, so that it sees what other processes have changed since the call before. A
/// load writes nothing. Calls that change it wait for one another, also those of other processes, from before the load until
/// the change is made. Looks wait for nobody. The file is made by a draw, and by no other call: where it isn't there they fail.
#[derive(Drop)]
pub struct FileRegister<'a, R: Files<File = F>, F: SharedFile> {
    rt: &'a R,
    path: &'a str,
    faults: u64,
    cause: Option<ErrorKind>,
}

impl<'a, R: Files<File = F>, F: SharedFile> FileRegister<'a, R, F> {
    /// The register in the file at this path, which no call has opened yet.
    pub fn new(rt: &'a R, path: &'a str) -> FileRegister<'a, R, F>
        ensures path { result.path.now ≡ path.now }
        ensures faults { result.faults ≡ 0 }
    {
        FileRegister {
            rt,
            path,
            faults: 0,
            cause: None,
        }
    }

    /// The system's reason for the last call that failed.
    pub fn cause(&self) -> Option<ErrorKind>
        ensures { result ≡ self.now.cause }
    {
        self.cause
    }

    /// The register as the file has it when it is called first, and from then on for this one to change.
    fn fresh(&self, alloc: Global) -> DiskRegister<FileDisk<'a, R, F>> {
        DiskRegister::new(alloc, FileDisk::in_turn(self.rt, self.path))
    }

    /// Looks, and looks again where it finds damage: a record that another process completes meanwhile stands behind the end
    /// that was found before.
    fn look_again(
        &self,
        alloc: Global,
        log: LogId,
        e: u32,
    ) -> (Result<View, RegisterFault>, Option<ErrorKind>)
        ensures view { IfOk result.0 (IsView log e) }
        ensures free { OnErr result.0 (IsFree result.0) }
    {
        for _ in 1..LOOKS {
            let (answer, cause) = self.look_once(alloc, log, e);
            match answer {
                Err(RegisterFault::Damaged(_)) => {}
                answer => return (answer, cause),
            }
        }
        self.look_once(alloc, log, e)
    }

    /// Looks at the register as the file has it now.
    fn look_once(
        &self,
        alloc: Global,
        log: LogId,
        e: u32,
    ) -> (Result<View, RegisterFault>, Option<ErrorKind>)
        ensures view { IfOk result.0 (IsView log e) }
        ensures free { OnErr result.0 (IsFree result.0) }
    {
        let mut register = DiskRegister::new(alloc, FileDisk::shared(self.rt, self.path));
        let answer = register.look(alloc, log, e);
        (answer, register.into_disk().cause())
    }

    /// Counts a call that failed, and keeps its reason.
    fn count<T>(&mut self, answer: &Result<T, RegisterFault>, cause: Option<ErrorKind>)
        ensures failed { IsErrOf answer.now RegisterFault.Failed → Rose self.old.faults self.new.faults }
        ensures steady { IsErrOf answer.now RegisterFault.Failed ⊎ (self.new.faults ≡ self.old.faults) }
        ensures counts { self.old.faults ≤ self.new.faults }
    {
        if let Err(RegisterFault::Failed) = answer {
            self.faults = self.faults.saturating_add(1);
            self.cause = cause;
        }
    }
}

impl<'a, R: Files<File = F>, F: SharedFile> Register for FileRegister<'a, R, F> {
    ghost told = { λ _. ⊥ };

    ghost holds = { λ _ _. ⊥ };

    ghost may_hold = { λ _ _. Unit {0} };

    ghost leaves = { λ _ _. ⊥ };

    ghost tells = { λ _ _. ⊥ };

    ghost damaged = { λ _ _. ⊥ };

    ghost faults = { λ r. r.faults };

    ghost identity = { λ _. 0 };

    ghost holds_one = { λ _ _ _ h _. absurd h };

    ghost held_is_told = { λ _ _ h. h };

    ghost held_may_be = { λ _ _ _. tt };

    ghost left_is_held = { λ _ _ t _. absurd t };

    ghost left_alone = { λ _ _ _ l _. absurd l };

    ghost tells_what_is_held = { λ _ _ t. t };

    ghost held_is_whole = { λ _ _ _ h _. h };

    fn activate(&mut self, alloc: Global, spec: &Spec) -> Result<Grant, RegisterFault> {
        let mut register = self.fresh(alloc);
        let answer = register.activate(alloc, spec);
        self.count(&answer, register.into_disk().cause());
        answer
    }

    fn close(
        &mut self,
        alloc: Global,
        log: LogId,
        epoch: u32,
        summary: &Summary,
        short: bool,
    ) -> Result<Option<Spec>, RegisterFault> {
        let mut register = self.fresh(alloc);
        let answer = register.close(alloc, log, epoch, summary, short);
        self.count(&answer, register.into_disk().cause());
        answer
    }

    fn draw(&mut self, alloc: Global, node: NodeId) -> Result<Drawn, RegisterFault> {
        let Ok(disk) = FileDisk::made_in_turn(alloc, self.rt, self.path) else {
            return Err(RegisterFault::NoMemory);
        };
        let mut register = DiskRegister::new(alloc, disk);
        let answer = register.draw(alloc, node);
        self.count(&answer, register.into_disk().cause());
        answer
    }

    fn swap(
        &mut self,
        alloc: Global,
        log: LogId,
        upto: u32,
        member: NodeId,
        spare: NodeId,
    ) -> Result<u32, RegisterFault> {
        let mut register = self.fresh(alloc);
        let answer = register.swap(alloc, log, upto, member, spare);
        self.count(&answer, register.into_disk().cause());
        answer
    }

    fn look(&mut self, alloc: Global, log: LogId, e: u32) -> Result<View, RegisterFault> {
        let (answer, cause) = self.look_again(alloc, log, e);
        self.count(&answer, cause);
        answer
    }
}
