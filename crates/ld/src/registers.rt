// The register that the arguments name: a file, or records in etcd.
ghost use Rattle.std.specs.Prelude.{◌≡◌, ◌⊎◌, ◌≤◌, IsErrOf};
ghost use Rattle.ld_io.specs.Causes.{Rose};

use crate::causes::tell_made;
use crate::files::is_missing;
use ld_etcd::{Cause, Etcd, Place, TcpMembers};
use ld_ids::{LogId, NodeId, Spec};
use ld_msg::Summary;
use ld_real::FileRegister;
use ld_register::{Drawn, Grant, Register, RegisterFault, View};
use ld_shared::{Mark, SharedRegister};
use std::alloc::Global;
use std::io::ErrorKind;
use std::random::RandomSource;

/// The register of a name.
#[derive(Drop)]
pub enum Named<'a> {
    /// A file.
    File(FileRegister<'a, HostRuntime, std::fs::File>),
    /// Records in etcd.
    Etcd(SharedRegister<Etcd<TcpMembers<'a, HostRuntime>>>),
}

/// A register's file that wasn't there when the program began.
#[derive(Clone, Copy)]
struct Missing<'a> {
    rt: &'a HostRuntime,
    path: &'a str,
}

/// The register that the arguments name, how often a call of it failed, and the file of which it is told when a draw has made
/// it.
#[derive(Drop)]
pub struct NamedRegister<'a> {
    named: Named<'a>,
    faults: u64,
    missing: Option<Missing<'a>>,
}

impl<'a> NamedRegister<'a> {
    /// The register in a file. Where it isn't there, standard error is told when a draw has made it, unless that is to be quiet.
    pub fn file(rt: &'a HostRuntime, path: &'a str, quiet: bool) -> NamedRegister<'a> {
        let missing = if !quiet && is_missing(rt, path) {
            Some(Missing { rt, path })
        } else {
            None
        };
        NamedRegister {
            named: Named::File(FileRegister::new(rt, path)),
            faults: 0,
            missing,
        }
    }

    /// The register in etcd. It fails where the system has no random bytes for the mark of this process.
    pub fn etcd(rt: &'a HostRuntime, place: Place) -> std::io::Result<NamedRegister<'a>> {
        let mut high = [0; 8];
        let mut low = [0; 8];
        rt.fill_bytes(&mut high)?;
        rt.fill_bytes(&mut low)?;
        let mark = Mark::new(u64::from_be_bytes(high), u64::from_be_bytes(low));
        let members = TcpMembers::new(rt, place.members);
        let records = Etcd::new(rt.alloc(), members, place.prefix);
        Ok(NamedRegister {
            named: Named::Etcd(SharedRegister::new(records, mark)),
            faults: 0,
            missing: None,
        })
    }

    /// The system's reason for the last call that failed, where it is a file.
    pub fn file_cause(&self) -> Option<ErrorKind> {
        match &self.named {
            Named::File(register) => register.cause(),
            Named::Etcd(_) => None,
        }
    }

    /// Whether it is in etcd.
    pub fn is_in_etcd(&self) -> bool {
        matches!(&self.named, Named::Etcd(_))
    }

    /// Why the last call failed, where it is in etcd.
    pub fn etcd_cause(&self) -> Option<Cause> {
        match &self.named {
            Named::File(_) => None,
            Named::Etcd(register) => register.records().cause(),
        }
    }
}

/// Tells once that a draw, which answers so, has made the file that wasn't there.
fn tell_once(missing: &mut Option<Missing<'_>>, answer: &Result<Drawn, RegisterFault>) {
    if answer.is_err() {
        return;
    }
    if let Some(file) = missing.take() {
        // Where standard error can't be written, there is nobody left to tell.
        let _ = tell_made(file.rt, file.path);
    }
}

/// Counts a call that failed.
fn count<T>(faults: &mut u64, answer: &Result<T, RegisterFault>)
    ensures failed { IsErrOf answer.now RegisterFault.Failed → Rose faults.old faults.new }
    ensures steady { IsErrOf answer.now RegisterFault.Failed ⊎ (faults.new ≡ faults.old) }
    ensures counts { faults.old ≤ faults.new }
{
    if let Err(RegisterFault::Failed) = answer {
        *faults = faults.saturating_add(1);
    }
}

impl<'a> Register for NamedRegister<'a> {
    ghost told = { λ _. ⊥ };

    ghost holds = { λ _ _. ⊥ };

    ghost may_hold = { λ _ _. Unit {0} };

    ghost leaves = { λ _ _. ⊥ };

    ghost tells = { λ _ _. ⊥ };

    ghost damaged = { λ _ _. ⊥ };

    ghost faults = { λ r. r.faults };

    ghost identity = { λ _. 0 };

    ghost holds_one = { λ _ _ _ h _. absurd h };

    ghost held_is_told = { λ _ _ h. h };

    ghost held_may_be = { λ _ _ _. tt };

    ghost left_is_held = { λ _ _ t _. absurd t };

    ghost left_alone = { λ _ _ _ l _. absurd l };

    ghost tells_what_is_held = { λ _ _ t. t };

    ghost held_is_whole = { λ _ _ _ h _. h };

    fn activate(&mut self, alloc: Global, spec: &Spec) -> Result<Grant, RegisterFault> {
        match &mut self.named {
            Named::File(register) => {
                let answer = register.activate(alloc, spec);
                count(&mut self.faults, &answer);
                answer
            }
            Named::Etcd(register) => {
                let answer = register.activate(alloc, spec);
                count(&mut self.faults, &answer);
                answer
            }
        }
    }

    fn close(
        &mut self,
        alloc: Global,
        log: LogId,
        epoch: u32,
        summary: &Summary,
        short: bool,
    ) -> Result<Option<Spec>, RegisterFault> {
        match &mut self.named {
            Named::File(register) => {
                let answer = register.close(alloc, log, epoch, summary, short);
                count(&mut self.faults, &answer);
                answer
            }
            Named::Etcd(register) => {
                let answer = register.close(alloc, log, epoch, summary, short);
                count(&mut self.faults, &answer);
                answer
            }
        }
    }

    fn draw(&mut self, alloc: Global, node: NodeId) -> Result<Drawn, RegisterFault> {
        match &mut self.named {
            Named::File(register) => {
                let answer = register.draw(alloc, node);
                count(&mut self.faults, &answer);
                tell_once(&mut self.missing, &answer);
                answer
            }
            Named::Etcd(register) => {
                let answer = register.draw(alloc, node);
                count(&mut self.faults, &answer);
                answer
            }
        }
    }

    fn swap(
        &mut self,
        alloc: Global,
        log: LogId,
        upto: u32,
        member: NodeId,
        spare: NodeId,
    ) -> Result<u32, RegisterFault> {
        match &mut self.named {
            Named::File(register) => {
                let answer = register.swap(alloc, log, upto, member, spare);
                count(&mut self.faults, &answer);
                answer
            }
            Named::Etcd(register) => {
                let answer = register.swap(alloc, log, upto, member, spare);
                count(&mut self.faults, &answer);
                answer
            }
        }
    }

    fn look(&mut self, alloc: Global, log: LogId, e: u32) -> Result<View, RegisterFault> {
        match &mut self.named {
            Named::File(register) => {
                let answer = register.look(alloc, log, e);
                count(&mut self.faults, &answer);
                answer
            }
            Named::Etcd(register) => {
                let answer = register.look(alloc, log, e);
                count(&mut self.faults, &answer);
                answer
            }
        }
    }
}
