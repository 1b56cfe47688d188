// Calls to the members of an etcd.
ghost use Rattle.std.specs.Prelude.{◌≡◌, ℕ, List};
ghost use Rattle.ld_etcd.specs.Request.{Asks};
ghost use Rattle.ld_etcd.specs.Known.{asked_of};

use crate::gateway::json_of;
use crate::http::post;
use crate::{Cause, Members};
use serde_json::Value;
use std::alloc::Global;
use std::io::ErrorKind;

/// How often a call is made that was sent and whose outcome isn't known.
const TRIES: u64 = 3;

/// The members, and which one of them is asked next.
#[derive(Drop)]
pub(crate) struct Caller<M: Members + Drop> {
    members: M,
    member: usize,
    is_connected: bool,
}

impl<M: Members + Drop> Caller<M> {
    /// The members, none of which was asked yet.
    pub(crate) fn new(members: M) -> Caller<M>
        ensures { asked_of M.Members result ≡ M.did members }
    {
        Caller {
            members,
            member: 0,
            is_connected: false,
        }
    }

    /// The members.
    pub(crate) fn members(&self) -> &M {
        &self.members
    }

    /// Posts a text to a path. Where no member takes a connection nothing is sent. Where it was sent and no answer of etcd
    /// came, it is sent up to twice more, each time to the next member.
    #[tactic(auto, using(crate::proofs::Asking::asks_none, crate::proofs::Asking::asks_on))]
    pub(crate) fn call(&mut self, alloc: Global, path: &str, text: &str) -> Result<Value, Cause>
        ensures { Asks path.now text.now (asked_of M.Members self.old) (asked_of M.Members self.new) }
    {
        let mut last = Cause::NotEtcd;
        'tries: for _ in 0..TRIES {
            match self.call_once(alloc, path, text) {
                Ok(answer) => return Ok(answer),
                Err(cause) => last = cause,
            }
            self.turn();
            if let Cause::Unreachable(_) | Cause::Full = last {
                return Err(last);
            }
        }
        Err(last)
    }

    /// Posts a text to a path once.
    fn call_once(&mut self, alloc: Global, path: &str, text: &str) -> Result<Value, Cause>
        ensures { Asks path.now text.now (asked_of M.Members self.old) (asked_of M.Members self.new) }
    {
        self.connect()?;
        let response = post(alloc, &mut self.members, self.member, path, text.as_bytes())?;
        json_of(alloc, &response)
    }

    /// Connects to the first member from the present one on that takes a connection, where none is connected.
    #[tactic(auto, using(crate::proofs::Asking::asks_none))]
    fn connect(&mut self) -> Result<(), Cause>
        ensures { (path text : List ℕ) → Asks path text (asked_of M.Members self.old) (asked_of M.Members self.new) }
    {
        if self.is_connected {
            return Ok(());
        }
        let mut last = Cause::Unreachable(ErrorKind::NotFound);
        'members: for _ in 0..self.members.count() {
            match self.members.connect(self.member) {
                Ok(()) => {
                    self.is_connected = true;
                    return Ok(());
                }
                Err(kind) => last = Cause::Unreachable(kind),
            }
            self.turn();
        }
        Err(last)
    }

    /// Turns to the next member.
    fn turn(&mut self)
        ensures { asked_of M.Members self.new ≡ asked_of M.Members self.old }
    {
        self.is_connected = false;
        self.member = self.member.saturating_add(1);
        if self.member >= self.members.count() {
            self.member = 0;
        }
    }
}
