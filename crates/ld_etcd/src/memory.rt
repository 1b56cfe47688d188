// Members in memory, whose answers are told beforehand.
use crate::Members;
use ld_past::Past;
use std::alloc::Global;
use std::io::ErrorKind;

/// What happens at one connection or one request.
#[derive(Drop)]
pub enum Reply {
    /// The connection isn't taken.
    Refuses,
    /// The request is taken, and these bytes come, and then the end.
    Answers(Vec<u8>),
    /// The request is taken, and nothing comes.
    Silent,
}

/// Members of an etcd in memory. Each connection and each request takes the next reply where it is one of its kind.
#[derive(Drop)]
pub struct MemMembers {
    alloc: Global,
    hosts: Vec<String>,
    replies: Vec<Reply>,
    sent: Vec<Vec<u8>>,
    asked: Vec<usize>,
    coming: Option<Vec<u8>>,
    at: usize,
    did: Past,
}

impl MemMembers {
    ghost use Rattle.std.specs.Prelude.{◌≡◌};

    /// Members with these hosts, and their replies in order.
    pub fn new(alloc: Global, hosts: Vec<String>, replies: Vec<Reply>) -> MemMembers {
        MemMembers {
            alloc,
            hosts,
            replies,
            sent: Vec::new(alloc),
            asked: Vec::new(alloc),
            coming: None,
            at: 0,
            did: Past::new(),
        }
    }

    /// The bytes of each request, in order.
    pub fn sent(&self) -> &[Vec<u8>] {
        &self.sent
    }

    /// The members that were asked for a connection, in order.
    pub fn asked(&self) -> &[usize] {
        &self.asked
    }

    /// Takes the next reply.
    fn next_reply(&mut self) -> Option<Reply>
        ensures { self.new.did ≡ self.old.did }
    {
        if self.replies.is_empty() {
            return None;
        }
        Some(self.replies.remove(0))
    }
}

impl Members for MemMembers {
    ghost did = { λ m. m.did.events };

    fn count(&self) -> usize {
        self.hosts.len()
    }

    fn host(&self, member: usize) -> &str {
        match self.hosts.get(member) {
            Some(host) => host.as_str(),
            None => "",
        }
    }

    fn connect(&mut self, member: usize) -> Result<(), ErrorKind> {
        self.did.note(&[0, member as u64], &[]);
        self.coming = None;
        let _ = self.asked.push(member);
        if let Some(Reply::Refuses) = self.replies.first() {
            let _ = self.next_reply();
            return Err(ErrorKind::ConnectionRefused);
        }
        Ok(())
    }

    fn write(&mut self, bytes: &[u8]) -> Result<(), ErrorKind> {
        self.did.note(&[1], bytes);
        let Ok(copy) = Vec::from_slice(self.alloc, bytes) else {
            return Err(ErrorKind::OutOfMemory);
        };
        let _ = self.sent.push(copy);
        self.at = 0;
        self.coming = match self.next_reply() {
            Some(Reply::Answers(bytes)) => Some(bytes),
            _ => None,
        };
        Ok(())
    }

    fn read(&mut self, buf: &mut [u8]) -> Result<usize, ErrorKind> {
        let Some(bytes) = &self.coming else {
            return Err(ErrorKind::TimedOut);
        };
        let count = bytes.len().saturating_sub(self.at).min(buf.len());
        for at in 0..count {
            buf[at] = bytes[self.at + at];
        }
        self.at = self.at.saturating_add(count);
        Ok(count)
    }
}
