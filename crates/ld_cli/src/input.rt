// The input, a byte at a time.
ghost use Rattle.std.specs.Prelude.{◌≡◌, ◌+◌, ◌<◌, ◌≤◌, List, ℕ, [], ◌∷◌, length, IfOk, OnOk, IfSome, MatchOption, MatchBool};
ghost use Rattle.std.specs.Io.KnownBytes.{prepend_known, Consumes, Keeps, IsAtEnd};
ghost use Rattle.ld_io.specs.Causes.{HasCause};
ghost use Rattle.ld_io.specs.Input.{left_in};
ghost use Rattle.ld_io.specs.Memory.{is_listed};
ghost use Rattle.ld_cli.specs.Input.{budget};

use ld_io::{Failed, Source};
use std::alloc::{AllocError, Global};
use std::marker::Model;

const CHUNK: usize = 4096;

/// The bytes that were read and not taken yet.
#[derive(Drop)]
pub struct Buffer {
    chunk: Vec<u8>,
    at: usize,
    end: usize,
}

impl Model for Buffer {
    ghost use Rattle.std.specs.Prelude.{◌≤◌, ◌<◌, ◌-◌, List, ℕ, length, take, drop};

    ghost Value = { List ℕ };

    ghost view = { λ b. take (b.end - b.at) (drop b.at b.chunk.items) };

    ghost invariant = { λ b. (b.at ≤ b.end) × (b.end ≤ length b.chunk.items) × (0 < length b.chunk.items) };
}

impl Buffer {
    /// An empty buffer.
    pub fn new(alloc: Global) -> Result<Buffer, AllocError>
        ensures { IfOk result (λ buffer. buffer ≡ []) }
    {
        let chunk = vec![in alloc; 0u8; CHUNK]?;
        Ok(Buffer {
            chunk,
            at: 0,
            end: 0,
        })
    }

    /// Takes the next byte of the input.
    pub fn next_byte<I: Source>(&mut self, input: &mut I) -> Result<Option<u8>, Failed>
        ensures taken { (all : List ℕ) → I.may_be input.new all → IfOk result (λ found. MatchOption found
            (Keeps (prepend_known self.old (left_in all (I.gave input.old))) (prepend_known self.new (left_in all (I.gave input.new))) × IsAtEnd (prepend_known self.new (left_in all (I.gave input.new))))
            (λ byte. Consumes (prepend_known self.old (left_in all (I.gave input.old))) (prepend_known self.new (left_in all (I.gave input.new))) (byte ∷ []))) }
        ensures fed { (all : List ℕ) → I.may_be input.new all → I.may_be input.old all }
        ensures steady { I.known input.new ≡ I.known input.old }
        ensures budget { IfOk result (λ found. IfSome found (λ _. budget self.new (length (I.gave input.new)) + 1 ≤ budget self.old (length (I.gave input.old)))) }
        ensures cause { HasCause (I.faults input.old) (I.faults input.new) result }
    {
        if !self.fill(input)? {
            return Ok(None);
        }
        Ok(Some(self.pop()))
    }

    /// Reads where nothing is held. Says whether something is held now; nothing is at the end of the input.
    fn fill<I: Source>(&mut self, input: &mut I) -> Result<bool, Failed>
        ensures kept { (all : List ℕ) → I.may_be input.new all → OnOk result (Keeps (prepend_known self.old (left_in all (I.gave input.old))) (prepend_known self.new (left_in all (I.gave input.new)))) }
        ensures held { (all : List ℕ) → I.may_be input.new all → IfOk result (λ held. MatchBool held (0 < length self.new) (IsAtEnd (prepend_known self.new (left_in all (I.gave input.new))))) }
        ensures fed { (all : List ℕ) → I.may_be input.new all → I.may_be input.old all }
        ensures steady { I.known input.new ≡ I.known input.old }
        ensures budget { OnOk result (budget self.new (length (I.gave input.new)) ≤ budget self.old (length (I.gave input.old))) }
        ensures cause { HasCause (I.faults input.old) (I.faults input.new) result }
    {
        if self.at < self.end {
            return Ok(true);
        }
        let count = input.read(&mut self.chunk)?;
        self.at = 0;
        self.end = count;
        Ok(count > 0)
    }

    /// Whether the byte is among those that are held.
    pub fn holds(&self, byte: u8) -> bool
        ensures { result ≡ is_listed byte self.now }
    {
        self.chunk[self.at..self.end].contains(&byte)
    }

    /// Takes the first of the bytes that are held.
    fn pop(&mut self) -> u8
        requires { 0 < length self.old }
        ensures { self.old ≡ result ∷ self.new }
    {
        let byte = self.chunk[self.at];
        self.at += 1;
        byte
    }
}
