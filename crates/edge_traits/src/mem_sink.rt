//! A sink in memory, which holds at most so many bytes and fails where it was told to.
ghost use Rattle.std.specs.Prelude.{◌≡◌, ◌+◌, ◌≤◌, ◌/◌, ◌↔◌, ◌⊎◌, ◌++◌, Some, length, take, IfOk, OnOk, OnErr, IsErr, false};
ghost use Rattle.std.specs.Io.KnownBytes.{Appends};
ghost use Rattle.basics.specs.Calls.{FailsNext, after_call};
ghost use Rattle.basics.specs.Faults.{HasCause};
ghost use Rattle.edge_traits.specs.Sink.{AppendsPrefix};
ghost use Rattle.edge_traits.specs.MemSink.{IsTooFullFor, empty_sink, after_put, after_failed_put};

use crate::{Failed, NoMemory, Sink};
use basics::Calls;
use std::alloc::Global;
use std::marker::Model;

/// A sink in memory, which holds at most so many bytes and fails where it was told to.
#[derive(Debug, Drop)]
pub struct MemSink {
    bytes: Vec<u8>,
    room: usize,
    calls: Calls,
}

impl Model for MemSink {
    ghost use Rattle.std.specs.Prelude.{◌≤◌, length, vec_capacity};
    ghost use Rattle.edge_traits.specs.MemSink.{MemSinkState};

    ghost Value = { MemSinkState };

    ghost view = { λ s. record { held = s.bytes.items; room = s.room; calls = s.calls } };

    ghost invariant = { λ s. (length s.bytes.items ≤ s.room) × (s.room ≤ vec_capacity s.bytes) };
}

impl MemSink {
    /// An empty sink of `room` bytes, which takes all its memory now. The calls of `put` whose
    /// numbers, from 1, stand in `fail` fail. It answers only want of memory.
    pub fn new(alloc: Global, room: usize, fail: &[u64]) -> Result<MemSink, NoMemory>
        ensures { IfOk result (λ sink. sink ≡ empty_sink room fail.now) }
    {
        Ok(MemSink {
            bytes: Vec::with_capacity(alloc, room)?,
            room,
            calls: Calls::new(fail.to_vec(alloc)?),
        })
    }

    /// The bytes that it holds, in the order in which they were put.
    pub fn held(&self) -> &[u8]
        ensures held { result.now ≡ self.now.held }
        ensures within { length self.now.held ≤ self.now.room }
    {
        &self.bytes
    }

    fn append(&mut self, bytes: &[u8])
        requires { length self.old.held + length bytes.now ≤ self.old.room }
        ensures { self.new ≡ record self.old { held = self.old.held ++ bytes.now } }
    {
        self.bytes.extend_from_slice(bytes).unwrap();
    }
}

impl Sink for MemSink {
    ghost use Rattle.edge_traits.specs.MemSink.{sink_state};

    ghost state = { sink_state };

    /// Fails exactly where the bytes find no room, and then keeps none, or else where it was told
    /// to, and then keeps the first half of them, rounded down. It takes no memory.
    fn put(&mut self, bytes: &[u8]) -> Result<(), Failed>
        ensures whole { OnOk result (Appends (Some self.old.held) (Some self.new.held) bytes.now) }
        ensures part { OnErr result
            (AppendsPrefix (Some self.old.held) (Some self.new.held) bytes.now) }
        ensures cause { HasCause self.old.calls.faults self.new.calls.faults result }

        ensures fails { IsErr result
            ↔ (IsTooFullFor self.old bytes.now ⊎ FailsNext self.old.calls) }
        ensures all { OnOk result (self.new ≡ after_put bytes.now self.old) }
        ensures none { IsTooFullFor self.old bytes.now
            → self.new ≡ record self.old { calls = after_call self.old.calls false } }
        ensures half { ¬ IsTooFullFor self.old bytes.now
            → OnErr result
            (self.new ≡ after_failed_put (take (length bytes.now / 2) bytes.now) self.old) }
    {
        if bytes.len() > self.room - self.bytes.len() {
            return Err(self.calls.fail());
        }
        if let Err(failed) = self.calls.next() {
            self.append(&bytes[..bytes.len() / 2]);
            return Err(failed);
        }
        self.append(bytes);
        Ok(())
    }

    fn faults(&self) -> u64 {
        self.calls.faults()
    }
}
