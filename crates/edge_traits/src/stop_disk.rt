//! A disk that stops at a call, as at a loss of power: what a journal is tested on.
ghost use Rattle.std.specs.Prelude.{◌≡◌, ◌+◌, ◌≤◌, IsTrue, IsErr, length, take, drop, option_map, false, IfSome, IfOk, OnOk, OnErr};
ghost use Rattle.std.specs.Option.{ForSome};
ghost use Rattle.basics.specs.Faults.{HasCause, counted_by, Rose};
ghost use Rattle.edge_traits.specs.Disk.{IsImage, IsBrokenWrite, IsBrokenCut, WhereTold, after_write, after_cut, after_sync};
ghost use Rattle.edge_traits.specs.StopDisk.{going, has_stopped, stops_by, stop_state, IsHalfWrite, Passes};

use crate::{Disk, Failed};
use std::marker::Model;

/// A disk that stops at one of its writes, cuts and syncs, as if the machine had lost its power.
/// That one does the first half of its write, rounded down, or nothing, and fails; every later
/// call fails and does nothing.
#[derive(Debug, Drop)]
pub struct StopDisk<D> {
    inner: D,
    stop: u64,
    made: u64,
    faults: u64,
}

impl<D> Model for StopDisk<D> {
    ghost use Rattle.edge_traits.specs.StopDisk.{StopDiskState};

    ghost Value = { StopDiskState D };

    ghost view = { λ s. record {
      inner = s.inner;
      stop = s.stop;
      made = s.made;
      faults = s.faults;
    } };
}

impl<D> StopDisk<D> {
    /// The disk `inner`, which stops at its `k`-th write, cut or sync, from 1. With 0 it never
    /// stops.
    pub fn new(inner: D, k: u64) -> StopDisk<D>
        ensures { result ≡ going inner k }
    {
        StopDisk {
            inner,
            stop: k,
            made: 0,
            faults: 0,
        }
    }

    /// The disk inside, as the stop left it.
    pub fn into_inner(self) -> D
        ensures { result ≡ self.inner }
    {
        let StopDisk { inner, .. } = self;
        inner
    }

    fn has_stopped(&self) -> bool
        ensures { result ≡ has_stopped self.now }
    {
        1 <= self.stop && self.stop <= self.made
    }

    /// Counts a call that fails.
    fn fail(&mut self) -> Failed
        ensures { self.new ≡ record self.old { faults = counted_by 1 self.old.faults } }
    {
        self.faults = self.faults.saturating_add(1);
        Failed
    }

    /// Counts a write, a cut or a sync.
    fn count(&mut self)
        ensures { self.new ≡ record self.old { made = counted_by 1 self.old.made } }
    {
        self.made = self.made.saturating_add(1);
    }
}

impl<D: Disk> Disk for StopDisk<D> {
    ghost state = { λ s. stop_state (D.state s.inner) s };

    fn length(&mut self) -> Result<u64, Failed>
        ensures count { IfOk result (λ count. IfSome (D.state self.old.inner).contents
            (λ c. count ≡ length c.bytes)) }
        ensures kept { (D.state self.new.inner).contents ≡ (D.state self.old.inner).contents }
        ensures cause { HasCause (stop_state (D.state self.old.inner) self.old).faults
            (stop_state (D.state self.new.inner) self.new).faults result }

        ensures stopped { IsTrue (has_stopped self.old) → IsErr result
            × (self.new ≡ record self.old { faults = counted_by 1 self.old.faults }) }
        ensures passes { has_stopped self.old ≡ false
            → Passes (D.state self.old.inner) (D.state self.new.inner) self.old self.new result }
        ensures made { self.new.made ≡ self.old.made }
        ensures stop { self.new.stop ≡ self.old.stop }
    {
        if self.has_stopped() {
            return Err(self.fail());
        }
        self.inner.length()
    }

    fn read(&mut self, at: u64, buf: &mut [u8]) -> Result<(), Failed>
        requires { ForSome (D.state self.old.inner).contents
            (λ c. at + length buf.old ≤ length c.bytes) }
        ensures given { OnOk result (IfSome (D.state self.old.inner).contents
            (λ c. buf.new ≡ take (length buf.old) (drop at c.bytes))) }
        ensures kept { (D.state self.new.inner).contents ≡ (D.state self.old.inner).contents }
        ensures cause { HasCause (stop_state (D.state self.old.inner) self.old).faults
            (stop_state (D.state self.new.inner) self.new).faults result }

        ensures stopped { IsTrue (has_stopped self.old) → IsErr result
            × (self.new ≡ record self.old { faults = counted_by 1 self.old.faults }) }
        ensures passes { has_stopped self.old ≡ false
            → Passes (D.state self.old.inner) (D.state self.new.inner) self.old self.new result }
        ensures made { self.new.made ≡ self.old.made }
        ensures stop { self.new.stop ≡ self.old.stop }
    {
        if self.has_stopped() {
            return Err(self.fail());
        }
        self.inner.read(at, buf)
    }

    fn write_at(&mut self, at: u64, bytes: &[u8]) -> Result<(), Failed>
        requires { ForSome (D.state self.old.inner).contents (λ c. at ≤ length c.bytes) }
        ensures written { OnOk result ((D.state self.new.inner).contents
            ≡ option_map (after_write at bytes.now) (D.state self.old.inner).contents) }
        ensures broken { OnErr result (WhereTold (IsBrokenWrite at (length bytes.now))
            (D.state self.old.inner).contents (D.state self.new.inner).contents) }
        ensures cause { HasCause (stop_state (D.state self.old.inner) self.old).faults
            (stop_state (D.state self.new.inner) self.new).faults result }

        ensures stops { IsTrue (stops_by self.old) → IsErr result }
        ensures stopped { IsTrue (has_stopped self.old) → self.new.inner ≡ self.old.inner }
        ensures half { has_stopped self.old ≡ false → IsTrue (stops_by self.old)
            → WhereTold (IsHalfWrite at bytes.now)
            (D.state self.old.inner).contents (D.state self.new.inner).contents }
        ensures passes { has_stopped self.old ≡ false → stops_by self.old ≡ false
            → Passes (D.state self.old.inner) (D.state self.new.inner) self.old self.new result }
        ensures faulted { IsTrue (stops_by self.old)
            → self.new.faults ≡ counted_by 1 self.old.faults }
        ensures made { self.new.made ≡ counted_by 1 self.old.made }
        ensures stop { self.new.stop ≡ self.old.stop }
    {
        let had_stopped = self.has_stopped();
        self.count();
        if had_stopped {
            return Err(self.fail());
        }
        if self.has_stopped() {
            let _ = self.inner.write_at(at, &bytes[..bytes.len() / 2]);
            return Err(self.fail());
        }
        self.inner.write_at(at, bytes)
    }

    fn cut(&mut self, len: u64) -> Result<(), Failed>
        requires { ForSome (D.state self.old.inner).contents (λ c. len ≤ length c.bytes) }
        ensures cut { OnOk result ((D.state self.new.inner).contents
            ≡ option_map (after_cut len) (D.state self.old.inner).contents) }
        ensures broken { OnErr result (WhereTold (IsBrokenCut len)
            (D.state self.old.inner).contents (D.state self.new.inner).contents) }
        ensures cause { HasCause (stop_state (D.state self.old.inner) self.old).faults
            (stop_state (D.state self.new.inner) self.new).faults result }

        ensures stops { IsTrue (stops_by self.old) → IsErr result }
        ensures stopped { IsTrue (stops_by self.old) → self.new.inner ≡ self.old.inner }
        ensures passes { stops_by self.old ≡ false
            → Passes (D.state self.old.inner) (D.state self.new.inner) self.old self.new result }
        ensures faulted { IsTrue (stops_by self.old)
            → self.new.faults ≡ counted_by 1 self.old.faults }
        ensures made { self.new.made ≡ counted_by 1 self.old.made }
        ensures stop { self.new.stop ≡ self.old.stop }
    {
        self.count();
        if self.has_stopped() {
            return Err(self.fail());
        }
        self.inner.cut(len)
    }

    fn sync(&mut self) -> Result<(), Failed>
        ensures synced { OnOk result ((D.state self.new.inner).contents
            ≡ option_map after_sync (D.state self.old.inner).contents) }
        ensures possible { OnOk result (IfSome (D.state self.old.inner).contents
            (λ c. IsImage c c.bytes)) }
        ensures kept { OnErr result
            ((D.state self.new.inner).contents ≡ (D.state self.old.inner).contents) }
        ensures cause { HasCause (stop_state (D.state self.old.inner) self.old).faults
            (stop_state (D.state self.new.inner) self.new).faults result }

        ensures stops { IsTrue (stops_by self.old) → IsErr result }
        ensures stopped { IsTrue (stops_by self.old) → self.new.inner ≡ self.old.inner }
        ensures passes { stops_by self.old ≡ false
            → Passes (D.state self.old.inner) (D.state self.new.inner) self.old self.new result }
        ensures faulted { IsTrue (stops_by self.old)
            → self.new.faults ≡ counted_by 1 self.old.faults }
        ensures made { self.new.made ≡ counted_by 1 self.old.made }
        ensures stop { self.new.stop ≡ self.old.stop }
    {
        self.count();
        if self.has_stopped() {
            return Err(self.fail());
        }
        self.inner.sync()
    }

    fn faults(&self) -> u64 {
        self.inner.faults().saturating_add(self.faults)
    }
}
