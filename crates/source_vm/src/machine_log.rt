//! The log of a machine, with what it says kept beside it, so that no call walks the log. It is
//! legal for the capacities of the machine's disks, which stand here for that reason. Why a call of
//! the machine is refused is decided here, before anything changes.
ghost use Rattle.std.specs.Prelude.{◌≡◌, ◌∷◌, ◌++◌, [], true, false, IfOk, OnOk, OnErr};
ghost use Rattle.log_model.specs.declared.entry.Act.{Act};
ghost use Rattle.log_model.specs.declared.entry.Entry.{Entry};
ghost use Rattle.log_model.specs.Legal.{Legal, all_of};
ghost use Rattle.log_model.specs.Laws.{FitsBehind};
ghost use Rattle.log_model.specs.Link.{facts_of, snapped_after, IsLeastOwned};
ghost use Rattle.log_model.specs.Refusals.{is_live};

mod refusals;

use crate::kept_facts::KeptFacts;
use crate::live::{LiveSnap, follow, least_owned_in, owner_in};
use log_model::{Act, Entry, Facts, Owner, Snapped};
use sector_model::NoMemory;
use std::alloc::Global;
use std::marker::Model;

/// The entries of a machine whose disks have these capacities.
#[derive(Debug, Drop)]
pub(crate) struct MachineLog {
    capacities: Vec<u64>,
    entries: Vec<Entry>,
    facts: KeptFacts,
    live: Vec<LiveSnap>,
    /// Whether both lists have room for one more.
    room: bool,
}

impl Model for MachineLog {
    ghost use Rattle.source_vm.specs.MachineLog.{LogState, IsKept};

    ghost Value = { LogState };

    ghost view = { λ a.
        record { capacities = a.capacities.items; entries = a.entries.items; room = a.room } };

    ghost invariant = { λ a. IsKept a.capacities.items a.entries a.facts a.live a.room };
}

impl MachineLog {
    /// The empty log. It answers only want of memory.
    pub fn new(alloc: Global, capacities: &[u64]) -> Result<MachineLog, NoMemory>
        ensures { IfOk result (λ log. log
            ≡ record { capacities = capacities.now; entries = []; room = false }) }
    {
        Ok(MachineLog {
            capacities: capacities.to_vec(alloc)?,
            entries: Vec::new(alloc),
            facts: KeptFacts::new(),
            live: Vec::new(alloc),
            room: false,
        })
    }

    /// The capacities of the disks, in sectors.
    pub fn capacities(&self) -> &[u64]
        ensures { result.now ≡ self.now.capacities }
    {
        self.capacities.as_slice()
    }

    /// The entries, in order.
    pub fn entries(&self) -> &[Entry]
        ensures entries { result.now ≡ self.now.entries }
        ensures legal { Legal (all_of self.now.capacities) self.now.entries }
    {
        self.entries.as_slice()
    }

    /// What the machine is like.
    pub fn facts(&self) -> Facts
        ensures { result ≡ facts_of self.now.entries }
    {
        Facts {
            on: self.facts.on,
            entries: self.entries.len() as u64,
            enabled: self.facts.is_enabled(),
            tracking: self.facts.is_active(),
            snaps: self.facts.taken,
        }
    }

    /// What taking a snapshot now tells.
    pub fn snapped(&self) -> Snapped
        ensures { result ≡ snapped_after self.now.entries }
    {
        Snapped {
            id: self.facts.taken + 1,
            mark: self.entries.len() as u64,
            off_place: self.facts.last_off,
        }
    }

    /// Whether the snapshot is live.
    pub fn is_live(&self, id: u32) -> bool
        ensures { result ≡ is_live id self.now.entries }
    {
        owner_in(self.live.as_slice(), id).is_some()
    }

    /// The least live snapshot of an owner from `from` on.
    pub fn least_owned(&self, owner: Owner, from: u32) -> Option<u32>
        ensures { IsLeastOwned owner from self.now.entries result }
    {
        least_owned_in(self.live.as_slice(), owner, from)
    }

    /// Makes room for one entry. It answers only want of memory.
    pub fn reserve(&mut self) -> Result<(), NoMemory>
        ensures ok { OnOk result (self.new ≡ record self.old { room = true }) }
        ensures err { OnErr result (self.new ≡ self.old) }
    {
        self.entries.reserve(1)?;
        self.live.reserve(1)?;
        self.room = true;
        Ok(())
    }

    /// Adds an entry that may stand next.
    pub fn push(&mut self, who: u32, act: Act)
        requires room { self.old.room ≡ true }
        requires fits { FitsBehind (all_of self.old.capacities) self.old.entries who act }
        ensures { self.new ≡ record self.old {
          entries = self.old.entries ++ record { who = who; act = act } ∷ [];
          room = false;
        } }
    {
        self.facts = self.facts.after(&act, self.entries.len() as u64);
        follow(&mut self.live, &act);
        self.entries.push(Entry { who, act }).unwrap();
        self.room = false;
    }
}
