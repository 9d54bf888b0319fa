//! A plain, slow machine that keeps its entries and nothing else, and computes each answer from all
//! of them at each call. It shows that the contract of [`Link`] can be met, computes the
//! definitions on small inputs, and is what faster machines are compared with. It stays plain: a
//! query looks at every sector of its disk.
ghost use Rattle.std.specs.Prelude.{◌≡◌, [], length, IfOk, OnOk, OnErr};
ghost use Rattle.log_model.specs.declared.entry.Act.{Act};
ghost use Rattle.log_model.specs.Refusals.{write_refusal};
ghost use Rattle.basics.specs.Refusal.{IsRefusedOr};
ghost use Rattle.log_model.specs.PlainMachine.{plain_state, with_entry};

use crate::folds::{facts_of, least_owned, mark, owner_of};
use crate::query::{
    answer_page, before, between, capacity_past, in_force, is_on_disk, read_into, since_place,
    through,
};
use crate::{Entry, Facts, Link, LinkRefused, Owner, Snapped, WriteRefused, acts};
use change_id::{ChangeId, Since};
use sector_model::{NoMemory, Page, Sector};
use std::alloc::Global;
use std::marker::Model;

/// A machine that one caller alone reaches, as the list of its entries.
#[derive(Debug, Drop)]
pub struct PlainMachine {
    alloc: Global,
    machine: u32,
    capacities: Vec<u64>,
    caller: u32,
    entries: Vec<Entry>,
}

impl Model for PlainMachine {
    ghost use Rattle.log_model.specs.Legal.{Legal, all_of};
    ghost use Rattle.log_model.specs.Link.{LinkState};
    ghost use Rattle.log_model.specs.PlainMachine.{plain_state};

    ghost Value = { LinkState };

    ghost view = { λ a. plain_state a.machine a.capacities.items a.caller a.entries.items };

    ghost invariant = { λ a. Legal (all_of a.capacities.items) a.entries.items };
}

impl PlainMachine {
    /// A machine with these capacities, on and with an empty log, for a caller of this number. It
    /// keeps the allocator for its log. It answers only want of memory.
    pub fn new(
        alloc: Global,
        machine: u32,
        capacities: &[u64],
        caller: u32,
    ) -> Result<PlainMachine, NoMemory>
        ensures { IfOk result (λ made. made ≡ plain_state machine capacities.now caller []) }
    {
        Ok(PlainMachine {
            alloc,
            machine,
            capacities: capacities.to_vec(alloc)?,
            caller,
            entries: Vec::new(alloc),
        })
    }

    /// Adds a guest's write of these sectors from `first` on, under the number `who`.
    /// [`WriteRefused::Off`], [`WriteRefused::Range`], [`WriteRefused::LogFull`], each with the
    /// cause that it names, and [`WriteRefused::NoMemory`]. A refused write changes nothing.
    pub fn write(
        &mut self,
        who: u32,
        disk: u32,
        first: u64,
        sectors: &[Sector],
    ) -> Result<(), WriteRefused>
        ensures ok { OnOk result (self.new ≡ with_entry self.old
            (record { who = who; act = Act.Write disk first sectors.now })) }
        ensures err { OnErr result (self.new ≡ self.old) }
        ensures refused { IsRefusedOr
            (write_refusal self.old.capacities disk first (length sectors.now) self.old.seen)
            WriteRefused.NoMemory result }
    {
        acts::write(
            &mut self.entries,
            self.capacities.as_slice(),
            self.alloc,
            who,
            disk,
            first,
            sectors,
        )
    }

    /// The entries, in order.
    pub fn log(&self) -> &[Entry]
        ensures { result.now ≡ self.now.seen }
    {
        self.entries.as_slice()
    }
}

impl Link for PlainMachine {
    ghost state = { λ machine. machine };

    fn snap(&mut self, owner: Owner, must_be_off: bool) -> Result<Snapped, LinkRefused> {
        acts::snap(&mut self.entries, self.caller, owner, must_be_off)
    }

    fn remove(&mut self, owner: Owner, id: u32) -> Result<(), LinkRefused> {
        acts::remove(&mut self.entries, self.caller, owner, id)
    }

    fn change_id(&mut self, id: u32, disk: u32) -> Result<Option<ChangeId>, LinkRefused> {
        let log = self.entries.as_slice();
        if owner_of(log, id).is_none() {
            return Err(LinkRefused::UnknownSnap);
        }
        if disk as usize >= self.capacities.len() {
            return Err(LinkRefused::Range);
        }
        Ok(in_force(self.machine, through(log, id), disk))
    }

    fn query(
        &mut self,
        id: u32,
        disk: u32,
        since: Since,
        start: u64,
        page: &mut Page,
    ) -> Result<(), LinkRefused> {
        let log = self.entries.as_slice();
        if owner_of(log, id).is_none() {
            return Err(LinkRefused::UnknownSnap);
        }
        let capacity = capacity_past(self.capacities.as_slice(), disk, start)?;
        let from = since_place(self.machine, log, disk, id, since)?;
        answer_page(
            between(log, from, mark(log, id)),
            disk,
            capacity,
            start,
            page,
        );
        Ok(())
    }

    fn read_snap(
        &mut self,
        id: u32,
        disk: u32,
        first: u64,
        buf: &mut [Sector],
    ) -> Result<(), LinkRefused> {
        let log = self.entries.as_slice();
        if owner_of(log, id).is_none() {
            return Err(LinkRefused::UnknownSnap);
        }
        if !is_on_disk(self.capacities.as_slice(), disk, first, buf.len() as u64) {
            return Err(LinkRefused::Range);
        }
        read_into(before(log, id), disk, first, buf);
        Ok(())
    }

    fn power_off(&mut self) -> Result<u64, LinkRefused> {
        acts::power_off(&mut self.entries, self.caller)
    }

    fn power_on(&mut self) -> Result<u64, LinkRefused> {
        acts::power_on(&mut self.entries, self.caller)
    }

    fn reset(&mut self, disk: u32) -> Result<(), LinkRefused> {
        acts::reset(
            &mut self.entries,
            self.caller,
            self.capacities.as_slice(),
            disk,
        )
    }

    fn enable(&mut self) -> Result<(), LinkRefused> {
        acts::enable(&mut self.entries, self.caller)
    }

    fn facts(&mut self) -> Facts {
        let log = self.entries.as_slice();
        facts_of(log)
    }

    fn owned_from(&mut self, owner: Owner, from: u32) -> Option<u32> {
        let log = self.entries.as_slice();
        least_owned(log, owner, from)
    }
}
