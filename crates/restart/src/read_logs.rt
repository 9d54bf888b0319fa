//! The logs of the machines that records speak of. Each is read at the first record of a migration
//! of its machine, and never again.
ghost use Rattle.std.specs.Prelude.{◌≡◌, ◌↔◌, IfOk, OnOk, IsSome, IsTrue};
ghost use Rattle.std.specs.BTreeMap.{IsEmpty, get};
ghost use Rattle.std.specs.Ordering.{nat_cmp};
ghost use Rattle.restart.specs.BorneOut.{IsInLog, HasItsSnapshot};
ghost use Rattle.restart.specs.ReadLogs.{AreOf, GainsOnly};

use basics::NoMemory;
use ctl_state::Migration;
use fleet::Fleet;
use log_facts::LogFacts;
use record_codec::Record;
use source_vm::Machine;
use std::alloc::Global;
use std::collections::BTreeMap;

/// What the logs that were read tell, by the numbers of their machines.
#[derive(Drop)]
pub(crate) struct ReadLogs {
    alloc: Global,
    pub(crate) facts: BTreeMap<u32, LogFacts>,
}

impl ReadLogs {
    /// None yet.
    pub(crate) fn none(alloc: Global) -> ReadLogs
        ensures { IsEmpty result.facts }
    {
        ReadLogs {
            alloc,
            facts: BTreeMap::new(alloc),
        }
    }

    /// Whether what the record says stands in the log of the migration's machine, where the
    /// migration was so before it. It answers want of memory too.
    pub(crate) fn bear_out(
        &mut self,
        fleet: &Fleet,
        m: &Migration,
        r: &Record,
    ) -> Result<bool, NoMemory>
        requires { AreOf fleet.now self.old.facts }
        ensures of { AreOf fleet.now self.new.facts }
        ensures said { IfOk result (λ said.
            IsTrue said ↔ IsInLog fleet.now m.now r.now) }
    {
        let Some(machine) = fleet.machine(m.vm) else {
            return Ok(false);
        };
        self.read(machine)?;
        self.facts.get(&m.vm).unwrap().bears_out(machine, m, r)
    }

    /// Whether the current snapshot of the migration is there, if it is live, or may be gone. It
    /// answers want of memory too.
    pub(crate) fn have_its_snapshot(
        &mut self,
        fleet: &Fleet,
        m: &Migration,
    ) -> Result<bool, NoMemory>
        requires { AreOf fleet.now self.old.facts }
        ensures of { AreOf fleet.now self.new.facts }
        ensures said { IfOk result (λ said.
            IsTrue said ↔ HasItsSnapshot fleet.now m.now) }
    {
        let Some(machine) = fleet.machine(m.vm) else {
            return Ok(false);
        };
        self.read(machine)?;
        Ok(self.facts.get(&m.vm).unwrap().has_its_snapshot(m))
    }

    /// Reads the log of a machine, if it wasn't read yet.
    fn read(&mut self, machine: &Machine) -> Result<(), NoMemory>
        ensures gains { GainsOnly machine.now self.old.facts self.new.facts }
        ensures there { OnOk result (IsSome (get nat_cmp self.new.facts machine.now.number)) }
    {
        let number = machine.number();
        if !self.facts.contains_key(&number) {
            let facts = LogFacts::of(self.alloc, machine)?;
            self.facts.insert(number, facts)?;
        }
        Ok(())
    }
}
