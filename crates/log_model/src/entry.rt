//! What happens to a machine, one entry after another.
ghost use Rattle.std.specs.Prelude.{◌≡◌, [], ◌∷◌, ◌++◌, IfOk, OnOk, OnErr};
ghost use Rattle.log_model.specs.Entry.{is_write, is_snap, takes, resets, is_enable, is_off, is_on, sectors_of};

use sector_model::{NoMemory, SectorList};
use std::alloc::Global;
use std::marker::Model;

/// The most entries that a log holds.
pub const MAX_LOG_ENTRIES: usize = 1 << 18;

/// The number of the caller that carries out migrations: snapshots in a migration's name are taken
/// and removed by it alone.
pub const MIGRATION_CALLER: u32 = 1;

/// Who a snapshot belongs to.
#[derive(Clone, Copy, Debug, PartialEq, Eq)]
pub enum Owner {
    /// The operator of the machine.
    Operator,
    /// The migration of this number.
    Migration(u32),
}

/// What an entry does to a machine.
#[derive(Debug, Drop)]
pub enum Act {
    /// Replaces the sectors of a disk from `first` on.
    Write {
        /// The disk, from 0 on.
        disk: u32,
        /// The first sector that is replaced.
        first: u64,
        /// What these sectors are from then on.
        sectors: SectorList,
    },
    /// Takes the snapshot of this number.
    Snap {
        /// Its number: 1, 2 and so on.
        id: u32,
        /// Who it belongs to.
        owner: Owner,
    },
    /// Removes that snapshot. The current contents stay.
    Remove {
        /// The number of the snapshot.
        id: u32,
    },
    /// Resets the change tracking of a disk.
    Reset {
        /// The disk, from 0 on.
        disk: u32,
    },
    /// Enables change tracking on the machine.
    Enable,
    /// Powers the machine off.
    Off,
    /// Powers it on.
    On,
}

impl Act {
    /// Whether sectors are written.
    pub fn is_write(&self) -> bool
        ensures { result ≡ is_write self.now }
    {
        matches!(self, Act::Write { .. })
    }

    /// Whether a snapshot is taken.
    pub fn is_snap(&self) -> bool
        ensures { result ≡ is_snap self.now }
    {
        matches!(self, Act::Snap { .. })
    }

    /// Whether this snapshot is taken.
    pub fn takes(&self, snapshot: u32) -> bool
        ensures { result ≡ takes snapshot self.now }
    {
        match self {
            Act::Snap { id, .. } => *id == snapshot,
            _ => false,
        }
    }

    /// Whether the tracking of this disk is reset.
    pub fn resets(&self, disk: u32) -> bool
        ensures { result ≡ resets disk self.now }
    {
        match self {
            Act::Reset { disk: other } => *other == disk,
            _ => false,
        }
    }

    /// Whether change tracking is enabled.
    pub fn is_enable(&self) -> bool
        ensures { result ≡ is_enable self.now }
    {
        matches!(self, Act::Enable)
    }

    /// Whether the machine is powered off.
    pub fn is_off(&self) -> bool
        ensures { result ≡ is_off self.now }
    {
        matches!(self, Act::Off)
    }

    /// Whether the machine is powered on.
    pub fn is_on(&self) -> bool
        ensures { result ≡ is_on self.now }
    {
        matches!(self, Act::On)
    }

    /// How many sectors are written.
    pub fn sectors(&self) -> u64
        ensures { result ≡ sectors_of self.now }
    {
        match self {
            Act::Write { sectors, .. } => sectors.as_slice().len() as u64,
            _ => 0,
        }
    }
}

/// One entry of a machine's log: who acted, and what was done.
#[derive(Debug, Drop)]
pub struct Entry {
    /// The number of the caller.
    pub who: u32,
    /// What the caller did.
    pub act: Act,
}

/// Entries in the order in which they happened.
#[derive(Debug, Drop)]
pub struct EntryList {
    entries: Vec<Entry>,
}

impl Model for EntryList {
    ghost use Rattle.std.specs.Prelude.{List};
    ghost use Rattle.log_model.specs.declared.entry.Entry.{Entry};

    ghost Value = { List Entry };

    ghost view = { λ a. a.entries.items };
}

impl EntryList {
    /// A copy of the entries. It answers only want of memory.
    pub fn of(alloc: Global, entries: &[Entry]) -> Result<EntryList, NoMemory>
        ensures { IfOk result (λ list. list ≡ entries.now) }
    {
        let mut copies = Vec::new(alloc);
        for entry in entries {
            copies.push(copied(alloc, entry)?)?;
        }
        Ok(EntryList { entries: copies })
    }

    /// Adds an entry behind the others. On [`NoMemory`] the list is as it was.
    pub fn push(&mut self, entry: Entry) -> Result<(), NoMemory>
        ensures ok { OnOk result (self.new ≡ self.old ++ entry ∷ []) }
        ensures err { OnErr result (self.new ≡ self.old) }
    {
        self.entries.push(entry)?;
        Ok(())
    }

    /// The entries, in order.
    pub fn as_slice(&self) -> &[Entry]
        ensures { result.now ≡ self.now }
    {
        self.entries.as_slice()
    }
}

/// A copy of an entry.
fn copied(alloc: Global, entry: &Entry) -> Result<Entry, NoMemory>
    ensures { IfOk result (λ copy. copy ≡ entry.now) }
{
    let act = match &entry.act {
        Act::Write {
            disk,
            first,
            sectors,
        } => Act::Write {
            disk: *disk,
            first: *first,
            sectors: SectorList::of(alloc, sectors.as_slice())?,
        },
        Act::Snap { id, owner } => Act::Snap {
            id: *id,
            owner: *owner,
        },
        Act::Remove { id } => Act::Remove { id: *id },
        Act::Reset { disk } => Act::Reset { disk: *disk },
        Act::Enable => Act::Enable,
        Act::Off => Act::Off,
        Act::On => Act::On,
    };
    Ok(Entry {
        who: entry.who,
        act,
    })
}
