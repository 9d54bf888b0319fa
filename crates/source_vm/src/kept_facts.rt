//! What a log says of its machine, kept so that no call has to walk the log. Each entry changes it
//! by its act alone.
ghost use Rattle.std.specs.Prelude.{◌≡◌, ◌+◌, ◌<◌, ◌^◌, None, true};
ghost use Rattle.log_model.specs.Entry.{sectors_of};
ghost use Rattle.log_model.specs.declared.folds.Tracking.{Tracking};
ghost use Rattle.log_model.specs.Link.{is_active};
ghost use Rattle.source_vm.specs.KeptFacts.{started, was_enabled, facts_after};

use log_model::{Act, Tracking};

/// What the log says.
#[derive(Clone, Copy, Debug)]
pub(crate) struct KeptFacts {
    /// Whether the machine is on.
    pub on: bool,
    /// How far change tracking has come.
    pub tracking: Tracking,
    /// How many snapshots were taken.
    pub taken: u32,
    /// How many sectors all writes have together.
    pub written: u64,
    /// The place of the last Off entry, if the machine is off.
    pub last_off: Option<u64>,
}

impl KeptFacts {
    /// Those of an empty log.
    pub fn new() -> KeptFacts
        ensures { result ≡ record {
          on = true;
          tracking = Tracking.Never;
          taken = 0;
          written = 0;
          last_off = None;
        } }
    {
        KeptFacts {
            on: true,
            tracking: Tracking::Never,
            taken: 0,
            written: 0,
            last_off: None,
        }
    }

    /// Those of the log with one entry more, which stands at this place.
    pub fn after(self, act: &Act, place: u64) -> KeptFacts
        requires { self.written + sectors_of act.now < 2 ^ 64 }
        ensures { result ≡ facts_after place act.now self }
    {
        let mut facts = self;
        match act {
            Act::Write { .. } => facts.written += act.sectors(),
            Act::Snap { id, .. } => {
                facts.taken = *id;
                facts.tracking = started(self.tracking);
            }
            Act::Remove { .. } | Act::Reset { .. } => {}
            Act::Enable => facts.tracking = Tracking::Enabled,
            Act::Off => {
                facts.on = false;
                facts.last_off = Some(place);
            }
            Act::On => {
                facts.on = true;
                facts.last_off = None;
                facts.tracking = started(self.tracking);
            }
        }
        facts
    }

    /// Whether tracking is active.
    pub fn is_active(&self) -> bool
        ensures { result ≡ is_active self.now.tracking }
    {
        match self.tracking {
            Tracking::Never | Tracking::Enabled => false,
            Tracking::Active => true,
        }
    }

    /// Whether tracking was enabled.
    pub fn is_enabled(&self) -> bool
        ensures { result ≡ was_enabled self.now.tracking }
    {
        match self.tracking {
            Tracking::Never => false,
            Tracking::Enabled | Tracking::Active => true,
        }
    }
}

/// How far tracking has come with a snapshot or a power-on.
fn started(tracking: Tracking) -> Tracking
    ensures { result ≡ started tracking }
{
    match tracking {
        Tracking::Never => Tracking::Never,
        Tracking::Enabled | Tracking::Active => Tracking::Active,
    }
}
