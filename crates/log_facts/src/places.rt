//! What the entries before each place of a log say of its machine.
ghost use Rattle.std.specs.Prelude.{◌≡◌, IfOk};
ghost use Rattle.log_facts.specs.Places.{start, place_after, ArePlaces};

use basics::NoMemory;
use log_model::Entry;
use std::alloc::Global;

/// What the entries before a place say.
#[derive(Clone, Copy, Debug)]
pub(crate) struct PlaceFacts {
    /// Whether tracking was enabled.
    pub enabled: bool,
    /// The place of the last Off entry, if the machine is off.
    pub last_off: Option<u64>,
}

impl PlaceFacts {
    /// Before the first entry.
    const START: PlaceFacts = PlaceFacts {
        enabled: false,
        last_off: None,
    };

    /// Behind one entry more, which stands at `place`.
    fn after(self, place: u64, entry: &Entry) -> PlaceFacts
        ensures { result ≡ place_after self place entry.now }
    {
        PlaceFacts {
            enabled: self.enabled || entry.act.is_enable(),
            last_off: if entry.act.is_off() {
                Some(place)
            } else if entry.act.is_on() {
                None
            } else {
                self.last_off
            },
        }
    }
}

/// Those of each place, in order. It answers only want of memory.
pub(crate) fn places_of(alloc: Global, log: &[Entry]) -> Result<Vec<PlaceFacts>, NoMemory>
    ensures { IfOk result (λ places. ArePlaces log.now places.items) }
{
    let mut places = Vec::with_capacity(alloc, log.len())?;
    let mut now = PlaceFacts::START;
    for (place, entry) in log.iter().enumerate() {
        places.push(now)?;
        now = now.after(place as u64, entry);
    }
    Ok(places)
}
