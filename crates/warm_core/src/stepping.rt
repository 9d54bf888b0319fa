//! Events happen to the world of one disk, one or more in a row.
ghost use Rattle.std.specs.Prelude.{◌≡◌, IfOk, IfErr, OnOk};
ghost use Rattle.warm_core.specs.DiskWorld.{world_of, StandsSound, IsRefusalOf};
ghost use Rattle.warm_core.specs.Events.{MayHappen, after, Follows, IsCutShort};
ghost use Rattle.warm_core.specs.Laws.{GoesOn};

use crate::conditions::may_happen;
use crate::effects::carry_out;
use crate::{CoreRefused, DiskWorld, Event};
use sector_model::NoMemory;
use std::alloc::Global;

/// Carries an event out on a sound world, which stays sound. [`CoreRefused::NotNow`] exactly where
/// the event may not happen to it, [`CoreRefused::NoMemory`]. A refused step gives the world back
/// as it was.
pub fn step(
    alloc: Global,
    mut world: DiskWorld,
    event: Event,
) -> Result<DiskWorld, (DiskWorld, CoreRefused)>
    requires { StandsSound world }
    ensures happens { OnOk result (MayHappen event (world_of world)) }
    ensures effect { IfOk result (λ next. world_of next ≡ after event (world_of world)) }
    ensures sound { IfOk result StandsSound }
    ensures refused { IfErr result (λ refused. IsRefusalOf event (world_of world) refused.1) }
    ensures kept { IfErr result (λ refused. refused.0 ≡ world) }
{
    if !may_happen(&world, &event) {
        return Err((world, CoreRefused::NotNow));
    }
    match carry_out(alloc, &mut world, event) {
        Ok(()) => Ok(world),
        Err(_) => Err((world, CoreRefused::NoMemory)),
    }
}

/// Carries events out in a row, each where it may happen then, and passes over the others. Whatever
/// they are, a sound world stays sound, and one that is complete stays so. Where memory runs out at
/// an event that might happen, it gives back the world as the events before that one left it.
pub fn follow(
    alloc: Global,
    mut world: DiskWorld,
    events: Vec<Event>,
) -> Result<DiskWorld, (DiskWorld, NoMemory)>
    requires { StandsSound world }
    ensures all { IfOk result (λ end. Follows events.items (world_of world) (world_of end)) }
    ensures law { IfOk result (λ end. GoesOn (world_of world) (world_of end)) }
    ensures sound { IfOk result StandsSound }
    ensures cut { IfErr result (λ cut. StandsSound cut.0
        × IsCutShort events.items (world_of world) (world_of cut.0)) }
    ensures law_cut { IfErr result (λ cut. GoesOn (world_of world) (world_of cut.0)) }
{
    for event in events {
        world = match step(alloc, world, event) {
            Ok(next) => next,
            Err((same, CoreRefused::NotNow)) => same,
            Err((same, CoreRefused::NoMemory)) => return Err((same, NoMemory)),
        };
    }
    Ok(world)
}
