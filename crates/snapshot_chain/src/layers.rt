//! Steps on the list of layers, the oldest of them first.
ghost use Rattle.std.specs.Prelude.{◌≡◌, ◌+◌, ◌<◌, length, IfOk, OnOk, nat_eq, ℕ};
ghost use Rattle.std.specs.List.{list_any};
ghost use Rattle.std.specs.List.Sorted.{IsStrictlyIncreasing};
ghost use Rattle.std.specs.Vec.{vec_capacity};
ghost use Rattle.std.specs.BTreeSet.{IsOrdered};
ghost use Rattle.std.specs.Ordering.{nat_cmp};
ghost use Rattle.snapshot_chain.specs.Layer.{IsRoomFor};
ghost use Rattle.snapshot_chain.specs.Layers.{has_found, layer_at, MergedAt};

use crate::Layer;
use sector_model::NoMemory;
use std::alloc::Global;
use std::collections::BTreeSet;
use std::mem;

/// Takes the layer at an index out, and joins it with the next newer one in the room for both.
pub(crate) fn merge_down(layers: &mut Vec<Layer>, index: usize, room: Layer)
    requires within { index + 1 < length layers.old.items }
    requires room { IsRoomFor (layer_at layers.old.items index)
        (layer_at layers.old.items (index + 1)) room }
    ensures merged { MergedAt index layers.old.items layers.new.items }
    ensures capacity { vec_capacity layers.new ≡ vec_capacity layers.old }
{
    let lower = layers.remove(index);
    let upper = mem::replace(&mut layers[index], room);
    layers[index].join(lower, upper);
}

/// The numbers of the blocks of which a layer has a sector, ascending.
pub(crate) fn blocks_of(alloc: Global, layers: &[Layer]) -> Result<Vec<u64>, NoMemory>
    ensures ascending { IfOk result (λ blocks. IsStrictlyIncreasing blocks.items) }
    ensures members { IfOk result (λ blocks. (b : ℕ)
        → list_any (nat_eq b) blocks.items ≡ has_found layers.now b) }
{
    let mut blocks = BTreeSet::new(alloc);
    for layer in layers {
        layer.add_blocks(&mut blocks)?;
    }
    let list = list_of(alloc, &blocks)?;
    Ok(list)
}

/// The numbers of a set, ascending.
fn list_of(alloc: Global, blocks: &BTreeSet<u64>) -> Result<Vec<u64>, NoMemory>
    ensures keys { IfOk result (λ list. list.items ≡ blocks.now.keys) }
    ensures ordered { IsOrdered nat_cmp blocks.now }
{
    let mut list = Vec::new(alloc);
    for block in blocks {
        list.push(*block)?;
    }
    Ok(list)
}
