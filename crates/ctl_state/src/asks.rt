//! Laws of what records ask of a machine, and of the lines that are told of a migration. Each
//! function's contract is the law, and its body does nothing.
ghost use Rattle.std.specs.Prelude.{List};
ghost use Rattle.ctl_state.specs.declared.copies.DiskCopy.{DiskCopy};
ghost use Rattle.ctl_state.specs.Asks.{BasesAreStored, NamedSnapshotsLive};
ghost use Rattle.ctl_state.specs.SmallStatus.{SmallLines};

/// The base of a disk is the same by the log as by the records, and the snapshot whose identifiers
/// are to be stored is live.
pub fn asked_is_there()
    ensures bases { BasesAreStored }
    ensures snapshots { NamedSnapshotsLive }
{}

/// What is told of a small migration: while it is paused, once it is complete, while its cancel
/// stands, and where it failed although its final snapshot told a place.
pub fn small_lines()
    ensures { (copies : List DiskCopy) → SmallLines copies }
{}
