//! How a pass waits for its ticket to be served.
ghost use Rattle.std.specs.Prelude.{◌≡◌, ◌≢◌, ℕ, ◌+◌, ◌%◌, ◌^◌, ◌<◌, [], Some, true, false};
ghost use Rattle.turn_lock.specs.Turn.{IsLockTable};
ghost use Rattle.turn_lock.specs.View.{Holds, is_live};

use crate::rule::{History, Look};
use crate::story::Storied;
use crate::turn::SERVED;
use crate::view::View;
use atomic_table::{Seat, Shared};
use std::hint::spin_loop;
use std::snapshot::Snapshot;
use std::sync::Wait;

// How often a waiting thread looks before it sleeps.
const MOST_LOOKS: u32 = 200;

type LockTable<V> = Shared<
    Option<V>,
    View<<V as Storied>::Frame, <V as Storied>::Entry>,
    Snapshot<V>,
    History<V>,
>;

type PassSeat<V> = Seat<Option<V>, View<<V as Storied>::Frame, <V as Storied>::Entry>>;

/// Waits until the ticket is served, and takes the value out with the seat. It looks again at
/// once for a while, and then sleeps until another ticket is served.
pub(crate) fn wait_for<V: Storied, R: Wait>(
    rt: &R,
    table: &LockTable<V>,
    seat: &mut PassSeat<V>,
    ticket: u64,
)
    requires table { (seat.old.table_id ≡ table.now.table_id) × IsLockTable table.now.table_id }
    requires live { is_live seat.old.me.0 ≡ true }
    requires free { (seat.old.me.0.holds ≡ false) × (seat.old.me.1 ≡ []) }
    requires queued { (t : ℕ) × (seat.old.me.0.ticket ≡ Some t) × (ticket ≡ t % 2 ^ 64) }
    ensures table { seat.new.table_id ≡ seat.old.table_id }
    ensures holds { Holds V.frame V.story V.who seat.old.me seat.new.me }
{
    let mut looks = 0;
    for _ in rt.forever() {
        let served = table.load::<Look<V>>(seat, SERVED);
        if served == ticket {
            return;
        }
        if looks < MOST_LOOKS {
            looks += 1;
            spin_loop();
        } else {
            table.park(rt, SERVED, (served % (1 << 32)) as u32);
        }
    }
    unreachable!()
}
