//! The command `inventory`: each row of the inventory becomes a line of the reply.
ghost use Rattle.std.specs.Prelude.{◌≡◌, IfOk, map};
ghost use Rattle.fleet.specs.Sound.{AllAreIn};
ghost use Rattle.fleet_commands.specs.commands.Inventory.{host_line, vm_line, inventory_reply};

use basics::{NoMemory, Sequence};
use fleet::Fleet;
use inventory::{HostRow, VmRow, hosts, machines};
use reply_json::{HostLine, Reply, VmLine};
use std::alloc::Global;

/// Lists the hosts and machines of a fleet, none of which may be out, in the order in which they
/// were added. It is never refused, and answers only want of memory.
pub fn run_inventory(alloc: Global, fleet: &Fleet) -> Result<Reply, NoMemory>
    requires { AllAreIn fleet.now }
    ensures { IfOk result (λ reply. reply ≡ inventory_reply fleet.now) }
{
    Ok(Reply::Inventory {
        hosts: host_lines(alloc, hosts(alloc, fleet)?)?,
        vms: vm_lines(alloc, machines(alloc, fleet)?)?,
    })
}

/// A line a host.
fn host_lines(alloc: Global, rows: Sequence<HostRow>) -> Result<Sequence<HostLine>, NoMemory>
    ensures { IfOk result (λ lines. lines ≡ map host_line rows) }
{
    let mut lines = Vec::new(alloc);
    for row in rows.into_vec() {
        lines.push(host_line(row))?;
    }
    Ok(Sequence::from_vec(lines))
}

fn host_line(row: HostRow) -> HostLine
    ensures { result ≡ host_line row }
{
    HostLine {
        limit: row.limit,
        name: row.name,
    }
}

/// A line a machine.
fn vm_lines(alloc: Global, rows: Sequence<VmRow>) -> Result<Sequence<VmLine>, NoMemory>
    ensures { IfOk result (λ lines. lines ≡ map vm_line rows) }
{
    let mut lines = Vec::new(alloc);
    for row in rows.into_vec() {
        lines.push(vm_line(row))?;
    }
    Ok(Sequence::from_vec(lines))
}

fn vm_line(row: VmRow) -> VmLine
    ensures { result ≡ vm_line row }
{
    VmLine {
        disks: row.capacities,
        host: row.host,
        name: row.name,
        number: row.number,
        on: row.on,
        tracking: row.tracking,
    }
}
