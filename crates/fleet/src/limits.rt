//! How large a fleet may become. Whoever tests one of these cites it.

/// The most hosts of a fleet: one for each of its machines, if need be.
pub const MAX_HOSTS: usize = 64;

/// The most machines of a fleet. A machine's log holds at most 2^16 written sectors, 32 MiB, and
/// its disks' layers as much again; 64 machines then take 4 GiB.
pub const MAX_VMS: usize = 64;
