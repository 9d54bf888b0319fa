//! Sizes and limits. Whoever tests one of these cites it, so that none has two values.

/// Bytes of a sector.
pub const SECTOR_BYTES: usize = 512;

/// The most disks of a machine.
pub const MAX_DISKS: usize = 16;

/// The most sectors of a disk: 256 GiB.
pub const MAX_DISK_SECTORS: u64 = 1 << 29;

/// The most disks of one host that may be in flight at once, by the limit that it is given.
pub const MAX_HOST_LIMIT: u32 = 1_024;

/// The most sectors of one write: 64 KiB.
pub const MAX_WRITE_SECTORS: u64 = 128;

/// The most sectors that all writes of a machine have together: 32 MiB, since its log keeps what
/// was written.
pub const MAX_LOGGED_SECTORS: u64 = 1 << 16;

/// The longest interval between the copies of a plan, in minutes: a week.
pub const MAX_INTERVAL: u32 = 10_080;
