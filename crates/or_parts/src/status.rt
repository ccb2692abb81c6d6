//! The bits of SR, the supervision register (OpenRISC 1000 Architecture Manual, section 4.5).

/// Supervisor mode.
pub const SM: u32 = 0x1;
/// Tick timer exceptions are enabled.
pub const TEE: u32 = 0x2;
/// Interrupt exceptions are enabled.
pub const IEE: u32 = 0x4;
/// The data cache is on.
pub const DCE: u32 = 0x8;
/// The instruction cache is on.
pub const ICE: u32 = 0x10;
/// The data MMU is on.
pub const DME: u32 = 0x20;
/// The instruction MMU is on.
pub const IME: u32 = 0x40;
/// The flag that comparisons set and conditional jumps read.
pub const F: u32 = 0x200;
/// The carry.
pub const CY: u32 = 0x400;
/// The overflow.
pub const OV: u32 = 0x800;
/// Overflow exceptions are enabled.
pub const OVE: u32 = 0x1000;
/// The last exception came in a delay slot.
pub const DSX: u32 = 0x2000;
/// Fixed one.
pub const FO: u32 = 0x8000;

/// The bits that an exception entry clears.
pub const CLEARED_BY_ENTRY: u32 = TEE | IEE | DME | IME | OVE;
/// The bits that a write can change.
pub const WRITABLE: u32 = SM | TEE | IEE | DCE | ICE | DME | IME | F | CY | OV | OVE | DSX;
