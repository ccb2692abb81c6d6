//! The numbers of the special registers (OpenRISC 1000 Architecture Manual, section 4.3).

pub use or_words::cache_registers::{DCBFR, DCBIR};

/// Version.
pub const VR: u32 = 0;
/// Which units are present.
pub const UPR: u32 = 1;
/// Configuration of the CPU.
pub const CPUCFGR: u32 = 2;
/// Configuration of the data MMU.
pub const DMMUCFGR: u32 = 3;
/// Configuration of the instruction MMU.
pub const IMMUCFGR: u32 = 4;
/// Configuration of the data cache.
pub const DCCFGR: u32 = 5;
/// Configuration of the instruction cache.
pub const ICCFGR: u32 = 6;
/// The next program counter.
pub const NPC: u32 = 16;
/// The supervision register.
pub const SR: u32 = 17;
/// The previous program counter.
pub const PPC: u32 = 18;
/// The pc that an exception entry saves.
pub const EPCR0: u32 = 32;
/// The effective address that an exception entry saves.
pub const EEAR0: u32 = 48;
/// The SR that an exception entry saves.
pub const ESR0: u32 = 64;
/// The core's number.
pub const COREID: u32 = 128;
/// How many cores there are.
pub const NUMCORES: u32 = 129;
/// The first general register.
pub const GPR0: u32 = 1024;
/// The last general register.
pub const GPR31: u32 = 1055;
/// The first register of the first shadow set.
pub const GPR32: u32 = 1056;
/// The last register of the first shadow set.
pub const GPR63: u32 = 1087;
/// The data MMU's first match register.
pub const DTLBW0MR0: u32 = 2560;
/// The data MMU's last match register.
pub const DTLBW0MR63: u32 = 2623;
/// The data MMU's first translate register.
pub const DTLBW0TR0: u32 = 2688;
/// The data MMU's last translate register.
pub const DTLBW0TR63: u32 = 2751;
/// The instruction MMU's first match register.
pub const ITLBW0MR0: u32 = 4608;
/// The instruction MMU's last match register.
pub const ITLBW0MR63: u32 = 4671;
/// The instruction MMU's first translate register.
pub const ITLBW0TR0: u32 = 4736;
/// The instruction MMU's last translate register.
pub const ITLBW0TR63: u32 = 4799;
/// Instruction cache block invalidate.
pub const ICBIR: u32 = 8194;
/// The accumulator's low word.
pub const MACLO: u32 = 10241;
/// The accumulator's high word.
pub const MACHI: u32 = 10242;
/// The interrupt controller's mask.
pub const PICMR: u32 = 18432;
/// The interrupt controller's status.
pub const PICSR: u32 = 18434;
/// The tick timer's mode.
pub const TTMR: u32 = 20480;
/// The tick timer's count.
pub const TTCR: u32 = 20481;
