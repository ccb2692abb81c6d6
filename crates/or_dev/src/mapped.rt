//! Which device answers an access: a walk through the memory map.

ghost use Rattle.std.specs.Prelude.{◌≡◌, ◌+◌, ◌*◌, ◌%◌, ◌==◌};
ghost use Rattle.or_parts.specs.Memory.{bytes_of};
ghost use Rattle.or_parts.specs.MemoryMap.{is_in, is_mapped, register_in, register_at};
ghost use Rattle.or_dev.specs.Devices.{IsRegisterAt};

use or_parts::memory_map::{Device, MEMORY_MAP, Mapping};
use or_words::Width;

/// The device that answers an access of this width at an address that is aligned for it, and the offset in that
/// device, on a board with so many cores, 8 at most. None exactly where no device answers.
#[inline(never)]
#[tactic(auto, unfolding(or_parts::specs::MemoryMap::register_at))]
pub fn register_at(cores: u32, pa: u32, width: Width) -> Option<(Device, u32)>
    requires { pa % bytes_of width ≡ 0 }
    ensures value { result ≡ register_at cores pa width }
    ensures inside { IsRegisterAt cores pa result }
{
    register_in(&MEMORY_MAP, cores, pa, width)
}

fn register_in(rows: &[Mapping], cores: u32, pa: u32, width: Width) -> Option<(Device, u32)>
    ensures { result ≡ register_in rows.now cores pa width }
{
    for row in rows {
        if is_mapped(row, cores, pa, width) {
            return Some((row.device, pa - row.base));
        }
    }
    None
}

fn is_mapped(row: &Mapping, cores: u32, pa: u32, width: Width) -> bool
    ensures value { result ≡ is_mapped row.now cores pa width }
{
    same_width(width, row.width) && is_in(pa, row.base, bytes_mapped(row, cores))
}

fn same_width(width: Width, own: Width) -> bool
    ensures { result ≡ (bytes_of width == bytes_of own) }
{
    width == own
}

// How many bytes the device has on a board with so many cores.
fn bytes_mapped(row: &Mapping, cores: u32) -> u64
    ensures { result ≡ row.now.bytes + row.now.bytes_per_core * cores }
{
    u64::from(row.bytes) + u64::from(row.bytes_per_core) * u64::from(cores)
}

fn is_in(pa: u32, base: u32, bytes: u64) -> bool
    ensures { result ≡ is_in pa base bytes }
{
    pa >= base && u64::from(pa - base) < bytes
}
