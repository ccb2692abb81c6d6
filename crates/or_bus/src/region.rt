//! What answers an access.

ghost use Rattle.std.specs.Prelude.{◌≡◌, ◌%◌, nat_lt, false};
ghost use Rattle.or_parts.specs.Memory.{bytes_of};
ghost use Rattle.or_parts.specs.MemoryMap.{register_at};
ghost use Rattle.or_model.specs.Bus.{region_of, region_by};
ghost use Rattle.or_bus.specs.Places.{IsInside, is_ram};

use or_dev::register_at;
use or_model::Region;
use or_words::Width;

/// What answers an access of this width at this address, on a board with so many bytes of RAM and so many cores.
#[inline]
#[tactic(auto, unfolding(or_model::specs::Bus::region_of))]
pub fn region_of(size: u32, cores: u32, pa: u32, width: Width) -> Region
    requires { pa % bytes_of width ≡ 0 }
    ensures value { result ≡ region_of size cores pa width }
    ensures inside { IsInside size cores pa result }
    ensures ram { is_ram result ≡ nat_lt pa size }
{
    if pa < size {
        Region::Ram
    } else {
        device_region(cores, pa, width)
    }
}

// A device that answers, or nothing.
fn device_region(cores: u32, pa: u32, width: Width) -> Region
    requires { pa % bytes_of width ≡ 0 }
    ensures value { result ≡ region_by (register_at cores pa width) }
    ensures inside { IsInside 0 cores pa result }
    ensures ram { is_ram result ≡ false }
{
    match register_at(cores, pa, width) {
        Some((device, offset)) => Region::Register(device, offset),
        None => Region::Nothing,
    }
}
