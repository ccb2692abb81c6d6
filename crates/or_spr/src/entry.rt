//! What an exception entry makes of its cause and of the place where it comes.

ghost use Rattle.std.specs.Prelude.{◌≡◌};
ghost use Rattle.or_parts.specs.Bits.{with_bits};
ghost use Rattle.or_parts.specs.Exceptions.{vector, fault_address, next_pc, restart_pc, saved_pc};

use or_parts::{Cause, PcState};

/// The word with the bits of a mask set, or cleared.
#[inline]
pub(crate) fn with_bits(word: u32, mask: u32, on: bool) -> u32
    ensures { result ≡ with_bits word mask on }
{
    if on { word | mask } else { word & !mask }
}

/// The address of the handler.
pub(crate) fn vector(cause: &Cause) -> u32
    ensures { result ≡ vector cause.now }
{
    match cause {
        Cause::BusError(_) => 0x200,
        Cause::DataPageFault(_) => 0x300,
        Cause::InsnPageFault(_) => 0x400,
        Cause::Tick => 0x500,
        Cause::Alignment(_) => 0x600,
        Cause::Illegal => 0x700,
        Cause::External => 0x800,
        Cause::DataMiss(_) => 0x900,
        Cause::InsnMiss(_) => 0xA00,
        Cause::Range => 0xB00,
        Cause::Syscall => 0xC00,
        Cause::Trap => 0xE00,
    }
}

/// What EEAR0 holds after an entry: the cause's address, else what it held.
pub(crate) fn fault_address(cause: &Cause, old: u32) -> u32
    ensures { result ≡ fault_address cause.now old }
{
    match cause {
        Cause::BusError(ea)
        | Cause::DataPageFault(ea)
        | Cause::InsnPageFault(ea)
        | Cause::Alignment(ea)
        | Cause::DataMiss(ea)
        | Cause::InsnMiss(ea) => *ea,
        Cause::Tick
        | Cause::Illegal
        | Cause::External
        | Cause::Range
        | Cause::Syscall
        | Cause::Trap => old,
    }
}

/// The address of the instruction that is executed next, the jump's destination in a delay slot.
#[inline]
pub(crate) fn next_pc(at: &PcState) -> u32
    ensures { result ≡ next_pc at.now.pc at.now.branch }
{
    match at.branch {
        Some(destination) => destination,
        None => at.pc.wrapping_add(4),
    }
}

// The instruction at pc, or the jump in whose delay slot it stands.
fn restart_pc(at: &PcState) -> u32
    ensures { result ≡ restart_pc at.now.pc at.now.branch }
{
    match at.branch {
        Some(_) => at.pc.wrapping_sub(4),
        None => at.pc,
    }
}

/// What EPCR0 holds after an entry.
pub(crate) fn saved_pc(cause: &Cause, at: &PcState) -> u32
    ensures { result ≡ saved_pc cause.now at.now.pc at.now.branch }
{
    match cause {
        Cause::Syscall => next_pc(at),
        Cause::BusError(_)
        | Cause::DataPageFault(_)
        | Cause::InsnPageFault(_)
        | Cause::Alignment(_)
        | Cause::DataMiss(_)
        | Cause::InsnMiss(_)
        | Cause::Tick
        | Cause::Illegal
        | Cause::External
        | Cause::Range
        | Cause::Trap => restart_pc(at),
    }
}
