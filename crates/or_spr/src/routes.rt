//! Which part of a core keeps a special register.

ghost use Rattle.std.specs.Prelude.{◌≡◌};
ghost use Rattle.or_parts.specs.Special.{spr_route, FitsRoute};

use or_parts::SprRoute;
use or_parts::registers::{
    COREID, DCBFR, DCBIR, DTLBW0MR0, DTLBW0MR63, DTLBW0TR0, DTLBW0TR63, EEAR0, EPCR0, ESR0, GPR0,
    GPR31, GPR32, GPR63, ICBIR, ICCFGR, ITLBW0MR0, ITLBW0MR63, ITLBW0TR0, ITLBW0TR63, MACHI, MACLO,
    NPC, NUMCORES, PICMR, PICSR, PPC, SR, TTCR, TTMR, VR,
};

/// Which part of a core keeps register `n` (OpenRISC 1000 Architecture Manual, section 4.3).
/// The number in the answer is a general register below 32, or a set below 64.
#[tactic(auto, unfolding(or_parts::specs::Special::spr_route))]
pub fn route(n: u32) -> SprRoute
    ensures value { result ≡ spr_route n }
    ensures fits { FitsRoute result }
{
    match n {
        VR..=ICCFGR
        | NPC
        | SR
        | PPC
        | EPCR0
        | EEAR0
        | ESR0
        | COREID
        | NUMCORES
        | GPR32..=GPR63
        | MACLO
        | MACHI => SprRoute::Own,
        GPR0..=GPR31 => SprRoute::General(n - GPR0),
        DTLBW0MR0..=DTLBW0MR63 => SprRoute::DataMatch(n - DTLBW0MR0),
        DTLBW0TR0..=DTLBW0TR63 => SprRoute::DataTranslate(n - DTLBW0TR0),
        ITLBW0MR0..=ITLBW0MR63 => SprRoute::InsnMatch(n - ITLBW0MR0),
        ITLBW0TR0..=ITLBW0TR63 => SprRoute::InsnTranslate(n - ITLBW0TR0),
        DCBFR | DCBIR => SprRoute::DataDrop,
        ICBIR => SprRoute::InsnDrop,
        PICMR => SprRoute::PicMask,
        PICSR => SprRoute::PicStatus,
        TTMR => SprRoute::TickMode,
        TTCR => SprRoute::TickCount,
        _ => SprRoute::Nothing,
    }
}
