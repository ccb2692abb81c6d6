//! Special registers, wherever a core keeps them.

ghost use Rattle.std.specs.Prelude.{◌≡◌};
ghost use Rattle.or_parts.specs.Special.{own_read, own_written, spr_route};
ghost use Rattle.or_model.specs.Core.{own_registers, with_own_registers};
ghost use Rattle.or_model.specs.SpecialAccess.{special, special_written};
ghost use Rattle.or_model.specs.Counts.{SameCounts};

use crate::state::Core;
use or_parts::{PcState, SprRoute};
use or_spr::route;

impl Core {
    // What a register that stands for itself reads.
    fn own(&self, n: u32) -> u32
        requires { spr_route n ≡ SprRoute.Own }
        ensures { result ≡ own_read (own_registers self.now) self.now.pc self.now.branch n }
    {
        let at = PcState {
            pc: self.pc,
            branch: self.branch,
        };
        self.sprs.read(n, &at)
    }

    /// What an l.mfspr of register `n` reads at the core's place (OpenRISC 1000 Architecture Manual,
    /// chapter 4). Numbers that name no register read 0.
    #[tactic(auto, unfolding(or_model::specs::SpecialAccess::special))]
    pub fn special(&self, n: u32) -> u32
        ensures { result ≡ special self.now n }
    {
        match route(n) {
            SprRoute::Own => self.own(n),
            SprRoute::General(r) => self.register(r),
            SprRoute::DataMatch(set) => self.data_tlb.match_reg(set),
            SprRoute::DataTranslate(set) => self.data_tlb.translate_reg(set),
            SprRoute::InsnMatch(set) => self.insn_tlb.match_reg(set),
            SprRoute::InsnTranslate(set) => self.insn_tlb.translate_reg(set),
            SprRoute::TickMode => self.tick.mode(),
            SprRoute::TickCount => self.tick.count(),
            SprRoute::PicMask => self.pic.mask(),
            SprRoute::PicStatus => self.pic.status(),
            SprRoute::DataDrop | SprRoute::InsnDrop | SprRoute::Nothing => 0,
        }
    }

    // Writes a register that stands for itself.
    #[tactic(auto, unfolding(or_parts::specs::Special::own_written))]
    fn set_own(&mut self, n: u32, v: u32)
        requires { spr_route n ≡ SprRoute.Own }
        ensures state { self.new ≡ with_own_registers self.old (own_written (own_registers self.old) n v) }
        ensures counts { SameCounts self.old self.new }
    {
        self.sprs.write(n, v);
    }

    // Writes a special register; the drop of a data line is the bus's part.
    #[tactic(auto, unfolding(or_model::specs::SpecialAccess::special_written))]
    pub(crate) fn set_special(&mut self, n: u32, v: u32)
        ensures state { self.new ≡ special_written self.old n v }
        ensures counts { SameCounts self.old self.new }
    {
        match route(n) {
            SprRoute::Own => self.set_own(n, v),
            SprRoute::General(r) => self.set_register(r, v),
            SprRoute::DataMatch(set) => self.data_tlb.set_match(set, v),
            SprRoute::DataTranslate(set) => self.data_tlb.set_translate(set, v),
            SprRoute::InsnMatch(set) => self.insn_tlb.set_match(set, v),
            SprRoute::InsnTranslate(set) => self.insn_tlb.set_translate(set, v),
            SprRoute::InsnDrop => self.icache.drop_line(v),
            SprRoute::TickMode => self.tick.set_mode(v),
            SprRoute::TickCount => self.tick.set_count(v),
            SprRoute::PicMask => self.pic.set_mask(v),
            SprRoute::PicStatus => self.pic.set_status(v),
            SprRoute::DataDrop | SprRoute::Nothing => {}
        }
    }
}
