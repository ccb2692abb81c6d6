//! What a core keeps, with its small changes.

ghost use Rattle.std.specs.Prelude.{◌≡◌, ◌+◌, ◌≤◌, ◌<◌, None, is_some};
ghost use Rattle.or_words.specs.Settings.{Fits};
ghost use Rattle.or_parts.specs.Bits.{has};
ghost use Rattle.or_model.specs.Core.{register, set_register, reset_core, exception_entry, exception_return, next_instruction, branched, is_supervisor};
ghost use Rattle.or_model.specs.Step.{with_step_counted, retired, due_interrupt, with_line};
ghost use Rattle.or_model.specs.Turn.{sampled};
ghost use Rattle.or_model.specs.Counts.{SameCounts, SameSettings};

use or_icache::ICache;
use or_model::Stop;
use or_parts::status::{IEE, SM, TEE};
use or_parts::{Cause, PcState};
use or_spr::Sprs;
use or_tick_pic::{Pic, Tick};
use or_tlb::Tlb;
use or_words::Config;
use std::marker::Model;

/// A core of the board: its registers, translation tables, instruction lines, tick timer and
/// interrupt controller, and how far it has come (OpenRISC 1000 Architecture Manual, chapter 4).
#[derive(Drop)]
pub struct Core {
    pub(crate) number: u32,
    pub(crate) budget: u32,
    pub(crate) pc: u32,
    pub(crate) branch: Option<u32>,
    // The first one is always zero.
    pub(crate) registers: [u32; 32],
    pub(crate) sprs: Sprs,
    pub(crate) data_tlb: Tlb,
    pub(crate) insn_tlb: Tlb,
    pub(crate) icache: ICache,
    pub(crate) tick: Tick,
    pub(crate) pic: Pic,
    pub(crate) linked: bool,
    pub(crate) steps: u32,
    pub(crate) stop: Option<Stop>,
}

impl Model for Core {
    ghost use Rattle.std.specs.Prelude.{◌≡◌, ◌≤◌, ◌<◌, Option, None, true, false, slice_index};
    ghost use Rattle.or_model.specs.Core.{Core as CoreState};
    ghost use Rattle.or_model.specs.declared.Stop.{Stop};
    ghost use Rattle.or_words.specs.declared.limits.TheConstants.{MOST_BUDGET};

    ghost Value = { CoreState };

    ghost view = { λ a. record {
      number = a.sprs.number;
      cores = a.sprs.cores;
      budget = a.budget;
      latched = a.pic.latched;
      pc = a.pc;
      branch = a.branch;
      registers = a.registers;
      shadow = a.sprs.shadow;
      sr = a.sprs.sr;
      epcr = a.sprs.epcr;
      eear = a.sprs.eear;
      esr = a.sprs.esr;
      machi = a.sprs.machi;
      maclo = a.sprs.maclo;
      data_tlb = a.data_tlb.pairs;
      insn_tlb = a.insn_tlb.pairs;
      lines = a.icache;
      ttmr = a.tick.mode;
      ttcr = a.tick.count;
      picmr = a.pic.mask;
      picsr = a.pic.status;
      linked = a.linked;
      steps = a.steps;
      stop = a.stop;
    } };

    ghost invariant = { λ a.
        (a.number ≡ a.sprs.number)
        × (a.steps ≤ a.budget)
        × (a.budget ≤ MOST_BUDGET)
        × (a.stop ≡ None → a.steps < a.budget)
        × (slice_index a.registers 0 ≡ 0)
        × (a.data_tlb.fetches ≡ false)
        × (a.insn_tlb.fetches ≡ true) };
}

impl Default for Core {
    ghost use Rattle.std.specs.Prelude.{false};

    ghost is_default = { λ core. core ≡ reset_core (record { cores = 1; budget = 1; ram = 1; latched = false }) 0 };

    fn default() -> Core {
        let config = Config {
            cores: 1,
            budget: 1,
            ram: 1,
            latched: false,
        };
        Core::reset(&config, 0)
    }
}

// Whether a word has a bit of the mask.
#[inline]
pub(crate) fn has(word: u32, mask: u32) -> bool
    ensures { result ≡ has word mask }
{
    word & mask != 0
}

impl Core {
    /// A core at reset: `number` is its number on the board of these settings. Its pc is 00000100,
    /// SR is 00008001, and all else is zero or absent (OpenRISC 1000 Architecture Manual, chapter 6).
    #[tactic(auto, unfolding(or_model::specs::Core::reset_core, or_parts::specs::Special::reset_registers))]
    pub fn reset(config: &Config, number: u32) -> Core
        requires fits { Fits config.now }
        requires number { number < config.now.cores }
        ensures { result ≡ reset_core config.now number }
    {
        Core {
            number,
            budget: config.budget,
            pc: 0x100,
            branch: None,
            registers: [0; 32],
            sprs: Sprs::reset(number, config.cores),
            data_tlb: Tlb::for_loads(),
            insn_tlb: Tlb::for_fetches(),
            icache: ICache::empty(),
            tick: Tick::new(),
            pic: Pic::new(config.latched),
            linked: false,
            steps: 0,
            stop: None,
        }
    }

    /// The same core once more.
    pub fn copy(&self) -> Core
        ensures { result ≡ self.now }
    {
        Core {
            number: self.number,
            budget: self.budget,
            pc: self.pc,
            branch: self.branch,
            registers: self.registers,
            sprs: self.sprs,
            data_tlb: self.data_tlb,
            insn_tlb: self.insn_tlb,
            icache: self.icache.copy(),
            tick: self.tick,
            pic: self.pic,
            linked: self.linked,
            steps: self.steps,
            stop: self.stop,
        }
    }

    /// The core's number on its board, counted from 0.
    #[inline]
    pub fn number(&self) -> u32
        ensures { result ≡ self.now.number }
    {
        self.number
    }

    /// How many steps the core has made, at most its budget.
    pub fn steps(&self) -> u32
        ensures value { result ≡ self.now.steps }
        ensures within { self.now.steps ≤ self.now.budget }
    {
        self.steps
    }

    /// Why the core runs no longer, None exactly while it runs; it then has steps left.
    pub fn stop(&self) -> Option<Stop>
        ensures value { result ≡ self.now.stop }
        ensures running { result ≡ None → self.now.steps < self.now.budget }
    {
        self.stop
    }

    /// The address of the next instruction and, where it stands in a delay slot, the destination of
    /// its jump.
    #[inline]
    pub fn place(&self) -> PcState
        ensures { result ≡ record { pc = self.now.pc; branch = self.now.branch } }
    {
        PcState {
            pc: self.pc,
            branch: self.branch,
        }
    }

    #[inline]
    pub(crate) fn pc(&self) -> u32
        ensures { result ≡ self.now.pc }
    {
        self.pc
    }

    /// What general register `n` reads; r0 is 0.
    #[inline(always)]
    pub fn register(&self, n: u32) -> u32
        requires { n < 32 }
        ensures { result ≡ register self.now n }
    {
        self.registers[n as usize]
    }

    #[inline(always)]
    pub(crate) fn set_register(&mut self, n: u32, v: u32)
        requires { n < 32 }
        ensures state { self.new ≡ set_register self.old n v }
        ensures counts { SameCounts self.old self.new }
    {
        if n != 0 {
            self.registers[n as usize] = v;
        }
    }

    // The core goes on behind an instruction that is no jump.
    #[inline(always)]
    #[tactic(auto, unfolding(or_model::specs::Core::next_instruction))]
    pub(crate) fn go_on(&mut self)
        ensures state { self.new ≡ next_instruction self.old }
        ensures counts { SameCounts self.old self.new }
    {
        match self.branch {
            Some(destination) => {
                self.pc = destination;
                self.branch = None;
            }
            None => self.pc = self.pc.wrapping_add(4),
        }
    }

    // Whether the next instruction stands in a delay slot.
    #[inline(always)]
    pub(crate) fn is_in_slot(&self) -> bool
        ensures { result ≡ is_some self.now.branch }
    {
        self.branch.is_some()
    }

    #[inline(always)]
    pub(crate) fn is_supervisor(&self) -> bool
        ensures { result ≡ is_supervisor self.now }
    {
        has(self.sprs.sr(), SM)
    }

    // A jump: the next instruction stands in its delay slot.
    #[inline(always)]
    #[tactic(auto, unfolding(or_model::specs::Core::branched))]
    pub(crate) fn branch_to(&mut self, destination: u32)
        ensures state { self.new ≡ branched self.old destination }
        ensures counts { SameCounts self.old self.new }
    {
        self.pc = self.pc.wrapping_add(4);
        self.branch = Some(destination);
    }

    #[tactic(auto, unfolding(or_model::specs::Core::exception_entry))]
    pub(crate) fn enter(&mut self, cause: Cause)
        ensures state { self.new ≡ exception_entry self.old cause }
        ensures counts { SameCounts self.old self.new }
    {
        let at = PcState {
            pc: self.pc,
            branch: self.branch,
        };
        self.pc = self.sprs.enter(&cause, &at);
        self.branch = None;
        self.linked = false;
    }

    #[tactic(auto, unfolding(or_model::specs::Core::exception_return))]
    pub(crate) fn leave(&mut self)
        ensures state { self.new ≡ exception_return self.old }
        ensures counts { SameCounts self.old self.new }
    {
        self.pc = self.sprs.leave();
        self.branch = None;
    }

    // One step more; a core that reaches its budget stops, unless it has stopped by itself.
    #[inline(always)]
    #[tactic(auto, unfolding(or_model::specs::Step::with_step_counted))]
    pub(crate) fn count_step(&mut self)
        requires { self.old.steps < self.old.budget }
        ensures state { self.new ≡ with_step_counted self.old }
        ensures settings { SameSettings self.old self.new }
        ensures steps { self.new.steps ≡ self.old.steps + 1 }
    {
        self.steps += 1;
        if self.steps == self.budget && self.stop.is_none() {
            self.stop = Some(Stop::Budget);
        }
    }

    // The instruction retires: the tick timer counts it.
    #[inline(always)]
    #[tactic(auto, unfolding(or_model::specs::Step::retired, or_model::specs::Step::with_step_counted))]
    pub(crate) fn retire(&mut self)
        requires { self.old.steps < self.old.budget }
        ensures state { self.new ≡ retired self.old }
        ensures settings { SameSettings self.old self.new }
        ensures steps { self.new.steps ≡ self.old.steps + 1 }
    {
        self.tick.retire();
        self.count_step();
    }

    // The interrupt that is due, which none is in a delay slot; the tick comes first.
    #[inline(always)]
    #[tactic(auto, unfolding(or_model::specs::Step::due_interrupt))]
    pub(crate) fn due_interrupt(&self) -> Option<Cause>
        ensures { result ≡ due_interrupt self.now }
    {
        if self.branch.is_some() {
            return None;
        }
        if has(self.sprs.sr(), TEE) && self.tick.pending() {
            return Some(Cause::Tick);
        }
        if has(self.sprs.sr(), IEE) && self.pic.pending() {
            return Some(Cause::External);
        }
        None
    }

    // The line that came with a fetch is held, if one came.
    pub(crate) fn hold_line(&mut self, pa: u32, line: &Option<[u8; 32]>)
        ensures state { self.new ≡ with_line self.old pa line.now }
        ensures counts { SameCounts self.old self.new }
    {
        match line {
            Some(line) => self.icache.fill(pa, line),
            None => {}
        }
    }

    /// The PIC samples the board's interrupt lines, bit n for line n: the level form shows them, the
    /// latched form adds them (OpenRISC 1000 Architecture Manual, chapter 13).
    pub fn sample(&mut self, lines: u32)
        ensures { self.new ≡ sampled self.old lines }
    {
        self.pic.sample(lines);
    }
}
