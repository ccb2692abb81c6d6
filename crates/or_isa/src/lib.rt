//! The instructions of ORBIS32 and their words.
#![tactic(auto)]

ghost use Rattle.std.specs.Prelude.{◌≡◌, ℕ, ◌^◌, ◌<◌, ◌↔◌, IfSome, IsNone, Some};
ghost use Rattle.or_isa.specs.Decode.{decode_of, Decodes, IsIllegal};
ghost use Rattle.or_isa.specs.Fits.{Fits};
ghost use Rattle.or_isa.specs.Word.{word_of};
ghost use Rattle.or_isa.specs.Bus.{needs_bus_of};
ghost use Rattle.or_isa.specs.declared.Insn.{Insn};

mod decoding;
mod encoding;
mod fields;
mod program;

use or_words::cache_registers::{DCBFR, DCBIR};
use or_words::{CompareCode, MacKind, ShiftKind, Width};
pub use program::{Piece, Program};
use std::mem::size_of;

/// An operation on two registers; `Choose` chooses by the flag F.
#[derive(Clone, Copy, Debug, PartialEq, Eq)]
pub enum ArithmeticKind {
    Add,
    AddWithCarry,
    Subtract,
    And,
    Or,
    Xor,
    Choose,
    Multiply,
    Divide,
    DivideUnsigned,
    MultiplyUnsigned,
}

/// An operation on a register and a signed immediate.
#[derive(Clone, Copy, Debug, PartialEq, Eq)]
pub enum ImmediateKind {
    Add,
    AddWithCarry,
    Xor,
    Multiply,
}

/// What a barrier waits for. The board's steps are sequential, so each does nothing.
#[derive(Clone, Copy, Debug, PartialEq, Eq)]
pub enum SyncKind {
    Memory,
    Pipeline,
    Context,
}

/// An instruction with its operands. Instructions that differ in one field alone are one variant, with that field.
#[derive(Clone, Copy)]
pub enum Insn {
    /// `l.j`, and `l.jal`, which sets the link register.
    Jump {
        link: bool,
        n: i32,
    },
    /// `l.bf` where it is taken on F, and `l.bnf`.
    Branch {
        on: bool,
        n: i32,
    },
    /// `l.jr`, and `l.jalr`, which sets the link register.
    JumpRegister {
        link: bool,
        b: u32,
    },
    /// `l.adrp`.
    PageAddress {
        d: u32,
        n: i32,
    },
    Nop {
        k: u32,
    },
    /// `l.sys`.
    SystemCall {
        k: u32,
    },
    Trap {
        k: u32,
    },
    /// `l.movhi`.
    MoveHigh {
        d: u32,
        k: u32,
    },
    /// `l.macrc`.
    TakeAccumulator {
        d: u32,
    },
    /// `l.msync`, `l.psync` and `l.csync`.
    Sync {
        kind: SyncKind,
    },
    /// `l.rfe`.
    ReturnFromException,
    /// `l.lwz`, `l.lws`, `l.lhz`, `l.lhs`, `l.lbz` and `l.lbs`.
    Load {
        width: Width,
        signed: bool,
        d: u32,
        a: u32,
        i: i32,
    },
    /// `l.lwa`.
    LoadLinked {
        d: u32,
        a: u32,
        i: i32,
    },
    /// `l.sw`, `l.sh` and `l.sb`.
    Store {
        width: Width,
        a: u32,
        b: u32,
        i: i32,
    },
    /// `l.swa`.
    StoreConditional {
        a: u32,
        b: u32,
        i: i32,
    },
    /// `l.addi`, `l.addic`, `l.xori` and `l.muli`.
    ArithmeticImmediate {
        kind: ImmediateKind,
        d: u32,
        a: u32,
        i: i32,
    },
    /// `l.andi`.
    AndImmediate {
        d: u32,
        a: u32,
        k: u32,
    },
    /// `l.ori`.
    OrImmediate {
        d: u32,
        a: u32,
        k: u32,
    },
    /// `l.mfspr`.
    MoveFromSpecial {
        d: u32,
        a: u32,
        k: u32,
    },
    /// `l.mtspr`.
    MoveToSpecial {
        a: u32,
        b: u32,
        k: u32,
    },
    /// `l.slli`, `l.srli`, `l.srai` and `l.rori`.
    ShiftImmediate {
        kind: ShiftKind,
        d: u32,
        a: u32,
        l: u32,
    },
    /// `l.sll`, `l.srl`, `l.sra` and `l.ror`.
    Shift {
        kind: ShiftKind,
        d: u32,
        a: u32,
        b: u32,
    },
    /// `l.sfeqi` to `l.sflesi`.
    CompareImmediate {
        code: CompareCode,
        a: u32,
        i: i32,
    },
    /// `l.sfeq` to `l.sfles`.
    Compare {
        code: CompareCode,
        a: u32,
        b: u32,
    },
    /// `l.maci`.
    AccumulateImmediate {
        a: u32,
        i: i32,
    },
    /// `l.mac`, `l.msb`, `l.macu`, `l.msbu`, and `l.muld` and `l.muldu`, which set the accumulator.
    Accumulate {
        kind: MacKind,
        a: u32,
        b: u32,
    },
    /// `l.add` to `l.mulu`.
    Arithmetic {
        kind: ArithmeticKind,
        d: u32,
        a: u32,
        b: u32,
    },
    /// `l.exths`, `l.extbs`, `l.exthz`, `l.extbz`, `l.extws` and `l.extwz`.
    Extend {
        width: Width,
        signed: bool,
        d: u32,
        a: u32,
    },
    /// `l.ff1`.
    FindFirst {
        d: u32,
        a: u32,
    },
    /// `l.fl1`.
    FindLast {
        d: u32,
        a: u32,
    },
}

// The decoded form is kept beside its word in the instruction cache, so it is small.
const _: () = prove!(size_of::<Insn>() == 16);

/// The instruction of a word; `None` where no instruction has this word.
#[inline(always)]
pub fn decode(w: u32) -> Option<Insn>
    ensures found { IfSome result (λ i. Decodes w i × Fits i) }
    ensures only { (i : Insn) → Decodes w i → result ≡ Some i }
    ensures illegal { IsNone result ↔ IsIllegal w }
    ensures value { result ≡ decode_of w }
{
    decoding::by_opcode(w)
}

/// The one word of an instruction.
pub fn encode(insn: &Insn) -> u32
    requires { Fits insn.now }
    ensures decodes { Decodes result insn.now }
    ensures only { (w : ℕ) → w < 2 ^ 32 → Decodes w insn.now → result ≡ w }
    ensures value { result ≡ word_of insn.now }
{
    encoding::word(*insn)
}

/// Whether the instruction needs the bus. `spr` is the register that an `l.mtspr` writes.
#[inline(always)]
pub fn needs_bus(insn: &Insn, spr: u32) -> bool
    ensures { result ≡ needs_bus_of insn.now spr }
{
    match insn {
        Insn::Load { .. }
        | Insn::LoadLinked { .. }
        | Insn::Store { .. }
        | Insn::StoreConditional { .. } => true,
        Insn::MoveToSpecial { .. } => spr == DCBFR || spr == DCBIR,
        _ => false,
    }
}

/// Decoding and encoding undo each other.
pub fn one_word_each()
    ensures encoded { (i : Insn) → Fits i → decode_of (word_of i) ≡ Some i }
    ensures decoded { (w : ℕ) (i : Insn) → w < 2 ^ 32 → decode_of w ≡ Some i → word_of i ≡ w }
    ensures alone { (w : ℕ) (i j : Insn) → Decodes w i → Decodes w j → i ≡ j }
{}
