// The operands of an instruction, and the form in which a source writes them.
ghost use Rattle.std.specs.Prelude.{◌≡◌, pos, negsuc, Some};
ghost use Rattle.or_isa.specs.Fits.{Fits};
ghost use Rattle.or_asm_text.specs.Slots.{slots_of};
ghost use Rattle.or_asm_text.specs.Ranges.{RegistersFit, ValueFits, filled};
ghost use Rattle.or_asm_text.specs.Names.{name_of, insn_named};
ghost use Rattle.or_asm_text.specs.declared.operands.Operands.{Operands};
ghost use Rattle.or_asm_text.specs.Parts.{operands_with, operands_of, with_operands, bare, natural};
ghost use Rattle.or_isa.specs.declared.Insn.{Insn};

use or_isa::Insn;

/// What an operand slot of the assembler syntax is for: a register (rD, rA, rB), a number, or a number and a register.
#[derive(Clone, Copy)]
pub enum Slot {
    /// The destination register.
    D,
    /// The first source register.
    A,
    /// The second source register.
    B,
    /// A signed immediate of 16 bits.
    Signed,
    /// An unsigned constant of 16 bits.
    Half,
    /// An unsigned constant of 16 bits, which is 0 if it is left out.
    OptionalHalf,
    /// An unsigned constant of 16 bits, which may be the upper half of a label's address or of a number.
    HighHalf,
    /// An unsigned constant of 16 bits, which may be the lower half of a label's address or of a number.
    LowHalf,
    /// A shift length of 6 bits.
    Shift,
    /// A signed number of pages of 8 KiB, of 21 bits.
    Page,
    /// The target of a jump, as an address.
    Target,
    /// A signed displacement of 16 bits and rA, as `I(rA)`.
    Memory,
}

/// The operands of an instruction. A field that it does not have is 0.
#[derive(Clone, Copy)]
pub struct Operands {
    /// The number of rD.
    pub d: u32,
    /// The number of rA.
    pub a: u32,
    /// The number of rB.
    pub b: u32,
    /// The immediate, constant, shift length, or the offset of a jump in words.
    pub value: i32,
}

/// The operand slots of an instruction, in the order in which a source writes them.
#[tactic(auto, unfolding(crate::specs::Slots::slots_of))]
pub fn slots(insn: &Insn) -> &'static [Slot]
    ensures { result.now ≡ slots_of insn.now }
{
    match insn {
        Insn::Jump { .. } | Insn::Branch { .. } => &[Slot::Target],
        Insn::JumpRegister { .. } => &[Slot::B],
        Insn::PageAddress { .. } => &[Slot::D, Slot::Page],
        Insn::Nop { .. } => &[Slot::OptionalHalf],
        Insn::SystemCall { .. } | Insn::Trap { .. } => &[Slot::Half],
        Insn::MoveHigh { .. } => &[Slot::D, Slot::HighHalf],
        Insn::TakeAccumulator { .. } => &[Slot::D],
        Insn::Sync { .. } | Insn::ReturnFromException => &[],
        Insn::Load { .. } | Insn::LoadLinked { .. } => &[Slot::D, Slot::Memory],
        Insn::Store { .. } | Insn::StoreConditional { .. } => &[Slot::Memory, Slot::B],
        Insn::ArithmeticImmediate { .. } => &[Slot::D, Slot::A, Slot::Signed],
        Insn::AndImmediate { .. } | Insn::MoveFromSpecial { .. } => &[Slot::D, Slot::A, Slot::Half],
        Insn::OrImmediate { .. } => &[Slot::D, Slot::A, Slot::LowHalf],
        Insn::MoveToSpecial { .. } => &[Slot::A, Slot::B, Slot::Half],
        Insn::ShiftImmediate { .. } => &[Slot::D, Slot::A, Slot::Shift],
        Insn::Shift { .. } | Insn::Arithmetic { .. } => &[Slot::D, Slot::A, Slot::B],
        Insn::CompareImmediate { .. } | Insn::AccumulateImmediate { .. } => &[
            Slot::A,
            Slot::Signed,
        ],
        Insn::Compare { .. } | Insn::Accumulate { .. } => &[Slot::A, Slot::B],
        Insn::Extend { .. } | Insn::FindFirst { .. } | Insn::FindLast { .. } => &[Slot::D, Slot::A],
    }
}

// The operands of these fields.
fn operands_with(d: u32, a: u32, b: u32, value: i32) -> Operands
    ensures { result ≡ operands_with d a b value }
{
    Operands { d, a, b, value }
}

/// The operands of an instruction.
#[tactic(auto, unfolding(crate::specs::Parts::operands_of))]
pub fn operands_for(insn: &Insn) -> Operands
    requires { Fits insn.now }
    ensures { result ≡ operands_of insn.now }
{
    match *insn {
        Insn::Jump { n, .. } => operands_with(0, 0, 0, n),
        Insn::Branch { n, .. } => operands_with(0, 0, 0, n),
        Insn::JumpRegister { b, .. } => operands_with(0, 0, b, 0),
        Insn::PageAddress { d, n } => operands_with(d, 0, 0, n),
        Insn::Nop { k } => operands_with(0, 0, 0, k as i32),
        Insn::SystemCall { k } => operands_with(0, 0, 0, k as i32),
        Insn::Trap { k } => operands_with(0, 0, 0, k as i32),
        Insn::MoveHigh { d, k } => operands_with(d, 0, 0, k as i32),
        Insn::TakeAccumulator { d } => operands_with(d, 0, 0, 0),
        Insn::Sync { .. } => operands_with(0, 0, 0, 0),
        Insn::ReturnFromException => operands_with(0, 0, 0, 0),
        Insn::Load { d, a, i, .. } => operands_with(d, a, 0, i),
        Insn::LoadLinked { d, a, i } => operands_with(d, a, 0, i),
        Insn::Store { a, b, i, .. } => operands_with(0, a, b, i),
        Insn::StoreConditional { a, b, i } => operands_with(0, a, b, i),
        Insn::ArithmeticImmediate { d, a, i, .. } => operands_with(d, a, 0, i),
        Insn::AndImmediate { d, a, k } => operands_with(d, a, 0, k as i32),
        Insn::OrImmediate { d, a, k } => operands_with(d, a, 0, k as i32),
        Insn::MoveFromSpecial { d, a, k } => operands_with(d, a, 0, k as i32),
        Insn::MoveToSpecial { a, b, k } => operands_with(0, a, b, k as i32),
        Insn::ShiftImmediate { d, a, l, .. } => operands_with(d, a, 0, l as i32),
        Insn::Shift { d, a, b, .. } => operands_with(d, a, b, 0),
        Insn::CompareImmediate { a, i, .. } => operands_with(0, a, 0, i),
        Insn::Compare { a, b, .. } => operands_with(0, a, b, 0),
        Insn::AccumulateImmediate { a, i } => operands_with(0, a, 0, i),
        Insn::Accumulate { a, b, .. } => operands_with(0, a, b, 0),
        Insn::Arithmetic { d, a, b, .. } => operands_with(d, a, b, 0),
        Insn::Extend { d, a, .. } => operands_with(d, a, 0, 0),
        Insn::FindFirst { d, a } => operands_with(d, a, 0, 0),
        Insn::FindLast { d, a } => operands_with(d, a, 0, 0),
    }
}

// A number that is not negative, and 0 for one that is.
pub(crate) fn natural(value: i32) -> u32
    ensures { result ≡ natural value }
{
    if value < 0 { 0 } else { value as u32 }
}

/// The instruction with these operands in place of its own.
#[tactic(auto, unfolding(crate::specs::Parts::with_operands))]
pub fn with_operands(insn: &Insn, operands: &Operands) -> Insn
    ensures { result ≡ with_operands insn.now operands.now }
{
    let Operands { d, a, b, value } = *operands;
    match *insn {
        Insn::Jump { link, .. } => Insn::Jump { link, n: value },
        Insn::Branch { on, .. } => Insn::Branch { on, n: value },
        Insn::JumpRegister { link, .. } => Insn::JumpRegister { link, b },
        Insn::PageAddress { .. } => Insn::PageAddress { d, n: value },
        Insn::Nop { .. } => Insn::Nop { k: natural(value) },
        Insn::SystemCall { .. } => Insn::SystemCall { k: natural(value) },
        Insn::Trap { .. } => Insn::Trap { k: natural(value) },
        Insn::MoveHigh { .. } => Insn::MoveHigh {
            d,
            k: natural(value),
        },
        Insn::TakeAccumulator { .. } => Insn::TakeAccumulator { d },
        Insn::Sync { kind } => Insn::Sync { kind },
        Insn::ReturnFromException => Insn::ReturnFromException,
        Insn::Load { width, signed, .. } => Insn::Load {
            width,
            signed,
            d,
            a,
            i: value,
        },
        Insn::LoadLinked { .. } => Insn::LoadLinked { d, a, i: value },
        Insn::Store { width, .. } => Insn::Store {
            width,
            a,
            b,
            i: value,
        },
        Insn::StoreConditional { .. } => Insn::StoreConditional { a, b, i: value },
        Insn::ArithmeticImmediate { kind, .. } => Insn::ArithmeticImmediate {
            kind,
            d,
            a,
            i: value,
        },
        Insn::AndImmediate { .. } => Insn::AndImmediate {
            d,
            a,
            k: natural(value),
        },
        Insn::OrImmediate { .. } => Insn::OrImmediate {
            d,
            a,
            k: natural(value),
        },
        Insn::MoveFromSpecial { .. } => Insn::MoveFromSpecial {
            d,
            a,
            k: natural(value),
        },
        Insn::MoveToSpecial { .. } => Insn::MoveToSpecial {
            a,
            b,
            k: natural(value),
        },
        Insn::ShiftImmediate { kind, .. } => Insn::ShiftImmediate {
            kind,
            d,
            a,
            l: natural(value),
        },
        Insn::Shift { kind, .. } => Insn::Shift { kind, d, a, b },
        Insn::CompareImmediate { code, .. } => Insn::CompareImmediate { code, a, i: value },
        Insn::Compare { code, .. } => Insn::Compare { code, a, b },
        Insn::AccumulateImmediate { .. } => Insn::AccumulateImmediate { a, i: value },
        Insn::Accumulate { kind, .. } => Insn::Accumulate { kind, a, b },
        Insn::Arithmetic { kind, .. } => Insn::Arithmetic { kind, d, a, b },
        Insn::Extend { width, signed, .. } => Insn::Extend {
            width,
            signed,
            d,
            a,
        },
        Insn::FindFirst { .. } => Insn::FindFirst { d, a },
        Insn::FindLast { .. } => Insn::FindLast { d, a },
    }
}

/// The instruction with operands of zero, which says which instruction of the table it is.
#[tactic(auto, using(crate::proofs::Parts::bare_fits), unfolding(crate::specs::Parts::bare))]
pub fn bare(insn: &Insn) -> Insn
    ensures is { result ≡ bare insn.now }
    ensures fits { Fits result }
{
    with_operands(insn, &operands_with(0, 0, 0, 0))
}

/// An instruction is the one without operands and its operands.
pub fn parts_make_whole()
    ensures { (i : Insn) → with_operands (bare i) (operands_of i) ≡ i }
{}

/// Operands in the ranges of their slots make an instruction that fits.
pub fn ranges_fit()
    ensures { (i : Insn) (o : Operands) → RegistersFit o → ValueFits (slots_of i) o.value → Fits (with_operands i o) }
{}

/// The operands of an instruction that fits are in the ranges of its slots, and its slots show all of them.
pub fn operands_fit()
    ensures registers { (i : Insn) → Fits i → RegistersFit (operands_of i) }
    ensures value { (i : Insn) → Fits i → ValueFits (slots_of i) (operands_of i).value }
    ensures all { (i : Insn) → filled (slots_of i) (operands_of i) ≡ operands_of i }
{}

/// No two instructions have the same name.
pub fn names_differ()
    ensures { (i : Insn) → insn_named (name_of i) ≡ Some (bare i) }
{}
