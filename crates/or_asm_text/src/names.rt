// The names of the instructions.
ghost use Rattle.std.specs.Prelude.{◌≡◌, map};
ghost use Rattle.or_asm_text.specs.Names.{rows, name_in, name_of, value_in, insn_named};

use crate::operands::bare;
use or_isa::{Insn, decode, encode};

/// Mask, value and name of each instruction, in the order of the table.
pub const ROWS: [(u32, u32, &str); 89] = [
    (0xfc00_0000, 0x0000_0000, "l.j"),
    (0xfc00_0000, 0x0400_0000, "l.jal"),
    (0xfc00_0000, 0x0c00_0000, "l.bnf"),
    (0xfc00_0000, 0x1000_0000, "l.bf"),
    (0xfc00_0000, 0x0800_0000, "l.adrp"),
    (0xffff_0000, 0x1500_0000, "l.nop"),
    (0xffff_0000, 0x2000_0000, "l.sys"),
    (0xffff_0000, 0x2100_0000, "l.trap"),
    (0xfc1f_0000, 0x1800_0000, "l.movhi"),
    (0xfc1f_ffff, 0x1801_0000, "l.macrc"),
    (0xffff_ffff, 0x2200_0000, "l.msync"),
    (0xffff_ffff, 0x2280_0000, "l.psync"),
    (0xffff_ffff, 0x2300_0000, "l.csync"),
    (0xffff_ffff, 0x2400_0000, "l.rfe"),
    (0xffff_07ff, 0x4400_0000, "l.jr"),
    (0xffff_07ff, 0x4800_0000, "l.jalr"),
    (0xffe0_0000, 0x4c00_0000, "l.maci"),
    (0xfc00_0000, 0x6c00_0000, "l.lwa"),
    (0xfc00_0000, 0x8400_0000, "l.lwz"),
    (0xfc00_0000, 0x8800_0000, "l.lws"),
    (0xfc00_0000, 0x8c00_0000, "l.lbz"),
    (0xfc00_0000, 0x9000_0000, "l.lbs"),
    (0xfc00_0000, 0x9400_0000, "l.lhz"),
    (0xfc00_0000, 0x9800_0000, "l.lhs"),
    (0xfc00_0000, 0x9c00_0000, "l.addi"),
    (0xfc00_0000, 0xa000_0000, "l.addic"),
    (0xfc00_0000, 0xac00_0000, "l.xori"),
    (0xfc00_0000, 0xb000_0000, "l.muli"),
    (0xfc00_0000, 0xa400_0000, "l.andi"),
    (0xfc00_0000, 0xa800_0000, "l.ori"),
    (0xfc00_0000, 0xb400_0000, "l.mfspr"),
    (0xfc00_ffc0, 0xb800_0000, "l.slli"),
    (0xfc00_ffc0, 0xb800_0040, "l.srli"),
    (0xfc00_ffc0, 0xb800_0080, "l.srai"),
    (0xfc00_ffc0, 0xb800_00c0, "l.rori"),
    (0xffe0_0000, 0xbc00_0000, "l.sfeqi"),
    (0xffe0_0000, 0xbc20_0000, "l.sfnei"),
    (0xffe0_0000, 0xbc40_0000, "l.sfgtui"),
    (0xffe0_0000, 0xbc60_0000, "l.sfgeui"),
    (0xffe0_0000, 0xbc80_0000, "l.sfltui"),
    (0xffe0_0000, 0xbca0_0000, "l.sfleui"),
    (0xffe0_0000, 0xbd40_0000, "l.sfgtsi"),
    (0xffe0_0000, 0xbd60_0000, "l.sfgesi"),
    (0xffe0_0000, 0xbd80_0000, "l.sfltsi"),
    (0xffe0_0000, 0xbda0_0000, "l.sflesi"),
    (0xfc00_0000, 0xc000_0000, "l.mtspr"),
    (0xffe0_07ff, 0xc400_0001, "l.mac"),
    (0xffe0_07ff, 0xc400_0002, "l.msb"),
    (0xffe0_07ff, 0xc400_0003, "l.macu"),
    (0xffe0_07ff, 0xc400_0004, "l.msbu"),
    (0xfc00_0000, 0xcc00_0000, "l.swa"),
    (0xfc00_0000, 0xd400_0000, "l.sw"),
    (0xfc00_0000, 0xd800_0000, "l.sb"),
    (0xfc00_0000, 0xdc00_0000, "l.sh"),
    (0xfc00_07ff, 0xe000_0000, "l.add"),
    (0xfc00_07ff, 0xe000_0001, "l.addc"),
    (0xfc00_07ff, 0xe000_0002, "l.sub"),
    (0xfc00_07ff, 0xe000_0003, "l.and"),
    (0xfc00_07ff, 0xe000_0004, "l.or"),
    (0xfc00_07ff, 0xe000_0005, "l.xor"),
    (0xfc00_07ff, 0xe000_000e, "l.cmov"),
    (0xfc00_07ff, 0xe000_0306, "l.mul"),
    (0xfc00_07ff, 0xe000_0309, "l.div"),
    (0xfc00_07ff, 0xe000_030a, "l.divu"),
    (0xfc00_07ff, 0xe000_030b, "l.mulu"),
    (0xfc00_07ff, 0xe000_0008, "l.sll"),
    (0xfc00_07ff, 0xe000_0048, "l.srl"),
    (0xfc00_07ff, 0xe000_0088, "l.sra"),
    (0xfc00_07ff, 0xe000_00c8, "l.ror"),
    (0xffe0_07ff, 0xe000_0307, "l.muld"),
    (0xffe0_07ff, 0xe000_030c, "l.muldu"),
    (0xfc00_ffff, 0xe000_000f, "l.ff1"),
    (0xfc00_ffff, 0xe000_010f, "l.fl1"),
    (0xfc00_ffff, 0xe000_000c, "l.exths"),
    (0xfc00_ffff, 0xe000_004c, "l.extbs"),
    (0xfc00_ffff, 0xe000_008c, "l.exthz"),
    (0xfc00_ffff, 0xe000_00cc, "l.extbz"),
    (0xfc00_ffff, 0xe000_000d, "l.extws"),
    (0xfc00_ffff, 0xe000_004d, "l.extwz"),
    (0xffe0_07ff, 0xe400_0000, "l.sfeq"),
    (0xffe0_07ff, 0xe420_0000, "l.sfne"),
    (0xffe0_07ff, 0xe440_0000, "l.sfgtu"),
    (0xffe0_07ff, 0xe460_0000, "l.sfgeu"),
    (0xffe0_07ff, 0xe480_0000, "l.sfltu"),
    (0xffe0_07ff, 0xe4a0_0000, "l.sfleu"),
    (0xffe0_07ff, 0xe540_0000, "l.sfgts"),
    (0xffe0_07ff, 0xe560_0000, "l.sfges"),
    (0xffe0_07ff, 0xe580_0000, "l.sflts"),
    (0xffe0_07ff, 0xe5a0_0000, "l.sfles"),
];

// The name of the first row that the word matches.
fn name_in(rows: &[(u32, u32, &'static str)], word: u32) -> &'static str
    ensures { result.now ≡ name_in (map (λ row. (row.0, row.1, row.2.now)) rows.now) word }
{
    for row in rows {
        if word & row.0 == row.1 {
            return row.2;
        }
    }
    ""
}

/// The name of an instruction, as a source writes it.
#[tactic(auto, unfolding(crate::specs::Names::name_of, crate::specs::Names::rows))]
pub fn name(insn: &Insn) -> &'static str
    ensures { result.now ≡ name_of insn.now }
{
    name_in(&ROWS, encode(&bare(insn)))
}

// The value of the first row of this name.
fn value_in(rows: &[(u32, u32, &'static str)], text: &[u8]) -> Option<u32>
    ensures { result ≡ value_in text.now (map (λ row. (row.0, row.1, row.2.now)) rows.now) }
{
    for row in rows {
        if row.2.as_bytes() == text {
            return Some(row.1);
        }
    }
    None
}

/// The instruction of this name, with operands of zero, or none where no instruction has it.
#[tactic(auto, unfolding(crate::specs::Names::insn_named, crate::specs::Names::rows))]
pub fn insn_named(text: &[u8]) -> Option<Insn>
    ensures { result ≡ insn_named text.now }
{
    match value_in(&ROWS, text) {
        Some(value) => decode(value),
        None => None,
    }
}
