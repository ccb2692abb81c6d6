//! The assembler: sources in the assembler syntax of the OpenRISC 1000 Architecture Manual 1.3, and the programs that they
//! say. The printer of instructions is re-exported.
#![tactic(auto)]

ghost use Rattle.std.specs.Prelude.{◌≡◌, ◌≤◌, [], length, OnOk, OnErr};
ghost use Rattle.or_words.specs.declared.limits.TheConstants.{SOURCE_LIMIT, MOST_SEGMENTS, MOST_PROGRAM_WORDS};
ghost use Rattle.or_asm.specs.Program.{word_count};
ghost use Rattle.or_asm.specs.Source.{source_of, Answers};

mod fault;
mod lines;
mod passes;
mod pieces;
mod shown;
mod symbols;

pub use fault::AsmFault;
pub use or_asm_text::printing::print;
use or_isa::Program;
use std::alloc::Global;
pub use symbols::program_symbols;

/// Assembles a source of at most 4 MiB. The program's pieces stand in the order in which the source begins them; a piece
/// begins with the first word after the start, which is at 00000100, or after an `.org`. A refusal is the least fault of
/// the first line that has one, or `NoMemory`; after a refusal the program is empty. A program has at most 64 pieces
/// and at most 16000000 words.
#[tactic(auto, using(crate::proofs::Bounds::bounds))]
pub fn assemble<'a>(alloc: Global, text: &'a [u8], out: &mut Program) -> Result<(), AsmFault<'a>>
    requires empty { out.old ≡ [] }
    requires limit { length text.now ≤ SOURCE_LIMIT }
    ensures source { Answers result out.new (source_of text.now) }
    ensures err { OnErr result (out.new ≡ []) }

    // What the writer of ELF files asks of a program.
    ensures few { OnOk result (length out.new ≤ MOST_SEGMENTS) }
    ensures short { OnOk result (word_count out.new ≤ MOST_PROGRAM_WORDS) }
{
    match passes::assembled(alloc, text) {
        Ok(pieces) => {
            *out = Program { pieces };
            Ok(())
        }
        Err(fault) => Err(fault),
    }
}
