//! Laws of sources and their programs, in the words of the subject: what is printed is read back, a line and a number have
//! one reading, the first fault decides, and the pieces hold the words.
//!
//! Each function here has an empty body, and its contract is the law: the statements are of definitions alone, so there is
//! no code that an edit could make wrong. The wrong bodies of the assembler stand with its code.
#![tactic(auto)]

ghost use Rattle.std.specs.Prelude.{◌≡◌, ℕ, ℤ, pos, ◌%◌, ◌^◌, ◌<◌, [], ◌∷◌, ◌++◌, List, Option, Some, None, Ok, Err};
ghost use Rattle.or_asm_read.specs.Cuts.{label_of, statement_of};
ghost use Rattle.or_asm_laws.specs.Apart.{AllApart, AllInMemory};
ghost use Rattle.or_asm_laws.specs.Grammar.{IsLine, org_line};
ghost use Rattle.or_asm_laws.specs.Numerals.{SpellsNumber};
ghost use Rattle.or_asm.specs.First.{all_labels, IsFirstFault, IsProgram};
ghost use Rattle.or_asm.specs.Pairs.{placed_words, words_put};
ghost use Rattle.or_asm.specs.Lines.{lines_of, place_after};
ghost use Rattle.or_isa.specs.declared.Insn.{Insn};
ghost use Rattle.or_isa.specs.Fits.{Fits};
ghost use Rattle.or_isa.specs.Word.{word_of};
ghost use Rattle.or_asm.specs.Source.{State, SourceFault, source_of, initial_state, state_after, line_fault};
ghost use Rattle.or_text.specs.Hexadecimal.{hexadecimal};
ghost use Rattle.or_asm_text.specs.Texts.{register_text, text_of};
ghost use Rattle.or_asm_read.specs.Numbers.{number_of, register_of};

/// Numbers and registers are read back.
pub fn numbers_read_back()
    ensures hex { (n : ℕ) → n < 2 ^ 32 → number_of (hexadecimal n) ≡ Some (pos n) }
    ensures registers { (r : ℕ) → r < 2 ^ 5 → register_of (register_text r) ≡ Some r }
{}

/// A source of two lines, an `.org` with a place below 10000000 (hexadecimal) in any spelling and the text that is
/// printed there, has the one word of the instruction at that place, whether or not the last line is ended.
pub fn prints_read_back()
    ensures bare { (i : Insn) (number : List ℕ) (p : ℕ) → Fits i → number_of number ≡ Some (pos p) → p < 2 ^ 28 → p % 4 ≡ 0
        → source_of (org_line number ++ 10 ∷ text_of p i) ≡ Ok ((p, word_of i ∷ []) ∷ []) }
    ensures ended { (i : Insn) (number : List ℕ) (p : ℕ) → Fits i → number_of number ≡ Some (pos p) → p < 2 ^ 28 → p % 4 ≡ 0
        → source_of (org_line number ++ 10 ∷ (text_of p i ++ 10 ∷ [])) ≡ Ok ((p, word_of i ∷ []) ∷ []) }
    ensures printed { (i : Insn) (p : ℕ) → Fits i → p < 2 ^ 28 → p % 4 ≡ 0
        → source_of (org_line (hexadecimal p) ++ 10 ∷ text_of p i) ≡ Ok ((p, word_of i ∷ []) ∷ []) }
{}

/// The answer for a source is the least fault of the first line that has one, with the word that it is about, and exactly where none
/// has, what all its lines put.
pub fn first_fault_decides()
    ensures refused { (text : List ℕ) (refusal : SourceFault) → source_of text ≡ Err refusal → IsFirstFault text refusal }
    ensures only { (text : List ℕ) (refusal : SourceFault) → IsFirstFault text refusal → source_of text ≡ Err refusal }
    ensures program { (text : List ℕ) (pieces : List (ℕ × List ℕ)) → source_of text ≡ Ok pieces → IsProgram text pieces }
    ensures whole { (text : List ℕ) (pieces : List (ℕ × List ℕ)) → IsProgram text pieces → source_of text ≡ Ok pieces }
{}

/// A line has one reading: how it is spelled decides its label and its statement, and each line is spelled so.
pub fn lines_have_one_reading()
    ensures label { (line : List ℕ) (label : Option (List ℕ)) (statement : List ℕ) → IsLine line label statement → label_of line ≡ label }
    ensures statement { (line : List ℕ) (label : Option (List ℕ)) (statement : List ℕ) → IsLine line label statement → statement_of line ≡ statement }
    ensures each { (line : List ℕ) → IsLine line (label_of line) (statement_of line) }
{}

/// A number is read exactly where one is spelled, and a register where its own text stands.
pub fn numbers_have_one_reading()
    ensures found { (text : List ℕ) (z : ℤ) → number_of text ≡ Some z → SpellsNumber text z }
    ensures only { (text : List ℕ) (z : ℤ) → SpellsNumber text z → number_of text ≡ Some z }
    ensures register { (text : List ℕ) (r : ℕ) → register_of text ≡ Some r → (r < 2 ^ 5) × (text ≡ register_text r) }
{}

/// The pieces of a program hold what its lines put, each word at its place, in the order of the lines.
pub fn pieces_hold_the_words()
    ensures { (text : List ℕ) (pieces : List (ℕ × List ℕ)) → source_of text ≡ Ok pieces
        → placed_words pieces ≡ words_put (all_labels text) initial_state (lines_of text) }
{}

/// The two passes agree: where a line has no fault, the labels behind it count from the place that its word leaves.
pub fn passes_agree()
    ensures { (labels : List (List ℕ × ℕ)) (state : State) (line : List ℕ) → line_fault labels state line ≡ None
        → (state_after labels state line).place ≡ place_after state.place line }
{}

/// No two pieces of a program share an address, and each has words, at multiples of four below 10000000 (hexadecimal).
pub fn words_stand_apart()
    ensures apart { (text : List ℕ) (pieces : List (ℕ × List ℕ)) → source_of text ≡ Ok pieces → AllApart pieces }
    ensures within { (text : List ℕ) (pieces : List (ℕ × List ℕ)) → source_of text ≡ Ok pieces → AllInMemory pieces }
{}
