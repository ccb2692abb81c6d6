//! Laws of files, whatever reads or writes them.
ghost use Rattle.std.specs.Prelude.{◌≡◌, ℕ, ◌+◌, ◌*◌, ◌^◌, ◌<◌, List, None, length, slice_index};
ghost use Rattle.std.specs.List.{All};
ghost use Rattle.or_elf.specs.Header.{word_at};
ghost use Rattle.or_elf.specs.Fault.{elf_fault};
ghost use Rattle.or_elf.specs.Placed.{placed};
ghost use Rattle.or_elf.specs.Text.{Piece, piece_size, words_text, elf_text};
ghost use Rattle.or_elf.specs.Loading.{part, LoadsAlike, Covers, IsLoadable};

/// Only a file's length, its header, its program headers and the bytes of its segments count: two files that agree in
/// them have the same fault or none, and are placed alike.
pub fn only_segments_count()
    ensures fault { (bytes others : List ℕ) (ram : ℕ) → LoadsAlike bytes others → elf_fault bytes ram ≡ elf_fault others ram }
    ensures placing { (bytes others : List ℕ) (ram : ℕ) → LoadsAlike bytes others → placed bytes ram ≡ placed others ram }
{}

/// The file that is written of a program with 1 to 64 pieces inside RAM, no two of which share an address, and with at
/// most 16000000 words in all has no fault, and placing it puts the program's words at their places and zeros elsewhere.
pub fn written_programs_are_placed()
    ensures accepted { (program : List Piece) (ram : ℕ) → ram < 2 ^ 32 → IsLoadable ram program → elf_fault (elf_text program) ram ≡ None }
    ensures bytes { (program : List Piece) (ram : ℕ) → ram < 2 ^ 32 → IsLoadable ram program
        → All (λ piece. part (placed (elf_text program) ram) piece.0 (piece_size piece) ≡ words_text piece.1) program }
    ensures words { (program : List Piece) (ram : ℕ) → ram < 2 ^ 32 → IsLoadable ram program
        → All (λ piece. (index : ℕ) → index < length piece.1 → slice_index piece.1 index < 2 ^ 32
        → word_at (placed (elf_text program) ram) (piece.0 + 4 * index) ≡ slice_index piece.1 index) program }
    ensures zeros { (program : List Piece) (ram address : ℕ) → ram < 2 ^ 32 → IsLoadable ram program
        → All (λ piece. Covers piece address → ⊥) program → slice_index (placed (elf_text program) ram) address ≡ 0 }
    ensures size { (program : List Piece) (ram : ℕ) → ram < 2 ^ 32 → IsLoadable ram program → length (placed (elf_text program) ram) ≡ ram }
{}
