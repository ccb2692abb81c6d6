// A part of a file that is loaded.

/// A program header of type 1 (`PT_LOAD`): a part of the file, and where it is loaded in memory. All numbers but
/// the index are of bytes.
#[derive(Clone, Copy, Debug, Default, PartialEq, Eq)]
pub struct Segment {
    /// Its place among all program headers, from 0.
    pub index: u32,
    /// `p_offset`: where its bytes start in the file.
    pub offset: u32,
    /// `p_paddr`: where it starts in RAM.
    pub paddr: u32,
    /// `p_filesz`: how many bytes it has in the file.
    pub filesz: u32,
    /// `p_memsz`: how many bytes it has in RAM, with the zeros behind those of the file.
    pub memsz: u32,
}
