// The labels of a source and their places.
ghost use Rattle.std.specs.Prelude.{◌≡◌, ℕ, ◌++◌, [], ◌∷◌, List, map, take, IfOk, is_some};
ghost use Rattle.or_asm_read.specs.Labels.{place_of, first_number_of, HasFurther};

use std::alloc::{AllocError, Global};
use std::collections::HashMap;
use std::marker::Model;

// Adds the number of a label, where its name is new.
fn index_with<'a>(
    index: HashMap<&'a [u8], usize>,
    name: &'a [u8],
    number: usize,
) -> Result<HashMap<&'a [u8], usize>, AllocError>
    ensures { IfOk result (λ longer. HasFurther index.entry longer name.now number) }
{
    let mut index = index;
    if index.contains_key(name) {
        return Ok(index);
    }
    index.insert(name, number)?;
    Ok(index)
}

/// Labels with their places, in the order of their lines; contracts see the list of them. A name is looked up in an
/// index, so that a look-up does not go over all labels.
#[derive(Drop)]
pub struct LabelTable<'a> {
    list: Vec<(&'a [u8], u32)>,
    index: HashMap<&'a [u8], usize>,
}

impl<'a> Model for LabelTable<'a> {
    ghost use Rattle.std.specs.Prelude.{ℕ, List, map};
    ghost use Rattle.or_asm_read.specs.Labels.{IsIndex};

    ghost Value = { List (List ℕ × ℕ) };

    ghost view = { λ labels. map (λ label. (label.0.now, label.1)) labels.list.items };

    ghost invariant = { λ labels. IsIndex labels.index (map (λ label. (label.0.now, label.1)) labels.list.items) };
}

impl<'a> LabelTable<'a> {
    /// No labels.
    pub fn new(alloc: Global) -> Self
        ensures { result ≡ [] }
    {
        LabelTable {
            list: Vec::new(alloc),
            index: HashMap::new(alloc),
        }
    }

    /// Adds a label behind the others.
    pub fn with(self, name: &'a [u8], place: u32) -> Result<Self, AllocError>
        ensures { IfOk result (λ labels. labels ≡ self.entry ++ (name.now, place) ∷ []) }
    {
        let LabelTable { mut list, index } = self;
        let index = index_with(index, name, list.len())?;
        list.push((name, place))?;
        Ok(LabelTable { list, index })
    }

    /// The labels, in the order of their lines.
    pub fn entries(&self) -> &[(&'a [u8], u32)]
        ensures { map (λ label. (label.0.now, label.1)) result.now ≡ self.now }
    {
        self.list.as_slice()
    }

    // The number of the first label of this name, from 0.
    fn number(&self, name: &[u8]) -> Option<usize>
        ensures { result ≡ first_number_of self.now name.now }
    {
        self.index.get(name).copied()
    }

    /// The place of the first label of this name.
    #[tactic(auto, using(crate::proofs::LabelNumbers::numbers))]
    pub fn place_of(&self, name: &[u8]) -> Option<u32>
        ensures { result ≡ place_of self.now name.now }
    {
        match self.number(name) {
            Some(number) => Some(self.list[number].1),
            None => None,
        }
    }

    /// Whether a label of this name is among the first of them.
    #[tactic(auto, using(crate::proofs::LabelNumbers::numbers))]
    pub fn is_among_first(&self, count: usize, name: &[u8]) -> bool
        ensures { result ≡ is_some (place_of (take count self.now) name.now) }
    {
        match self.number(name) {
            Some(number) => number < count,
            None => false,
        }
    }
}
