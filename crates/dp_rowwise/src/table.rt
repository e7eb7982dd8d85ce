ghost use Rattle.std.specs.Prelude.{◌≡◌, ◌≤◌, ◌++◌, ◌∷◌, [], length, IfOk, not, if◌then◌else◌};
ghost use Rattle.std.specs.List.{list_any};
ghost use Rattle.dp_domain.specs.Distance.{text_eq};
ghost use Rattle.dp_rowwise.specs.Categories.{place_in};

use dp_count::NoMemory;
use indexmap::IndexSet;
use std::alloc::Global;
use std::marker::Model;

/// Different texts with the place of each. Contracts see the list of the texts.
#[derive(Debug, Drop)]
pub struct Table {
    texts: IndexSet<Vec<u8>>,
}

impl Model for Table {
    ghost use Rattle.std.specs.Prelude.{ℕ, List, map};

    ghost Value = { List (List ℕ) };

    ghost view = { λ t. map (λ text. text.items) t.texts.keys };
}

impl Table {
    /// The table without a text, which takes no memory.
    pub fn new(alloc: Global) -> Table
        ensures { result ≡ [] }
    {
        Table {
            texts: IndexSet::new(alloc),
        }
    }

    /// Appends a text that the table does not have, and says whether it did.
    pub fn add(&mut self, text: Vec<u8>) -> Result<bool, NoMemory>
        ensures fresh { IfOk result (λ fresh. fresh ≡ not (list_any (text_eq text.items) self.old)) }
        ensures texts { IfOk result (λ fresh. self.new ≡ (if fresh then self.old ++ text.items ∷ [] else self.old)) }
    {
        let Ok(fresh) = self.texts.insert(text) else {
            return Err(NoMemory);
        };
        Ok(fresh)
    }

    /// How many texts there are.
    pub fn len(&self) -> usize
        ensures { result ≡ length self.now }
    {
        self.texts.len()
    }

    /// The place of a text, or the number of texts where it is not there. The text is looked up by its hash.
    pub fn number(&self, text: &[u8]) -> usize
        ensures place { result ≡ place_in self.now text.now }
        ensures within { result ≤ length self.now }
    {
        match self.texts.get_index_of(text) {
            Some(place) => place,
            None => self.texts.len(),
        }
    }
}
