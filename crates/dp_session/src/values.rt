ghost use Rattle.std.specs.Prelude.{◌≡◌, ◌≢◌, ◌<◌, ℕ, length, Some, None, IfOk, OnOk, OnErr, IsSome, option_map, nat_le, if◌then◌else◌, ◌==◌, ◌++◌, ◌∷◌, []};
ghost use Rattle.dp_session.specs.Values.{held_of};

use dp_count::NoMemory;
use dp_store::Held;
use dp_tree::place;
use std::alloc::Global;
use std::marker::Model;

/// What is held of the values of nodes, in the order of the nodes' numbers.
#[derive(Drop)]
pub(crate) struct Values {
    numbers: Vec<u32>,
    held: Vec<Held>,
}

impl Model for Values {
    ghost use Rattle.std.specs.Prelude.{◌≡◌, length};
    ghost use Rattle.dp_tree.specs.Lists.{Rise};
    ghost use Rattle.dp_session.specs.Values.{ValuesValue};

    ghost Value = { ValuesValue };

    ghost view = { λ values. record { numbers = values.numbers.items; held = values.held.items } };

    ghost invariant = { λ values. Rise values.numbers.items
        × (length values.held.items ≡ length values.numbers.items) };
}

impl Values {
    /// The value of the root alone.
    pub(crate) fn new(alloc: Global, root: Held) -> Result<Values, NoMemory>
        ensures root { IfOk result (λ values. held_of values 0 ≡ Some root) }
        ensures others { IfOk result (λ values. (node : ℕ) → node ≢ 0 → held_of values node ≡ None) }
    {
        let mut numbers = Vec::new(alloc);
        let mut held = Vec::new(alloc);
        numbers.push(0)?;
        append(&mut held, root)?;
        Ok(Values { numbers, held })
    }

    /// What is held of a node, if anything is.
    pub(crate) fn get(&self, node: u64) -> Option<&Held>
        ensures { option_map (λ held. held.now) result ≡ held_of self.now node }
    {
        let place = place(self.numbers.as_slice(), node)?;
        Some(&self.held[place as usize])
    }

    /// Lets go what is held of nodes after a node of which something is held.
    pub(crate) fn keep_to(&mut self, node: u64)
        requires { IsSome (held_of self.old node) }
        ensures { (i : ℕ) → held_of self.new i ≡ (if nat_le i node then held_of self.old i else None) }
    {
        let Some(place) = place(self.numbers.as_slice(), node) else {
            unreachable!()
        };
        self.numbers.truncate(place as usize + 1);
        self.held.truncate(place as usize + 1);
    }

    /// Holds the value of a node whose number is greater than those of all nodes of which something is held.
    pub(crate) fn push(&mut self, number: u32, held: Held) -> Result<(), NoMemory>
        requires { (node : ℕ) → IsSome (held_of self.old node) → node < number }
        ensures { OnOk result ((i : ℕ) → held_of self.new i ≡ (if number == i then Some held else held_of self.old i)) }
    {
        self.numbers.reserve(1)?;
        append(&mut self.held, held)?;
        self.numbers.push(number).unwrap();
        Ok(())
    }
}

/// Puts an item at the end. After `NoMemory` the list is unchanged.
fn append<T: Drop>(list: &mut Vec<T>, item: T) -> Result<(), NoMemory>
    ensures ok { OnOk result (list.new.items ≡ list.old.items ++ item ∷ []) }
    ensures err { OnErr result (list.new.items ≡ list.old.items) }
{
    list.push(item)?;
    Ok(())
}
