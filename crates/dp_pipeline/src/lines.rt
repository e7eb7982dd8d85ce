ghost use Rattle.std.specs.Prelude.{◌≡◌, ◌++◌, ◌∷◌, [], string_bytes, OnOk, OnErr};
ghost use Rattle.std.specs.List.{concat};
ghost use Rattle.dp_count.specs.Faults.{HasCause};
ghost use Rattle.dp_io.specs.Sink.{appended, AddsFront};

use dp_count::{Failed, NoMemory};
use dp_domain::Text;
use dp_io::{Sink, write_all};
use std::alloc::Global;
use std::marker::Model;

/// Lines of text, each with its line feed. Contracts see the bytes of each.
#[derive(Drop)]
pub(crate) struct Lines {
    lines: Vec<Text>,
}

impl Model for Lines {
    ghost use Rattle.std.specs.Prelude.{ℕ, List};

    ghost Value = { List (List ℕ) };

    ghost view = { λ text. text.lines.items };
}

impl Lines {
    /// No lines.
    pub(crate) fn new(alloc: Global) -> Lines
        ensures { result ≡ [] }
    {
        Lines {
            lines: Vec::new(alloc),
        }
    }

    /// Puts a line at the end.
    pub(crate) fn push(&mut self, line: String) -> Result<(), NoMemory>
        ensures { OnOk result (self.new ≡ self.old ++ string_bytes line ∷ []) }
    {
        self.push_bytes(line.into_bytes())
    }

    /// Puts a line of these bytes at the end.
    pub(crate) fn push_bytes(&mut self, line: Vec<u8>) -> Result<(), NoMemory>
        ensures { OnOk result (self.new ≡ self.old ++ line.items ∷ []) }
    {
        self.lines.push(Text::from_vec(line))?;
        Ok(())
    }

    /// Writes the lines, each in one call. `Failed` comes only where the sink's count of faults rose; the sink then
    /// gained a front of them.
    pub(crate) fn write<K: Sink>(&self, out: &mut K) -> Result<(), Failed>
        ensures written { OnOk result (K.held out.new ≡ appended (K.held out.old) (concat self.now)) }
        ensures front { OnErr result (AddsFront (K.held out.old) (K.held out.new) (concat self.now)) }
        ensures cause { HasCause (K.faults out.old) (K.faults out.new) result }
    {
        for line in self.lines.as_slice() {
            write_all(out, line.as_slice())?;
        }
        Ok(())
    }
}
