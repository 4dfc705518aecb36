ghost use Rattle.std.specs.Prelude.{◌≡◌, ◌<◌, ◌↔◌, [], ◌∷◌, ◌++◌, length, slice_get, IsSome, OnOk, OnErr};
ghost use Rattle.std.specs.Option.{option_copied};
ghost use Rattle.npa_sig.specs.Meaning.{variable_of};

use crate::meaning::Scoped;
use npa_names::NameTable;
use npa_term::Var;
use std::alloc::{AllocError, Global};
use std::marker::Model;

/// The names that stand for variables in an item of a module, in order. Where a name stands
/// twice, the first counts. Contracts see the list of the names with their variables. A name's
/// variable is found in constant time.
#[derive(Debug, Drop)]
pub struct Scope {
    scoped: Vec<Scoped>,
    names: NameTable,
    // The variable of each name of the table, by its place there.
    vars: Vec<Var>,
}

impl Model for Scope {
    ghost use Rattle.std.specs.Prelude.{List};
    ghost use Rattle.npa_sig.specs.declared.meaning.Scoped.{Scoped};

    ghost Value = { List Scoped };

    ghost use Rattle.npa_sig.specs.Scopes.{IsIndexed};

    ghost view = { λ s. s.scoped.items };

    ghost invariant = { λ s. IsIndexed s.names s.vars.items s.scoped.items };
}

impl Scope {
    /// The scope without names. It takes no memory.
    pub fn new(alloc: Global) -> Scope
        ensures { result ≡ [] }
    {
        Scope {
            scoped: Vec::new(alloc),
            names: NameTable::new(alloc),
            vars: Vec::new(alloc),
        }
    }

    /// How many names the scope has, each counted as often as it stands there.
    pub fn len(&self) -> usize
        ensures { result ≡ length self.now }
    {
        self.scoped.len()
    }

    /// The name at a place, counted from 0, with its variable: `None` exactly where the place
    /// isn't below `len`.
    pub fn get(&self, at: usize) -> Option<&Scoped>
        ensures value { option_copied result ≡ slice_get self.now at }
        ensures within { IsSome result ↔ (at < length self.now) }
    {
        self.scoped.get(at)
    }

    /// The names with their variables, in order.
    pub fn as_slice(&self) -> &[Scoped]
        ensures { result.now ≡ self.now }
    {
        self.scoped.as_slice()
    }

    /// The variable that a word stands for.
    pub fn variable(&self, word: &[u8]) -> Option<Var>
        ensures { result ≡ variable_of word.now self.now }
    {
        let place = self.names.place(word)?;
        self.vars.get(place).copied()
    }

    /// Adds a name with its variable at the end. Where memory is wanting the scope stays as it
    /// was and the name is dropped.
    pub fn push(&mut self, alloc: Global, scoped: Scoped) -> Result<(), AllocError>
        ensures ok { OnOk result (self.new ≡ self.old ++ scoped ∷ []) }
        ensures err { OnErr result (self.new ≡ self.old) }
    {
        // Room is made first, so that nothing has changed where memory is wanting.
        self.scoped.reserve(1)?;
        self.vars.reserve(1)?;
        if self.names.insert(alloc, scoped.name.as_slice())? {
            self.vars.push_reserved(scoped.var);
        }
        self.scoped.push_reserved(scoped);
        Ok(())
    }
}
