//! The parameters that stand for Skolem symbols.

ghost use Rattle.std.specs.Prelude.{◌≡◌, ◌++◌, ◌∷◌, [], IfOk, OnOk};
ghost use Rattle.free_terms.specs.View.{name_of};
ghost use Rattle.translation.specs.Translation.{parameter_of};
ghost use Rattle.deskolem.specs.Numbers.{AreNumbers};
ghost use Rattle.deskolem.specs.View.{names_of};

use free_terms::Name;
use std::alloc::{AllocError, Global};
use std::collections::HashMap;
use std::marker::Model;

/// Skolem symbols in their order, and the number of each, from 1.
#[derive(Drop)]
pub(crate) struct Parameters {
    names: Vec<Name>,
    numbers: HashMap<Name, u64>,
}

impl Model for Parameters {
    ghost use Rattle.std.specs.Prelude.{List};
    ghost use Rattle.std.specs.Coded.{coded_list};
    ghost use Rattle.free_terms.specs.declared.term.Name.{Name};
    ghost use Rattle.free_terms.specs.contracts.term.Name as name;
    ghost use Rattle.deskolem.specs.Numbers.{AreNumbers};

    ghost Value = { List Name };

    ghost coded = { coded_list name.the_row.coded };

    ghost view = { λ p. p.names.items };

    ghost invariant = { λ p. AreNumbers p.names.items p.numbers };
}

impl Parameters {
    pub(crate) fn new(alloc: Global) -> Parameters
        ensures { result ≡ [] }
    {
        Parameters {
            names: Vec::new(alloc),
            numbers: HashMap::new(alloc),
        }
    }

    /// The parameter of the Skolem symbol, and 0 where it has none.
    #[inline(never)]
    pub(crate) fn number(&self, name: &Name) -> u64
        ensures { result ≡ parameter_of 0 (names_of self.now) (name_of name.now) }
    {
        match self.numbers.get(name) {
            Some(number) => *number,
            None => 0,
        }
    }

    /// Gives the next symbol its parameter. One that has a parameter keeps it.
    pub(crate) fn with(self, name: Name) -> Result<Parameters, AllocError>
        ensures { IfOk result (λ p. p ≡ self ++ name ∷ []) }
    {
        let Parameters {
            mut names,
            mut numbers,
        } = self;
        enter(names.as_slice(), &mut numbers, name)?;
        names.push(name)?;
        Ok(Parameters { names, numbers })
    }

    /// The symbols in their order.
    pub(crate) fn as_slice(&self) -> &[Name]
        ensures { result.now ≡ self.now }
    {
        &self.names
    }
}

/// Enters the number of the symbol that comes behind the names, where it is not among them.
fn enter(names: &[Name], numbers: &mut HashMap<Name, u64>, name: Name) -> Result<(), AllocError>
    requires { AreNumbers names.now numbers.old }
    ensures { OnOk result (AreNumbers (names.now ++ name ∷ []) numbers.new) }
{
    if let Some(_) = numbers.get(&name) {
        return Ok(());
    }
    numbers.insert(name, names.len() as u64 + 1)?;
    Ok(())
}
