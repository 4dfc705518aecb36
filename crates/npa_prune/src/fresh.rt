ghost use Rattle.std.specs.Prelude.{◌≡◌, ◌↔◌, ◌∷◌, ◌++◌, ◌||◌, not, List as ListOf, IsTrue, IfOk};
ghost use Rattle.npa_term.specs.declared.term.Term.{Term as Tree};
ghost use Rattle.npa_prune.specs.Pruned.{SharesFresh, fresh_args};
ghost use Rattle.npa_prune.specs.Repeating.{repeats};

use npa_list::List;
use npa_model::{PStrand, Pattern};
use npa_sig::Protocol;
use npa_term::{NoMemory, Term, Var};
use std::alloc::Global;

/// Whether the value of a fresh parameter isn't a variable, or two fresh parameters have one variable.
pub(crate) fn shares_fresh(
    alloc: Global,
    protocol: &Protocol,
    p: &Pattern,
) -> Result<bool, NoMemory>
    ensures { IfOk result (λ shared. IsTrue shared ↔ SharesFresh protocol.now.strands p.now) }
{
    let mut seen = List::new(alloc);
    for strand in p.strands.as_slice() {
        if repeats(&mut seen, fresh_args(protocol, strand))? {
            return Ok(true);
        }
    }
    Ok(false)
}

/// The values of the fresh parameters of a pattern's strand.
pub(crate) fn fresh_args<'a>(protocol: &Protocol, p: &'a PStrand) -> &'a [Term]
    ensures { result.now ≡ fresh_args protocol.now.strands p.now }
{
    match protocol.strands.get(p.strand as usize) {
        Some(strand) => {
            let args = p.args.as_slice();
            &args[args.len().min(strand.vars.len())..]
        }
        None => &[],
    }
}

// Adds the variables that the values are to those that were seen, up to the first value that isn't a
// variable or was seen; whether there is such a value.
fn repeats(seen: &mut List<Var>, values: &[Term]) -> Result<bool, NoMemory>
    ensures { IfOk result (λ found. (rest : ListOf Tree)
        → repeats seen.old (values.now ++ rest) ≡ (found || repeats seen.new rest)) }
{
    for value in values {
        if !sees(seen, value)? {
            return Ok(true);
        }
    }
    Ok(false)
}

// Adds the variable that the value is, where it is one that wasn't seen.
fn sees(seen: &mut List<Var>, value: &Term) -> Result<bool, NoMemory>
    ensures { IfOk result (λ new. (rest : ListOf Tree)
        → repeats seen.old (value.now ∷ rest) ≡ (not new || repeats seen.new rest)) }
{
    match value {
        Term::Var(v) => {
            if seen.as_slice().contains(v) {
                return Ok(false);
            }
            seen.push(*v)?;
            Ok(true)
        }
        _ => Ok(false),
    }
}
