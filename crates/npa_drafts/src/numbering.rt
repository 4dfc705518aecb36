ghost use Rattle.std.specs.Prelude.{◌≡◌, ◌++◌, OnOk, length, map, zip, IfOk, List as ListOf};
ghost use Rattle.npa_variants.specs.Told.{AreDistinct};
ghost use Rattle.npa_model.specs.Patterns.{map_pattern};
ghost use Rattle.npa_moves.specs.Finishing.{instance_of, new_numbers, pattern_terms, strand_terms};
ghost use Rattle.npa_drafts.specs.Drafts.{as_draft};
ghost use Rattle.std.specs.List.{flat_map};

use crate::drafting::Draft;
use crate::instances::{instances, strand_instances};
use npa_list::List;
use npa_model::{PStrand, Pattern};
use npa_term::{NoMemory, Subst, Term, Terms, Var, copy, numbering};
use std::alloc::Global;

/// A pattern in new numbers, and the value of each variable in them.
#[derive(Debug, Drop)]
pub struct Numbered {
    pub unifier: Subst,
    pub pattern: Pattern,
}

/// A draft with its variables numbered anew, from 0: first those of the pattern, as they occur, then the
/// others of the values. Each of `vars` is bound to its value.
pub fn number_anew(alloc: Global, vars: &[Var], d: &Draft) -> Result<Numbered, NoMemory>
    requires once { AreDistinct vars.now }
    requires values { length d.now.values ≡ length vars.now }
    ensures unifier { IfOk result (λ n. n.unifier
        ≡ zip vars.now (map (instance_of (new_numbers (as_draft d.now))) d.now.values)) }
    ensures pattern { IfOk result (λ n. n.pattern
        ≡ map_pattern (instance_of (new_numbers (as_draft d.now))) d.now.pattern) }
{
    let terms = all_terms(alloc, d)?;
    let numbers = numbering(alloc, terms.as_slice())?;
    let values = instances(alloc, &numbers, d.values.as_slice())?;
    Ok(Numbered {
        unifier: bound(alloc, vars, values.as_slice())?,
        pattern: pattern_instance(alloc, &numbers, &d.pattern)?,
    })
}

fn pattern_instance(alloc: Global, s: &Subst, p: &Pattern) -> Result<Pattern, NoMemory>
    ensures { IfOk result (λ made. made ≡ map_pattern (instance_of s.now) p.now) }
{
    Ok(Pattern {
        strands: strand_instances(alloc, s, p.strands.as_slice())?,
        known: instances(alloc, s, p.known.as_slice())?,
        unknown: instances(alloc, s, p.unknown.as_slice())?,
    })
}

// Each variable, bound to the value at its place.
fn bound(alloc: Global, vars: &[Var], values: &[Term]) -> Result<Subst, NoMemory>
    requires once { AreDistinct vars.now }
    requires values { length values.now ≡ length vars.now }
    ensures { IfOk result (λ s. s ≡ zip vars.now values.now) }
{
    let mut s = Subst::new(alloc);
    for i in 0..values.len() {
        s.bind(vars[i], copy(alloc, &values[i])?)?;
    }
    Ok(s)
}

// The terms of a draft's pattern, and then its values.
fn all_terms(alloc: Global, d: &Draft) -> Result<Terms, NoMemory>
    ensures { IfOk result (λ terms. terms ≡ pattern_terms d.now.pattern ++ d.now.values) }
{
    let mut terms = pattern_terms(alloc, &d.pattern)?;
    add_terms(alloc, &mut terms, d.values.as_slice())?;
    Ok(terms)
}

/// The terms of a pattern, in their order.
pub(crate) fn pattern_terms(alloc: Global, p: &Pattern) -> Result<Terms, NoMemory>
    ensures { IfOk result (λ terms. terms ≡ pattern_terms p.now) }
{
    let mut terms = List::new(alloc);
    for strand in p.strands.as_slice() {
        add_strand_terms(alloc, &mut terms, strand)?;
    }
    add_terms(alloc, &mut terms, p.known.as_slice())?;
    add_terms(alloc, &mut terms, p.unknown.as_slice())?;
    Ok(terms)
}

fn add_strand_terms(alloc: Global, terms: &mut Terms, p: &PStrand) -> Result<(), NoMemory>
    ensures { OnOk result (terms.new ≡ terms.old ++ strand_terms p.now) }
{
    add_terms(alloc, terms, p.args.as_slice())?;
    add_terms(alloc, terms, p.msgs.as_slice())
}

fn add_terms(alloc: Global, terms: &mut Terms, more: &[Term]) -> Result<(), NoMemory>
    ensures { OnOk result (terms.new ≡ terms.old ++ more.now) }
{
    for t in more {
        terms.push(copy(alloc, t)?)?;
    }
    Ok(())
}
