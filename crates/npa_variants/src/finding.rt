ghost use Rattle.std.specs.Prelude.{◌≡◌, ◌≤◌, length, map, IfOk};
ghost use Rattle.npa_term.specs.Numbering.{variables_once};
ghost use Rattle.npa_rewrite.specs.Rewriting.{AllCancel};
ghost use Rattle.npa_variants.specs.Narrowable.{AreVariants, IsNarrowable};
ghost use Rattle.npa_variants.specs.Search.{start_row, variants_of as rows_of};
ghost use Rattle.npa_variants.specs.Told.{AreDistinct, Told};
ghost use Rattle.npa_variants.specs.Variants.{variant_of};

use crate::error::VarFail;
use crate::kept::{Row, Stop};
use crate::parts::split;
use crate::searching::variant_rows;
use crate::variant::{Variant, Variants};
use npa_list::List;
use npa_rewrite::{Theory, normal_form};
use npa_term::{NoMemory, Subst, Term, Terms, Var, copy, copy_all, numbering};
use std::alloc::Global;

/// The variants of terms, of which at most 64 are kept at any moment: a complete list, of which none
/// covers another. They stand in the order in which they are found: level by level, at the
/// applications that are left of the terms, by the equations and their unifiers in order. Variables
/// for whose numbers there is no room count as want of memory.
pub fn variants(alloc: Global, th: &Theory, terms: &Terms) -> Result<Variants, VarFail>
    requires cancelling { AllCancel th.now }
    ensures answer { Told (variables_once terms.now) result (rows_of th.now terms.now) }
    ensures complete { IsNarrowable th.now terms.now → IfOk result (AreVariants th.now terms.now) }
    ensures few { IfOk result (λ list. length list ≤ 64) }
{
    found(alloc, th, terms)
}

fn found(alloc: Global, th: &Theory, terms: &Terms) -> Result<Variants, VarFail>
    requires cancelling { AllCancel th.now }
    ensures { Told (variables_once terms.now) result (rows_of th.now terms.now) }
{
    let vars = variables_once(alloc, terms.as_slice())?;
    let row = start_row(alloc, th, vars.as_slice(), terms.as_slice())?;
    match variant_rows(alloc, th, vars.len(), row) {
        Ok(rows) => Ok(variants_of(alloc, vars.as_slice(), rows.as_slice())?),
        Err(Stop::TooMany(rows)) => Err(VarFail::TooMany(variants_of(
            alloc,
            vars.as_slice(),
            rows.as_slice(),
        )?)),
        Err(Stop::Unifiers) => Err(VarFail::Unifiers),
        Err(Stop::Symbols(count)) => Err(VarFail::Symbols(count)),
        Err(Stop::NoMemory) => Err(VarFail::NoMemory),
    }
}

// The variables of terms, each once in the order in which they first occur.
fn variables_once(alloc: Global, terms: &[Term]) -> Result<Vec<Var>, NoMemory>
    ensures vars { IfOk result (λ vars. vars.items ≡ variables_once terms.now) }
{
    let numbers = numbering(alloc, terms)?;
    let mut vars = Vec::new(alloc);
    for (v, _) in numbers.as_slice() {
        vars.push(*v)?;
    }
    Ok(vars)
}

// The variables, and then the terms in normal form.
fn start_row(alloc: Global, th: &Theory, vars: &[Var], terms: &[Term]) -> Result<Row, NoMemory>
    requires cancelling { AllCancel th.now }
    ensures { IfOk result (λ row. row ≡ start_row th.now vars.now terms.now) }
{
    let mut row = Vec::new(alloc);
    for v in vars {
        row.push(Term::Var(*v))?;
    }
    for t in terms {
        row.push(normal_form(alloc, th, t)?)?;
    }
    Ok(List::from_vec(row))
}

// The variants that rows stand for.
fn variants_of(alloc: Global, vars: &[Var], rows: &[Row]) -> Result<Variants, NoMemory>
    requires { AreDistinct vars.now }
    ensures { IfOk result (λ list. list ≡ map (variant_of vars.now) rows.now) }
{
    let mut made = Vec::with_capacity(alloc, rows.len())?;
    for row in rows {
        made.push(variant_of(alloc, vars, row.as_slice())?)?;
    }
    Ok(List::from_vec(made))
}

// The variant that a row stands for.
fn variant_of(alloc: Global, vars: &[Var], row: &[Term]) -> Result<Variant, NoMemory>
    requires { AreDistinct vars.now }
    ensures { IfOk result (λ v. v ≡ variant_of vars.now row.now) }
{
    let (values, terms) = split(row, vars.len());
    let mut subst = Subst::new(alloc);
    for i in 0..values.len() {
        subst.bind(vars[i], copy(alloc, &values[i])?)?;
    }
    Ok(Variant {
        subst,
        terms: copy_all(alloc, terms)?,
    })
}
