ghost use Rattle.std.specs.Prelude.{◌≡◌, ◌++◌, map, IfOk};
ghost use Rattle.npa_term.specs.Bound.{applied};
ghost use Rattle.npa_term.specs.Canonical.{canonical};
ghost use Rattle.npa_term.specs.Numbering.{renumbered};
ghost use Rattle.npa_rewrite.specs.Innermost.{normalized};
ghost use Rattle.npa_rewrite.specs.Rewriting.{AllCancel};
ghost use Rattle.npa_variants.specs.Search.{are_normal, first_large};

use crate::kept::Row;
use npa_rewrite::{Theory, is_normal, normal_form};
use npa_term::{MAX_SYMBOLS, NoMemory, Subst, Term, instance, renumber, symbols_under};
use std::alloc::Global;

/// How many symbols the first instance has that has too many.
pub(crate) fn first_large(s: &Subst, ts: &[Term]) -> Option<u64>
    ensures { result ≡ first_large (map (applied s.now) ts.now) }
{
    for t in ts {
        let count = symbols_under(s, t);
        if count > MAX_SYMBOLS {
            return Some(count);
        }
    }
    None
}

/// The instances of terms.
pub(crate) fn instances(alloc: Global, s: &Subst, ts: &[Term]) -> Result<Vec<Term>, NoMemory>
    ensures { IfOk result (λ us. us.items ≡ map (λ t. canonical (applied s.now t)) ts.now) }
{
    let mut made = Vec::with_capacity(alloc, ts.len())?;
    for t in ts {
        made.push(instance(alloc, s, t)?)?;
    }
    Ok(made)
}

/// Whether all of these terms are normal.
pub(crate) fn are_normal(alloc: Global, th: &Theory, ts: &[Term]) -> Result<bool, NoMemory>
    requires cancelling { AllCancel th.now }
    ensures { IfOk result (λ normal. normal ≡ are_normal th.now ts.now) }
{
    for t in ts {
        if !is_normal(alloc, th, t)? {
            return Ok(false);
        }
    }
    Ok(true)
}

/// The row of these values and the normal forms of the instances of terms, its variables numbered
/// anew.
pub(crate) fn result(
    alloc: Global,
    th: &Theory,
    values: Vec<Term>,
    s: &Subst,
    terms: &[Term],
) -> Result<Row, NoMemory>
    requires cancelling { AllCancel th.now }
    ensures { IfOk result (λ row. row ≡ renumbered
        (values.items ++ map (λ t. normalized th.now (canonical (applied s.now t))) terms.now)) }
{
    let mut row = values;
    for t in terms {
        let made = instance(alloc, s, t)?;
        row.push(normal_form(alloc, th, &made)?)?;
    }
    renumber(alloc, row.as_slice())
}
