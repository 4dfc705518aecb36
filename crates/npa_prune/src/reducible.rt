ghost use Rattle.std.specs.Prelude.{◌≡◌, ◌↔◌, ◌⊎◌, IsTrue, IfOk, Contains};
ghost use Rattle.npa_model.specs.declared.pattern.PStrand.{PStrand as Role};
ghost use Rattle.npa_prune.specs.Pruned.{HasReducible, IsReducible};

use npa_model::{PStrand, Pattern};
use npa_rewrite::{Theory, is_normal};
use npa_term::{NoMemory, Term};
use std::alloc::Global;

/// Whether a term of a pattern isn't normal: a value, a message or a fact.
pub(crate) fn is_reducible(alloc: Global, th: &Theory, p: &Pattern) -> Result<bool, NoMemory>
    ensures { IfOk result (λ found. IsTrue found ↔ IsReducible th.now p.now) }
{
    if is_strand_reducible(alloc, th, p.strands.as_slice())? {
        return Ok(true);
    }
    if has_reducible(alloc, th, p.known.as_slice())? {
        return Ok(true);
    }
    has_reducible(alloc, th, p.unknown.as_slice())
}

// Whether a value or a message of one of the strands isn't normal.
fn is_strand_reducible(alloc: Global, th: &Theory, strands: &[PStrand]) -> Result<bool, NoMemory>
    ensures { IfOk result (λ found. IsTrue found ↔ ((p : Role) × Contains strands.now p
        × (HasReducible th.now p.args ⊎ HasReducible th.now p.msgs))) }
{
    for p in strands {
        if has_reducible(alloc, th, p.args.as_slice())? {
            return Ok(true);
        }
        if has_reducible(alloc, th, p.msgs.as_slice())? {
            return Ok(true);
        }
    }
    Ok(false)
}

// Whether one of the terms isn't normal.
fn has_reducible(alloc: Global, th: &Theory, terms: &[Term]) -> Result<bool, NoMemory>
    ensures { IfOk result (λ found. IsTrue found ↔ HasReducible th.now terms.now) }
{
    for t in terms {
        if !is_normal(alloc, th, t)? {
            return Ok(true);
        }
    }
    Ok(false)
}
