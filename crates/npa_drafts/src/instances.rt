ghost use Rattle.std.specs.Prelude.{◌≡◌, map, IfOk};
ghost use Rattle.std.specs.List.{list_any};
ghost use Rattle.npa_term.specs.Computed.{is_same};
ghost use Rattle.npa_model.specs.Patterns.{map_strand};
ghost use Rattle.npa_moves.specs.Finishing.{instance_of, kept_once};

use npa_list::List;
use npa_model::{PStrand, PStrands};
use npa_term::{NoMemory, Subst, Term, Terms, equals, instance};
use std::alloc::Global;

/// The instances of terms, each canonical.
pub(crate) fn instances(alloc: Global, s: &Subst, terms: &[Term]) -> Result<Terms, NoMemory>
    ensures { IfOk result (λ made. made ≡ map (instance_of s.now) terms.now) }
{
    let mut made = Vec::with_capacity(alloc, terms.len())?;
    for t in terms {
        made.push(instance(alloc, s, t)?)?;
    }
    Ok(List::from_vec(made))
}

/// The instances of strands.
pub(crate) fn strand_instances(
    alloc: Global,
    s: &Subst,
    strands: &[PStrand],
) -> Result<PStrands, NoMemory>
    ensures { IfOk result (λ made. made ≡ map (map_strand (instance_of s.now)) strands.now) }
{
    let mut made = Vec::with_capacity(alloc, strands.len())?;
    for p in strands {
        made.push(strand_instance(alloc, s, p)?)?;
    }
    Ok(List::from_vec(made))
}

fn strand_instance(alloc: Global, s: &Subst, p: &PStrand) -> Result<PStrand, NoMemory>
    ensures { IfOk result (λ made. made ≡ map_strand (instance_of s.now) p.now) }
{
    Ok(PStrand {
        strand: p.strand,
        bar: p.bar,
        args: instances(alloc, s, p.args.as_slice())?,
        msgs: instances(alloc, s, p.msgs.as_slice())?,
    })
}

/// The instances of facts, of equal ones the first.
pub(crate) fn fact_instances(alloc: Global, s: &Subst, facts: &[Term]) -> Result<Terms, NoMemory>
    ensures { IfOk result (λ kept. kept ≡ kept_once (map (instance_of s.now) facts.now)) }
{
    let mut kept = List::new(alloc);
    for t in facts {
        let made = instance(alloc, s, t)?;
        if !is_kept(kept.as_slice(), &made) {
            kept.push(made)?;
        }
    }
    Ok(kept)
}

// Whether a fact equals one that is kept.
fn is_kept(kept: &[Term], fact: &Term) -> bool
    ensures { result ≡ list_any (is_same fact.now) kept.now }
{
    for t in kept {
        if equals(fact, t) {
            return true;
        }
    }
    false
}
