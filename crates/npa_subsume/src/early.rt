ghost use Rattle.std.specs.Prelude.{◌≡◌, ℕ, false, List, Contains, map};
ghost use Rattle.npa_sorts.specs.Subsorts.{Subsorts};
ghost use Rattle.npa_term.specs.Bound.{applied};
ghost use Rattle.npa_term.specs.Same.{Same};
ghost use Rattle.npa_term.specs.declared.term.Term.{Term, App};
ghost use Rattle.npa_term.specs.declared.term.Var.{Var as Variable};
ghost use Rattle.npa_model.specs.Covering.{Covers, HasSame};
ghost use Rattle.npa_subsume.specs.Early.{AreSent, kind_count};

use npa_model::{PStrand, Pattern};
use npa_term::{Op, Term};

/// An early answer without memory, since a cover keeps the numbers of strands and the bars, and the
/// operators of facts: of each kind of strand the other pattern has as many, and for each fact it has
/// one with the same operator.
pub(crate) fn may_cover(t: &Pattern, s: &Pattern) -> bool
    ensures { result ≡ false → (o : Subsorts) → Covers o t.now s.now → ⊥ }
{
    have_kinds(t.strands.as_slice(), s.strands.as_slice())
        && have_heads(t.known.as_slice(), s.known.as_slice())
        && have_heads(t.unknown.as_slice(), s.unknown.as_slice())
}

// Whether there are at least as many strands of each kind.
fn have_kinds(ps: &[PStrand], qs: &[PStrand]) -> bool
    ensures { result ≡ false → (at : List ℕ) → AreSent ps.now qs.now at → ⊥ }
{
    for p in ps {
        if count_kind(qs, p.strand, p.bar) < count_kind(ps, p.strand, p.bar) {
            return false;
        }
    }
    true
}

// How many of the strands are of this number and stand at this bar.
fn count_kind(ps: &[PStrand], strand: u16, bar: u16) -> usize
    ensures { result ≡ kind_count strand bar ps.now }
{
    let mut count = 0;
    for p in ps {
        if p.strand == strand && p.bar == bar {
            count += 1;
        }
    }
    count
}

// Whether each of the terms has one with its operator.
fn have_heads(ts: &[Term], us: &[Term]) -> bool
    ensures { result ≡ false → (s : List (Variable × Term))
        → ((t : Term) → Contains (map (applied s) ts.now) t → HasSame us.now t) → ⊥ }
{
    for t in ts {
        if !has_head(t, us) {
            return false;
        }
    }
    true
}

// Whether one of the terms may be an instance of this one.
fn has_head(t: &Term, us: &[Term]) -> bool
    ensures { result ≡ false → (s : List (Variable × Term)) → HasSame us.now (applied s t.now) → ⊥ }
{
    for u in us {
        if heads_agree(t, u) {
            return true;
        }
    }
    false
}

// Whether the first term is a variable or a name, or both are of one operator.
fn heads_agree(t: &Term, u: &Term) -> bool
    ensures { result ≡ false → (s : List (Variable × Term)) → Same (applied s t.now) u.now → ⊥ }
{
    match t {
        Term::App(op, _) => is_of(u, *op),
        _ => true,
    }
}

// Whether the term is one of this operator.
fn is_of(t: &Term, op: Op) -> bool
    ensures { result ≡ false → (ts : List Term) → t.now ≡ App op ts → ⊥ }
{
    match t {
        Term::App(f, _) => *f == op,
        _ => false,
    }
}
