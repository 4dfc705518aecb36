ghost use Rattle.std.specs.Prelude.{◌≡◌, flat_map};
ghost use Rattle.npa_term.specs.Variables.{variables};
ghost use Rattle.npa_variants.specs.Search.{past as past_of};
ghost use Rattle.npa_model.specs.Fitting.{strand_variables};
ghost use Rattle.npa_moves.specs.Moves.{past_pattern};

use npa_model::{PStrand, Pattern};
use npa_term::Term;

/// The first number past those of a pattern's variables.
pub(crate) fn past_pattern(g: &Pattern) -> u64
    ensures { result ≡ past_pattern g.now }
{
    past_strands(g.strands.as_slice())
        .max(past_all(g.known.as_slice()))
        .max(past_all(g.unknown.as_slice()))
}

fn past_strands(strands: &[PStrand]) -> u64
    ensures { result ≡ past_of (flat_map strand_variables strands.now) }
{
    let mut most = 0;
    for p in strands {
        most = past_strand(p).max(most);
    }
    most
}

fn past_strand(p: &PStrand) -> u64
    ensures { result ≡ past_of (strand_variables p.now) }
{
    past_all(p.args.as_slice()).max(past_all(p.msgs.as_slice()))
}

/// The first number past those of the variables of terms.
#[cycle(past)]
pub(crate) fn past_all(ts: &[Term]) -> u64
    ensures { result ≡ past_of (flat_map variables ts.now) }
{
    let mut most = 0;
    for t in ts {
        most = past(t).max(most);
    }
    most
}

// The first number past those of a term's variables.
#[cycle(past)]
fn past(t: &Term) -> u64
    ensures { result ≡ past_of (variables t.now) }
{
    match t {
        Term::Var(v) => v.num as u64 + 1,
        Term::Name(_) => 0,
        Term::App(_, args) => past_all(args.as_slice()),
    }
}
