ghost use Rattle.std.specs.Prelude.{◌≡◌, ◌<◌, ℕ, true, map, Contains, IfOk, Bool, List as ListOf, [], ◌∷◌, ◌++◌, OnOk, Some, length, slice_get};
ghost use Rattle.npa_term.specs.declared.term.Term.{Term as Tree};
ghost use Rattle.npa_term.specs.Parts.{least_sort};
ghost use Rattle.npa_sig.specs.declared.protocol.Strand.{Strand as Role};
ghost use Rattle.npa_sig.specs.Nameless.{AreCarriers};
ghost use Rattle.npa_sig.specs.Parameters.{param_sorts};
ghost use Rattle.npa_sig.specs.Sorting.{all_below};
ghost use Rattle.npa_sig.specs.WellFormed.{IsPlainProtocol, IsWellFormedProtocol};
ghost use Rattle.npa_rewrite.specs.Normal.{IsNormalTerm};
ghost use Rattle.npa_rewrite.specs.Rewriting.{AllCancel, GivesNormalForms, IsConvergent};
ghost use Rattle.npa_rewrite.specs.Theories.{theory_of};
ghost use Rattle.npa_variants.specs.declared.variant.Variant.{Variant as Found};
ghost use Rattle.npa_variants.specs.Origination.{Originates};
ghost use Rattle.npa_variants.specs.Originating.{IsOriginating};
ghost use Rattle.npa_variants.specs.Ready.{
  Answers,
  AreFound,
  IsFound,
  lists_fault,
  ready_fault,
  search_fault,
  searches_fault,
  strand_rows,
};
ghost use Rattle.npa_variants.specs.StrandVariants.{AreStrandVariants, IsInstanceOf};
ghost use Rattle.npa_variants.specs.Strands.{param_count};

use crate::error::VarFail;
use crate::fault::ReadyFail;
use crate::finding::variants;
use crate::origins::origin_fault;
use crate::strands::strand_terms;
use crate::variant::Variants;
use npa_list::List;
use npa_rewrite::Theory;
use npa_sig::{Protocol, Sig, Strand};
use npa_term::NoMemory;
use std::alloc::Global;
use std::marker::Model;

/// A protocol whose theory is convergent, with a complete list of variants of each strand that
/// originate. Contracts see it as its protocol.
#[derive(Debug, Drop)]
pub struct Ready {
    protocol: Protocol,
    theory: Theory,
    lists: List<Variants>,
}

impl Model for Ready {
    ghost use Rattle.std.specs.Prelude.{◌≡◌};
    ghost use Rattle.std.specs.Coded.{codes};
    ghost use Rattle.npa_term.specs.contracts.term.Term as term;
    ghost use Rattle.npa_sig.specs.declared.protocol.Protocol.{Protocol as Seen};
    ghost use Rattle.npa_rewrite.specs.Theories.{theory_of};
    ghost use Rattle.npa_variants.specs.Ready.{IsReady};

    ghost Value = { Seen };

    ghost coded = { Prim.hlevel (codes, term.the_row.coded) };

    ghost view = { λ r. r.protocol };

    ghost invariant = { λ r. (r.theory ≡ theory_of r.protocol) × IsReady r.protocol r.lists };
}

impl Ready {
    /// Searches for the variants of each strand in order, of its parameters and then its messages, and
    /// then looks in them for the first variable that doesn't originate.
    pub fn make(alloc: Global, protocol: Protocol) -> Result<Ready, ReadyFail>
        requires cancelling { AllCancel (theory_of protocol) }
        requires convergent { IsConvergent (theory_of protocol) }
        requires formed { IsWellFormedProtocol protocol }
        requires plain { IsPlainProtocol protocol }
        ensures answer { (marks : ListOf Bool) → AreCarriers protocol.sig marks
            → Answers (λ ready. ready ≡ protocol) result (ready_fault marks protocol) }
    {
        let theory = Theory::of(alloc, &protocol)?;
        let lists = match all_variants(alloc, &theory, protocol.strands.as_slice()) {
            Ok(lists) => lists,
            Err(fail) => return Err(fail),
        };
        let marks = carriers(alloc, &protocol.sig)?;
        let origins = check_origins(
            alloc,
            &marks,
            &theory,
            protocol.strands.as_slice(),
            lists.as_slice(),
        )?;
        match origins {
            Some(fail) => Err(fail),
            None => Ok(Ready {
                protocol,
                theory,
                lists,
            }),
        }
    }

    /// The protocol.
    pub fn protocol(&self) -> &Protocol
        ensures { result.now ≡ self.now }
    {
        &self.protocol
    }

    /// The protocol's operators and equations.
    pub fn theory(&self) -> &Theory
        ensures { result.now ≡ theory_of self.now }
    {
        &self.theory
    }

    /// The variants of a strand, by its place.
    pub fn strand_variants(&self, strand: u16) -> &Variants
        requires { strand < length self.now.strands }
        ensures { (role : Role) → slice_get self.now.strands strand ≡ Some role
            → IsFound (theory_of self.now) role result.now }
    {
        &self.lists.as_slice()[strand as usize]
    }

    /// Does nothing: its clauses say what a protocol is asked of that is ready, and what holds of the
    /// variants of its strands. Each instance of a strand goes through one, and whatever function has
    /// the normal forms, what is sent originates.
    pub fn laws(&self)
        ensures cancelling { AllCancel (theory_of self.now) }
        ensures convergent { IsConvergent (theory_of self.now) }
        ensures formed { IsWellFormedProtocol self.now }
        ensures plain { IsPlainProtocol self.now }
        ensures variants { (s : ℕ) (strand : Role) (list : ListOf Found)
            → slice_get self.now.strands s ≡ Some strand → IsFound (theory_of self.now) strand list
            → AreStrandVariants (theory_of self.now) strand list }
        ensures origins { (s : ℕ) (strand : Role) (list : ListOf Found)
            → slice_get self.now.strands s ≡ Some strand → IsFound (theory_of self.now) strand list
            → (v : Found) → Contains list v
            → Originates self.now.sig (param_count strand) strand v.terms }
        ensures instances { (nf : Tree → Tree) → GivesNormalForms (theory_of self.now) nf
            → (s : ℕ) (strand : Role) (list : ListOf Found)
            → slice_get self.now.strands s ≡ Some strand → IsFound (theory_of self.now) strand list
            → (args : ListOf Tree)
            → all_below self.now.sig (map least_sort args) (param_sorts strand) ≡ true
            → ((t : Tree) → Contains args t → IsNormalTerm nf self.now.sig t)
            → (v : Found) × Contains list v × IsInstanceOf nf self.now.sig strand args v }
        ensures originating { (nf : Tree → Tree) → GivesNormalForms (theory_of self.now) nf
            → IsOriginating nf self.now.sig self.now.strands }
    {
        let sorts = self.protocol.sig.sorts();
        sorts.laws();
        let _pairs = sorts.pairs();
    }
}

// A mark for each sort at those that carry names.
fn carriers(alloc: Global, sig: &Sig) -> Result<Vec<bool>, NoMemory>
    ensures { IfOk result (λ marks. AreCarriers sig.now marks.items) }
{
    sig.carriers(alloc).map_err(|_| NoMemory)
}

// The variants of strands.
fn all_variants(alloc: Global, th: &Theory, strands: &[Strand]) -> Result<List<Variants>, ReadyFail>
    requires cancelling { AllCancel th.now }
    requires few { length strands.now < 65535 }
    ensures { Answers (AreFound th.now strands.now) result (searches_fault th.now 0 strands.now) }
{
    let mut lists = Vec::new(alloc);
    for at in 0..strands.len() {
        match variants_of(alloc, th, at as u16, &strands[at]) {
            Ok(list) => push(&mut lists, list)?,
            Err(fail) => return Err(fail),
        }
    }
    Ok(List::from_vec(lists))
}

fn push(lists: &mut Vec<Variants>, list: Variants) -> Result<(), NoMemory>
    ensures { OnOk result (lists.new.items ≡ lists.old.items ++ list ∷ []) }
{
    lists.push(list)?;
    Ok(())
}

// The variants of the strand of this number.
fn variants_of(
    alloc: Global,
    th: &Theory,
    number: u16,
    strand: &Strand,
) -> Result<Variants, ReadyFail>
    requires cancelling { AllCancel th.now }
    ensures { Answers (IsFound th.now strand.now) result
        (search_fault number strand.now (strand_rows th.now strand.now)) }
{
    let terms = strand_terms(alloc, strand)?;
    match variants(alloc, th, &terms) {
        Ok(list) => Ok(list),
        Err(VarFail::TooMany(list)) => Err(ReadyFail::Variants {
            strand: number,
            list,
        }),
        Err(VarFail::Unifiers) => Err(ReadyFail::Unifiers { strand: number }),
        Err(VarFail::Symbols(value)) => Err(ReadyFail::Symbols {
            strand: number,
            value,
        }),
        Err(VarFail::NoMemory) => Err(ReadyFail::NoMemory),
    }
}

// Looks in the lists of variants of strands for the first variable that doesn't originate.
fn check_origins(
    alloc: Global,
    marks: &[bool],
    th: &Theory,
    strands: &[Strand],
    lists: &[Variants],
) -> Result<Option<ReadyFail>, NoMemory>
    requires few { length strands.now < 65535 }
    requires found { AreFound th.now strands.now lists.now }
    ensures { IfOk result (λ fault. fault ≡ lists_fault marks.now 0 strands.now lists.now) }
{
    for at in 0..strands.len() {
        let fault = origin_fault(alloc, marks, &strands[at], lists[at].as_slice())?;
        if let Some((variant, var)) = fault {
            return Ok(Some(ReadyFail::Origin {
                strand: at as u16,
                variant: variant as u16,
                var,
            }));
        }
    }
    Ok(None)
}
