ghost use Rattle.std.specs.Prelude.{◌≡◌, map, [], None, Some, true, IfOk, All, Contains};
ghost use Rattle.npa_term.specs.Variables.{IsGround, variables};
ghost use Rattle.npa_sig.specs.Sorting.{well_sorted};
ghost use Rattle.npa_term.specs.Parts.{least_sort};
ghost use Rattle.npa_sig.specs.Meaning.{read, Gives, IsSorted, scope_variables, head_of, word_head, is_fresh_name, operator_of, sort_at, fits, all_fit, one_fits, unknown, unfit, Tells};

use crate::fault::UseFail;
use crate::scope::Scope;
use crate::signature::Sig;
use npa_list::List;
use npa_sorts::FRESH;
use npa_term::{Op, Term, Var};
use npa_text::{Kind, Name, Raw, Token, number_of, token_text};
use std::alloc::Global;

/// A name that stands for a variable.
#[derive(Debug, Drop)]
pub struct Scoped {
    pub name: Name,
    pub var: Var,
}

/// What the first word of a term stands for.
#[derive(Clone, Copy, Debug)]
enum Head {
    Variable(Var),
    Fresh(u32),
    Operator(Op),
}

/// The term that a term of a text stands for. A word stands for the variable that the scope gives
/// it, or else for the operator of that name, and a fresh name of the text for itself. A refusal
/// names the first word at fault, in the order of the text; a wrong number or sort of arguments is
/// a fault of the word that has them.
#[tactic(auto, using(crate::proofs::Grounds::ground_answer, crate::proofs::Sorted::sorted_answer, crate::proofs::Sorted::own_answer, crate::proofs::Sorted::told_answer))]
pub fn resolve(
    alloc: Global,
    sig: &Sig,
    scope: &Scope,
    bytes: &[u8],
    raw: &Raw,
) -> Result<Term, UseFail>
    ensures means { Gives result (read sig.now scope.now bytes.now raw.now) }
    ensures ground { scope.now ≡ [] → IfOk result IsGround }
    ensures sorted { IsSorted sig.now scope.now → IfOk result (λ t. well_sorted sig.now t ≡ true) }
    ensures own { IfOk result (λ t. All (Contains (scope_variables scope.now)) (variables t)) }
    ensures told { IfOk result (λ t. sort_at sig.now scope.now bytes.now raw.now ≡ Some (least_sort t)) }
{
    read(alloc, sig, scope, bytes, raw)
}

fn read(alloc: Global, sig: &Sig, scope: &Scope, bytes: &[u8], raw: &Raw) -> Result<Term, UseFail>
    ensures { Gives result (read sig.now scope.now bytes.now raw.now) }
{
    let args = raw.args.as_slice();
    let head = match head_of(sig, scope, bytes, raw.head) {
        Some(head) => head,
        None => return Err(unknown(alloc, bytes, raw.head)),
    };
    if !fits(sig, scope, bytes, head, args) {
        return Err(unfit(alloc, bytes, raw.head));
    }
    match head {
        Head::Variable(v) => Ok(Term::Var(v)),
        Head::Fresh(n) => Ok(Term::Name(n)),
        Head::Operator(op) => {
            let mut terms = Vec::with_capacity(alloc, args.len())?;
            for arg in args {
                match read(alloc, sig, scope, bytes, arg) {
                    Ok(t) => terms.push(t)?,
                    Err(fault) => return Err(fault),
                }
            }
            Ok(Term::App(op, List::from_vec(terms)))
        }
    }
}

// What the token stands for.
fn head_of(sig: &Sig, scope: &Scope, bytes: &[u8], token: Token) -> Option<Head>
    ensures { result ≡ head_of sig.now scope.now bytes.now token }
{
    if is_fresh_name(token.kind) {
        return Some(Head::Fresh(number_of(bytes, token)));
    }
    word_head(sig, scope, token_text(bytes, token))
}

fn is_fresh_name(kind: Kind) -> bool
    ensures { result ≡ is_fresh_name kind }
{
    match kind {
        Kind::FreshName => true,
        _ => false,
    }
}

// What the word stands for.
fn word_head(sig: &Sig, scope: &Scope, word: &[u8]) -> Option<Head>
    ensures { result ≡ word_head sig.now scope.now word.now }
{
    match scope.variable(word) {
        Some(v) => Some(Head::Variable(v)),
        None => operator_of(sig, word),
    }
}

// The operator of that name.
fn operator_of(sig: &Sig, word: &[u8]) -> Option<Head>
    ensures { result ≡ operator_of sig.now word.now }
{
    let num = sig.number_of(word)?;
    let decl = sig.ops().get(num as usize)?;
    Some(Head::Operator(Op {
        num,
        result: decl.result,
        com: decl.com,
    }))
}

// Whether the head takes so many arguments, each of which has a sort at or below the declared
// one or an unknown word in front.
fn fits(sig: &Sig, scope: &Scope, bytes: &[u8], head: Head, args: &[Raw]) -> bool
    ensures { result ≡ fits sig.now head (map (sort_at sig.now scope.now bytes.now) args.now) }
{
    match head {
        Head::Variable(_) => args.is_empty(),
        Head::Fresh(_) => args.is_empty(),
        Head::Operator(op) => match sig.ops().get(op.num as usize) {
            Some(decl) => all_fit(sig, scope, bytes, args, decl.args.as_slice()),
            None => false,
        },
    }
}

#[tactic(auto, using(crate::proofs::Meanings::all_fit_step, crate::proofs::Meanings::all_fit_ends))]
fn all_fit(sig: &Sig, scope: &Scope, bytes: &[u8], args: &[Raw], sorts: &[u16]) -> bool
    ensures { result ≡ all_fit sig.now (map (sort_at sig.now scope.now bytes.now) args.now) sorts.now }
{
    if args.len() != sorts.len() {
        return false;
    }
    for k in 0..args.len() {
        if !one_fits(sig, sort_at(sig, scope, bytes, &args[k]), sorts[k]) {
            return false;
        }
    }
    true
}

// Whether a sort, where it is known, is at or below the declared one.
fn one_fits(sig: &Sig, sort: Option<u16>, declared: u16) -> bool
    ensures { result ≡ one_fits sig.now sort declared }
{
    match sort {
        Some(sort) => sig.is_below(sort, declared),
        None => true,
    }
}

/// The sort of a term, which its first word tells: `None` where that stands for nothing.
pub fn sort_at(sig: &Sig, scope: &Scope, bytes: &[u8], raw: &Raw) -> Option<u16>
    ensures { result ≡ sort_at sig.now scope.now bytes.now raw.now }
{
    match head_of(sig, scope, bytes, raw.head)? {
        Head::Variable(v) => Some(v.sort),
        Head::Fresh(_) => Some(FRESH),
        Head::Operator(op) => Some(op.result),
    }
}

// The refusal of a word that stands for nothing.
fn unknown(alloc: Global, bytes: &[u8], token: Token) -> UseFail
    ensures { Tells result (unknown bytes.now token) }
{
    match List::from_slice(alloc, token_text(bytes, token)) {
        Ok(name) => UseFail::Name {
            name,
            line: token.line,
            col: token.col,
        },
        Err(_) => UseFail::NoMemory,
    }
}

// The refusal of a word whose arguments don't fit it.
fn unfit(alloc: Global, bytes: &[u8], token: Token) -> UseFail
    ensures { Tells result (unfit bytes.now token) }
{
    match List::from_slice(alloc, token_text(bytes, token)) {
        Ok(name) => UseFail::Sort {
            name,
            line: token.line,
            col: token.col,
        },
        Err(_) => UseFail::NoMemory,
    }
}
