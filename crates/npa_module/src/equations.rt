ghost use Rattle.std.specs.Prelude.{◌≡◌, ◌≤◌, length, OnOk, IfOk};
ghost use Rattle.npa_module.specs.Refusals.{Gives};
ghost use Rattle.npa_module.specs.Items.{words_in, sort_in, met, occurring, numbered, sides_read, equation_over, one_equation_read, equation_read};

use crate::draft::{Draft, declare_equation, refuse};
use crate::scopes::{Binders, add_bound, read_variables, scope_of};
use crate::source::ReadError;
use crate::terms::read_message;
use npa_reading::{after, all_with, below, raw_below};
use npa_sig::{Equation, Scope, Sig};
use npa_syntax::Node;
use npa_text::symbols::{EQUALS_MARK, TERM, VARIABLE, VARIABLES};
use npa_text::{Raw, Tokens, token_text};
use std::alloc::{AllocError, Global};

// One more equation.
pub(crate) fn add_equation(
    alloc: Global,
    bytes: &[u8],
    tokens: &Tokens,
    draft: Draft,
    nodes: &[Node],
) -> Result<Draft, ReadError>
    requires { length draft.sorts ≤ 65535 }
    ensures { Gives result (equation_read bytes.now tokens.now draft nodes.now) }
{
    match read_equation(alloc, bytes, tokens, &draft, nodes) {
        Ok(equation) => declare_equation(draft, equation),
        Err(error) => refuse(draft, error),
    }
}

// An equation.
fn read_equation(
    alloc: Global,
    bytes: &[u8],
    tokens: &Tokens,
    draft: &Draft,
    nodes: &[Node],
) -> Result<Equation, ReadError>
    requires { length draft.now.sorts ≤ 65535 }
    ensures { Gives result (one_equation_read bytes.now tokens.now draft.now nodes.now) }
{
    let variables = all_with(alloc, VARIABLE, below(VARIABLES, nodes))?;
    let none = Binders::new(alloc);
    match read_variables(alloc, bytes, tokens, draft, none, variables.as_slice()) {
        Ok(vars) => read_over(alloc, bytes, tokens, draft, nodes, &vars),
        Err(error) => Err(error),
    }
}

// An equation with these variables.
fn read_over(
    alloc: Global,
    bytes: &[u8],
    tokens: &Tokens,
    draft: &Draft,
    nodes: &[Node],
    vars: &Binders,
) -> Result<Equation, ReadError>
    requires { vars.now.earlier ≡ vars.now.names }
    ensures { Gives result (equation_over bytes.now tokens.now draft.now nodes.now vars.now) }
{
    let left = raw_below(alloc, tokens, TERM, nodes)?;
    let right = raw_below(alloc, tokens, TERM, after(EQUALS_MARK, nodes))?;
    let scope = numbered(alloc, bytes, vars, &left, &right)?;
    read_sides(alloc, bytes, &draft.sig, &scope, &left, &right)
}

// The left side, then the right one.
fn read_sides(
    alloc: Global,
    bytes: &[u8],
    sig: &Sig,
    scope: &Scope,
    left: &Raw,
    right: &Raw,
) -> Result<Equation, ReadError>
    ensures { Gives result (sides_read bytes.now sig.now scope.now left.now right.now) }
{
    let left = match read_message(alloc, bytes, sig, scope, left) {
        Ok(left) => left,
        Err(error) => return Err(error),
    };
    match read_message(alloc, bytes, sig, scope, right) {
        Ok(right) => Ok(Equation { left, right }),
        Err(error) => Err(error),
    }
}

// The variables that occur in the sides, numbered in the order of first occurrence.
fn numbered(
    alloc: Global,
    bytes: &[u8],
    vars: &Binders,
    left: &Raw,
    right: &Raw,
) -> Result<Scope, AllocError>
    requires { vars.now.earlier ≡ vars.now.names }
    ensures { IfOk result (λ scope. scope ≡ numbered bytes.now vars.now left.now right.now) }
{
    let mut found = Binders::new(alloc);
    add_occurring(alloc, bytes, vars, &mut found, left)?;
    add_occurring(alloc, bytes, vars, &mut found, right)?;
    scope_of(alloc, found.names.as_slice(), found.sorts.as_slice())
}

// Adds the variables that occur in a term, in the order of first occurrence. It goes into itself once
// for each bracket that is open at a place of the text.
#[tactic(auto, using(crate::proofs::Occurring::words_at, crate::proofs::Occurring::words_step))]
fn add_occurring(
    alloc: Global,
    bytes: &[u8],
    vars: &Binders,
    found: &mut Binders,
    raw: &Raw,
) -> Result<(), AllocError>
    requires { vars.now.earlier ≡ vars.now.names }
    ensures { OnOk result (found.new ≡ occurring vars.now found.old (words_in bytes.now raw.now)) }
{
    let word = token_text(bytes, raw.head);
    add_met(alloc, found, word, sort_in(vars, word))?;
    for arg in raw.args.as_slice() {
        add_occurring(alloc, bytes, vars, found, arg)?;
    }
    Ok(())
}

// The sort of a variable of this name.
fn sort_in(vars: &Binders, word: &[u8]) -> Option<u16>
    requires { vars.now.earlier ≡ vars.now.names }
    ensures { result ≡ sort_in vars.now word.now }
{
    let place = vars.earlier.place(word)?;
    let sort = vars.sorts.get(place)?;
    Some(*sort)
}

// Adds a variable that is met for the first time, where the word is one of this sort.
fn add_met(
    alloc: Global,
    found: &mut Binders,
    word: &[u8],
    sort: Option<u16>,
) -> Result<(), AllocError>
    ensures { OnOk result (found.new ≡ met found.old word.now sort) }
{
    let Some(sort) = sort else {
        return Ok(());
    };
    if found.earlier.place(word).is_some() {
        return Ok(());
    }
    add_bound(alloc, found, word, sort)
}
