ghost use Rattle.std.specs.Prelude.{◌≡◌, ◌≤◌, map, length, IfOk};
ghost use Rattle.npa_reading.specs.Trees.{seen, word_at};
ghost use Rattle.npa_model.specs.WellFormed.{IsWellFormedRun};
ghost use Rattle.npa_run_text.specs.RunTexts.{IsTableOf, AnswersRun, OnlyRun, Gives, Tells, same_names, chosen, params_at, unknown, fail_of, refusal_of, value_read, values_read, instance_read, instances_read, step_at, run_of};

use crate::fault::RunTextFail;
use crate::strand_table::{StrandTable, table_of};
use npa_list::List;
use npa_model::{Instance, Instances, Places, Run};
use npa_reading::{all_with, below, child_for, word_at};
use npa_sig::{Protocol, Scope, UseFail, resolve};
use npa_syntax::Node;
use npa_term::{Term, Terms};
use npa_text::symbols::{GROUND, SCHEDULE, STEP, USED, USED_STRAND, VALUE};
use npa_text::{
    Name, NoMemory, Parsed, TextFault, Token, Tokens, number_of, parse, raw_of, run_grammar,
    token_at, token_text,
};
use std::alloc::{AllocError, Global};

/// Reads a run text of a protocol. The syntax of the whole text is looked at first; then the words, in
/// the order of the text: a strand or an operator that isn't there is `Name`, an operator whose
/// arguments don't fit is `Sort`. An instance that doesn't name each parameter of its strand once and
/// in order is read with a wrong number of terms, so that the run breaks there.
#[tactic(auto, using(crate::proofs::RunLaws::run_answer))]
pub fn read_run(alloc: Global, protocol: &Protocol, bytes: &[u8]) -> Result<Run, RunTextFail>
    requires short { length bytes.now ≤ 1048576 }
    requires few { length protocol.now.strands ≤ 65535 }
    ensures answer { AnswersRun protocol.now bytes.now result }
    ensures only { OnlyRun protocol.now bytes.now result }
    ensures form { IfOk result (IsWellFormedRun protocol.now.sig) }
{
    match parse(alloc, &run_grammar(), bytes) {
        Ok(Parsed { tokens, nodes }) => read_tree(
            alloc,
            bytes,
            &tokens,
            protocol,
            nodes.as_slice(),
        ),
        Err(fault) => Err(fail_of(fault)),
    }
}

// The refusal of a text that isn't one of the grammar.
fn fail_of(fault: TextFault) -> RunTextFail
    ensures { result ≡ fail_of fault }
{
    match fault {
        TextFault::Syntax { line, col } => RunTextFail::Syntax { line, col },
        TextFault::NoMemory => RunTextFail::NoMemory,
    }
}

// The run of a text's trees.
fn read_tree(
    alloc: Global,
    bytes: &[u8],
    tokens: &Tokens,
    protocol: &Protocol,
    nodes: &[Node],
) -> Result<Run, RunTextFail>
    requires { length protocol.now.strands ≤ 65535 }
    ensures { Gives result (run_of bytes.now tokens.now protocol.now nodes.now) }
{
    let strands = table_of(alloc, protocol.strands.as_slice())?;
    let used = all_with(alloc, USED, nodes)?;
    let instances = read_instances(alloc, bytes, tokens, protocol, &strands, used.as_slice())?;
    let steps = all_with(alloc, STEP, below(SCHEDULE, nodes))?;
    let schedule = steps_at(alloc, bytes, tokens, steps.as_slice())?;
    Ok(Run {
        instances,
        schedule,
    })
}

// The numbers with which the nodes begin.
fn steps_at(
    alloc: Global,
    bytes: &[u8],
    tokens: &Tokens,
    nodes: &[&Node],
) -> Result<Places, AllocError>
    ensures { IfOk result (λ steps. steps ≡ map (step_at bytes.now tokens.now) (seen nodes.now)) }
{
    let mut steps = List::new(alloc);
    for node in nodes {
        steps.push(number_of(bytes, token_at(tokens, *node)))?;
    }
    Ok(steps)
}

// The instances of a run.
fn read_instances(
    alloc: Global,
    bytes: &[u8],
    tokens: &Tokens,
    protocol: &Protocol,
    strands: &StrandTable,
    nodes: &[&Node],
) -> Result<Instances, RunTextFail>
    requires { IsTableOf protocol.now.strands strands.now }
    ensures { Gives result (instances_read bytes.now tokens.now protocol.now (seen nodes.now)) }
{
    let mut instances = List::new(alloc);
    for node in nodes {
        match read_instance(alloc, bytes, tokens, protocol, strands, *node) {
            Ok(instance) => instances.push(instance)?,
            Err(fail) => return Err(fail),
        }
    }
    Ok(instances)
}

// An instance: its strand, and the values of its parameters.
fn read_instance(
    alloc: Global,
    bytes: &[u8],
    tokens: &Tokens,
    protocol: &Protocol,
    strands: &StrandTable,
    node: &Node,
) -> Result<Instance, RunTextFail>
    requires { IsTableOf protocol.now.strands strands.now }
    ensures { Gives result (instance_read bytes.now tokens.now protocol.now node.now) }
{
    let name = token_at(tokens, child_for(USED_STRAND, node));
    let strand = match strands.place(token_text(bytes, name)) {
        Some(strand) => strand,
        None => return Err(unknown(alloc, bytes, name)),
    };
    let values = all_with(alloc, VALUE, node.children.as_slice())?;
    let terms = match read_values(alloc, bytes, tokens, protocol, values.as_slice()) {
        Ok(terms) => terms,
        Err(fail) => return Err(fail),
    };
    let params = params_at(protocol, strand);
    let named = same_names(bytes, tokens, values.as_slice(), params);
    let args = args_of(alloc, named, params.len(), terms)?;
    Ok(Instance { strand, args })
}

// The refusal of a word that names no strand.
fn unknown(alloc: Global, bytes: &[u8], token: Token) -> RunTextFail
    ensures { Tells result (unknown bytes.now token) }
{
    match List::from_slice(alloc, token_text(bytes, token)) {
        Ok(name) => RunTextFail::Name {
            name,
            line: token.line,
            col: token.col,
        },
        Err(_) => RunTextFail::NoMemory,
    }
}

/// The names of a strand's parameters.
pub fn params_at(protocol: &Protocol, strand: u16) -> &[Name]
    ensures { result.now ≡ params_at protocol.now strand }
{
    match protocol.strands.get(strand as usize) {
        Some(strand) => strand.names.as_slice(),
        None => &[],
    }
}

// Whether the words of the nodes are these names, in order.
fn same_names(bytes: &[u8], tokens: &Tokens, nodes: &[&Node], names: &[Name]) -> bool
    ensures { result ≡ same_names (map (word_at bytes.now tokens.now) (seen nodes.now)) names.now }
{
    if nodes.len() != names.len() {
        return false;
    }
    for k in 0..nodes.len() {
        if word_at(bytes, tokens, nodes[k]) != names[k].as_slice() {
            return false;
        }
    }
    true
}

// The terms where the parameters are named rightly, and else a list of a wrong length.
fn args_of(alloc: Global, named: bool, params: usize, terms: Terms) -> Result<Terms, AllocError>
    ensures { IfOk result (λ args. args ≡ chosen named params terms) }
{
    if named {
        return Ok(terms);
    }
    let mut args = List::new(alloc);
    if params == 0 {
        args.push(Term::Name(0))?;
    }
    Ok(args)
}

// The ground terms that are the values of parameters.
fn read_values(
    alloc: Global,
    bytes: &[u8],
    tokens: &Tokens,
    protocol: &Protocol,
    nodes: &[&Node],
) -> Result<Terms, RunTextFail>
    ensures { Gives result (values_read bytes.now tokens.now protocol.now (seen nodes.now)) }
{
    let mut terms = List::new(alloc);
    for node in nodes {
        match read_value(alloc, bytes, tokens, protocol, *node) {
            Ok(term) => terms.push(term)?,
            Err(fail) => return Err(fail),
        }
    }
    Ok(terms)
}

fn read_value(
    alloc: Global,
    bytes: &[u8],
    tokens: &Tokens,
    protocol: &Protocol,
    node: &Node,
) -> Result<Term, RunTextFail>
    ensures { Gives result (value_read bytes.now tokens.now protocol.now node.now) }
{
    let raw = raw_of(alloc, tokens, child_for(GROUND, node))?;
    let none = Scope::new(alloc);
    match resolve(alloc, &protocol.sig, &none, bytes, &raw) {
        Ok(term) => Ok(term),
        Err(fail) => Err(refusal_of(fail)),
    }
}

// The refusal of a term's word.
fn refusal_of(fail: UseFail) -> RunTextFail
    ensures { result ≡ refusal_of fail }
{
    match fail {
        UseFail::Name { name, line, col } => RunTextFail::Name { name, line, col },
        UseFail::Sort { name, line, col } => RunTextFail::Sort { name, line, col },
        UseFail::NoMemory => RunTextFail::NoMemory,
    }
}
