ghost use Rattle.std.specs.Prelude.{◌≡◌, ◌≤◌, ◌||◌, nat_lt, length, Some, IfOk};
ghost use Rattle.npa_sig.specs.Meaning.{sort_at, one_fits};
ghost use Rattle.npa_reading.specs.Trees.{seen};
ghost use Rattle.npa_module.specs.Rooms.{AreShort};
ghost use Rattle.npa_module.specs.Refusals.{Gives};
ghost use Rattle.npa_module.specs.Items.{strand_part_read, strand_part_over, arguments_read, argument_read, parameter_nodes};

use crate::draft::{Draft, strand_number};
use crate::refusals::{name_refusal, sort_refusal};
use crate::scopes::with_fresh;
use crate::source::ReadError;
use crate::terms::read_term;
use npa_list::List;
use npa_model::Part;
use npa_reading::{first_token, listed, raw_below, word_at};
use npa_sig::{Scope, Sig, Strand, sort_at};
use npa_syntax::{Node, child_of};
use npa_term::{Term, Terms};
use npa_text::symbols::{BAR, NEXT_PARAMETER, PARAMETER, PARAMETERS, PART_STRAND, TERM};
use npa_text::{Name, Raw, Tokens, number_of, token_at, token_text};
use std::alloc::{AllocError, Global};

// A part that is an instance of a strand.
pub(crate) fn read_strand_part(
    alloc: Global,
    bytes: &[u8],
    tokens: &Tokens,
    draft: &Draft,
    scope: &Scope,
    nodes: &[Node],
) -> Result<Part, ReadError>
    requires strands { length draft.now.strands.names ≤ 65535 }
    requires short { AreShort draft.now.strands.list }
    ensures { Gives result (strand_part_read bytes.now tokens.now draft.now scope.now nodes.now) }
{
    let name = first_token(tokens, PART_STRAND, nodes);
    let Some(number) = strand_number(&draft.strands.names, token_text(bytes, name)) else {
        return Err(name_refusal(alloc, bytes, name));
    };
    let Some(strand) = draft.strands.list.get(number as usize) else {
        return Err(name_refusal(alloc, bytes, name));
    };
    read_instance(alloc, bytes, tokens, draft, scope, nodes, number, strand)
}

// A part that is an instance of this strand.
fn read_instance(
    alloc: Global,
    bytes: &[u8],
    tokens: &Tokens,
    draft: &Draft,
    scope: &Scope,
    nodes: &[Node],
    number: u16,
    strand: &Strand,
) -> Result<Part, ReadError>
    requires { length strand.now.events ≤ 32 }
    ensures { Gives result (strand_part_over bytes.now tokens.now draft.now scope.now nodes.now number (Some strand.now)) }
{
    let bar = number_of(bytes, first_token(tokens, BAR, nodes));
    let params = parameter_nodes(alloc, nodes)?;
    if is_short(strand, params.len(), bar) {
        let name = first_token(tokens, PART_STRAND, nodes);
        return Err(name_refusal(alloc, bytes, name));
    }
    let sorts = with_fresh(alloc, strand.vars.as_slice(), strand.fresh as usize)?;
    let args = match read_arguments(
        alloc,
        bytes,
        tokens,
        &draft.sig,
        scope,
        strand.names.as_slice(),
        sorts.as_slice(),
        params.as_slice(),
    ) {
        Ok(args) => args,
        Err(error) => return Err(error),
    };
    Ok(Part::Strand {
        strand: number,
        bar: bar as u16,
        args,
    })
}

// Whether so many are fewer than the strand's parameters, or more events are asked for than it has.
fn is_short(strand: &Strand, params: usize, bar: u32) -> bool
    ensures { result ≡ (nat_lt params (length strand.now.names) || nat_lt (length strand.now.events) bar) }
{
    params < strand.names.len() || strand.events.len() < bar as usize
}

// The parameters of a part.
fn parameter_nodes<'a>(alloc: Global, nodes: &'a [Node]) -> Result<Vec<&'a Node>, AllocError>
    ensures { IfOk result (λ found. seen found.items ≡ parameter_nodes nodes.now) }
{
    let mut found = Vec::new(alloc);
    if let Some(first) = child_of(nodes, PARAMETERS) {
        found.push(first)?;
        let mut further = listed(alloc, PARAMETER, NEXT_PARAMETER, first.children.as_slice())?;
        found.append(&mut further)?;
    }
    Ok(found)
}

// The terms of parameters with these names and sorts.
fn read_arguments(
    alloc: Global,
    bytes: &[u8],
    tokens: &Tokens,
    sig: &Sig,
    scope: &Scope,
    names: &[Name],
    sorts: &[u16],
    nodes: &[&Node],
) -> Result<Terms, ReadError>
    ensures { Gives result (arguments_read bytes.now tokens.now sig.now scope.now names.now sorts.now (seen nodes.now)) }
{
    let mut args = List::new(alloc);
    for k in 0..nodes.len() {
        if k >= names.len().min(sorts.len()) {
            return Err(name_refusal(alloc, bytes, token_at(tokens, nodes[k])));
        }
        let name = names[k].as_slice();
        match read_argument(alloc, bytes, tokens, sig, scope, name, sorts[k], nodes[k]) {
            Ok(term) => args.push(term)?,
            Err(error) => return Err(error),
        }
    }
    Ok(args)
}

fn read_argument(
    alloc: Global,
    bytes: &[u8],
    tokens: &Tokens,
    sig: &Sig,
    scope: &Scope,
    name: &[u8],
    sort: u16,
    node: &Node,
) -> Result<Term, ReadError>
    ensures { Gives result (argument_read bytes.now tokens.now sig.now scope.now name.now sort node.now) }
{
    let raw = raw_below(alloc, tokens, TERM, node.children.as_slice())?;
    if word_at(bytes, tokens, node) != name {
        return Err(name_refusal(alloc, bytes, token_at(tokens, node)));
    }
    if !is_fit(sig, scope, bytes, &raw, sort) {
        return Err(sort_refusal(alloc, bytes, token_at(tokens, node)));
    }
    read_term(alloc, bytes, sig, scope, &raw)
}

// Whether a term's sort, where its first word stands for something, is at or below another.
fn is_fit(sig: &Sig, scope: &Scope, bytes: &[u8], raw: &Raw, sort: u16) -> bool
    ensures { result ≡ one_fits sig.now (sort_at sig.now scope.now bytes.now raw.now) sort }
{
    match sort_at(sig, scope, bytes, raw) {
        Some(least) => sig.is_below(least, sort),
        None => true,
    }
}
