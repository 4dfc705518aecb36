ghost use Rattle.std.specs.Prelude.{◌≡◌, ◌≤◌, false, is_some, length, IfOk};
ghost use Rattle.npa_names.specs.Names.{place_of};
ghost use Rattle.npa_text.specs.Texts.{text_of};
ghost use Rattle.npa_reading.specs.Trees.{seen};
ghost use Rattle.npa_module.specs.Refusals.{Gives};
ghost use Rattle.npa_module.specs.Items.{strand_read, one_strand_read, strand_behind, strand_over, event_read, events_read, fresh_nodes};

use crate::draft::{Draft, declare_strand, refuse, strand_number};
use crate::refusals::name_refusal;
use crate::scopes::{Binders, behind, joined, read_fresh, read_variables, scope_of, with_fresh};
use crate::source::ReadError;
use crate::terms::read_message;
use npa_list::List;
use npa_reading::{all_with, below, first_token, listed, raw_below};
use npa_sig::{Event, Events, Scope, Sig, Strand};
use npa_syntax::Node;
use npa_text::symbols::{
    EVENT, FRESH_VALUE, FRESH_VALUES, NEXT_EVENT, STRAND_NAME, TERM, VARIABLE, VARIABLES,
};
use npa_text::terminals::PLUS;
use npa_text::{Names, Token, Tokens, token_text};
use std::alloc::Global;

// One more strand.
pub(crate) fn add_strand(
    alloc: Global,
    bytes: &[u8],
    tokens: &Tokens,
    draft: Draft,
    intruder: bool,
    nodes: &[Node],
) -> Result<Draft, ReadError>
    requires sorts { length draft.sorts ≤ 65535 }
    requires strands { length draft.strands.names ≤ 65535 }
    requires fresh { length (fresh_nodes nodes.now) ≤ 65535 }
    ensures { Gives result (strand_read bytes.now tokens.now draft intruder nodes.now) }
{
    match read_strand(alloc, bytes, tokens, &draft, intruder, nodes) {
        Ok(strand) => declare_strand(alloc, draft, strand),
        Err(error) => refuse(draft, error),
    }
}

// A strand.
fn read_strand(
    alloc: Global,
    bytes: &[u8],
    tokens: &Tokens,
    draft: &Draft,
    intruder: bool,
    nodes: &[Node],
) -> Result<Strand, ReadError>
    requires sorts { length draft.now.sorts ≤ 65535 }
    requires strands { length draft.now.strands.names ≤ 65535 }
    requires fresh { length (fresh_nodes nodes.now) ≤ 65535 }
    ensures means { Gives result (one_strand_read bytes.now tokens.now draft.now intruder nodes.now) }
    ensures apart { IfOk result (λ strand. is_some (place_of strand.name draft.now.strands.names) ≡ false) }
{
    let name = first_token(tokens, STRAND_NAME, nodes);
    if strand_number(&draft.strands.names, token_text(bytes, name)).is_some() {
        return Err(name_refusal(alloc, bytes, name));
    }
    let fresh = all_with(alloc, FRESH_VALUE, below(FRESH_VALUES, nodes))?;
    match read_fresh(alloc, bytes, tokens, &draft.sig, fresh.as_slice()) {
        Ok(fresh) => read_behind(alloc, bytes, tokens, draft, intruder, name, nodes, fresh),
        Err(error) => Err(error),
    }
}

// A strand of this name with these fresh values.
fn read_behind(
    alloc: Global,
    bytes: &[u8],
    tokens: &Tokens,
    draft: &Draft,
    intruder: bool,
    name: Token,
    nodes: &[Node],
    fresh: Binders,
) -> Result<Strand, ReadError>
    requires sorts { length draft.now.sorts ≤ 65535 }
    requires fresh { length fresh.names ≤ 65535 }
    ensures means { Gives result (strand_behind bytes.now tokens.now draft.now intruder name nodes.now fresh) }
    ensures named { IfOk result (λ strand. strand.name ≡ text_of bytes.now name) }
{
    let variables = all_with(alloc, VARIABLE, below(VARIABLES, nodes))?;
    let (fresh, before) = behind(alloc, fresh);
    match read_variables(alloc, bytes, tokens, draft, before, variables.as_slice()) {
        Ok(vars) => read_over(
            alloc, bytes, tokens, draft, intruder, name, nodes, &fresh, &vars,
        ),
        Err(error) => Err(error),
    }
}

// A strand of this name with these fresh values and variables.
fn read_over(
    alloc: Global,
    bytes: &[u8],
    tokens: &Tokens,
    draft: &Draft,
    intruder: bool,
    name: Token,
    nodes: &[Node],
    fresh: &Names,
    vars: &Binders,
) -> Result<Strand, ReadError>
    requires { length fresh.now ≤ 65535 }
    ensures means { Gives result (strand_over bytes.now tokens.now draft.now intruder name nodes.now fresh.now vars.now) }
    ensures named { IfOk result (λ strand. strand.name ≡ text_of bytes.now name) }
{
    let sorts = with_fresh(alloc, vars.sorts.as_slice(), fresh.len())?;
    let names = joined(alloc, vars.names.as_slice(), fresh.as_slice())?;
    let scope = scope_of(alloc, names.as_slice(), sorts.as_slice())?;
    let events = listed(alloc, EVENT, NEXT_EVENT, nodes)?;
    let events = match read_events(alloc, bytes, tokens, &draft.sig, &scope, events.as_slice()) {
        Ok(events) => events,
        Err(error) => return Err(error),
    };
    Ok(Strand {
        name: List::from_slice(alloc, token_text(bytes, name))?,
        intruder,
        vars: List::from_slice(alloc, vars.sorts.as_slice())?,
        fresh: fresh.len() as u16,
        names,
        events,
    })
}

// The events of a strand.
fn read_events(
    alloc: Global,
    bytes: &[u8],
    tokens: &Tokens,
    sig: &Sig,
    scope: &Scope,
    nodes: &[&Node],
) -> Result<Events, ReadError>
    ensures { Gives result (events_read bytes.now tokens.now sig.now scope.now (seen nodes.now)) }
{
    let mut events = List::new(alloc);
    for node in nodes {
        match read_event(alloc, bytes, tokens, sig, scope, *node) {
            Ok(event) => events.push(event)?,
            Err(error) => return Err(error),
        }
    }
    Ok(events)
}

fn read_event(
    alloc: Global,
    bytes: &[u8],
    tokens: &Tokens,
    sig: &Sig,
    scope: &Scope,
    node: &Node,
) -> Result<Event, ReadError>
    ensures { Gives result (event_read bytes.now tokens.now sig.now scope.now node.now) }
{
    let sent = node.head.kind == PLUS;
    let raw = raw_below(alloc, tokens, TERM, node.children.as_slice())?;
    match read_message(alloc, bytes, sig, scope, &raw) {
        Ok(msg) => Ok(Event { sent, msg }),
        Err(error) => Err(error),
    }
}
