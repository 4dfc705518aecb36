ghost use Rattle.std.specs.Prelude.{◌≡◌, ◌≤◌, false, is_some, length, IfOk};
ghost use Rattle.npa_names.specs.Names.{place_of};
ghost use Rattle.npa_text.specs.Texts.{text_of};
ghost use Rattle.npa_reading.specs.Trees.{seen};
ghost use Rattle.npa_module.specs.Rooms.{AreShort};
ghost use Rattle.npa_module.specs.Refusals.{Gives};
ghost use Rattle.npa_module.specs.Items.{aim_read, one_aim_read, aim_over, parts_read, part_read};

use crate::draft::{Draft, declare_aim, refuse};
use crate::parts::read_strand_part;
use crate::refusals::name_refusal;
use crate::scopes::{Binders, read_variables, scope_of};
use crate::source::ReadError;
use crate::terms::read_message;
use npa_list::List;
use npa_model::{Aim, Part, Parts};
use npa_reading::{all_with, below, first_token, listed, raw_below};
use npa_sig::Scope;
use npa_syntax::Node;
use npa_text::symbols::{AIM_NAME, NEXT_PART, PART, TERM, VARIABLE, VARIABLES};
use npa_text::terminals::KNOWN;
use npa_text::{Token, Tokens, token_text};
use std::alloc::Global;

// One more aim.
pub(crate) fn add_aim(
    alloc: Global,
    bytes: &[u8],
    tokens: &Tokens,
    draft: Draft,
    nodes: &[Node],
) -> Result<Draft, ReadError>
    requires sorts { length draft.sorts ≤ 65535 }
    requires strands { length draft.strands.names ≤ 65535 }
    requires short { AreShort draft.strands.list }
    ensures { Gives result (aim_read bytes.now tokens.now draft nodes.now) }
{
    match read_aim(alloc, bytes, tokens, &draft, nodes) {
        Ok(aim) => declare_aim(alloc, draft, aim),
        Err(error) => refuse(draft, error),
    }
}

// An aim.
fn read_aim(
    alloc: Global,
    bytes: &[u8],
    tokens: &Tokens,
    draft: &Draft,
    nodes: &[Node],
) -> Result<Aim, ReadError>
    requires sorts { length draft.now.sorts ≤ 65535 }
    requires strands { length draft.now.strands.names ≤ 65535 }
    requires short { AreShort draft.now.strands.list }
    ensures means { Gives result (one_aim_read bytes.now tokens.now draft.now nodes.now) }
    ensures apart { IfOk result (λ aim. is_some (place_of aim.name draft.now.aims.names) ≡ false) }
{
    let name = first_token(tokens, AIM_NAME, nodes);
    if draft.aims.names.place(token_text(bytes, name)).is_some() {
        return Err(name_refusal(alloc, bytes, name));
    }
    let variables = all_with(alloc, VARIABLE, below(VARIABLES, nodes))?;
    let none = Binders::new(alloc);
    match read_variables(alloc, bytes, tokens, draft, none, variables.as_slice()) {
        Ok(vars) => read_over(alloc, bytes, tokens, draft, name, nodes, &vars),
        Err(error) => Err(error),
    }
}

// An aim of this name with these variables.
fn read_over(
    alloc: Global,
    bytes: &[u8],
    tokens: &Tokens,
    draft: &Draft,
    name: Token,
    nodes: &[Node],
    vars: &Binders,
) -> Result<Aim, ReadError>
    requires strands { length draft.now.strands.names ≤ 65535 }
    requires short { AreShort draft.now.strands.list }
    ensures means { Gives result (aim_over bytes.now tokens.now draft.now name nodes.now vars.now) }
    ensures named { IfOk result (λ aim. aim.name ≡ text_of bytes.now name) }
{
    let scope = scope_of(alloc, vars.names.as_slice(), vars.sorts.as_slice())?;
    let parts = listed(alloc, PART, NEXT_PART, nodes)?;
    let parts = match read_parts(alloc, bytes, tokens, draft, &scope, parts.as_slice()) {
        Ok(parts) => parts,
        Err(error) => return Err(error),
    };
    Ok(Aim {
        name: List::from_slice(alloc, token_text(bytes, name))?,
        sorts: List::from_slice(alloc, vars.sorts.as_slice())?,
        parts,
    })
}

// The parts of an aim.
fn read_parts(
    alloc: Global,
    bytes: &[u8],
    tokens: &Tokens,
    draft: &Draft,
    scope: &Scope,
    nodes: &[&Node],
) -> Result<Parts, ReadError>
    requires strands { length draft.now.strands.names ≤ 65535 }
    requires short { AreShort draft.now.strands.list }
    ensures { Gives result (parts_read bytes.now tokens.now draft.now scope.now (seen nodes.now)) }
{
    let mut parts = List::new(alloc);
    for node in nodes {
        match read_part(alloc, bytes, tokens, draft, scope, *node) {
            Ok(part) => parts.push(part)?,
            Err(error) => return Err(error),
        }
    }
    Ok(parts)
}

fn read_part(
    alloc: Global,
    bytes: &[u8],
    tokens: &Tokens,
    draft: &Draft,
    scope: &Scope,
    node: &Node,
) -> Result<Part, ReadError>
    requires strands { length draft.now.strands.names ≤ 65535 }
    requires short { AreShort draft.now.strands.list }
    ensures { Gives result (part_read bytes.now tokens.now draft.now scope.now node.now) }
{
    let nodes = node.children.as_slice();
    if node.head.kind != KNOWN {
        return read_strand_part(alloc, bytes, tokens, draft, scope, nodes);
    }
    let raw = raw_below(alloc, tokens, TERM, nodes)?;
    match read_message(alloc, bytes, &draft.sig, scope, &raw) {
        Ok(term) => Ok(Part::Known(term)),
        Err(error) => Err(error),
    }
}
