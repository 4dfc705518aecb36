ghost use Rattle.std.specs.Prelude.{◌≡◌, ◌≤◌, length, Some};
ghost use Rattle.npa_module.specs.Rooms.{IsNamed};
ghost use Rattle.npa_reading.specs.Trees.{seen};
ghost use Rattle.npa_module.specs.Refusals.{Gives};
ghost use Rattle.npa_module.specs.Items.{sort_read, subsort_read, closes_cycle, one_sort_read, sorts_read};

use crate::draft::{Draft, declare_sort, put_below, refuse, sort_number};
use crate::refusals::{name_refusal, sort_refusal};
use crate::source::ReadError;
use npa_list::List;
use npa_names::NameTable;
use npa_reading::first_token;
use npa_sig::{FRESH, Sig, SortNums};
use npa_syntax::Node;
use npa_text::symbols::{LOWER_SORT, SORT_NAME, UPPER_SORT};
use npa_text::{Token, Tokens, token_at, token_text};
use std::alloc::Global;

// One more sort.
pub(crate) fn add_sort(
    alloc: Global,
    bytes: &[u8],
    tokens: &Tokens,
    draft: Draft,
    nodes: &[Node],
) -> Result<Draft, ReadError>
    requires few { draft.sig.sorts.declared ≤ 256 }
    requires named { IsNamed draft }
    ensures { Gives result (sort_read bytes.now tokens.now draft nodes.now) }
{
    let name = first_token(tokens, SORT_NAME, nodes);
    let word = token_text(bytes, name);
    if sort_number(&draft.sorts, word).is_some() {
        return refuse(draft, name_refusal(alloc, bytes, name));
    }
    declare_sort(alloc, draft, word)
}

// One sort below another.
pub(crate) fn add_subsort(
    alloc: Global,
    bytes: &[u8],
    tokens: &Tokens,
    draft: Draft,
    nodes: &[Node],
) -> Result<Draft, ReadError>
    requires few { draft.sig.sorts.declared ≤ 256 }
    requires named { IsNamed draft }
    ensures { Gives result (subsort_read bytes.now tokens.now draft nodes.now) }
{
    let lower = first_token(tokens, LOWER_SORT, nodes);
    let upper = first_token(tokens, UPPER_SORT, nodes);
    let Some(below) = sort_number(&draft.sorts, token_text(bytes, lower)) else {
        return refuse(draft, name_refusal(alloc, bytes, lower));
    };
    if below == FRESH {
        return refuse(draft, sort_refusal(alloc, bytes, lower));
    }
    let above = sort_number(&draft.sorts, token_text(bytes, upper));
    if closes_cycle(&draft.sig, below, above) {
        return refuse(draft, sort_refusal(alloc, bytes, lower));
    }
    let Some(above) = above else {
        return refuse(draft, name_refusal(alloc, bytes, upper));
    };
    if above == FRESH {
        return refuse(draft, sort_refusal(alloc, bytes, upper));
    }
    put_below(alloc, draft, below, above)
}

// Whether the upper sort is at or below the lower one already.
fn closes_cycle(sig: &Sig, lower: u16, upper: Option<u16>) -> bool
    ensures { result ≡ closes_cycle sig.now (Some lower) upper }
{
    match upper {
        Some(upper) => upper != FRESH && sig.is_below(upper, lower),
        None => false,
    }
}

// The sort of a word.
pub(crate) fn read_sort(
    alloc: Global,
    bytes: &[u8],
    sorts: &NameTable,
    token: Token,
) -> Result<u16, ReadError>
    requires { length sorts.now ≤ 65535 }
    ensures { Gives result (one_sort_read bytes.now sorts.now token) }
{
    match sort_number(sorts, token_text(bytes, token)) {
        Some(sort) => Ok(sort),
        None => Err(name_refusal(alloc, bytes, token)),
    }
}

// The sorts of words.
pub(crate) fn read_sorts(
    alloc: Global,
    bytes: &[u8],
    tokens: &Tokens,
    sorts: &NameTable,
    nodes: &[&Node],
) -> Result<SortNums, ReadError>
    requires { length sorts.now ≤ 65535 }
    ensures { Gives result (sorts_read bytes.now tokens.now sorts.now (seen nodes.now)) }
{
    let mut found = List::new(alloc);
    for node in nodes {
        match read_sort(alloc, bytes, sorts, token_at(tokens, *node)) {
            Ok(sort) => found.push(sort)?,
            Err(error) => return Err(error),
        }
    }
    Ok(found)
}
