use npa_model::Pattern;
use npa_term::Var;
use npa_variants::Ready;

/// A pattern whose steps are looked for, its variables, each once in the order in which they first occur,
/// and a number past theirs.
#[derive(Clone, Copy)]
pub(crate) struct Narrowing<'a> {
    pub(crate) ready: &'a Ready,
    pub(crate) pattern: &'a Pattern,
    pub(crate) vars: &'a [Var],
    pub(crate) next: u32,
}
