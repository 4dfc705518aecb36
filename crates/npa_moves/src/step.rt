use npa_list::List;
use npa_model::{Pattern, Places};
use npa_term::Subst;

/// How a step leads from a pattern to an earlier one. Everything is told by its place, counted from 0:
/// strands of patterns and of the protocol, variants, events, and known facts of the pattern.
#[derive(Debug, Drop)]
pub enum Rule {
    /// The pattern's strand has not yet received its last message, which is known instead.
    Receive {
        strand: u16,
    },
    /// The pattern's strand has not yet sent its last message, from which nothing is learnt.
    Send {
        strand: u16,
    },
    /// The pattern's strand has not yet sent its last message, by which these facts get known.
    Learn {
        strand: u16,
        facts: Places,
    },
    /// An instance of the protocol's strand, by a variant, has not yet sent the message of an event,
    /// by which these facts get known.
    Introduce {
        strand: u16,
        variant: u16,
        event: u16,
        facts: Places,
    },
}

/// A backward step from a pattern.
#[derive(Debug, Drop)]
pub struct Step {
    pub rule: Rule,
    /// Binds each variable of the pattern that the step leads from, once and in the order in which
    /// they first occur there, to a term over the variables of the pattern that it leads to.
    pub unifier: Subst,
    pub pattern: Pattern,
}

/// A list of steps.
pub type Steps = List<Step>;

/// A pattern from which the backward search for an aim begins.
#[derive(Debug, Drop)]
pub struct Root {
    /// A variant for each strand part of the aim, by its place.
    pub variants: Places,
    /// Binds each variable that occurs in the aim's parts, once and in the order in which they first
    /// occur there, to a term over the variables of the root's pattern.
    pub unifier: Subst,
    pub pattern: Pattern,
}

/// A list of roots.
pub type Roots = List<Root>;

/// A root and steps, each from the pattern before it.
#[derive(Debug, Drop)]
pub struct Chain {
    pub root: Root,
    pub steps: Steps,
}
