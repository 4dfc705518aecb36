use npa_list::List;
use npa_term::{Subst, Terms};

/// A variant of terms: a normal substitution of their variables, and the normal forms of the terms
/// under it (Comon-Lundh, Delaune 2005).
#[derive(Debug, Drop)]
pub struct Variant {
    /// Binds each variable of the terms, in the order in which they first occur.
    pub subst: Subst,
    /// In the order of the terms.
    pub terms: Terms,
}

/// A list of variants.
pub type Variants = List<Variant>;
