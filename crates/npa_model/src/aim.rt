use npa_list::List;
use npa_sig::SortNums;
use npa_term::{Term, Terms};
use npa_text::Name;

/// A part of an aim.
#[derive(Debug, Drop)]
pub enum Part {
    /// An instance of the strand that has executed `bar` events, and the terms of its parameters.
    Strand { strand: u16, bar: u16, args: Terms },
    /// A term that was sent.
    Known(Term),
}

/// The parts of an aim, in the order of the module.
pub type Parts = List<Part>;

/// An aim: what a run is to reach, an attack pattern (Escobar, Meadows, Meseguer 2009). Its
/// variables are numbered by their places in `sorts`.
#[derive(Debug, Drop)]
pub struct Aim {
    pub name: Name,
    pub sorts: SortNums,
    pub parts: Parts,
}

/// The aims of a module, in its order.
pub type Aims = List<Aim>;
