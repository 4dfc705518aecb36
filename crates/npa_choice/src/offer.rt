use npa_list::List;
use npa_term::Term;

/// What an asker can be given: the place that is taken with it, where it takes one, and the pairs of
/// terms that have to be matched then. The terms are borrowed where they lie.
#[derive(Drop)]
pub struct Offer<'a> {
    pub place: Option<usize>,
    pub pairs: List<(&'a Term, &'a Term)>,
}

/// The offers that are made to an asker.
pub type Offers<'a> = List<Offer<'a>>;
