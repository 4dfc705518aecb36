use npa_unify::{search_laws, unifier_laws};

// A law is a call without an effect.
#[test]
fn laws_do_nothing() {
    search_laws();
    unifier_laws();
}
