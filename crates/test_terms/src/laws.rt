use npa_match::{matcher_laws, part_laws, test_laws};
use npa_model::{break_laws, execution_laws, form_laws, outcome_laws, state_laws};
use npa_rewrite::{convergence_laws, normal_laws, normalizing_laws, signature_laws, step_laws};
use npa_term::{
    canonical_laws, equality_cases, equality_laws, ground_laws, instance_laws, numbering_laws,
    order_laws, renaming_laws,
};

// A law is a call without an effect.
#[test]
fn laws_do_nothing() {
    order_laws();
    equality_laws();
    equality_cases();
    canonical_laws();
    ground_laws();
    instance_laws();
    renaming_laws();
    numbering_laws();
    test_laws();
    part_laws();
    matcher_laws();
    step_laws();
    normal_laws();
    signature_laws();
    convergence_laws();
    normalizing_laws();
    execution_laws();
    break_laws();
    npa_model::instance_laws();
    outcome_laws();
    form_laws();
    state_laws();
}
