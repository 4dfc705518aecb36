//! Runs of a protocol and the aims that they reach: instances of strands, what each step of a
//! schedule does, and what an attack pattern asks of a run.
#![tactic(auto)]

mod aim;
mod fit;
mod laws;
mod meeting;
mod pattern;
mod pattern_laws;
mod run;
mod sent;
mod start;
mod state;
mod values;

pub use aim::{Aim, Aims, Part, Parts};
pub use fit::is_fit;
pub use laws::{break_laws, execution_laws, form_laws, instance_laws, outcome_laws, state_laws};
pub use meeting::is_met;
pub use pattern::{PStrand, PStrands, Pattern, Patterns, Standing, is_initial, pattern_symbols};
pub use pattern_laws::{asking_laws, backward_laws, cover_laws, freshness_laws, schedule_laws};
pub use run::{Cause, Instance, Instances, Places, Run, RunFail};
pub use state::{RunState, step_run};
pub use values::message;
