//! A protocol and aims of which every check holds, and the first check that fails where one does.
#![tactic(auto)]

mod aims;
mod checked;
mod fail;
mod fresh;

pub use checked::Checked;
pub use fail::CheckFail;
pub use fresh::fresh_laws;
