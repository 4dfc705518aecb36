ghost use Rattle.std.specs.Prelude.{IfOk};
ghost use Rattle.npa_close.specs.Checks.{IsChecked};
ghost use Rattle.npa_module.specs.Forms.{IsWellFormedSource, IsPlainSource};
ghost use Rattle.npa_checking.specs.Checking.{IsCheckLine};

use crate::copying::{copy_aims, copy_protocol};
use crate::counting::ok_line;
use crate::lines::fail_line;
use npa_close::{CheckFail, Checked};
use npa_module::Source;
use npa_outside::Printed;
use npa_term::NoMemory;
use std::alloc::Global;

/// Makes the checks of a module, on copies of its parts: the module stays with the caller, who needs its
/// names to tell of a refusal.
pub fn check(alloc: Global, source: &Source) -> Result<Checked, CheckFail>
    requires form { IsWellFormedSource source.now }
    requires plain { IsPlainSource source.now }
    ensures { IsChecked result source.now.protocol source.now.aims }
{
    let protocol = copy_protocol(alloc, &source.protocol)?;
    let aims = copy_aims(alloc, source.aims.as_slice())?;
    Checked::make(alloc, protocol, aims)
}

/// Makes the checks of a module, and answers the line of the first that fails, or the line for a module
/// of which all hold.
pub fn check_line(alloc: Global, source: &Source) -> Result<Printed, NoMemory>
    requires form { IsWellFormedSource source.now }
    requires plain { IsPlainSource source.now }
    ensures { IfOk result (λ a. IsCheckLine source.now a.text.items a.status) }
{
    match check(alloc, source) {
        Ok(checked) => {
            checked.laws();
            ok_line(alloc, source.name.as_slice(), &checked)
        }
        Err(fail) => fail_line(alloc, source, &fail),
    }
}
