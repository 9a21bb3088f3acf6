// A program that is compiled alone.

ghost use Rattle.std.specs.Prelude.{OnOk, IfErr};
ghost use Rattle.fv_top.specs.inner.Running.{Checks, StopsCheck};

use crate::program::load_program;
use fv_outside::{Desk, Role};
use fv_top_report::{Refusal, report_numbers};
use std::alloc::Global;

/// Reads the program of this name, and reports its inputs, outputs and controls, its size and the sum of its delays.
pub fn check<D: Desk>(alloc: Global, desk: &mut D, name: &str) -> Result<(), Refusal>
    ensures done { OnOk result (Checks name.now (D.state desk.old) (D.state desk.new)) }
    ensures stops { IfErr result (StopsCheck name.now (D.state desk.old) (D.state desk.new)) }
{
    let (program, delays) = load_program(alloc, desk, name)?;
    let arity = program.diagrams.arity(program.root);
    let size = program.diagrams.size(program.root);
    let controls = program.controls.as_slice().len() as u64;
    match report_numbers(
        desk,
        arity.inputs,
        arity.outputs,
        controls,
        size,
        delays.sum(),
    ) {
        Ok(()) => Ok(()),
        Err(_) => Err(Refusal::WriteFault { role: Role::Report }),
    }
}
