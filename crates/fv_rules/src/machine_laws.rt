// Laws of the machine.

ghost use Rattle.fv_rules.specs.Machine.{StartsMean, StepsMean};

use crate::evaluation_follows;

/// No step of the machine changes what a configuration stands for, and the first one stands for the program.
pub fn steps_mean()
    ensures steps { StepsMean }
    ensures starts { StartsMean }
{
    // For the prover: what an evaluation is, visit by visit.
    evaluation_follows();
}
