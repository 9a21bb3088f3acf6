// The codes of a plan, for its blocks.

use fv_engine_tasks::Codes;
use fv_loopcode_machine::Code;
use fv_split_plan::Plan;

/// A plan, as blocks use it.
#[derive(Drop)]
pub struct PlanCodes<'p> {
    pub(crate) plan: &'p Plan,
}

impl Codes for PlanCodes<'_> {
    ghost use Rattle.fv_engine_crew.specs.Contents.{parts_of};

    ghost parts = { λ c. parts_of c.plan.now };

    fn code(&self, loop_no: u64) -> &Code {
        self.plan.code(loop_no)
    }
}
