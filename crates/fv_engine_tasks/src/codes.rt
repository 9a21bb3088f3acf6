// The codes of a plan.

ghost use Rattle.std.specs.Prelude.{◌≡◌, ◌<◌};
ghost use Rattle.fv_engine_tasks.specs.Block.{Parts};

use fv_loopcode_machine::Code;

/// The code of each loop of a plan.
pub trait Codes {
    /// What a block needs of the plan.
    ghost parts: { Self → Parts };

    /// The code of a loop.
    fn code(&self, loop_no: u64) -> &Code
        requires { loop_no < (parts self.now).count }
        ensures { result.now ≡ (parts self.now).loops.code loop_no };
}
