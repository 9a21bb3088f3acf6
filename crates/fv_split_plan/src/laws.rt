// The laws of plans.

ghost use Rattle.fv_signal.specs.headline.Value.{Graph};
ghost use Rattle.fv_split_plan.specs.Fits.{CodesObey};
ghost use Rattle.fv_split_plan.specs.headline.View.{PlanView};
ghost use Rattle.fv_split_plan.specs.Tasks.{DoesTasks, PlansAreApart, OutputsNeedLoops, HistoriesWithin};

/// Code that fits obeys the values of the signals of its lanes and cells.
pub fn codes_obey()
    ensures { (g : Graph) → CodesObey g }
{}

/// A plan that stands for a graph does each task as it is to be done.
pub fn plans_do_tasks()
    ensures { (g : Graph) (p : PlanView) → DoesTasks g p }
{}

/// Each lane and each cells of a plan has one loop. A loop loads its own lanes, and those of loops that it is told to read.
pub fn plans_are_apart()
    ensures { PlansAreApart }
{}

/// A program with outputs has a loop.
pub fn outputs_need_loops()
    ensures { (g : Graph) (p : PlanView) → OutputsNeedLoops g p }
{}

/// No history is longer than the greatest delay, and one sample.
pub fn histories_within()
    ensures { (g : Graph) (p : PlanView) → HistoriesWithin g p }
{}
