// Laws of labels and of changes.

ghost use Rattle.fv_jobs.specs.Labels.{LabelsAreFound, OthersAreNot, RequestsAreOfJobs};
ghost use Rattle.fv_jobs.specs.Changes.{JobsHear, AreInOrder, AreOfControls};

/// The label `k/g` is that of control g of job k, and no other label is of any: what a line asks of it is what it asks, with the
/// label g, of job k alone.
pub fn labels_are_of_jobs()
    ensures found { LabelsAreFound }
    ensures others { OthersAreNot }
    ensures asked { RequestsAreOfJobs }
{}

/// A job hears just the changes of its own controls, as if there were no others.
pub fn jobs_hear_their_changes()
    ensures { JobsHear }
{}

/// They are a lawful list of changes for the job alone.
pub fn changes_are_lawful()
    ensures order { AreInOrder }
    ensures controls { AreOfControls }
{}
