// Laws on what is put.

ghost use Rattle.fv_share.specs.Drafts.{PutsStand, TablesStand, BacksStayWithin, GroupsStay};

/// A signal that is put stands at its place, and the others stay where they are.
pub fn puts_stand()
    ensures { PutsStand }
{}

/// A table that is put stands at its number, and the others stay where they are.
pub fn tables_stand()
    ensures { TablesStand }
{}

/// Where each Back of a group names one of the first members, it does so after a signal is put that does.
pub fn backs_stay_within()
    ensures { BacksStayWithin }
{}

/// Opening groups and closing one leaves all other groups as they are.
pub fn groups_stay()
    ensures { GroupsStay }
{}
