// What a desk of real files counts.

ghost use Rattle.std.specs.Prelude.{◌≡◌, ◌<◌, ◌≤◌};
ghost use Rattle.fv_outside.specs.Requests.{place_of};
ghost use Rattle.fv_outside.specs.Counts.{count_of, no_counts, CountsFault, CountsBegin};

use fv_base::Role;

/// For each role in turn, how many faults there were and how often its writing began.
#[derive(Clone, Copy)]
pub struct Counts {
    /// Stops at the last value.
    pub faults: [u64; 5],
    /// Begins again at 0 after the last value.
    pub begins: [u64; 5],
}

impl Counts {
    /// Nothing was counted.
    pub fn new() -> Counts
        ensures { result ≡ no_counts }
    {
        Counts {
            faults: [0; 5],
            begins: [0; 5],
        }
    }

    /// Counts a fault of the role.
    pub fn count_fault(&mut self, role: Role)
        ensures fault { CountsFault role self.old self.new }
        ensures none_falls { (r : Role) → count_of self.old.faults r ≤ count_of self.new.faults r }
    {
        let place = place_of(role);
        self.faults[place] = self.faults[place].saturating_add(1);
    }

    /// Counts that the writing of the role began.
    pub fn count_begin(&mut self, role: Role)
        ensures { CountsBegin role self.old self.new }
    {
        let place = place_of(role);
        self.begins[place] = self.begins[place].wrapping_add(1);
    }
}

/// The index of the role in a list of one for each.
pub fn place_of(role: Role) -> usize
    ensures place { result ≡ place_of role }
    ensures bound { result < 5 }
{
    match role {
        Role::Program => 0,
        Role::Input => 1,
        Role::Controls => 2,
        Role::Output => 3,
        Role::Report => 4,
    }
}
