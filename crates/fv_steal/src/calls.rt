// What a worker does with its deque, and with its holds on others.

ghost use Rattle.std.specs.Prelude.{◌≡◌, ℕ, ◌+◌, ◌-◌, ◌<◌, true, [], ◌∷◌, ◌++◌, IfOk, IfErr, MatchOption};
ghost use Rattle.fv_graph.specs.TasksBeside.{times};
ghost use Rattle.fv_steal.specs.Balance.{account};
ghost use Rattle.fv_steal.specs.Deques.{account_of, room_of, lies_at, taken_by, robs};

use crate::handles::{TaskDeque, Victim};
use crate::rule::{ComesBack, Lends, Pops, Puts, Steals};
use crossbeam_deque::{Steal, Worker};
use std::alloc::{AllocError, Global};

impl TaskDeque {
    /// An empty deque for the numbers below `room`. All its memory is taken here.
    pub fn new(alloc: Global, room: u64) -> Result<TaskDeque, AllocError>
        ensures account { IfOk result (λ d. account_of d ≡ account true 0 0 [] []) }
        ensures room { IfOk result (λ d. room_of d ≡ room) }
    {
        let worker = Worker::lifo_as(alloc, room as usize)?;
        Ok(TaskDeque { worker, room })
    }

    /// Gives out a hold on this deque for another worker. Want of memory leaves the deque as it was.
    pub fn lend(&mut self) -> Result<Victim, AllocError>
        ensures room { room_of self.new ≡ room_of self.old }
        ensures place { lies_at self.new ≡ lies_at self.old }
        ensures kept { ((account_of self.new).put ≡ (account_of self.old).put) × ((account_of self.new).taken ≡ (account_of self.old).taken) }
        ensures lent { IfOk result (λ v. (robs v ≡ lies_at self.old) × (taken_by v ≡ []) × ((account_of self.new).lent ≡ (account_of self.old).lent + 1)) }
        ensures refused { IfErr result (λ _. account_of self.new ≡ account_of self.old) }
    {
        let stealer = self.worker.stealer()?;
        let pass = self.worker.another::<Lends>();
        Ok(Victim { stealer, pass })
    }

    /// Takes a hold on this deque back. What was taken by it counts as the owner's from then on.
    pub fn take_back(&mut self, victim: Victim)
        requires { robs victim ≡ lies_at self.old }
        ensures room { room_of self.new ≡ room_of self.old }
        ensures place { lies_at self.new ≡ lies_at self.old }
        ensures account { account_of self.new ≡ account true ((account_of self.old).lent - 1) (account_of self.old).held (account_of self.old).put
            ((account_of self.old).taken ++ taken_by victim) }
    {
        let Victim { stealer, pass } = victim;
        self.worker.absorb::<ComesBack>(pass);
        drop(stealer);
    }

    /// Puts a number at the back, one that was not put before. There is room for it, so it is never refused.
    pub fn push(&mut self, number: u64)
        requires below { number < room_of self.old }
        requires fresh { times number (account_of self.old).put ≡ 0 }
        ensures room { room_of self.new ≡ room_of self.old }
        ensures place { lies_at self.new ≡ lies_at self.old }
        ensures account { account_of self.new ≡ account true (account_of self.old).lent (account_of self.old).held
            ((account_of self.old).put ++ number ∷ []) (account_of self.old).taken }
    {
        // There is room, so it is not refused.
        let _ = self.worker.push_as::<Puts>(number);
    }

    /// Takes the number at the back, the last that was put of those that lie there. Where there is none and no hold is out, all
    /// that was put was taken.
    pub fn pop(&mut self) -> Option<u64>
        ensures room { room_of self.new ≡ room_of self.old }
        ensures place { lies_at self.new ≡ lies_at self.old }
        ensures found { MatchOption result
            ((account_of self.new ≡ account_of self.old) × ((account_of self.old).lent ≡ 0
            → (x : ℕ) → times x (account_of self.old).put ≡ times x (account_of self.old).taken))
            (λ x. account_of self.new ≡ account true (account_of self.old).lent (account_of self.old).held (account_of self.old).put
            ((account_of self.old).taken ++ x ∷ [])) }
    {
        self.worker.pop_as::<Pops>()
    }
}

impl Victim {
    /// Takes the number at the front, if there is one and nobody else is faster. It waits for nobody.
    pub fn steal(&mut self) -> Option<u64>
        ensures place { robs self.new ≡ robs self.old }
        ensures found { MatchOption result (taken_by self.new ≡ taken_by self.old) (λ x. taken_by self.new ≡ taken_by self.old ++ x ∷ []) }
    {
        match self.stealer.steal_as::<Steals>(&mut self.pass) {
            Steal::Success(number) => Some(number),
            Steal::Empty => None,
            Steal::Retry => None,
        }
    }
}
