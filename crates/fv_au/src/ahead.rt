// A desk that looks ahead at the input.

ghost use Rattle.std.specs.Prelude.{◌≡◌, ◌<◌, ◌+◌, [], length, take, false, IsTrue, IsOk, IfOk, IfSome, IfNone, OnOk, OnErr};
ghost use Rattle.fv_base.specs.declared.role.Role.TheVariants.{Input};
ghost use Rattle.fv_outside.specs.headline.Desk.{KeepsFaults, HasFault, IsUnfailing};
ghost use Rattle.fv_outside.specs.Desk.{Takes, fails_next};
ghost use Rattle.fv_au.specs.Looking.{ahead_of, ahead_state};

use crate::kept::{Kept, MOST_KEPT};
use fv_outside::{Desk, Failed, Role};

/// The desk that it stands over, with the next bytes of the input kept, once they were looked at. Each of its calls makes
/// one call of that desk.
#[derive(Drop)]
pub struct Ahead<'a, D: Desk> {
    desk: &'a mut D,
    kept: Kept,
}

impl<'a, D: Desk> Ahead<'a, D> {
    /// Over this desk, which it leaves as it is.
    pub fn new(desk: &'a mut D) -> Ahead<'a, D>
        ensures same_reference { result.desk.ghost_name ≡ desk.entry.ghost_name }
        ensures now { result.desk.now ≡ desk.old }
        ensures state { ahead_state D.state result ≡ ahead_of desk.entry.ghost_name [] (D.state desk.old) }
    {
        Ahead {
            desk,
            kept: Kept::new(),
        }
    }

    /// Looks at the next four bytes of the input, which stay left; `None` where fewer are left.
    pub fn peek(&mut self) -> Result<Option<[u8; 4]>, Failed>
        ensures left { Takes Input [] (ahead_state D.state self.old) (ahead_state D.state self.new) }
        ensures some { IfOk result (λ front. IfSome front (λ bytes. IsTrue (ahead_state D.state self.old).tells →
            bytes ≡ take 4 ((ahead_state D.state self.old).left Input))) }
        ensures none { IfOk result (λ front. IfNone front (IsTrue (ahead_state D.state self.old).tells →
            length ((ahead_state D.state self.old).left Input) < 4)) }
        ensures failed { OnErr result (HasFault Input (ahead_state D.state self.old) (ahead_state D.state self.new)) }
        ensures steady { OnOk result (KeepsFaults (ahead_state D.state self.old) (ahead_state D.state self.new)) }
        ensures answers { IsTrue (ahead_state D.state self.old).tells → IsUnfailing Input (ahead_state D.state self.old) → IsOk result }
    {
        'bytes: while self.kept.len() < MOST_KEPT {
            let n = self.keep_more()?;
            if n == 0 {
                return Ok(None);
            }
        }
        Ok(Some(self.kept.four()))
    }

    // Keeps more of the bytes that are left, and says how many.
    fn keep_more(&mut self) -> Result<usize, Failed>
        requires { length self.old.kept < 4 }
        ensures left { Takes Input [] (ahead_state D.state self.old) (ahead_state D.state self.new) }
        ensures more { IfOk result (λ n. length self.new.kept ≡ length self.old.kept + n) }
        ensures end { IfOk result (λ n. IsTrue (D.state self.old.desk.now).tells → n ≡ 0 → (D.state self.new.desk.now).left Input ≡ []) }
        ensures failed { OnErr result (HasFault Input (D.state self.old.desk.now) (D.state self.new.desk.now)) }
        ensures steady { OnOk result (KeepsFaults (D.state self.old.desk.now) (D.state self.new.desk.now)) }
        ensures answers { IsTrue (D.state self.old.desk.now).tells → fails_next Input (D.state self.old.desk.now) ≡ false → IsOk result }
    {
        let mut more = [0u8; MOST_KEPT];
        let room = MOST_KEPT - self.kept.len();
        let n = self.desk.read(Role::Input, &mut more[..room])?;
        self.kept.extend(&more[..n]);
        Ok(n)
    }
}

impl<'a, D: Desk> Desk for Ahead<'a, D> {
    ghost state = { ahead_state D.state };

    fn begin_read(&mut self, role: Role, name: &str) -> Result<(), Failed> {
        self.desk.begin_read(role, name)?;
        if role == Role::Input {
            self.kept = Kept::new();
        }
        Ok(())
    }

    fn read(&mut self, role: Role, to: &mut [u8]) -> Result<usize, Failed> {
        if role != Role::Input {
            return self.desk.read(role, to);
        }
        let kept = self.kept.len();
        if kept < to.len() {
            let n = self.desk.read(Role::Input, &mut to[kept..])?;
            self.kept.give(&mut to[..kept]);
            return Ok(kept + n);
        }
        let mut next = [0u8; 1];
        let n = self.desk.read(Role::Input, &mut next)?;
        let given = self.kept.give(to);
        self.kept.extend(&next[..n]);
        Ok(given)
    }

    fn begin_write(&mut self, role: Role, name: &str) -> Result<(), Failed> {
        self.desk.begin_write(role, name)
    }

    fn write(&mut self, role: Role, piece: &[u8]) -> Result<usize, Failed> {
        self.desk.write(role, piece)
    }
}
