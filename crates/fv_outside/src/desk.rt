// The trait of what reads and writes the files.

ghost use Rattle.std.specs.Prelude.{◌≡◌, ◌≢◌, ◌+◌, ◌%◌, ◌^◌, ◌<◌, ◌≤◌, [], ◌∷◌, ◌++◌, length, take, false, Some, IsTrue, IsSome, IsOk, IfOk, OnOk, OnErr};
ghost use Rattle.fv_outside.specs.headline.Requests.{to_read, to_write};
ghost use Rattle.fv_outside.specs.headline.Desk.{DeskState, GoesOn, HasFault, KeepsFaults};
ghost use Rattle.fv_outside.specs.Desk.{CountsCall, KeepsBytes, KeepsLeft, KeepsLeftBut, KeepsWritten};
ghost use Rattle.fv_outside.specs.headline.Desk.{file_named};
ghost use Rattle.fv_outside.specs.Desk.{KeepsWrittenBut, KeepsBegins, fails_next};

use fv_base::Role;

/// A call of a desk failed.
#[derive(Clone, Copy, PartialEq, Eq, Debug)]
pub struct Failed;

/// Reads and writes the bytes of each role. A call that failed has counted a fault of its role, or the count stands at
/// its last value, and has changed no bytes; one that did not has counted no fault. A desk that tells its bytes tells too
/// which calls fail.
pub trait Desk {
    /// What it means: its files, the bytes of each role where it tells them, its counts, and what it was asked to begin.
    ghost state: { Self → DeskState };

    /// Makes the bytes of the named file those that are left to read of the role. That no such file stands is a fault.
    fn begin_read(&mut self, role: Role, name: &str) -> Result<(), Failed>
        ensures goes_on { GoesOn (state self.old) (state self.new) }
        ensures failed { OnErr result (HasFault role (state self.old) (state self.new)) }
        ensures answers { IsTrue (state self.old).tells → fails_next role (state self.old) ≡ false →
            IsSome (file_named name.now (state self.old).files) → IsOk result }
        ensures steady { OnOk result (KeepsFaults (state self.old) (state self.new)) }
        ensures counts { CountsCall role (state self.old) (state self.new) }
        ensures asked { (state self.new).requests ≡ (state self.old).requests ++ to_read role name.now ∷ [] }
        ensures file { OnOk result (IsTrue (state self.old).tells →
            file_named name.now (state self.old).files ≡ Some ((state self.new).left role)) }
        ensures others { KeepsLeftBut role (state self.old) (state self.new) }
        ensures written { KeepsWritten (state self.old) (state self.new) }
        ensures begins { KeepsBegins (state self.old) (state self.new) }
        ensures err { OnErr result (KeepsBytes (state self.old) (state self.new)) };

    /// Takes bytes that are left of the role into the front of `to`, and says how many: 0 only where none is left.
    fn read(&mut self, role: Role, to: &mut [u8]) -> Result<usize, Failed>
        requires { 0 < length to.old }
        ensures goes_on { GoesOn (state self.old) (state self.new) }
        ensures failed { OnErr result (HasFault role (state self.old) (state self.new)) }
        ensures answers { IsTrue (state self.old).tells → fails_next role (state self.old) ≡ false → IsOk result }
        ensures steady { OnOk result (KeepsFaults (state self.old) (state self.new)) }
        ensures counts { CountsCall role (state self.old) (state self.new) }
        ensures asked { (state self.new).requests ≡ (state self.old).requests }
        ensures count { IfOk result (λ n. n ≤ length to.new) }
        ensures taken { IfOk result (λ n. IsTrue (state self.old).tells →
            (state self.old).left role ≡ take n to.new ++ (state self.new).left role) }
        ensures end { IfOk result (λ n. IsTrue (state self.old).tells → n ≡ 0 → (state self.old).left role ≡ []) }
        ensures others { KeepsLeftBut role (state self.old) (state self.new) }
        ensures written { KeepsWritten (state self.old) (state self.new) }
        ensures begins { KeepsBegins (state self.old) (state self.new) }
        ensures err { OnErr result (KeepsBytes (state self.old) (state self.new)) };

    /// Begins to write the role, with no bytes. Report needs no such call.
    fn begin_write(&mut self, role: Role, name: &str) -> Result<(), Failed>
        ensures goes_on { GoesOn (state self.old) (state self.new) }
        ensures failed { OnErr result (HasFault role (state self.old) (state self.new)) }
        ensures answers { IsTrue (state self.old).tells → fails_next role (state self.old) ≡ false → IsOk result }
        ensures steady { OnOk result (KeepsFaults (state self.old) (state self.new)) }
        ensures counts { CountsCall role (state self.old) (state self.new) }
        ensures asked { (state self.new).requests ≡ (state self.old).requests ++ to_write role name.now ∷ [] }
        ensures empty { OnOk result (IsTrue (state self.old).tells → (state self.new).written role ≡ []) }
        ensures others { KeepsWrittenBut role (state self.old) (state self.new) }
        ensures left { KeepsLeft (state self.old) (state self.new) }
        ensures counted { OnOk result ((state self.new).begins role ≡ ((state self.old).begins role + 1) % 2 ^ 64) }
        ensures other_begins { (r : Role) → r ≢ role → (state self.new).begins r ≡ (state self.old).begins r }
        ensures err { OnErr result (KeepsBytes (state self.old) (state self.new)) };

    /// Appends bytes from the front of `piece` to those written of the role, and says how many: at least one.
    fn write(&mut self, role: Role, piece: &[u8]) -> Result<usize, Failed>
        requires { 0 < length piece.now }
        ensures goes_on { GoesOn (state self.old) (state self.new) }
        ensures failed { OnErr result (HasFault role (state self.old) (state self.new)) }
        ensures answers { IsTrue (state self.old).tells → fails_next role (state self.old) ≡ false →
            length ((state self.old).written role) < (state self.old).room role → IsOk result }
        ensures steady { OnOk result (KeepsFaults (state self.old) (state self.new)) }
        ensures counts { CountsCall role (state self.old) (state self.new) }
        ensures asked { (state self.new).requests ≡ (state self.old).requests }
        ensures count { IfOk result (λ n. (1 ≤ n) × (n ≤ length piece.now)) }
        ensures appended { IfOk result (λ n. IsTrue (state self.old).tells →
            (state self.new).written role ≡ (state self.old).written role ++ take n piece.now) }
        ensures others { KeepsWrittenBut role (state self.old) (state self.new) }
        ensures left { KeepsLeft (state self.old) (state self.new) }
        ensures begins { KeepsBegins (state self.old) (state self.new) }
        ensures err { OnErr result (KeepsBytes (state self.old) (state self.new)) };
}
