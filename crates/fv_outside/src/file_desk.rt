// A desk of real files.

ghost use Rattle.std.specs.Prelude.{◌≡◌, ◌≢◌, ◌+◌, ◌%◌, ◌^◌, ◌<◌, ◌≤◌, length, take, ◌++◌, ◌∷◌, [], false, Some, IsTrue, IsSome, IsOk, IfOk, OnOk, OnErr};
ghost use Rattle.fv_outside.specs.headline.Requests.{to_read, to_write};
ghost use Rattle.fv_outside.specs.headline.Desk.{GoesOn, HasFault, KeepsFaults, file_named};
ghost use Rattle.fv_outside.specs.Desk.{CountsCall, KeepsBytes, KeepsBegins, fails_next};
ghost use Rattle.fv_outside.specs.Counts.{no_counts, CountsFault, CountsBegin, after_request, file_state};

use crate::counts::Counts;
use crate::desk::{Desk, Failed};
use crate::requests::{Request, Requests};
use fv_base::Role;
use std::fs;
use std::io::{Read, Write};
use std::marker::Model;
use std::rt::Files;

/// Real files, and standard output for Report. It tells no bytes.
///
/// `begin_read` opens the named file, and `begin_write` creates or empties it; each role has one file open to read and
/// one to write. Faults are all that the system refuses, a write or a print that takes nothing, and a write of
/// a role that was not begun; of such a role nothing is left to read. Report is printed without a begin, and beginning to write
/// it is a fault.
pub struct FileDesk<'r, R: Files + Print> {
    rt: &'r R,
    open: OpenFiles<R::File>,
    counts: Counts,
    requests: Requests,
}

impl<'r, R: Files + Print> Model for FileDesk<'r, R> {
    ghost use Rattle.fv_outside.specs.Counts.{FileState};

    ghost Value = { FileState };

    ghost view = { λ d. record { counts = d.counts; requests = d.requests.list } };
}

impl<R: Files + Print> Drop for FileDesk<'_, R> {
    fn drop(self) {
        let FileDesk {
            rt: _,
            open,
            counts: _,
            requests: _,
        } = self;
        drop(open);
    }
}

impl<'r, R: Files + Print> FileDesk<'r, R> {
    /// A desk with no file open, and all its counts at 0, which was asked for nothing.
    pub fn new(rt: &'r R) -> FileDesk<'r, R>
        ensures { result ≡ record { counts = no_counts; requests = [] } }
    {
        FileDesk {
            rt,
            open: OpenFiles {
                program: OpenPair::new(),
                input: OpenPair::new(),
                controls: OpenPair::new(),
                output: OpenPair::new(),
                report: OpenPair::new(),
            },
            counts: Counts::new(),
            requests: Requests::new(),
        }
    }
}

// Beside what each desk ensures, the clauses say exactly what is counted.
impl<R: Files + Print> Desk for FileDesk<'_, R> {
    ghost state = { file_state };

    fn begin_read(&mut self, role: Role, name: &str) -> Result<(), Failed>
        ensures goes_on { GoesOn (file_state self.old) (file_state self.new) }
        ensures failed { OnErr result (HasFault role (file_state self.old) (file_state self.new)) }
        ensures file { OnOk result (IsTrue (file_state self.old).tells →
            file_named name.now (file_state self.old).files ≡ Some ((file_state self.new).left role)) }
        ensures begins { KeepsBegins (file_state self.old) (file_state self.new) }
        ensures answers { IsTrue (file_state self.old).tells → fails_next role (file_state self.old) ≡ false
            → IsSome (file_named name.now (file_state self.old).files) → IsOk result }
        ensures steady { OnOk result (KeepsFaults (file_state self.old) (file_state self.new)) }
        ensures counts { CountsCall role (file_state self.old) (file_state self.new) }
        ensures asked { self.new.requests ≡ self.old.requests ++ to_read role name.now ∷ [] }
        ensures err { OnErr result (KeepsBytes (file_state self.old) (file_state self.new)) }
        ensures quiet { OnOk result (self.new ≡ after_request (to_read role name.now) self.old) }
        ensures fault { OnErr result (CountsFault role self.old.counts self.new.counts) }
    {
        self.requests = self.requests.and(&Request::Read { role, name });
        match fs::open(self.rt, name) {
            Ok(file) => {
                self.open.of(role).reader = Some(file);
                Ok(())
            }
            Err(_) => {
                self.counts.count_fault(role);
                Err(Failed)
            }
        }
    }

    fn read(&mut self, role: Role, to: &mut [u8]) -> Result<usize, Failed>
        ensures count { IfOk result (λ n. n ≤ length to.new) }
        ensures goes_on { GoesOn (file_state self.old) (file_state self.new) }
        ensures failed { OnErr result (HasFault role (file_state self.old) (file_state self.new)) }
        ensures taken { IfOk result (λ n. IsTrue (file_state self.old).tells →
            (file_state self.old).left role ≡ take n to.new ++ (file_state self.new).left role) }
        ensures end { IfOk result (λ n. IsTrue (file_state self.old).tells → n ≡ 0 → (file_state self.old).left role ≡ []) }
        ensures begins { KeepsBegins (file_state self.old) (file_state self.new) }
        ensures answers { IsTrue (file_state self.old).tells → fails_next role (file_state self.old) ≡ false → IsOk result }
        ensures steady { OnOk result (KeepsFaults (file_state self.old) (file_state self.new)) }
        ensures counts { CountsCall role (file_state self.old) (file_state self.new) }
        ensures asked { self.new.requests ≡ self.old.requests }
        ensures err { OnErr result (KeepsBytes (file_state self.old) (file_state self.new)) }
        ensures quiet { OnOk result (self.new ≡ self.old) }
        ensures fault { OnErr result (CountsFault role self.old.counts self.new.counts) }
    {
        match self.open.of(role).read(to) {
            Ok(n) => Ok(n),
            Err(failed) => {
                self.counts.count_fault(role);
                Err(failed)
            }
        }
    }

    fn begin_write(&mut self, role: Role, name: &str) -> Result<(), Failed>
        ensures goes_on { GoesOn (file_state self.old) (file_state self.new) }
        ensures failed { OnErr result (HasFault role (file_state self.old) (file_state self.new)) }
        ensures empty { OnOk result (IsTrue (file_state self.old).tells → (file_state self.new).written role ≡ []) }
        ensures counted { OnOk result ((file_state self.new).begins role ≡ ((file_state self.old).begins role + 1) % 2 ^ 64) }
        ensures other_begins { (r : Role) → r ≢ role → (file_state self.new).begins r ≡ (file_state self.old).begins r }
        ensures answers { IsTrue (file_state self.old).tells → fails_next role (file_state self.old) ≡ false → IsOk result }
        ensures steady { OnOk result (KeepsFaults (file_state self.old) (file_state self.new)) }
        ensures counts { CountsCall role (file_state self.old) (file_state self.new) }
        ensures asked { self.new.requests ≡ self.old.requests ++ to_write role name.now ∷ [] }
        ensures err { OnErr result (KeepsBytes (file_state self.old) (file_state self.new)) }
        ensures begun { OnOk result (CountsBegin role self.old.counts self.new.counts) }
        ensures fault { OnErr result (CountsFault role self.old.counts self.new.counts) }
    {
        self.requests = self.requests.and(&Request::Write { role, name });
        match create(self.rt, role, name) {
            Ok(file) => {
                self.open.of(role).writer = Some(file);
                self.counts.count_begin(role);
                Ok(())
            }
            Err(failed) => {
                self.counts.count_fault(role);
                Err(failed)
            }
        }
    }

    fn write(&mut self, role: Role, piece: &[u8]) -> Result<usize, Failed>
        ensures count { IfOk result (λ n. (1 ≤ n) × (n ≤ length piece.now)) }
        ensures goes_on { GoesOn (file_state self.old) (file_state self.new) }
        ensures failed { OnErr result (HasFault role (file_state self.old) (file_state self.new)) }
        ensures appended { IfOk result (λ n. IsTrue (file_state self.old).tells →
            (file_state self.new).written role ≡ (file_state self.old).written role ++ take n piece.now) }
        ensures begins { KeepsBegins (file_state self.old) (file_state self.new) }
        ensures answers { IsTrue (file_state self.old).tells → fails_next role (file_state self.old) ≡ false
            → length ((file_state self.old).written role) < (file_state self.old).room role → IsOk result }
        ensures steady { OnOk result (KeepsFaults (file_state self.old) (file_state self.new)) }
        ensures counts { CountsCall role (file_state self.old) (file_state self.new) }
        ensures asked { self.new.requests ≡ self.old.requests }
        ensures err { OnErr result (KeepsBytes (file_state self.old) (file_state self.new)) }
        ensures quiet { OnOk result (self.new ≡ self.old) }
        ensures fault { OnErr result (CountsFault role self.old.counts self.new.counts) }
    {
        let written = match role {
            Role::Report => print_some(self.rt, piece),
            _ => self.open.of(role).write(piece),
        };
        if written.is_err() {
            self.counts.count_fault(role);
        }
        written
    }
}

// The files that are open of each role.
#[derive(Drop)]
struct OpenFiles<F> {
    // The files of Program: the text of a program or of a rack.
    program: OpenPair<F>,
    // The files of Input: the sound file that a run hears.
    input: OpenPair<F>,
    // The files of Controls: the script.
    controls: OpenPair<F>,
    // The files of Output: the sound file that a run says.
    output: OpenPair<F>,
    // The files of Report. None is open to write, since it goes to standard output.
    report: OpenPair<F>,
}

impl<F> OpenFiles<F> {
    // The files of one role.
    fn of(&mut self, role: Role) -> &mut OpenPair<F> {
        match role {
            Role::Program => &mut self.program,
            Role::Input => &mut self.input,
            Role::Controls => &mut self.controls,
            Role::Output => &mut self.output,
            Role::Report => &mut self.report,
        }
    }
}

// The file that a role reads, and the one that it writes.
#[derive(Drop)]
struct OpenPair<F> {
    reader: Option<F>,
    writer: Option<F>,
}

impl<F> OpenPair<F> {
    fn new() -> OpenPair<F> {
        OpenPair {
            reader: None,
            writer: None,
        }
    }
}

impl<F: Read + Write> OpenPair<F> {
    // Reads; where the role was not begun, nothing is left.
    fn read(&mut self, to: &mut [u8]) -> Result<usize, Failed>
        ensures { IfOk result (λ n. n ≤ length to.new) }
    {
        match &mut self.reader {
            Some(file) => file.read(to).map_err(|_| Failed),
            None => Ok(0),
        }
    }

    // Writes at least one byte, where the role was begun.
    fn write(&mut self, piece: &[u8]) -> Result<usize, Failed>
        ensures { IfOk result (λ n. (1 ≤ n) × (n ≤ length piece.now)) }
    {
        match &mut self.writer {
            Some(file) => some_taken(file.write(piece)),
            None => Err(Failed),
        }
    }
}

// An empty file of this name. There is none for Report, since standard output does not begin anew.
fn create<R: Files>(rt: &R, role: Role, name: &str) -> Result<R::File, Failed> {
    match role {
        Role::Report => Err(Failed),
        _ => fs::create(rt, name).map_err(|_| Failed),
    }
}

// Prints at least one byte.
fn print_some(rt: &impl Print, piece: &[u8]) -> Result<usize, Failed>
    ensures { IfOk result (λ n. (1 ≤ n) × (n ≤ length piece.now)) }
{
    some_taken(rt.write_some(piece))
}

// A call that takes nothing failed.
fn some_taken(outcome: std::io::Result<usize>) -> Result<usize, Failed>
    ensures { IfOk result (λ n. (1 ≤ n) × (outcome ≡ Ok n)) }
{
    match outcome {
        Ok(0) => Err(Failed),
        Ok(n) => Ok(n),
        Err(_) => Err(Failed),
    }
}
