// A desk whose files are lists of bytes.

ghost use Rattle.std.specs.Prelude.{◌≡◌, ◌≢◌, ℕ, List, ◌-◌, ◌<◌, ◌≤◌, ◌||◌, min, length, take, ◌++◌, ◌∷◌, [], Some, None, is_none, is_err, unwrap_or};
ghost use Rattle.std.specs.Prelude.{MatchOption, OnOk, OnErr, IfOk};
ghost use Rattle.fv_outside.specs.headline.Requests.{to_read, to_write};
ghost use Rattle.fv_outside.specs.Requests.{place_of};
ghost use Rattle.fv_outside.specs.headline.Desk.{file_named, GoesOn};
ghost use Rattle.fv_outside.specs.Drawer.{bytes_at};
ghost use Rattle.fv_outside.specs.Memory.{empty_memory, memory_of, memory_after, memory_state, asked, is_failing, is_full, after_room, after_pieces};
ghost use Rattle.fv_outside.specs.Memory.{after_fail, after_fault, after_begin_read, after_read, after_begin_write, after_write};

use crate::counts::place_of;
use crate::desk::{Desk, Failed};
use crate::drawer::{Drawer, StoredFile};
use crate::requests::{Request, Requests};
use fv_base::Role;
use std::alloc::{AllocError, Global};
use std::marker::Model;

/// A desk without real files: what is read was put in before, and what is written can be looked at afterwards.
/// Calls can be told to fail. None of the four calls of a desk takes memory.
#[derive(Drop)]
pub struct MemoryDesk {
    alloc: Global,
    files: Vec<StoredFile>,
    drawers: [Drawer; 5],
    requests: Requests,
}

impl Model for MemoryDesk {
    ghost use Rattle.fv_outside.specs.Memory.{Memory};

    ghost Value = { Memory };

    ghost use Rattle.fv_outside.specs.Stored.{memory_with, IsStored};

    ghost view = { λ m. memory_with m.files.items m.drawers m.requests.list };

    ghost invariant = { λ m. IsStored m.files.items m.drawers };
}

impl MemoryDesk {
    /// A desk without files, where nothing fails and no byte may be written.
    pub fn new(alloc: Global) -> MemoryDesk
        ensures { result ≡ empty_memory }
    {
        MemoryDesk {
            alloc,
            files: Vec::new(alloc),
            drawers: [
                Drawer::new(alloc),
                Drawer::new(alloc),
                Drawer::new(alloc),
                Drawer::new(alloc),
                Drawer::new(alloc),
            ],
            requests: Requests::new(),
        }
    }

    /// Adds a file, which stands for an earlier one of its name. Where an earlier one is being read, its bytes stay.
    pub fn put(&mut self, name: &str, bytes: &[u8]) -> Result<(), AllocError>
        ensures ok { OnOk result (self.new ≡
            record self.old { files = self.old.files ++ record { name = name.now; bytes = bytes.now } ∷ [] }) }
        ensures named { OnOk result (file_named name.now self.new.files ≡ Some bytes.now) }
        ensures others { OnOk result ((n : List ℕ) → n ≢ name.now →
            file_named n self.new.files ≡ file_named n self.old.files) }
        ensures err { OnErr result (self.new ≡ self.old) }
    {
        let file = StoredFile::new(self.alloc, name, bytes)?;
        self.files.push(file)?;
        Ok(())
    }

    /// Makes room for `bytes` bytes of the role in all, where there is less.
    pub fn room(&mut self, role: Role, bytes: u32) -> Result<(), AllocError>
        ensures ok { OnOk result (self.new ≡ memory_after self.old role (after_room bytes)) }
        ensures err { OnErr result (self.new ≡ self.old) }
    {
        self.drawers[place_of(role)].widen(bytes)
    }

    /// Sets the most bytes that each `read` and `write` of the role moves from now on.
    pub fn pieces(&mut self, role: Role, size: u32)
        requires { 1 ≤ size }
        ensures { self.new ≡ memory_after self.old role (after_pieces size) }
    {
        self.drawers[place_of(role)].pieces(size);
    }

    /// One call of the role will fail: its number tells how many calls of that role, of any method, come before it.
    pub fn fail(&mut self, role: Role, call: u32) -> Result<(), AllocError>
        ensures ok { OnOk result (self.new ≡ memory_after self.old role (after_fail call)) }
        ensures err { OnErr result (self.new ≡ self.old) }
    {
        self.drawers[place_of(role)].fail(call)
    }

    /// The bytes that were written of the role.
    pub fn written(&self, role: Role) -> &[u8]
        ensures { result.now ≡ (memory_of self.now role).written }
    {
        self.drawers[place_of(role)].written()
    }
}

// Beside what each desk ensures, the clauses say exactly when a call fails, and all that it changes.
impl Desk for MemoryDesk {
    ghost state = { memory_state };

    fn begin_read(&mut self, role: Role, name: &str) -> Result<(), Failed>
        ensures goes_on { GoesOn (memory_state self.old) (memory_state self.new) }
        ensures fails { is_err result ≡
            (is_failing (memory_of self.old role) || is_none (file_named name.now self.old.files)) }
        ensures begun { OnOk result (self.new ≡ asked (to_read role name.now)
            (memory_after self.old role (after_begin_read (unwrap_or (file_named name.now self.old.files) [])))) }
        ensures fault { OnErr result (self.new ≡ asked (to_read role name.now) (memory_after self.old role after_fault)) }
    {
        self.requests = self.requests.and(&Request::Read { role, name });
        let found = place_named(&self.files, name);
        self.drawers[place_of(role)].begin_read(found)
    }

    fn read(&mut self, role: Role, to: &mut [u8]) -> Result<usize, Failed>
        requires { 0 < length to.old }
        ensures goes_on { GoesOn (memory_state self.old) (memory_state self.new) }
        ensures fails { is_err result ≡ is_failing (memory_of self.old role) }
        ensures count { IfOk result (λ n. n ≡ min (memory_of self.old role).most (min (length to.new) (length (memory_of self.old role).left))) }
        ensures end { IfOk result (λ n. n ≡ 0 → (memory_of self.old role).left ≡ []) }
        ensures bytes { IfOk result (λ n. take n to.new ≡ take n (memory_of self.old role).left) }
        ensures rest { IfOk result (λ n. self.new ≡ memory_after self.old role (after_read n)) }
        ensures fault { OnErr result (self.new ≡ memory_after self.old role after_fault) }
    {
        self.drawers[place_of(role)].read(&self.files, to)
    }

    fn begin_write(&mut self, role: Role, name: &str) -> Result<(), Failed>
        ensures goes_on { GoesOn (memory_state self.old) (memory_state self.new) }
        ensures fails { is_err result ≡ is_failing (memory_of self.old role) }
        ensures begun { OnOk result (self.new ≡ asked (to_write role name.now) (memory_after self.old role after_begin_write)) }
        ensures fault { OnErr result (self.new ≡ asked (to_write role name.now) (memory_after self.old role after_fault)) }
    {
        self.requests = self.requests.and(&Request::Write { role, name });
        self.drawers[place_of(role)].begin_write()
    }

    fn write(&mut self, role: Role, piece: &[u8]) -> Result<usize, Failed>
        requires { 0 < length piece.now }
        ensures goes_on { GoesOn (memory_state self.old) (memory_state self.new) }
        ensures fails { is_err result ≡
            (is_failing (memory_of self.old role) || is_full (memory_of self.old role)) }
        ensures count { IfOk result (λ n. n ≡ min (memory_of self.old role).most
            (min (length piece.now) ((memory_of self.old role).room - length (memory_of self.old role).written))) }
        ensures some { IfOk result (λ n. 1 ≤ n) }
        ensures appended { IfOk result (λ n. self.new ≡ memory_after self.old role (after_write (take n piece.now))) }
        ensures fault { OnErr result (self.new ≡ memory_after self.old role after_fault) }
    {
        self.drawers[place_of(role)].write(piece)
    }
}

// The index of the last file of this name.
fn place_named(files: &[StoredFile], name: &str) -> Option<usize>
    ensures { MatchOption result (file_named name.now files.now ≡ None)
        (λ i. (i < length files.now) × (file_named name.now files.now ≡ Some (bytes_at files.now i))) }
{
    let mut found = None;
    for (i, file) in files.iter().enumerate() {
        if file.name() == name.as_bytes() {
            found = Some(i);
        }
    }
    found
}
