// What a desk in memory keeps of one role.

ghost use Rattle.std.specs.Prelude.{◌≡◌, ℕ, ◌+◌, ◌-◌, ◌%◌, ◌^◌, ◌<◌, ◌≤◌, ◌||◌, min, max, length, take, drop, ◌++◌, ◌∷◌, [], Some, None, is_none};
ghost use Rattle.std.specs.Prelude.{is_err, nat_le, OnOk, OnErr, IfOk};
ghost use Rattle.fv_outside.specs.Desk.{fails_now};
ghost use Rattle.fv_outside.specs.Drawer.{bytes_at, left_at, nothing_kept, called, faulted, ReadsWithin, DrawerGoesOn};

use crate::desk::Failed;
use std::alloc::{AllocError, Global};
use std::marker::Model;

/// A file in memory: its name and its bytes.
#[derive(Drop)]
pub struct StoredFile {
    name: Vec<u8>,
    bytes: Vec<u8>,
}

impl Model for StoredFile {
    ghost use Rattle.fv_outside.specs.headline.Desk.{File};

    ghost Value = { File };

    ghost view = { λ f. record { name = f.name.items; bytes = f.bytes.items } };
}

impl StoredFile {
    /// The file of this name with these bytes.
    pub fn new(alloc: Global, name: &str, bytes: &[u8]) -> Result<StoredFile, AllocError>
        ensures { IfOk result (λ f. f ≡ record { name = name.now; bytes = bytes.now }) }
    {
        let name = Vec::from_slice(alloc, name.as_bytes())?;
        let bytes = Vec::from_slice(alloc, bytes)?;
        Ok(StoredFile { name, bytes })
    }

    /// Its name.
    pub fn name(&self) -> &[u8]
        ensures { result.now ≡ self.now.name }
    {
        &self.name
    }

    /// Its bytes.
    pub fn bytes(&self) -> &[u8]
        ensures { result.now ≡ self.now.bytes }
    {
        &self.bytes
    }
}

/// Where a role reads.
#[derive(Clone, Copy)]
pub struct Reading {
    /// The index of the file in the list of files.
    pub file: usize,
    /// How many of its bytes were taken.
    pub taken: usize,
}

/// What a desk in memory keeps of one role.
#[derive(Drop)]
pub struct Drawer {
    // The file that the role reads, and how far. None before the first read was begun.
    reading: Option<Reading>,
    // The bytes written since the last time that a write was begun.
    written: Vec<u8>,
    // How many bytes may stand in `written`. Its memory is taken already.
    room: u32,
    // The most bytes that one call reads or writes, at least 1.
    most: u64,
    // How many calls were made. It stays at its type's end.
    calls: u64,
    // The numbers of the calls that fail, as `calls` counts them from 0 on.
    failing: Vec<u32>,
    // How many calls failed. It stays at its type's end.
    faults: u64,
    // How often a write was begun, modulo 2 to the power 64.
    begins: u64,
}

impl Model for Drawer {
    ghost use Rattle.std.specs.Prelude.{◌≤◌, vec_len, vec_capacity};
    ghost use Rattle.fv_outside.specs.Drawer.{Kept};

    ghost Value = { Kept };

    ghost view = { λ d. record {
      reading = d.reading;
      written = d.written.items;
      room = d.room;
      most = d.most;
      calls = d.calls;
      failing = d.failing.items;
      faults = d.faults;
      begins = d.begins;
    } };

    // The room is taken before it is written, and each call moves some bytes.
    ghost invariant = { λ d. (vec_len d.written ≤ d.room) × (d.room ≤ vec_capacity d.written) × (1 ≤ d.most) };
}

impl Drawer {
    /// An empty drawer. It takes no memory.
    pub fn new(alloc: Global) -> Drawer
        ensures { result ≡ nothing_kept }
    {
        Drawer {
            reading: None,
            written: Vec::new(alloc),
            room: 0,
            most: u64::MAX,
            calls: 0,
            failing: Vec::new(alloc),
            faults: 0,
            begins: 0,
        }
    }

    /// The bytes that were written.
    pub fn written(&self) -> &[u8]
        ensures { result.now ≡ self.now.written }
    {
        &self.written
    }

    /// Makes room for `bytes` bytes in all, where there is less.
    pub fn widen(&mut self, bytes: u32) -> Result<(), AllocError>
        ensures ok { OnOk result (self.new ≡ record self.old { room = max self.old.room bytes }) }
        ensures err { OnErr result (self.new ≡ self.old) }
        ensures within { (n : ℕ) → ReadsWithin n self.old → ReadsWithin n self.new }
    {
        let wanted = self.room.max(bytes);
        let free = wanted as usize - self.written.len();
        self.written.reserve(free)?;
        self.room = wanted;
        Ok(())
    }

    /// Sets the most bytes that each call moves from now on.
    pub fn pieces(&mut self, size: u32)
        requires { 1 ≤ size }
        ensures ok { self.new ≡ record self.old { most = size } }
        ensures within { (n : ℕ) → ReadsWithin n self.old → ReadsWithin n self.new }
    {
        self.most = u64::from(size);
    }

    /// Lets the call of this number fail. The first call has number 0.
    pub fn fail(&mut self, call: u32) -> Result<(), AllocError>
        ensures ok { OnOk result (self.new ≡ record self.old { failing = self.old.failing ++ call ∷ [] }) }
        ensures err { OnErr result (self.new ≡ self.old) }
        ensures within { (n : ℕ) → ReadsWithin n self.old → ReadsWithin n self.new }
    {
        self.failing.push(call)?;
        Ok(())
    }

    // Whether the call that comes now fails.
    fn fails_now(&self) -> bool
        ensures { result ≡ fails_now self.now.calls self.now.failing }
    {
        let calls = self.calls;
        self.failing.iter().any(|n| u64::from(*n) == calls)
    }

    // Counts a call that failed.
    fn fault(&mut self) -> Failed
        ensures { self.new ≡ faulted self.old }
    {
        self.calls = self.calls.saturating_add(1);
        self.faults = self.faults.saturating_add(1);
        Failed
    }

    /// Reads from the file that was found, from its front.
    pub fn begin_read(&mut self, found: Option<usize>) -> Result<(), Failed>
        ensures fails { is_err result ≡ (fails_now self.old.calls self.old.failing || is_none found) }
        ensures ok { OnOk result ((f : ℕ) → found ≡ Some f →
            self.new ≡ record (called self.old) { reading = Some (record { file = f; taken = 0 }) }) }
        ensures err { OnErr result (self.new ≡ faulted self.old) }
        ensures within { (n : ℕ) → ReadsWithin n self.old → ((f : ℕ) → found ≡ Some f → f < n) → ReadsWithin n self.new }
        ensures goes_on { DrawerGoesOn self.old self.new }
    {
        if self.fails_now() {
            return Err(self.fault());
        }
        let Some(file) = found else {
            return Err(self.fault());
        };
        self.calls = self.calls.saturating_add(1);
        self.reading = Some(Reading { file, taken: 0 });
        Ok(())
    }

    /// Takes as many bytes as are left and fit into `to`.
    pub fn read(&mut self, files: &[StoredFile], to: &mut [u8]) -> Result<usize, Failed>
        ensures fails { is_err result ≡ fails_now self.old.calls self.old.failing }
        ensures count { IfOk result (λ n. n ≡ min self.old.most (min (length to.new) (length (left_at files.now self.old.reading)))) }
        ensures end { 0 < length to.old → IfOk result (λ n. n ≡ 0 → left_at files.now self.old.reading ≡ []) }
        ensures taken { IfOk result (λ n. take n to.new ≡ take n (left_at files.now self.old.reading)) }
        ensures left { IfOk result (λ n. left_at files.now self.new.reading ≡ drop n (left_at files.now self.old.reading)) }
        ensures ok { OnOk result (self.new ≡ record (called self.old) { reading = self.new.reading }) }
        ensures err { OnErr result (self.new ≡ faulted self.old) }
        ensures within { (n : ℕ) → ReadsWithin n self.old → ReadsWithin n self.new }
        ensures goes_on { DrawerGoesOn self.old self.new }
    {
        if self.fails_now() {
            return Err(self.fault());
        }
        self.calls = self.calls.saturating_add(1);
        match self.reading {
            None => Ok(0),
            Some(reading) => {
                let n = take_from(bytes_of(files, reading.file), reading.taken, self.most, to);
                self.reading = Some(Reading {
                    file: reading.file,
                    taken: reading.taken + n,
                });
                Ok(n)
            }
        }
    }

    /// Begins to write, with no bytes.
    pub fn begin_write(&mut self) -> Result<(), Failed>
        ensures fails { is_err result ≡ fails_now self.old.calls self.old.failing }
        ensures ok { OnOk result (self.new ≡
            record (called self.old) { written = []; begins = (self.old.begins + 1) % 2 ^ 64 }) }
        ensures err { OnErr result (self.new ≡ faulted self.old) }
        ensures within { (n : ℕ) → ReadsWithin n self.old → ReadsWithin n self.new }
        ensures goes_on { DrawerGoesOn self.old self.new }
    {
        if self.fails_now() {
            return Err(self.fault());
        }
        self.calls = self.calls.saturating_add(1);
        self.written.clear();
        self.begins = self.begins.wrapping_add(1);
        Ok(())
    }

    /// Appends as many bytes of `piece` as there is room for.
    pub fn write(&mut self, piece: &[u8]) -> Result<usize, Failed>
        ensures fails { is_err result ≡ (fails_now self.old.calls self.old.failing || nat_le self.old.room (length self.old.written)) }
        ensures count { IfOk result (λ n. n ≡ min self.old.most (min (length piece.now) (self.old.room - length self.old.written))) }
        ensures some { 0 < length piece.now → IfOk result (λ n. 1 ≤ n) }
        ensures ok { IfOk result (λ n. self.new ≡ record (called self.old) { written = self.old.written ++ take n piece.now }) }
        ensures err { OnErr result (self.new ≡ faulted self.old) }
        ensures within { (n : ℕ) → ReadsWithin n self.old → ReadsWithin n self.new }
        ensures goes_on { DrawerGoesOn self.old self.new }
    {
        let free = self.room as usize - self.written.len();
        if self.fails_now() || free == 0 {
            return Err(self.fault());
        }
        let n = at_most(self.most, free.min(piece.len()));
        self.written.extend_from_slice(&piece[..n]).unwrap();
        self.calls = self.calls.saturating_add(1);
        Ok(n)
    }
}

// The bytes of the file at this place, where there is one.
fn bytes_of(files: &[StoredFile], place: usize) -> &[u8]
    ensures { result.now ≡ bytes_at files.now place }
{
    if place < files.len() {
        files[place].bytes()
    } else {
        &[]
    }
}

// Copies the bytes after the first `taken` into `to`, as many as fit but at most `most`, and returns how many.
fn take_from(bytes: &[u8], taken: usize, most: u64, to: &mut [u8]) -> usize
    ensures count { result ≡ min most (min (length to.new) (length bytes.now - taken)) }
    ensures fits { taken + result < 2 ^ 64 }
    ensures same { take result to.new ≡ take result (drop taken bytes.now) }
{
    if taken >= bytes.len() {
        return 0;
    }
    let left = &bytes[taken..];
    let n = at_most(most, left.len().min(to.len()));
    to[..n].copy_from_slice(&left[..n]);
    n
}

// The lesser of the two.
fn at_most(most: u64, n: usize) -> usize
    ensures { result ≡ min most n }
{
    if most < n as u64 { most as usize } else { n }
}
