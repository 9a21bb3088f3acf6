// The builder.

ghost use Rattle.std.specs.Prelude.{◌≡◌, ◌↔◌, ℕ, ◌+◌, ◌<◌, [], ◌∷◌, ◌++◌, length, All, IfOk, OnOk, OnErr};
ghost use Rattle.std.specs.Prelude.{slice_index_or, slice_set, true, false, vec_len, ◌^◌, take, FitsSigned};
ghost use Rattle.std.specs.Int.{w32};
ghost use Rattle.std.specs.List.{position_or_len};
ghost use Rattle.fv_signal.specs.declared.signal.Signal.{Signal as Node};
ghost use Rattle.fv_signal.specs.headline.Value.{HasNumber, IsGraph};
ghost use Rattle.fv_share.specs.Drafts.{table_in, with_table, with_tables, same_list, put_table, CanPut, OperandsThere, IsPending, IsShut, BacksWithin};
ghost use Rattle.fv_share.specs.Drafts.{AreClosed, AreDistinct, put, with_group, with_groups, with_members, graph_of, lists_in, CanClose, with_all_members};

use fv_signal::{Graph, Signal, SignalId};
use indexmap::IndexSet;
use std::alloc::{AllocError, Global};
use std::marker::Model;

/// A graph that is being built.
#[derive(Drop)]
pub struct Builder {
    // The signals, each once, in the order in which they were put. The index is the signal's number.
    signals: IndexSet<Signal>,
    // By group: the definitions of its members, none while it is open.
    groups: Vec<Vec<SignalId>>,
    // By group: whether its members were given.
    closed: Vec<bool>,
    // The tables, each once, in the order in which they were put.
    tables: Vec<Vec<i32>>,
    // Where groups and tables take their memory.
    alloc: Global,
}

impl Model for Builder {
    ghost use Rattle.fv_share.specs.Drafts.{Draft, IsDraft};
    ghost use Rattle.fv_share.specs.Inside.{draft_of};

    ghost Value = { Draft };

    ghost view = { draft_of };

    ghost invariant = { λ a. IsDraft (draft_of a) };
}

// A number has 32 bits. That is known where the signal is looked into, and a draft says it of all.
fn number_fits(signal: &Signal)
    ensures { HasNumber signal.now }
{
    match *signal {
        Signal::Const(number) => {
            let _number = number;
        }
        Signal::Input(_)
        | Signal::Control(_)
        | Signal::Point { .. }
        | Signal::Delay { .. }
        | Signal::Back { .. }
        | Signal::Member { .. }
        | Signal::Read { .. }
        | Signal::Write { .. } => (),
    }
}

// A number of a list, which has 32 bits.
fn number(number: &i32) -> i32
    ensures same { result ≡ number.now }
    ensures fits { FitsSigned w32 number.now }
{
    let value = *number;
    value
}

// A list of the numbers `values`.
fn copied(alloc: Global, values: &[i32]) -> Result<Vec<i32>, AllocError>
    ensures same { IfOk result (λ v. v.items ≡ values.now) }
    ensures numbers { OnOk result (All (λ n. FitsSigned w32 n) values.now) }
{
    let mut numbers = Vec::new(alloc);
    for i in 0..values.len() {
        numbers.push(number(&values[i]))?;
    }
    Ok(numbers)
}

// The index of the first table that is this list, or the number of tables.
fn place_of(tables: &[Vec<i32>], values: &[i32]) -> usize
    ensures { result ≡ position_or_len (same_list values.now) (lists_in tables.now) }
{
    for (i, table) in tables.iter().enumerate() {
        if values == table.as_slice() {
            return i;
        }
    }
    tables.len()
}

impl Builder {
    /// No signals, no groups and no tables.
    pub fn new(alloc: Global) -> Builder
        ensures { result ≡ record { signals = []; groups = []; closed = []; tables = [] } }
    {
        Builder {
            signals: IndexSet::new(alloc),
            groups: Vec::new(alloc),
            closed: Vec::new(alloc),
            tables: Vec::new(alloc),
            alloc,
        }
    }

    /// Puts a signal where it is not there, and returns its number.
    pub fn node(&mut self, signal: Signal) -> Result<SignalId, AllocError>
        requires { CanPut self.old signal }
        ensures put { IfOk result (λ id. (id, self.new) ≡ put self.old signal) }
        // Equal signals get equal numbers, and different ones different numbers.
        ensures shared { IfOk result (λ id. (i : ℕ) (d : Node) → i < length self.new.signals → (slice_index_or self.new.signals i d ≡ signal) ↔ (i ≡ id)) }
        ensures err { OnErr result (self.new ≡ self.old) }
    {
        number_fits(&signal);
        let (place, _) = self.signals.insert_full(signal)?;
        Ok(SignalId::new(place as u64))
    }

    /// A signal that was put.
    pub fn signal(&self, id: SignalId) -> Signal
        requires { id < length self.now.signals }
        ensures node { result ≡ slice_index_or self.now.signals id result }
        // Its operands are earlier ones.
        ensures operands { OperandsThere id result }
    {
        match self.signals.get_index(id.number() as usize) {
            Some(signal) => *signal,
            None => unreachable!(),
        }
    }

    /// Keeps a table with these numbers where it is not there, and returns its number.
    pub fn table(&mut self, values: &[i32]) -> Result<u64, AllocError>
        ensures put { IfOk result (λ t. (t, self.new) ≡ put_table self.old values.now) }
        ensures there { IfOk result (λ t. table_in self.new t ≡ values.now) }
        ensures err { OnErr result (self.new ≡ self.old) }
    {
        let place = place_of(&self.tables, values);
        if place < self.tables.len() {
            return Ok(place as u64);
        }
        let place = self.tables.len() as u64;
        self.keep(values)?;
        Ok(place)
    }

    /// Keeps all tables of a graph, one after another. Returns the first one's number.
    pub fn add_tables(&mut self, graph: &Graph) -> Result<u64, AllocError>
        ensures first { IfOk result (λ first. first ≡ length self.old.tables) }
        ensures ok { OnOk result (self.new ≡ with_tables self.old graph.now.tables) }
        // Where one finds no room, those before it are there.
        ensures err { OnErr result ((n : ℕ) × (n < length graph.now.tables) × (self.new ≡ with_tables self.old (take n graph.now.tables))) }
    {
        let first = self.tables.len() as u64;
        for table in 0..graph.tables() {
            self.keep(graph.table(table))?;
        }
        Ok(first)
    }

    /// The number of its tables.
    pub fn tables(&self) -> u64
        ensures { result ≡ length self.now.tables }
    {
        self.tables.len() as u64
    }

    // Keeps one table more.
    fn keep(&mut self, values: &[i32]) -> Result<(), AllocError>
        ensures ok { OnOk result (self.new ≡ with_table self.old values.now) }
        ensures err { OnErr result (self.new ≡ self.old) }
    {
        let numbers = copied(self.alloc, values)?;
        self.tables.push(numbers)?;
        Ok(())
    }

    /// Opens a new group, and returns its number.
    pub fn group(&mut self) -> Result<u64, AllocError>
        ensures ok { IfOk result (λ g. (g, self.new) ≡ with_group self.old) }
        // It waits for its members, and no Back names it.
        ensures pending { IfOk result (λ g. IsPending self.new g) }
        ensures fresh { IfOk result (λ g. BacksWithin self.new g 0) }
        ensures err { OnErr result (self.new ≡ self.old) }
    {
        let group = self.groups.len() as u64;
        self.closed.push(false)?;
        if self.groups.push(Vec::new(self.alloc)).is_err() {
            let _ = self.closed.pop();
            return Err(AllocError);
        }
        Ok(group)
    }

    /// Opens `count` new groups, numbered one after another. Returns the first one's number.
    pub fn open_groups(&mut self, count: u64) -> Result<u64, AllocError>
        ensures first { IfOk result (λ first. first ≡ length self.old.groups) }
        ensures ok { OnOk result (self.new ≡ with_groups self.old count) }
        // Where one finds no room, those before it are there.
        ensures err { OnErr result ((n : ℕ) × (n < count) × (self.new ≡ with_groups self.old n)) }
    {
        let first = self.groups.len() as u64;
        for _ in 0..count {
            let _ = self.group()?;
        }
        Ok(first)
    }

    /// Gives a group the definitions of its members.
    pub fn close_group(&mut self, group: u64, members: &[SignalId]) -> Result<(), AllocError>
        requires pending { IsPending self.old group }
        requires members { All (λ s. s < length self.old.signals) members.now }
        requires backs { BacksWithin self.old group (length members.now) }
        ensures ok { OnOk result (self.new ≡ with_members self.old group members.now) }
        ensures shut { OnOk result (IsShut self.new group) }
        ensures err { OnErr result (self.new ≡ self.old) }
    {
        let list = members.iter().copied().collect(self.alloc)?;
        self.shut(group, list);
        Ok(())
    }

    /// Gives groups, from this one on, the definitions of their members, a list each.
    pub fn close_groups(&mut self, first: u64, lists: Vec<Vec<SignalId>>)
        requires { CanClose self.old first (lists_in lists.items) }
        ensures all { self.new ≡ with_all_members self.old first (lists_in lists.items) }
        ensures shut { (g : ℕ) → g < vec_len lists → IsShut self.new (first + g) }
    {
        // This reads what holds of all drafts, for the proof that each group is shut.
        let _draft = &self.closed;
        let mut group = first;
        for list in lists {
            self.shut(group, list);
            group += 1;
        }
    }

    // Gives a group the definitions of its members.
    fn shut(&mut self, group: u64, members: Vec<SignalId>)
        requires pending { IsPending self.old group }
        requires members { All (λ s. s < length self.old.signals) members.items }
        requires backs { BacksWithin self.old group (length members.items) }
        ensures all { self.new ≡ with_members self.old group members.items }
        ensures shut { IsShut self.new group }
        ensures fits { group + 1 < 2 ^ 64 }
    {
        self.groups[group as usize] = members;
        self.closed[group as usize] = true;
    }

    /// The graph of the signals, groups and tables, with these outputs.
    pub fn finish(self, outputs: &[SignalId]) -> Result<Graph, AllocError>
        requires closed { AreClosed self }
        requires outputs { All (λ s. s < length self.signals) outputs.now }
        ensures graph { IfOk result (λ g. g ≡ graph_of self outputs.now) }
        ensures whole { OnOk result (IsGraph (graph_of self outputs.now)) }
        // No signal stands at two indices.
        ensures shared { OnOk result (AreDistinct self.signals) }
    {
        let signals = self.signals.iter().copied().collect(self.alloc)?;
        let outs = outputs.iter().copied().collect(self.alloc)?;
        Ok(Graph::new(signals, self.groups, self.tables, outs))
    }
}
