// Graphs.

ghost use Rattle.std.specs.Prelude.{◌≡◌, ◌↔◌, ◌<◌, [], length, slice_index_or, IsTrue};
ghost use Rattle.fv_signal.specs.headline.Value.{IsGraph, OperandsBelow, NamesWithin, members, table_of};
ghost use Rattle.fv_signal.specs.Rows.{graph_with};

use crate::signal::{Signal, SignalId};
use std::marker::Model;

/// Signals, the definitions of the members of each group, tables, and the program's outputs.
#[derive(Drop)]
pub struct Graph {
    signals: Vec<Signal>,
    groups: Vec<Vec<SignalId>>,
    tables: Vec<Vec<i32>>,
    outputs: Vec<SignalId>,
}

impl Model for Graph {
    ghost use Rattle.fv_signal.specs.headline.Value.{Graph as SignalGraph, IsGraph};
    ghost use Rattle.fv_signal.specs.Rows.{graph_with};

    ghost Value = { SignalGraph };

    ghost view = { λ a. graph_with a.signals.items a.groups.items a.tables.items a.outputs.items };

    ghost invariant = { λ a. IsGraph (graph_with a.signals.items a.groups.items a.tables.items a.outputs.items) };
}

impl Graph {
    /// The graph of these signals, definitions, tables and outputs.
    pub fn new(
        signals: Vec<Signal>,
        groups: Vec<Vec<SignalId>>,
        tables: Vec<Vec<i32>>,
        outputs: Vec<SignalId>,
    ) -> Graph
        requires { IsGraph (graph_with signals.items groups.items tables.items outputs.items) }
        ensures { result ≡ graph_with signals.items groups.items tables.items outputs.items }
    {
        Graph {
            signals,
            groups,
            tables,
            outputs,
        }
    }

    /// The number of its signals.
    pub fn len(&self) -> u64
        ensures { result ≡ length self.now.signals }
    {
        self.signals.len() as u64
    }

    /// Whether it has no signals.
    pub fn is_empty(&self) -> bool
        ensures { IsTrue result ↔ (length self.now.signals ≡ 0) }
    {
        self.signals.is_empty()
    }

    /// The number of its groups.
    pub fn groups(&self) -> u64
        ensures { result ≡ length self.now.groups }
    {
        self.groups.len() as u64
    }

    /// The number of its tables.
    pub fn tables(&self) -> u64
        ensures { result ≡ length self.now.tables }
    {
        self.tables.len() as u64
    }

    /// The numbers of a table.
    pub fn table(&self, table: u64) -> &[i32]
        requires { table < length self.now.tables }
        ensures { result.now ≡ table_of self.now table }
    {
        &self.tables[table as usize]
    }

    /// A signal. Its operands are earlier ones, and what it names is there.
    pub fn signal(&self, id: SignalId) -> Signal
        requires { id < length self.now.signals }
        ensures node { result ≡ slice_index_or self.now.signals id result }
        ensures operands { OperandsBelow self.now id result }
        ensures names { NamesWithin self.now result }
    {
        self.signals[id.number() as usize]
    }

    /// The program's outputs, in order.
    pub fn outputs(&self) -> &[SignalId]
        ensures list { result.now ≡ self.now.outputs }
        ensures graph { IsGraph self.now }
    {
        &self.outputs
    }

    /// The definitions of a group's members.
    pub fn group(&self, group: u64) -> &[SignalId]
        requires { group < length self.now.groups }
        ensures { result.now ≡ members self.now group }
    {
        &self.groups[group as usize]
    }
}
