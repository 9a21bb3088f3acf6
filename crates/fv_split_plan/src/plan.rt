// Plans.

ghost use Rattle.std.specs.Prelude.{◌≡◌, ◌<◌, length};
ghost use Rattle.fv_loopcode.specs.headline.State.{list_at};
ghost use Rattle.fv_split_plan.specs.headline.View.{code_of};
ghost use Rattle.fv_split_plan.specs.Plans.{IsPlan};
ghost use Rattle.fv_split_plan.specs.Parts.{plan_of};

use crate::lane::{CellsInfo, LaneInfo};
use fv_loopcode_machine::Code;
use fv_outside::Reads;
use std::marker::Model;

/// What a plan is made of.
#[derive(Drop)]
pub struct PlanParts {
    /// How many loops there are.
    pub loops: u64,
    /// By lane: its loop, and how much history it keeps.
    pub lanes: Vec<LaneInfo>,
    /// The graph's tables.
    pub tables: Vec<Vec<i32>>,
    /// By cells: the loop that writes them, and the table that they begin with.
    pub cells: Vec<CellsInfo>,
    /// By loop: its code.
    pub codes: Vec<Code>,
    /// Which loop loads lanes of which other, each pair once.
    pub reads: Vec<Reads>,
    /// By output of the program: its lane.
    pub outputs: Vec<u64>,
    /// The code that computes the held values.
    pub held: Code,
}

/// A plan: the loops of a graph and what each of them computes. It stands for some graph.
#[derive(Drop)]
pub struct Plan {
    parts: PlanParts,
}

impl Model for Plan {
    ghost use Rattle.fv_split_plan.specs.headline.View.{PlanView};
    ghost use Rattle.fv_split_plan.specs.Plans.{IsPlan};
    ghost use Rattle.fv_split_plan.specs.Parts.{plan_of};

    ghost Value = { PlanView };

    ghost view = { λ a. plan_of a.parts };

    ghost invariant = { λ a. IsPlan (plan_of a.parts) };
}

impl Plan {
    /// The plan of these parts.
    pub fn new(parts: PlanParts) -> Plan
        requires { IsPlan (plan_of parts) }
        ensures { result ≡ plan_of parts }
    {
        Plan { parts }
    }

    /// The number of its loops. The plan stands for some graph.
    pub fn loops(&self) -> u64
        ensures loops { result ≡ self.now.loops }
        ensures plan { IsPlan self.now }
    {
        self.parts.loops
    }

    /// The code of a loop.
    pub fn code(&self, loop_no: u64) -> &Code
        requires { loop_no < self.now.loops }
        ensures { result.now ≡ code_of self.now loop_no }
    {
        &self.parts.codes[loop_no as usize]
    }

    /// The pairs of different loops of which the first loads lanes of the second.
    pub fn reads(&self) -> &[Reads]
        ensures { result.now ≡ self.now.reads }
    {
        &self.parts.reads
    }

    /// Each lane's loop and history.
    pub fn lanes(&self) -> &[LaneInfo]
        ensures { result.now ≡ self.now.lanes }
    {
        &self.parts.lanes
    }

    /// The number of its tables.
    pub fn tables(&self) -> u64
        ensures { result ≡ length self.now.tables }
    {
        self.parts.tables.len() as u64
    }

    /// The numbers of a table.
    pub fn table(&self, table: u64) -> &[i32]
        requires { table < length self.now.tables }
        ensures { result.now ≡ list_at self.now.tables table }
    {
        &self.parts.tables[table as usize]
    }

    /// The loop and the table of each cells.
    pub fn cells(&self) -> &[CellsInfo]
        ensures { result.now ≡ self.now.cells }
    {
        &self.parts.cells
    }

    /// The lane of each of the program's outputs.
    pub fn outputs(&self) -> &[u64]
        ensures { result.now ≡ self.now.outputs }
    {
        &self.parts.outputs
    }

    /// The code of the held values.
    pub fn held(&self) -> &Code
        ensures { result.now ≡ self.now.held }
    {
        &self.parts.held
    }
}
