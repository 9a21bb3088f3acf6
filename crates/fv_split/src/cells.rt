// The tables of a plan, and the cells of those that are written.

ghost use Rattle.std.specs.Prelude.{◌≡◌, ◌<◌, length, IfOk, OnOk};
ghost use Rattle.fv_split_plan.specs.Rows.{lists_of};
ghost use Rattle.fv_split.specs.inner.Cells.{table_written as table_in, AddsCells, AreCells};

use fv_signal::{Graph, Signal, SignalId};
use fv_split_plan::CellsInfo;
use std::alloc::{AllocError, Global};

/// The cells of each signal, if it has some, and the loop and the table of each cells.
#[derive(Drop)]
pub struct Cells {
    pub numbers: Vec<Option<u64>>,
    pub infos: Vec<CellsInfo>,
}

// The table that a node writes, if it writes one.
fn table_written(node: Signal) -> Option<u64>
    ensures { result ≡ table_in node }
{
    match node {
        Signal::Write {
            table,
            w: _,
            x: _,
            r: _,
        } => Some(table),
        Signal::Input(_) => None,
        Signal::Const(_) => None,
        Signal::Control(_) => None,
        Signal::Point { op: _, args: _ } => None,
        Signal::Delay { x: _, d: _, max: _ } => None,
        Signal::Back { group: _, i: _ } => None,
        Signal::Member { group: _, i: _ } => None,
        Signal::Read { table: _, r: _ } => None,
    }
}

impl Cells {
    // Adds one signal more, with cells of a loop where it writes a table.
    fn add(&mut self, table: Option<u64>, owner: u64) -> Result<(), AllocError>
        ensures { OnOk result (AddsCells self.old table owner self.new) }
    {
        match table {
            Some(table) => {
                self.numbers.push(Some(self.infos.len() as u64))?;
                self.infos.push(CellsInfo { owner, table })?;
            }
            None => self.numbers.push(None)?,
        }
        Ok(())
    }
}

/// The cells of the tables that are written, each of the loop where its signal is at home.
pub(crate) fn cells_of(alloc: Global, graph: &Graph, homes: &[u64]) -> Result<Cells, AllocError>
    requires { length homes.now ≡ length graph.now.signals }
    ensures { IfOk result (λ cells. AreCells graph.now homes.now (length graph.now.signals) cells) }
{
    let mut cells = Cells {
        numbers: Vec::with_capacity(alloc, homes.len())?,
        infos: Vec::new(alloc),
    };
    for s in 0..graph.len() {
        let node = graph.signal(SignalId::new(s));
        cells.add(table_written(node), homes[s as usize])?;
    }
    Ok(cells)
}

/// The tables of a graph, copied.
pub(crate) fn copied_tables(alloc: Global, graph: &Graph) -> Result<Vec<Vec<i32>>, AllocError>
    ensures { IfOk result (λ tables. lists_of tables.items ≡ graph.now.tables) }
{
    let mut tables = Vec::with_capacity(alloc, graph.tables() as usize)?;
    for table in 0..graph.tables() {
        tables.push(Vec::from_slice(alloc, graph.table(table))?)?;
    }
    Ok(tables)
}
