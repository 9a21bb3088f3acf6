// The tables and cells of one loop.

ghost use Rattle.std.specs.Prelude.{◌≡◌, length, slice_set};
ghost use Rattle.fv_loopcode.specs.Tables.{read_at, written};
ghost use Rattle.fv_loopcode.specs.headline.State.{list_at};
ghost use Rattle.fv_loopcode.specs.Code.{HasItems};
ghost use Rattle.fv_split_plan.specs.Rows.{lists_of};

use fv_lines::{exchange, item};
use fv_split_plan::Plan;

/// By cells: its place among the lists of its loop. By loop: how many lists it has.
#[derive(Drop)]
pub struct CellPlaces {
    pub places: Vec<u64>,
    pub counts: Vec<u64>,
}

/// The tables that the code of one loop may read, which are the plan's, and the lists of the cells that it writes.
#[derive(Drop)]
pub struct LoopCells<'b> {
    pub plan: &'b Plan,
    pub places: &'b CellPlaces,
    pub loop_no: u64,
    pub lists: Vec<Vec<i32>>,
}

// Puts `x` at the index `w` of one of these lists, and returns the item that is then at the index `r`.
fn exchange_in(lists: &mut [Vec<i32>], at: u64, w: i32, x: i32, r: i32) -> i32
    requires { HasItems (lists_of lists.old) at }
    ensures item { result ≡ read_at (list_at (lists_of lists.new) at) r }
    ensures lists { lists_of lists.new ≡ slice_set (lists_of lists.old) at (written (list_at (lists_of lists.old) at) w x) }
{
    exchange(&mut lists[at as usize], w, x, r)
}

impl<'b> LoopCells<'b> {
    ghost use Rattle.fv_engine_codes.specs.Cells.{AreCellsPlaced, cells_of};

    /// The item of a table at an index, clamped to the table.
    pub fn read(&self, table: u64, index: i32) -> i32
        requires { HasItems self.now.plan.now.tables table }
        ensures { result ≡ read_at (list_at self.now.plan.now.tables table) index }
    {
        item(self.plan.table(table), index)
    }

    /// Puts `x` at the index `w` of cells, and returns the item that is then at the index `r`.
    pub fn exchange(&mut self, cells: u64, w: i32, x: i32, r: i32) -> i32
        requires placed { AreCellsPlaced self.old }
        requires there { HasItems (cells_of self.old) cells }
        ensures item { result ≡ read_at (list_at (cells_of self.new) cells) r }
        ensures cells { cells_of self.new ≡ slice_set (cells_of self.old) cells (written (list_at (cells_of self.old) cells) w x) }
        ensures plan { self.new.plan ≡ self.old.plan }
        ensures places { self.new.places ≡ self.old.places }
        ensures loop_no { self.new.loop_no ≡ self.old.loop_no }
        ensures count { length self.new.lists.items ≡ length self.old.lists.items }
    {
        exchange_in(&mut self.lists, self.places.places[cells as usize], w, x, r)
    }
}
