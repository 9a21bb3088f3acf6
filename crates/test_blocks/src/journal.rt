// Whether lines are the ordered journal of a block, looked through sentence by sentence.

use fv_graph::Tasks;
use fv_outside::{Line, Task};
use std::alloc::{AllocError, Global};

// Which loop reads which other, as a table by reader and source.
#[derive(Drop)]
struct Table<'t> {
    loops: u64,
    cells: &'t [bool],
}

// The place of a pair in a table.
fn place(loops: u64, reader: u64, source: u64) -> usize {
    reader.wrapping_mul(loops).wrapping_add(source) as usize
}

// The cells of the table of these tasks.
fn cells_of(alloc: Global, tasks: &Tasks) -> Result<Vec<bool>, AllocError> {
    let loops = tasks.loops();
    let mut cells = vec![in alloc; false; loops.wrapping_mul(loops) as usize]?;
    for pair in tasks.reads() {
        if let Some(cell) = cells.get_mut(place(loops, pair.reader, pair.source)) {
            *cell = true;
        }
    }
    Ok(cells)
}

// Whether a task reads another one: the one before it of its own loop, or that of a loop that its loop reads, at the same vector.
fn does_read(table: &Table, reader: Task, source: Task) -> bool {
    if source.loop_no == reader.loop_no {
        return reader.vector > 0 && source.vector == reader.vector - 1;
    }
    let pair = place(table.loops, reader.loop_no, source.loop_no);
    source.vector == reader.vector && table.cells.get(pair).copied().unwrap_or(false)
}

// Whether there is one line for each task.
fn has_each_task(tasks: &Tasks, lines: &[Line]) -> bool {
    for t in 0..tasks.len() {
        let task = tasks.task(t);
        if lines.iter().filter(|line| line.task == task).count() != 1 {
            return false;
        }
    }
    true
}

// Whether the line is of a task that there is, and starts before it finishes.
fn is_valid(tasks: &Tasks, line: &Line) -> bool {
    line.task.loop_no < tasks.loops()
        && line.task.vector < tasks.vectors()
        && line.start < line.finish
}

// Whether no stamp of a line stands in another one.
fn is_apart(a: &Line, b: &Line) -> bool {
    a.start != b.start && a.start != b.finish && a.finish != b.start && a.finish != b.finish
}

// Whether of two lines, one before the other, the starts rise and no stamp stands twice. Neither task began before one that it
// reads had finished.
fn are_in_order(table: &Table, first: &Line, other: &Line) -> bool {
    first.start < other.start
        && is_apart(first, other)
        && (!does_read(table, other.task, first.task) || first.finish < other.start)
        && (!does_read(table, first.task, other.task) || other.finish < first.start)
}

// Whether the line is valid, and in order with each of those after it.
fn leads(tasks: &Tasks, table: &Table, line: &Line, behind: &[Line]) -> bool {
    is_valid(tasks, line) && behind.iter().all(|other| are_in_order(table, line, other))
}

/// Whether the lines are the ordered journal of the tasks: one line for each task and no other, in the order of their starts. No
/// stamp stands twice, each start is before its finish, and each task comes after all that it reads.
pub fn is_ordered(alloc: Global, tasks: &Tasks, lines: &[Line]) -> Result<bool, AllocError> {
    let cells = cells_of(alloc, tasks)?;
    let table = Table {
        loops: tasks.loops(),
        cells: &cells,
    };
    for i in 0..lines.len() {
        if !leads(tasks, &table, &lines[i], &lines[i + 1..]) {
            return Ok(false);
        }
    }
    Ok(has_each_task(tasks, lines))
}
