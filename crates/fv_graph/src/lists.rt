// The edges into each task, or out of it, as lists.

ghost use Rattle.std.specs.Prelude.{◌≡◌, ℕ, ◌+◌, ◌*◌, ◌^◌, ◌<◌, ◌≤◌, length, List, [], ◌∷◌, ◌++◌, map, take, IfOk, OnOk, All, slice_index, vec_len};
ghost use Rattle.std.specs.List.{slice_range};
ghost use Rattle.std.specs.Bool.{OnTrue};
ghost use Rattle.fv_graph.specs.inner.Lists.{AreFirst, AreLists, begin_of, end_of, edges_at, first_list, group_of};

use std::alloc::{AllocError, Global};

// The number that counts of edges stay below.
const MOST_EDGES: u64 = 0x4000_0000_0000_0000;

// Whether the edges of this many loops, pairs and vectors are few enough to be numbered.
pub(crate) fn can_number(loops: u64, pairs: u64, vectors: u32) -> bool
    ensures { OnTrue result (vectors * (loops + pairs) + loops < 2 ^ 62) }
{
    let Some(stride) = loops.checked_add(pairs) else {
        return false;
    };
    let Some(inner) = u64::from(vectors).checked_mul(stride) else {
        return false;
    };
    match inner.checked_add(loops) {
        Some(edges) => edges < MOST_EDGES,
        None => false,
    }
}

/// The edges of all tasks on one side, one list after another. Each vector has as many, so one place for each loop is enough.
#[derive(Drop)]
pub struct EdgeLists {
    // How many edges the lists of a vector have together.
    pub(crate) wide: u64,
    // By loop: where the list of its task begins in those of a vector. The last one is where they end.
    pub(crate) begins: Vec<u64>,
    // The lists of the first vector's tasks, then those of the second, and so on.
    pub(crate) edges: Vec<u64>,
}

// Appends one edge, and then those of these pairs.
fn append_list(edges: &mut Vec<u64>, chain: u64, base: u64, pairs: &[u64]) -> Result<(), AllocError>
    requires { (i : ℕ) → i < length pairs.now → base + slice_index pairs.now i < 2 ^ 64 }
    ensures { OnOk result (edges.new.items ≡ edges.old.items ++ chain ∷ map (λ k. base + k) pairs.now) }
{
    edges.push(chain)?;
    for pair in pairs {
        edges.push(base + *pair)?;
    }
    Ok(())
}

// The lists of the first vector. Each loop has an edge of its own, `ahead` after the edge into its task, and then those of its pairs.
fn first_lists(
    alloc: Global,
    loops: u64,
    stride: u64,
    ahead: u64,
    groups: &[Vec<u64>],
) -> Result<EdgeLists, AllocError>
    requires step { ahead ≤ stride }
    requires groups { length groups.now ≡ loops }
    requires small { loops + stride < 2 ^ 63 }
    requires pairs { (j i : ℕ) → j < loops → i < length (group_of groups.now j) → loops + slice_index (group_of groups.now j) i < stride }
    ensures lists { IfOk result (λ v. AreFirst (first_list loops ahead groups.now) loops v.begins.items v.edges.items) }
    ensures wide { IfOk result (λ v. v.wide ≡ vec_len v.edges) }
    ensures small { IfOk result (λ v. All (λ e. e < loops + stride) v.edges.items) }
{
    let mut begins = Vec::new(alloc);
    let mut edges = Vec::new(alloc);
    begins.push(0)?;
    for own in 0..loops {
        append_list(&mut edges, own + ahead, loops, &groups[own as usize])?;
        begins.push(edges.len() as u64)?;
    }
    let wide = edges.len() as u64;
    Ok(EdgeLists {
        wide,
        begins,
        edges,
    })
}

// Appends the first `wide` edges once more, each `from` further.
fn append_again(edges: &mut Vec<u64>, wide: u64, from: u64) -> Result<(), AllocError>
    requires there { wide ≤ vec_len edges.old }
    requires small { All (λ e. from + e < 2 ^ 64) (take wide edges.old.items) }
    ensures { OnOk result (edges.new.items ≡ edges.old.items ++ map (λ e. from + e) (take wide edges.old.items)) }
{
    for i in 0..wide {
        edges.push(from + edges[i as usize])?;
    }
    Ok(())
}

// By task, for `vectors` vectors: the edge of its own loop, which is `ahead` after the edge into it, and then those of the pairs of
// its loop. `stride` is the number of edges of a vector.
pub(crate) fn lists_of(
    alloc: Global,
    loops: u64,
    stride: u64,
    vectors: u64,
    ahead: u64,
    groups: &[Vec<u64>],
) -> Result<EdgeLists, AllocError>
    requires some_vector { 0 < vectors }
    requires step { ahead ≤ stride }
    requires groups { length groups.now ≡ loops }
    requires small { vectors * stride + loops < 2 ^ 62 }
    requires pairs { (j i : ℕ) → j < loops → i < length (group_of groups.now j) → loops + slice_index (group_of groups.now j) i < stride }
    ensures { IfOk result (λ v. AreLists (edges_at loops stride ahead groups.now) vectors loops v.wide v.begins.items v.edges.items) }
{
    let mut lists = first_lists(alloc, loops, stride, ahead, groups)?;
    let wide = lists.wide;
    let more = (wide as usize).saturating_mul(vectors as usize - 1);
    lists.edges.reserve_exact(more)?;
    for vector in 1..vectors {
        append_again(&mut lists.edges, wide, vector * stride)?;
    }
    Ok(lists)
}

// The list of a loop's task at a vector.
pub(crate) fn list_at(lists: &EdgeLists, vector: u64, own: u64) -> &[u64]
    requires there { own + 1 < vec_len lists.now.begins }
    requires rises { begin_of lists.now.wide lists.now.begins.items vector own ≤ end_of lists.now.wide lists.now.begins.items vector own }
    requires within { end_of lists.now.wide lists.now.begins.items vector own ≤ vec_len lists.now.edges }
    ensures { result.now ≡ slice_range lists.now.edges.items (begin_of lists.now.wide lists.now.begins.items vector own)
        (end_of lists.now.wide lists.now.begins.items vector own) }
{
    let first = vector * lists.wide;
    let from = first + lists.begins[own as usize];
    let to = first + lists.begins[own as usize + 1];
    &lists.edges[from as usize..to as usize]
}
