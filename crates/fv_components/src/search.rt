// A path-based search for strongly connected components (Purdom and Munro 1970, Gabow 2000), in time linear in nodes and links.

ghost use Rattle.std.specs.Prelude.{◌≡◌, ◌≢◌, ℕ, ◌<◌, ◌≤◌, ◌-◌, List, [], length, replicate, All, IfOk, OnOk, IsTrue, ◌↔◌};
ghost use Rattle.fv_components.specs.Reach.{next_of, AreLinks, AreComponents};
ghost use Rattle.fv_components.specs.declared.search.Mark.TheVariants.{New};
ghost use Rattle.fv_components.specs.inner.Search.{IsHeld, IsRunning, GoesOn, StaysMet, mark, class, work, none, only, visited};
ghost use Rattle.fv_components.specs.inner.Search.{IsWalked, IsNumbered, AreNumbers, IsCountUpTo, collapsed, finished, closed, state_of};

use crate::packed::Rows;
use std::alloc::{AllocError, Global};

// What is known of a node.
#[derive(Clone, Copy)]
enum Mark {
    New,
    // It stands at this index of the path.
    Open(u64),
    // It is of the component with this number.
    Done(u64),
}

// Neighbours on the path that reach one another: the index of the first one, and how many nodes waited before it.
#[derive(Clone, Copy)]
struct Class {
    first: u64,
    waiting: u64,
}

// A search along one path.
#[derive(Drop)]
struct Search {
    // By node: what is known of it.
    marks: Vec<Mark>,
    // The nodes of the path. From each one there is a way to the next.
    path: Vec<u64>,
    // The classes of the path, in its order. Each begins where the one before it ends.
    classes: Vec<Class>,
    // The nodes that still have to be looked at, since a node of the path leads to them. The next one is last.
    pending: Vec<u64>,
    // How many components are done. It is the number of the next one.
    count: u64,
}

impl Search {
    // Nothing is met yet.
    fn new(alloc: Global, nodes: usize) -> Result<Search, AllocError>
        ensures marks { IfOk result (λ s. s.marks.items ≡ replicate nodes New) }
        ensures rest { IfOk result (λ s. (s.path.items ≡ []) × (s.classes.items ≡ []) × (s.pending.items ≡ []) × (s.count ≡ 0)) }
    {
        Ok(Search {
            marks: vec![in alloc; Mark::New; nodes]?,
            path: Vec::new(alloc),
            classes: Vec::new(alloc),
            pending: Vec::new(alloc),
            count: 0,
        })
    }

    // Puts a node at the end of the path, as a class of its own.
    fn visit(&mut self, links: &Rows, node: u64) -> Result<(), AllocError>
        requires inside { node < length self.old.marks.items }
        requires links { node < length links.now }
        ensures { OnOk result (state_of self.new ≡ visited (next_of links.now) (state_of self.old) node) }
    {
        let place = self.path.len() as u64;
        let waiting = self.pending.len() as u64;
        self.classes.push(Class {
            first: place,
            waiting,
        })?;
        self.marks[node as usize] = Mark::Open(place);
        self.path.push(node)?;
        self.pending.extend_from_slice(links.row(node))?;
        Ok(())
    }

    // Makes one class of those that begin after an index with the one before them.
    fn collapse(&mut self, place: u64)
        ensures { (m : ℕ) × IsCountUpTo self.old.classes.items place m × (state_of self.new ≡ collapsed (state_of self.old) m) }
    {
        let kept = classes_up_to(&self.classes, place);
        self.classes.truncate(kept);
    }

    // Ends the last class: its nodes are a component.
    fn close(&mut self)
        requires some { 0 < length self.old.classes.items }
        requires first { (class (state_of self.old) (length self.old.classes.items - 1)).first ≤ length self.old.path.items }
        requires inside { All (λ s. s < length self.old.marks.items) self.old.path.items }
        requires few { self.old.count < length self.old.marks.items }
        ensures { state_of self.new ≡ closed (state_of self.old) }
    {
        let class = self.classes[self.classes.len() - 1];
        self.classes.truncate(self.classes.len() - 1);
        let first = class.first as usize;
        finish(&mut self.marks, &self.path[first..], self.count);
        self.path.truncate(first);
        self.count += 1;
    }

    // Looks at a node that each class of the path reaches.
    fn look(&mut self, links: &Rows, node: u64) -> Result<(), AllocError>
        requires links { AreLinks (next_of links.now) (length links.now) }
        requires held { IsHeld (next_of links.now) (length links.now) (state_of self.old) node }
        requires running { IsRunning (next_of links.now) (length links.now) (only node) (state_of self.old) }
        ensures { OnOk result
            (GoesOn (next_of links.now) (length links.now) (state_of self.old) (work (next_of links.now) (state_of self.old)) (state_of self.new)) }
    {
        match self.marks[node as usize] {
            Mark::New => self.visit(links, node),
            Mark::Open(place) => {
                self.collapse(place);
                Ok(())
            }
            Mark::Done(_) => Ok(()),
        }
    }

    // Follows one link, or ends a class.
    fn turn(&mut self, links: &Rows) -> Result<(), AllocError>
        requires links { AreLinks (next_of links.now) (length links.now) }
        requires running { IsRunning (next_of links.now) (length links.now) none (state_of self.old) }
        requires some { 0 < length self.old.classes.items }
        ensures goes { OnOk result
            (GoesOn (next_of links.now) (length links.now) (state_of self.old) (work (next_of links.now) (state_of self.old) - 1) (state_of self.new)) }
        ensures work { OnOk result (work (next_of links.now) (state_of self.new) < work (next_of links.now) (state_of self.old)) }
    {
        let last = self.classes[self.classes.len() - 1];
        if self.pending.len() as u64 <= last.waiting {
            self.close();
            return Ok(());
        }
        match self.pending.pop() {
            Some(node) => self.look(links, node),
            None => Ok(()),
        }
    }

    fn is_new(&self, node: u64) -> bool
        requires { node < length self.now.marks.items }
        ensures { IsTrue result ↔ (mark (state_of self.now) node ≡ New) }
    {
        matches!(self.marks[node as usize], Mark::New)
    }

    // Goes through all that is reached from a node that is new.
    fn walk(&mut self, links: &Rows, root: u64) -> Result<(), AllocError>
        requires links { AreLinks (next_of links.now) (length links.now) }
        requires running { IsRunning (next_of links.now) (length links.now) none (state_of self.old) }
        requires empty { length self.old.classes.items ≡ 0 }
        requires root { root < length links.now }
        requires new { mark (state_of self.old) root ≡ New }
        ensures { OnOk result (IsWalked (next_of links.now) (length links.now) (state_of self.old) root (state_of self.new)) }
    {
        self.visit(links, root)?;
        while !self.classes.is_empty() {
            self.turn(links)?;
        }
        Ok(())
    }

    // The numbers of the nodes.
    fn numbers(&self, alloc: Global) -> Result<Vec<u64>, AllocError>
        requires { (s : ℕ) → s < length self.now.marks.items → IsNumbered (state_of self.now) s }
        ensures { IfOk result (λ v. AreNumbers (state_of self.now) v.items) }
    {
        let mut numbers = Vec::with_capacity(alloc, self.marks.len())?;
        for mark in &self.marks {
            match mark {
                Mark::Done(number) => numbers.push(*number)?,
                Mark::New => unreachable!(),
                Mark::Open(_) => unreachable!(),
            }
        }
        Ok(numbers)
    }
}

/// Numbers nodes so that two have one number exactly where each reaches the other, and none leads to a greater one.
/// A row of `links` for each node lists the nodes that it leads to. The time is linear in nodes and links, and no call nests.
pub fn components(alloc: Global, links: &Rows) -> Result<Vec<u64>, AllocError>
    requires { AreLinks (next_of links.now) (length links.now) }
    ensures { IfOk result (λ numbers. AreComponents (next_of links.now) (length links.now) numbers.items) }
{
    let mut search = Search::new(alloc, links.len() as usize)?;
    for root in 0..links.len() {
        if search.is_new(root) {
            search.walk(links, root)?;
        }
    }
    search.numbers(alloc)
}

// How many classes begin no later than an index.
fn classes_up_to(classes: &[Class], place: u64) -> usize
    ensures { IsCountUpTo classes.now place result }
{
    let mut m = classes.len();
    while m > 0 && classes[m - 1].first > place {
        m -= 1;
    }
    m
}

// Marks the nodes as done.
fn finish(marks: &mut [Mark], nodes: &[u64], count: u64)
    requires { All (λ s. s < length marks.old) nodes.now }
    ensures { marks.new ≡ finished marks.old nodes.now count }
{
    for node in nodes {
        marks[*node as usize] = Mark::Done(count);
    }
}

/// Whether each node leads to nodes that are there.
pub fn are_links(links: &Rows) -> bool
    ensures { IsTrue result ↔ AreLinks (next_of links.now) (length links.now) }
{
    let nodes = links.len();
    for node in 0..nodes {
        if !leads_below(links.row(node), nodes) {
            return false;
        }
    }
    true
}

// Whether each node of a row is there.
fn leads_below(row: &[u64], nodes: u64) -> bool
    ensures { IsTrue result ↔ All (λ b. b < nodes) row.now }
{
    row.iter().all(|node| *node < nodes)
}
