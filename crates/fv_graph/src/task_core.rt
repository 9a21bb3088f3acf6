// The core.

ghost use Rattle.std.specs.Prelude.{◌≡◌, ℕ, ◌<◌, ◌≤◌, ◌==◌, not, true, is_ok, IfOk, OnOk, OnErr};
ghost use Rattle.fv_graph.specs.TasksBeside.{times, task_count};
ghost use Rattle.fv_graph.specs.Graph.{IsGraph, net_of, edges_of};
ghost use Rattle.fv_graph.specs.Core.{is_legal, after, deque_of, run_of, owes_of, is_free, is_done, opening};
ghost use Rattle.fv_graph.specs.Ends.{back_of, front_of};
ghost use Rattle.fv_graph.specs.Running.{Running, IsRunning};
ghost use Rattle.fv_graph.specs.Ready.{FindsReady};
ghost use Rattle.fv_graph.specs.Law.{AllLeft};
ghost use Rattle.fv_graph.specs.declared.event.Event.TheVariants.{Take, Steal, Finish, Arrive, Leave};

use crate::Tasks;
use crate::begin::{
    clear_deques, clear_lists, deal, empty_deques, empty_lists, open_tasks, repeated, set_all,
};
use crate::by_worker::{
    back, does_owe, forget, front, is_idle, names, owe, put_ready, take_back, take_front,
};
use crate::event::{Event, Illegal};
use std::alloc::{AllocError, Global};
use std::collections::VecDeque;
use std::marker::Model;
use std::snapshot::Snapshot;

/// A state of the core. It takes all of its memory when it is made.
#[derive(Drop)]
pub struct Core {
    // How many workers there are. They are numbered from 0.
    workers: u32,
    // For how many tasks there is memory.
    room_tasks: u64,
    // For how many edges there is memory.
    room_edges: u64,
    // By task: how many inner edges into it have not arrived yet. It is ready at 0.
    counts: Vec<u64>,
    // By task: whether it has run.
    done: Vec<bool>,
    // By worker: the ready tasks that it holds. It takes from the back, and thieves from the front.
    deques: Vec<VecDeque<u64>>,
    // By worker: the task that it runs.
    runs: Vec<Option<u64>>,
    // By worker: the inner edges that it owes to their readers, in the order in which they were put.
    owes: Vec<Vec<u64>>,
    // By worker: whether it has left.
    left: Vec<bool>,
    // The tasks that this is a state of, for the prover alone.
    seen: Snapshot<Tasks>,
}

impl Model for Core {
    ghost use Rattle.fv_graph.specs.Ends.{back_of, front_of};
    ghost use Rattle.fv_graph.specs.Running.{Running, coded_running};

    ghost Value = { Running };

    ghost coded = { coded_running };

    ghost use Rattle.fv_graph.specs.Stored.{running_of, IsStored};

    ghost view = { running_of };

    ghost invariant = { IsStored };
}

impl Core {
    /// Nothing is done, and the tasks that read no other are dealt to the workers in turn. Later runs need no memory where they
    /// have no more tasks and edges than this one.
    pub fn new(alloc: Global, tasks: &Tasks, workers: u32) -> Result<Core, AllocError>
        requires some_worker { 0 < workers }
        ensures core { IfOk result (λ c. c ≡ record {
          tasks = tasks.now.tasks;
          workers = workers;
          room_tasks = task_count tasks.now.tasks;
          room_edges = edges_of tasks.now.tasks;
          now = opening (net_of tasks.now.tasks) workers;
        }) }
        ensures graph { IfOk result (λ c. IsGraph c.tasks) }
    {
        let room_tasks = tasks.len();
        let room_edges = tasks.edges();
        let count = workers as usize;
        let mut counts = Vec::with_capacity(alloc, room_tasks as usize)?;
        let mut done = Vec::with_capacity(alloc, room_tasks as usize)?;
        let mut deques = empty_deques(alloc, count, room_tasks as usize)?;
        open_tasks(tasks, &mut counts, &mut done);
        deal(tasks, &mut deques);
        Ok(Core {
            workers,
            room_tasks,
            room_edges,
            counts,
            done,
            deques,
            runs: repeated(alloc, None, count)?,
            owes: empty_lists(alloc, count, room_edges as usize)?,
            left: repeated(alloc, false, count)?,
            seen: Snapshot::of(tasks),
        })
    }

    /// Begins anew for these tasks, with the workers of the core: the state of a new core. It takes no memory.
    pub fn reset(&mut self, tasks: &Tasks)
        requires tasks { task_count tasks.now.tasks ≤ self.old.room_tasks }
        requires edges { edges_of tasks.now.tasks ≤ self.old.room_edges }
        ensures { self.new ≡ record self.old { tasks = tasks.now.tasks; now = opening (net_of tasks.now.tasks) self.old.workers } }
    {
        open_tasks(tasks, &mut self.counts, &mut self.done);
        clear_deques(&mut self.deques);
        deal(tasks, &mut self.deques);
        set_all(&mut self.runs, None);
        clear_lists(&mut self.owes);
        set_all(&mut self.left, false);
        self.seen = Snapshot::of(tasks);
    }

    // Takes the back of the worker's deque.
    fn take(&mut self, worker: u32, task: u64)
        requires { is_legal (net_of self.old.tasks) self.old.now (Take worker task) ≡ true }
        ensures { self.new ≡ record self.old { now = after (net_of self.old.tasks) self.old.now (Take worker task) } }
    {
        take_back(&mut self.deques, worker as usize);
        self.runs[worker as usize] = Some(task);
    }

    // Takes the front of the victim's deque for the thief.
    fn steal(&mut self, thief: u32, victim: u32, task: u64)
        requires { is_legal (net_of self.old.tasks) self.old.now (Steal thief victim task) ≡ true }
        ensures { self.new ≡ record self.old { now = after (net_of self.old.tasks) self.old.now (Steal thief victim task) } }
    {
        take_front(&mut self.deques, victim as usize);
        self.runs[thief as usize] = Some(task);
    }

    /// Notes that the task is done, and that the worker owes the inner edges out of it: the step `Finish`, for one who knows that
    /// it is legal. The tasks are those that the core was made for, or reset for last.
    pub fn finish(&mut self, tasks: &Tasks, worker: u32, task: u64)
        requires same { self.old.tasks ≡ tasks.now.tasks }
        requires legal { is_legal (net_of self.old.tasks) self.old.now (Finish worker task) ≡ true }
        ensures { self.new ≡ record self.old { now = after (net_of self.old.tasks) self.old.now (Finish worker task) } }
    {
        self.done[task as usize] = true;
        self.runs[worker as usize] = None;
        owe(&mut self.owes, worker as usize, tasks.feeds(task));
    }

    /// Gives an edge: its reader waits for one task fewer, and where it waits for none it goes to the back of the worker's deque.
    /// This is the step `Arrive`, for one who knows that it is legal.
    pub fn arrive(&mut self, tasks: &Tasks, worker: u32, edge: u64)
        requires same { self.old.tasks ≡ tasks.now.tasks }
        requires legal { is_legal (net_of self.old.tasks) self.old.now (Arrive worker edge) ≡ true }
        ensures { self.new ≡ record self.old { now = after (net_of self.old.tasks) self.old.now (Arrive worker edge) } }
    {
        forget(&mut self.owes, worker as usize, edge);
        let reader = tasks.reader(edge);
        let count = self.counts[reader as usize] - 1;
        self.counts[reader as usize] = count;
        put_ready(&mut self.deques, worker as usize, reader, count);
    }

    // Notes that the worker leaves.
    fn leave(&mut self, worker: u32)
        requires { is_legal (net_of self.old.tasks) self.old.now (Leave worker) ≡ true }
        ensures { self.new ≡ record self.old { now = after (net_of self.old.tasks) self.old.now (Leave worker) } }
    {
        self.left[worker as usize] = true;
    }

    /// The task at the back of a worker's deque: the one that it takes next. None also for a worker that is not there.
    pub fn next_of(&self, worker: u32) -> Option<u64>
        ensures { result ≡ back_of (deque_of self.now.now worker) }
    {
        if worker >= self.workers {
            return None;
        }
        back(&self.deques, worker as usize)
    }

    // The task at the front of it.
    fn first_of(&self, worker: u32) -> Option<u64>
        ensures { result ≡ front_of (deque_of self.now.now worker) }
    {
        if worker >= self.workers {
            return None;
        }
        front(&self.deques, worker as usize)
    }

    // The task that a worker runs.
    fn running(&self, worker: u32) -> Option<u64>
        ensures value { result ≡ run_of self.now.now worker }
        ensures running { IsRunning self.now }
    {
        if worker >= self.workers {
            return None;
        }
        self.runs[worker as usize]
    }

    // Whether a worker owes an edge.
    fn does_owe(&self, worker: u32, edge: u64) -> bool
        ensures value { result ≡ not (times edge (owes_of self.now.now worker) == 0) }
        ensures running { IsRunning self.now }
    {
        if worker >= self.workers {
            return false;
        }
        does_owe(&self.owes, worker as usize, edge)
    }

    // Whether a worker is there, has not left, runs nothing and owes nothing.
    fn is_free(&self, worker: u32) -> bool
        ensures value { result ≡ is_free self.now.now worker }
        ensures running { IsRunning self.now }
    {
        if worker >= self.workers {
            return false;
        }
        is_idle(&self.left, &self.runs, &self.owes, worker as usize)
    }

    // Whether an event is legal.
    fn may(&self, event: Event) -> bool
        ensures value { result ≡ is_legal (net_of self.now.tasks) self.now.now event }
        ensures running { IsRunning self.now }
    {
        match event {
            Event::Take { worker, task } => {
                self.is_free(worker) && names(self.next_of(worker), task)
            }
            Event::Steal {
                thief,
                victim,
                task,
            } => self.is_free(thief) && thief != victim && names(self.first_of(victim), task),
            Event::Finish { worker, task } => names(self.running(worker), task),
            Event::Arrive { worker, edge } => self.does_owe(worker, edge),
            Event::Leave { worker } => self.is_free(worker) && self.next_of(worker).is_none(),
        }
    }

    // Does a legal event.
    fn act(&mut self, tasks: &Tasks, event: Event)
        requires same { self.old.tasks ≡ tasks.now.tasks }
        requires legal { is_legal (net_of self.old.tasks) self.old.now event ≡ true }
        ensures { self.new ≡ record self.old { now = after (net_of self.old.tasks) self.old.now event } }
    {
        match event {
            Event::Take { worker, task } => self.take(worker, task),
            Event::Steal {
                thief,
                victim,
                task,
            } => self.steal(thief, victim, task),
            Event::Finish { worker, task } => self.finish(tasks, worker, task),
            Event::Arrive { worker, edge } => self.arrive(tasks, worker, edge),
            Event::Leave { worker } => self.leave(worker),
        }
    }

    /// Does what a worker does, if the core has such an event in this state; else the core is unchanged. The tasks are those that
    /// the core was made for, or reset for last.
    pub fn step(&mut self, tasks: &Tasks, event: Event) -> Result<(), Illegal>
        requires same { self.old.tasks ≡ tasks.now.tasks }
        ensures legal { is_ok result ≡ is_legal (net_of tasks.now.tasks) self.old.now event }
        ensures ok { OnOk result (self.new ≡ record self.old { now = after (net_of tasks.now.tasks) self.old.now event }) }
        ensures err { OnErr result (self.new ≡ self.old) }

        // A task that is taken is not done, and all that it reads is. Once all workers have left, all tasks are done.
        ensures ready { OnOk result (FindsReady tasks.now.tasks self.old.now event) }
        ensures ends { AllLeft self.new.now self.new.workers → (t : ℕ) → t < task_count tasks.now.tasks → is_done self.new.now t ≡ true }
    {
        if !self.may(event) {
            return Err(Illegal);
        }
        self.act(tasks, event);
        Ok(())
    }
}
