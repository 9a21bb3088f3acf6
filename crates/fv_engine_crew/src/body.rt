// What runs a task over its parcels.

ghost use Rattle.std.specs.Prelude.{◌≡◌, ℕ, ◌+◌, ◌-◌, ◌*◌, ◌≤◌, ◌<◌, List, [], length, map, reverse, All, slice_index, slice_index_or, vec_capacity};
ghost use Rattle.fv_loopcode.specs.Code.{IsWithin};
ghost use Rattle.fv_loopcode.specs.Words.{argument};
ghost use Rattle.fv_loopcode_machine.specs.Scratches.{Serves};
ghost use Rattle.fv_split_plan.specs.headline.View.{code_of};
ghost use Rattle.fv_lines.specs.Seen.{lane_seen};
ghost use Rattle.fv_lines.specs.Writer.{lane_written};
ghost use Rattle.fv_engine_codes.specs.Lanes.{state_in, AreLanesValid, rest_in};
ghost use Rattle.fv_engine_crew.specs.Bodies.{IsBody};
ghost use Rattle.fv_engine_crew.specs.Contents.{lanes_seen, list_room, AreRoomy, AreSeenOf, AreHandedOn, IsRealStart, tasks_in};
ghost use Rattle.fv_engine_crew.specs.inner.Turns.{Known, Before, After, IsPairAt, IsPairFrom, IsChainAt, lanes_by};

use crate::content::{Content, SeenLanes, Writers};
use crate::parcel::LoopParcel;
use crate::start::Start;
use fv_engine_codes::renumbered_code_obeys;
use fv_lines::{LaneWriter, Seen};
use fv_loopcode::tasks_are_done;
use fv_loopcode_machine::{Code, run};
use fv_outside::Task;
use fv_steal::Body;

/// Runs the code of a block's loops. To contracts it is the block's tasks and its start.
#[derive(Drop)]
pub struct LoopBody<'a, 'b> {
    start: Start<'a, 'b>,
    // by loop, over the lanes that it sees
    codes: &'b [Code],
    ghost body: { ∥ IsBody start codes.now ∥₁ },
    ghost real: { ∥ IsRealStart start ∥₁ },
}

// These lanes, as they are now, in a list that has room for them.
fn see_in<'a>(own: &[LaneWriter<'a>], mut list: Vec<Seen<'a>>) -> Vec<Seen<'a>>
    requires { (list.items ≡ []) × (length own.now ≤ vec_capacity list) }
    ensures { map lane_seen result.items ≡ map lane_written own.now }
{
    for writer in own {
        list.push_reserved(writer.seen());
    }
    list
}

// More than two lanes, as they are now, in the last of the lists.
fn see_many<'a>(own: &[LaneWriter<'a>], lists: &mut Vec<Vec<Seen<'a>>>) -> Vec<Seen<'a>>
    requires many { 3 ≤ length own.now }
    requires some { 0 < length lists.old.items }
    requires roomy { AreRoomy lists.old.items (list_room (length own.now)) }
    ensures seen { map lane_seen result.items ≡ map lane_written own.now }
    ensures lists { length lists.old.items ≤ length lists.new.items + 1 }
    ensures roomy { AreRoomy lists.new.items (list_room (length own.now)) }
{
    let list = lists.pop().unwrap();
    see_in(own, list)
}

// These lanes, as they are now. More than two go in the last of the lists.
fn see<'a>(own: &[LaneWriter<'a>], lists: &mut Vec<Vec<Seen<'a>>>) -> SeenLanes<'a>
    requires some { 3 ≤ length own.now → 0 < length lists.old.items }
    requires roomy { AreRoomy lists.old.items (list_room (length own.now)) }
    ensures seen { map lane_seen (lanes_seen result) ≡ map lane_written own.now }
    ensures lists { 3 ≤ length own.now → length lists.old.items ≤ length lists.new.items + 1 }
    ensures roomy { AreRoomy lists.new.items (list_room (length own.now)) }
{
    if own.is_empty() {
        return SeenLanes::Nothing;
    }
    if own.len() == 1 {
        return SeenLanes::One(own[0].seen());
    }
    if own.len() == 2 {
        return SeenLanes::Two(own[0].seen(), own[1].seen());
    }
    SeenLanes::Many(see_many(own, lists))
}

impl<'a, 'b> LoopBody<'a, 'b> {
    /// The body of a block that starts so, over these codes of its loops.
    pub fn new(start: Start<'a, 'b>, codes: &'b [Code]) -> LoopBody<'a, 'b>
        requires body { IsBody start codes.now }
        requires real { IsRealStart start }
        ensures { result.start ≡ start.entry }
    {
        LoopBody { start, codes }
    }

    /// What the block starts with.
    pub fn start(&self) -> &Start<'a, 'b>
        ensures { result.now ≡ self.now.start }
    {
        &self.start
    }

    // The code of a loop.
    fn code(&self, loop_no: u64) -> &Code
        requires { loop_no < length self.now.codes.now }
        ensures { result.now ≡ slice_index_or self.now.codes.now loop_no [] }
    {
        &self.codes[loop_no as usize]
    }

    // Runs the code of a task.
    fn run_code(&self, task: Task, writers: &mut Writers<'a, 'b>)
        requires there { task.loop_no < length self.now.codes.now }
        requires inside { task.vector * self.now.start.vector < self.now.start.frames }
        requires known { ∥ Known self.now.start task.loop_no task.vector (slice_index_or self.now.codes.now task.loop_no []) ∥₁ }
        requires real { ∥ IsRealStart self.now.start ∥₁ }
        requires within { All (λ s. IsWithin (length self.now.start.held.now) self.now.start.channels s) (slice_index_or self.now.codes.now task.loop_no []) }
        requires input { self.now.start.frames * self.now.start.channels ≤ length self.now.start.input.now }
        requires valid { AreLanesValid writers.old.lanes }
        requires before { Before self.now.start task.loop_no task.vector (state_in writers.old.lanes) }
        requires scratch { Serves (slice_index_or self.now.codes.now task.loop_no []) (argument self.now.start.held.now) writers.old.scratch }
        ensures after { After self.now.start task.loop_no task.vector (state_in writers.new.lanes) }
        ensures valid { AreLanesValid writers.new.lanes }
        ensures kept { rest_in writers.new.lanes ≡ rest_in writers.old.lanes }
        ensures scratch { Serves (slice_index_or self.now.codes.now task.loop_no []) (argument self.now.start.held.now) writers.new.scratch }
        ensures lists { writers.new.lists ≡ writers.old.lists }
    {
        // For the prover: where the lanes hold what they are to hold, the task may run; and the code obeys with its lanes' new
        // numbers too.
        tasks_are_done();
        renumbered_code_obeys();
        let code = self.code(task.loop_no);
        let from = u64::from(task.vector) * u64::from(self.start.vector);
        let count = u64::from(self.start.vector).min(u64::from(self.start.frames) - from);
        run(
            code,
            self.start.held,
            self.start.input,
            self.start.channels,
            from,
            count,
            &mut writers.scratch,
            &mut writers.lanes,
        );
    }

    // Appends the lanes of all these parcels, one after another.
    fn gather(&self, vector: u32, parcels: &[LoopParcel<'a, 'b>], seen: &mut Vec<Seen<'a>>)
        requires keys { All (λ p. p.start.value ≡ self.now.start) parcels.now }
        requires pairs { All (λ p. IsPairAt (tasks_in self.now.start) vector p.edge) parcels.now }
        requires empty { seen.old.items ≡ [] }
        requires room { length (lanes_by self.now.start (map (λ p. p.edge) parcels.now)) ≤ vec_capacity seen.old }
        ensures seen { AreSeenOf self.now.start (lanes_by self.now.start (map (λ p. p.edge) parcels.now)) (vector + 1) seen.new.items }
        ensures room { vec_capacity seen.old ≤ vec_capacity seen.new }
    {
        for parcel in parcels {
            let Content::Seen(lanes) = parcel.content() else {
                unreachable!()
            };
            lanes.append_to(seen);
        }
    }

    // Makes the parcels out of a task, from the last edge on, so that the lanes' writers stand last.
    fn hand(
        &self,
        task: Task,
        edges: &[u64],
        mut writers: Box<Writers<'a, 'b>>,
        parcels: &mut Vec<LoopParcel<'a, 'b>>,
    )
        requires some { 0 < length edges.now }
        requires chain { IsChainAt (tasks_in self.now.start) task.loop_no (task.vector + 1) (slice_index edges.now 0) }
        requires pairs { (i : ℕ) → 0 < i → i < length edges.now → IsPairFrom (tasks_in self.now.start) task.loop_no task.vector (slice_index edges.now i) }
        requires writers { AreHandedOn self.now.start task.loop_no (task.vector + 1) (length edges.now - 1) writers.value }
        requires empty { parcels.old.items ≡ [] }
        requires room { length edges.now ≤ vec_capacity parcels.old }
        ensures edges { map (λ p. p.edge) parcels.new.items ≡ reverse edges.now }
        ensures keys { All (λ p. p.start.value ≡ self.now.start) parcels.new.items }
        ensures room { vec_capacity parcels.new ≡ vec_capacity parcels.old }
    {
        let last = edges.len() - 1;
        for i in 0..last {
            let room = &mut *writers;
            let lanes = see(room.lanes.own.as_slice(), &mut room.lists);
            let parcel = LoopParcel::new(edges[last - i], &self.start, Content::Seen(lanes));
            parcels.push_reserved(parcel);
        }
        let parcel = LoopParcel::new(edges[0], &self.start, Content::Writers(writers));
        parcels.push_reserved(parcel);
    }
}

impl<'a, 'b> Body<LoopParcel<'a, 'b>> for LoopBody<'a, 'b> {
    ghost use Rattle.fv_engine_crew.specs.Contents.{tasks_in};

    ghost tasks = { λ b. tasks_in b.start };

    ghost key = { λ b. b.start };

    fn run(&self, task: Task, parcels: &mut Vec<LoopParcel<'a, 'b>>) {
        let tasks = self.start.tasks;
        // Called for its clauses: the number below fits.
        let _edges = tasks.edges();
        let number = u64::from(task.vector) * tasks.loops() + task.loop_no;
        let Content::Writers(mut writers) = parcels.remove(0).into_content() else {
            unreachable!()
        };
        self.gather(task.vector, parcels.as_slice(), &mut writers.lanes.seen);
        parcels.clear();
        self.run_code(task, &mut *writers);
        writers.lanes.seen.clear();
        self.hand(task, tasks.outward(number), writers, parcels);
        parcels.reverse();
    }
}
