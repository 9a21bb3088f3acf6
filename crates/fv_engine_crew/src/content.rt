// What goes over the edges.

ghost use Rattle.std.specs.Prelude.{◌≡◌, ◌+◌, ◌≤◌, ◌++◌, length, vec_capacity};
ghost use Rattle.fv_engine_crew.specs.Contents.{lanes_seen};

use fv_engine_codes::LoopLanes;
use fv_lines::Seen;
use fv_loopcode_machine::Scratch;

/// What a loop's task hands to the loop's next task: its lane writers and cells, and the scratch that its code works in. Where more
/// than two lanes go into a parcel of seen lanes, it has an empty list for each such parcel that is to come.
#[derive(Drop)]
pub struct Writers<'a, 'b> {
    pub lanes: LoopLanes<'a, 'b>,
    pub scratch: Scratch,
    pub lists: Vec<Vec<Seen<'a>>>,
}

/// The lanes of a loop, as they were seen. Most loops have one, or two where they feed a signal back, and these need no list.
#[derive(Drop)]
pub enum SeenLanes<'a> {
    Nothing,
    One(Seen<'a>),
    Two(Seen<'a>, Seen<'a>),
    Many(Vec<Seen<'a>>),
}

impl<'a> SeenLanes<'a> {
    /// Appends these lanes to a list that has room for them.
    pub(crate) fn append_to(&self, list: &mut Vec<Seen<'a>>)
        requires { length list.old.items + length (lanes_seen self.now) ≤ vec_capacity list.old }
        ensures items { list.new.items ≡ list.old.items ++ lanes_seen self.now }
        ensures room { vec_capacity list.old ≤ vec_capacity list.new }
    {
        match self {
            SeenLanes::Nothing => {}
            SeenLanes::One(lane) => list.push_reserved(*lane),
            SeenLanes::Two(first, second) => {
                list.push_reserved(*first);
                list.push_reserved(*second);
            }
            SeenLanes::Many(lanes) => {
                // There is room for them, so this takes no memory.
                let _ = list.extend_from_slice(lanes.as_slice());
            }
        }
    }
}

/// What goes over an edge: to the loop's next task its lane writers and cells, to a task of another loop the loop's lanes, as they were seen.
#[derive(Drop)]
pub enum Content<'a, 'b> {
    Writers(Box<Writers<'a, 'b>>),
    Seen(SeenLanes<'a>),
}
