// The parcels of a block.

ghost use Rattle.std.specs.Prelude.{◌≡◌};
ghost use Rattle.fv_engine_crew.specs.Contents.{IsContent};

use crate::content::Content;
use crate::start::Start;
use fv_ready::Parcel;
use std::snapshot::Snapshot;

/// What goes over one edge of a block. What the block starts with is its key, which contracts alone see: the content is what edge
/// and key name.
#[derive(Drop)]
pub struct LoopParcel<'a, 'b> {
    edge: u64,
    start: Snapshot<Start<'a, 'b>>,
    content: Content<'a, 'b>,
    ghost named: { IsContent start.value edge content },
}

impl<'a, 'b> Parcel for LoopParcel<'a, 'b> {
    type Key = Start<'a, 'b>;

    ghost edge_of = { λ p. p.edge };

    ghost key_of = { λ p. p.start.value };

    fn edge(&self) -> u64 {
        self.edge
    }
}

impl<'a, 'b> LoopParcel<'a, 'b> {
    /// The parcel of an edge.
    pub fn new(edge: u64, start: &Start<'a, 'b>, content: Content<'a, 'b>) -> LoopParcel<'a, 'b>
        requires { IsContent start.now edge content }
        ensures { (result.edge ≡ edge) × (result.start.value ≡ start.now) }
    {
        LoopParcel {
            edge,
            start: Snapshot::of(start),
            content,
        }
    }

    /// What it holds.
    pub fn into_content(self) -> Content<'a, 'b>
        ensures { IsContent self.entry.start.value self.entry.edge result }
    {
        let LoopParcel {
            edge: _,
            start: _,
            content,
        } = self;
        content
    }

    /// What it holds, while the parcel is kept.
    pub(crate) fn content(&self) -> &Content<'a, 'b>
        ensures { IsContent self.now.start.value self.now.edge result.now }
    {
        &self.content
    }
}
