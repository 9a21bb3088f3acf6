// The parcels with which a block begins.

ghost use Rattle.std.specs.Prelude.{◌≡◌, ◌≤◌, vec_len, vec_capacity};
ghost use Rattle.fv_engine_crew.specs.Contents.{tasks_in};
ghost use Rattle.fv_engine_crew.specs.declared.parcel.LoopParcel.{LoopParcel};
ghost use Rattle.fv_steal.specs.Parcels.{AreParcelsFrom};
ghost use Rattle.fv_engine_crew.specs.Entries.{AreEntered};

use crate::{Content, LoopParcel, Start, Writers};

/// The parcel of each loop's entry edge, loop by loop, in a list with room for them.
pub fn entries_of<'a, 'b>(
    start: &Start<'a, 'b>,
    writers: Vec<Box<Writers<'a, 'b>>>,
    mut entries: Vec<LoopParcel<'a, 'b>>,
) -> Vec<LoopParcel<'a, 'b>>
    requires entered { AreEntered start.now writers.items }
    requires none { vec_len entries ≡ 0 }
    requires room { vec_len writers ≤ vec_capacity entries }
    ensures { AreParcelsFrom (λ (p : LoopParcel). p.edge) (λ (p : LoopParcel). p.start.value) start.now 0 (tasks_in start.now).loops result.items }
{
    for one in writers {
        let edge = entries.len() as u64;
        entries.push_reserved(LoopParcel::new(edge, start, Content::Writers(one)));
    }
    entries
}
