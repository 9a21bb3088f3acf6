// A diagram that is played from an input to an output.

ghost use Rattle.std.specs.Prelude.{◌≡◌, ◌*◌, ◌<◌, ◌≤◌, ℕ, All, IsTrue, OnOk, IfOk, IfErr};
ghost use Rattle.std.specs.List.{AllByRecursion};
ghost use Rattle.fv_diagram.specs.Controls.{IsBounded};
ghost use Rattle.fv_diagram.specs.headline.Diagram.{Diagram};
ghost use Rattle.fv_control.specs.Laws.{NeverFall, IsOfControls};
ghost use Rattle.fv_control.specs.headline.Streams.{control_streams};
ghost use Rattle.fv_engine_render.specs.headline.Render.{RanTo, initial_of};
ghost use Rattle.fv_engine_render.specs.Render.{CanHave, RanWhole};
ghost use Rattle.fv_engine_render.specs.Stops.{IsSetToPlay};
ghost use Rattle.fv_engine_render.specs.declared.blocks.Ran.{Ran as Counts};
ghost use Rattle.fv_file_tape.specs.Tapes.{IsTape, channels_of, files_of};
ghost use Rattle.fv_engine_render.specs.Files.{HasPlayed, StopsAt};

use crate::{Played, Ran, Ready, render_tape};
use fv_diagram::answers_prefixes;
use fv_file_tape::{FileTape, Stop};
use fv_outside::{Desk, Gate};
use fv_pcm::samples_follow;
use std::alloc::Global;
use std::marker::Sync;
use std::sync::Wait;
use std::thread::Threads;

/// Plays a diagram from the input of a tape to its output, block by block, while its controls change as a script says. What
/// several workers take of memory in a block is not needed: where it is refused one worker runs the block.
pub fn play_files<R: Threads + Wait + Sync, D: Desk, G: Gate + Sync>(
    rt: &R,
    alloc: Global,
    desk: &mut D,
    played: &Played<'_, '_>,
    ready: Ready,
    tape: &mut FileTape<'_>,
    gate: &mut G,
) -> Result<Ran, Stop>
    requires bounded { All IsBounded played.now.controls.now }
    requires order { NeverFall 0 played.now.changes.now }
    requires lawful { AllByRecursion (IsOfControls played.now.controls.now) played.now.changes.now }
    requires sizes { CanHave played.now.sizes }
    // All is set for some diagram, and what follows is so for each for which it is.
    requires ready { (d : Diagram) × IsSetToPlay d played.now played.now.sizes ready }
    requires valid { IsTape tape.old }
    requires fresh { tape.old.done ≡ 0 }
    requires ears { channels_of tape.old.input ≡ played.now.inputs }
    requires mouth { tape.old.head.channels ≡ played.now.outputs }
    requires most { played.now.sizes.block ≤ tape.old.most }
    requires stated { tape.old.stated ≡ played.now.sizes.frames }
    // The output has the diagram's answer on the input's frames, whatever the sizes, and whatever the gate.
    ensures played { (d : Diagram) → IsSetToPlay d played.now played.now.sizes ready → OnOk result (HasPlayed d
        (control_streams played.now.changes.now (initial_of played.now.controls.now)) (files_of tape.old) (D.state desk.old) (D.state desk.new)) }
    ensures ran { (d : Diagram) → IsSetToPlay d played.now played.now.sizes ready → IfOk result (λ r. RanWhole d played.now.controls.now
        played.now.changes.now played.now.sizes r (G.told gate.old) (G.told gate.new)) }
    // Where it stops, its blocks up to a frame ran.
    ensures stops { (d : Diagram) → IsSetToPlay d played.now played.now.sizes ready → IfErr result (λ e. (g : ℕ) × (counts : Counts)
        × RanTo d played.now.controls.now played.now.changes.now played.now.sizes g counts (G.told gate.old) (G.told gate.new)
        × StopsAt d (control_streams played.now.changes.now (initial_of played.now.controls.now)) played.now.changes.now
        played.now.sizes (files_of tape.old) g (D.state desk.old) (D.state desk.new) e) }
{
    // For the prover: the samples after some frames are the next frames, and the answer on a prefix of the frames is a prefix.
    samples_follow();
    answers_prefixes();
    render_tape(rt, alloc, played, ready, tape, desk, gate)
}
