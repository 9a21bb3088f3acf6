// The blocks of a run.

ghost use Rattle.std.specs.Prelude.{◌≡◌, ◌+◌, ◌≤◌, length, IsTrue, IsOk, IfOk, IfErr, OnOk, OnErr};
ghost use Rattle.fv_base.specs.declared.role.Role.TheVariants.{Output};
ghost use Rattle.fv_engine_render.specs.Render.{RanWhole};
ghost use Rattle.fv_outside.specs.headline.Desk.{HasFault, KeepsFaults, IsUnfailing};
ghost use Rattle.fv_outside.specs.Desk.{Appends};
ghost use Rattle.fv_top_report.specs.Parts.{AppendsPart};
ghost use Rattle.fv_top_program.specs.headline.Compiled.{Compiled};
ghost use Rattle.fv_top_files.specs.headline.Output.{pad_in};
ghost use Rattle.fv_top.specs.inner.Prepared.{CanRun, HasRun, StopsRun, coding_heard, refusal_of_stop};

use crate::prepare::Prepared;
use fv_engine_render::{Played, Ran, play_files};
use fv_file_tape::{Incoming, Stop};
use fv_outside::{Desk, Gate, Role};
use fv_pcm::Coding;
use fv_top_report::Refusal;
use fv_wav::{WriteRefusal, write_pad};
use std::alloc::Global;
use std::sync::Wait;
use std::thread::Threads;

/// Begins the output, and reads, plays and writes block by block.
pub fn play<R: Threads + Wait + Sync, D: Desk, G: Gate + Sync>(
    rt: &R,
    alloc: Global,
    desk: &mut D,
    prepared: Prepared<'_>,
    gate: &mut G,
) -> Result<Ran, Refusal>
    // Some program is ready, and what follows is so for each that is.
    requires { (c : Compiled) × CanRun c prepared }
    ensures played { OnOk result ((c : Compiled) → CanRun c prepared.entry → HasRun c prepared.entry (D.state desk.old) (D.state desk.new)) }
    ensures ran { IfOk result (λ r. (c : Compiled) → CanRun c prepared.entry → RanWhole c.diagram c.controls prepared.entry.script
        prepared.entry.sizes r (G.told gate.old) (G.told gate.new)) }
    ensures stops { IfErr result (λ e. (c : Compiled) → CanRun c prepared.entry → StopsRun c prepared.entry (D.state desk.old) (D.state desk.new)
        (G.told gate.old) (G.told gate.new) e) }
{
    let Prepared {
        inputs,
        outputs,
        controls,
        script,
        format,
        sizes,
        ready,
        mut tape,
    } = prepared;
    let played = Played {
        inputs,
        outputs,
        controls: &controls,
        changes: script.changes(),
        sizes,
    };
    let coding = coding_heard(tape.input);
    let ran = match play_files(rt, alloc, desk, &played, ready, &mut tape, gate) {
        Ok(ran) => ran,
        Err(stop) => return Err(stop_refusal(coding, stop)),
    };
    match end_file(desk, format.coding, format.size) {
        Ok(()) => Ok(ran),
        Err(_) => Err(Refusal::WriteFault { role: Role::Output }),
    }
}

// How the samples of an input are stored.
fn coding_heard(input: Option<Incoming>) -> Coding
    ensures { result ≡ coding_heard input }
{
    match input {
        Some(input) => input.coding,
        None => Coding::Wave,
    }
}

// Writes what follows the samples.
fn end_file<D: Desk>(desk: &mut D, coding: Coding, size: u32) -> Result<(), WriteRefusal>
    ensures ok { OnOk result (Appends Output (pad_in coding size) (D.state desk.old) (D.state desk.new)) }
    ensures err { OnErr result (AppendsPart Output (pad_in coding size) (D.state desk.old) (D.state desk.new)) }
    ensures failed { OnErr result (HasFault Output (D.state desk.old) (D.state desk.new)) }
    ensures steady { OnOk result (KeepsFaults (D.state desk.old) (D.state desk.new)) }
    ensures answers { IsTrue (D.state desk.old).tells → IsUnfailing Output (D.state desk.old) → length ((D.state desk.old).written Output)
        + length (pad_in coding size) ≤ (D.state desk.old).room Output → IsOk result }
{
    match coding {
        Coding::Wave => write_pad(desk, size),
        Coding::Au => Ok(()),
    }
}

// The refusal of a run that stops, by how its input's samples are stored.
fn stop_refusal(coding: Coding, stop: Stop) -> Refusal
    ensures { result ≡ refusal_of_stop coding stop }
{
    match stop {
        Stop::Read => Refusal::ReadFault { role: Role::Input },
        Stop::End { place } => match coding {
            Coding::Wave => Refusal::WaveTruncated { place },
            Coding::Au => Refusal::AuTruncated { place },
        },
        Stop::Write => Refusal::WriteFault { role: Role::Output },
    }
}
