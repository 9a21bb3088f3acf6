// What is ready before anything is written.

ghost use Rattle.std.specs.Prelude.{◌≡◌, ◌≢◌, ◌≤◌, [], true, IsTrue, IfOk, IfErr, OnOk};
ghost use Rattle.std.specs.List.{AllByRecursion};
ghost use Rattle.std.specs.Option.{ForSome};
ghost use Rattle.fv_base.specs.declared.role.Role.{Role};
ghost use Rattle.fv_base.specs.declared.role.Role.TheVariants.{Input};
ghost use Rattle.fv_diagram.specs.Words.{is_sample_width};
ghost use Rattle.fv_outside.specs.headline.Desk.{KeepsFaults};
ghost use Rattle.fv_pcm.specs.headline.Sizes.{data_size, data_limit};
ghost use Rattle.fv_control.specs.Laws.{NeverFall, IsOfControls};
ghost use Rattle.fv_top_words.specs.headline.Commands.{Playing};
ghost use Rattle.fv_top_words.specs.Runs.{AreValid};
ghost use Rattle.fv_top_words.specs.Views.{run_in as run_view, settings_in};
ghost use Rattle.fv_top_program.specs.headline.Compiled.{Compiled};
ghost use Rattle.fv_top_program.specs.Playables.{IsPlayable};
ghost use Rattle.fv_top_files.specs.headline.Inputs.{stated_frames};
ghost use Rattle.fv_top_files.specs.headline.Output.{channels_in};
ghost use Rattle.fv_top_files.specs.Loading.{IsPlaced};
ghost use Rattle.fv_top.specs.headline.Played.{sizes_of};
ghost use Rattle.fv_top.specs.headline.Promise.{IsReadBy};
ghost use Rattle.fv_top_files.specs.Loaded.{HoldsAll};
ghost use Rattle.fv_top.specs.inner.Running.{Reaches, StopsBefore, asked_before};
ghost use Rattle.fv_top.specs.inner.Prepared.{CanRun, IsForRun, IsMadeOf, IsOfFiles};

use crate::program::load_playable;
use crate::script::load_script;
use crate::tape::make_tape;
use fv_control::Script;
use fv_diagram::{Arity, ControlInfo};
use fv_engine_render::{Ready, RunSizes, make_ready_graph};
use fv_file_tape::FileTape;
use fv_outside::Desk;
use fv_top_files::{Loaded, OutputFormat, fit, load_head};
use fv_top_program::Playable;
use fv_top_report::Refusal;
use fv_top_words::{Run, Settings};
use std::alloc::{AllocError, Global};

/// What is ready to be played: all memory is taken, and nothing is written yet.
#[derive(Drop)]
pub struct Prepared<'a> {
    /// How many inputs the program has, and samples a frame of the input.
    pub inputs: u32,
    /// How many outputs the program has, and samples a frame of the output.
    pub outputs: u32,
    /// The program's controls, by their numbers.
    pub controls: Vec<ControlInfo>,
    /// The changes of the controls, in order.
    pub script: Script,
    /// How the output is stored, and how many frames it has.
    pub format: OutputFormat,
    /// How many frames the run, a block and a vector have, and how many workers there are.
    pub sizes: RunSizes,
    /// The engine and the samples of a block.
    pub ready: Ready,
    /// The tape of the input and the output.
    pub tape: FileTape<'a>,
}

/// Reads what a run needs up to its input's samples, and takes all its memory.
pub fn prepare<'a, D: Desk>(
    alloc: Global,
    desk: &mut D,
    run: &Run<'a>,
) -> Result<Prepared<'a>, Refusal>
    requires { AreValid (run_view run.now).settings }
    ensures reaches { OnOk result (Reaches (IsReadBy (Playing (run_view run.now))) (asked_before (run_view run.now)) (D.state desk.old) (D.state desk.new)) }
    ensures steady { OnOk result (KeepsFaults (D.state desk.old) (D.state desk.new)) }
    ensures ready { IfOk result (λ p. (c : Compiled) × CanRun c p
        × (IsTrue (D.state desk.old).tells → IsOfFiles (run_view run.now) (D.state desk.old) (D.state desk.new) c p)) }
    ensures named { IfOk result (IsForRun (run_view run.now)) }
    // The program's file and the script were read to their ends.
    ensures whole { IfOk result (λ p. IsTrue (D.state desk.old).tells → (r : Role) → IsReadBy (Playing (run_view run.now)) r → r ≢ Input
        → (D.state desk.new).left r ≡ []) }
    ensures stops { IfErr result (StopsBefore (run_view run.now) (D.state desk.old) (D.state desk.new)) }
{
    let playable = load_playable(alloc, desk, run.manner.program, run.program)?;
    let script = load_script(alloc, desk, run.controls, &playable.controls)?;
    let loaded = load_head(alloc, desk, run.manner.input, run.input)?;
    let arity = Arity {
        inputs: playable.inputs,
        outputs: playable.outputs,
    };
    let format = fit(arity, loaded.head, &run.settings, run.manner.output)?;
    let prepared = take_memory(
        alloc,
        run.output,
        &run.settings,
        playable,
        script,
        loaded,
        format,
    )?;
    Ok(prepared)
}

// Takes all memory without which a run of a program under a script cannot go on, from an input to an output in this format.
fn take_memory<'a>(
    alloc: Global,
    output: &'a str,
    settings: &Settings,
    playable: Playable,
    script: Script,
    loaded: Loaded,
    format: OutputFormat,
) -> Result<Prepared<'a>, AllocError>
    requires sizes { AreValid (settings_in settings.now) }
    requires playable { (c : Compiled) × IsPlayable c playable }
    requires order { NeverFall 0 script }
    requires lawful { AllByRecursion (IsOfControls playable.controls.items) script }
    requires head { ForSome loaded.head IsPlaced }
    requires held { HoldsAll loaded }
    requires channels { channels_in loaded.head ≡ playable.inputs }
    requires frames { ForSome loaded.head (λ h. format.frames ≡ stated_frames h) }
    requires bits { is_sample_width format.bits ≡ true }
    requires size { (format.size ≡ data_size playable.outputs format.bits format.frames) × (format.size ≤ data_limit) }
    // What is ready is so for each program of which the graph is one.
    ensures can { IfOk result (λ p. (c : Compiled) → IsPlayable c playable → CanRun c p) }
    ensures made { IfOk result (IsMadeOf output.now (settings_in settings.now) script loaded format) }
{
    let sizes = RunSizes {
        frames: format.frames,
        block: settings.block,
        vector: settings.vector,
        workers: settings.workers,
    };
    let Playable {
        graph,
        inputs,
        outputs,
        controls,
    } = playable;
    let tape = make_tape(alloc, output, outputs, format, loaded, sizes.block)?;
    let ready = make_ready_graph(alloc, &graph, inputs, &controls, &sizes)?;
    Ok(Prepared {
        inputs,
        outputs,
        controls,
        script,
        format,
        sizes,
        ready,
        tape,
    })
}
