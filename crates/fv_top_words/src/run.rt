// What a run is asked to do.

ghost use Rattle.std.specs.Prelude.{◌≡◌, ◌≤◌, ◌^◌, ◌<◌, true, option_copied, IfOk};
ghost use Rattle.std.specs.Option.{ForSome};
ghost use Rattle.fv_base.specs.declared.limits.TheConstants.{MOST_BLOCK};
ghost use Rattle.fv_top_words.specs.headline.Runs.{within, within_or, width, is_width, default_vector, vectors_in, settings_of};
ghost use Rattle.fv_top_words.specs.headline.Runs.{run_of, by_kinds, of_jobs, output_kind, input_of, is_none_word, is_together, is_same};
ghost use Rattle.fv_top_words.specs.Runs.{AreValid};
ghost use Rattle.fv_top_words.specs.Views.{texts_in, numbers_in, settings_in, settings_answered, run_in, run_answered};

use crate::cause::Cause;
use crate::laws::settings_keep_ranges;
use crate::manner::{InputKind, Manner, OutputKind, ProgramKind};
use crate::numbers::{Numbers, numbers_of};
use crate::settings::Settings;
use crate::texts::{Plain, Texts};
use fv_base::limits::{MOST_BLOCK, MOST_VECTORS, MOST_WORKERS};

/// A run: its files, and how it is done.
#[derive(Clone, Copy)]
pub struct Run<'a> {
    /// The name of the program's file.
    pub program: &'a str,
    /// Nothing for a program without inputs.
    pub input: Option<&'a str>,
    /// The name of the output's file.
    pub output: &'a str,
    /// The control script.
    pub controls: Option<&'a str>,
    /// Its numbers.
    pub settings: Settings,
    /// Of which kinds its files are.
    pub manner: Manner,
}

/// The files of a run: one program, and WAV files.
const WAVE_FILES: Manner = Manner {
    program: ProgramKind::Alone,
    input: InputKind::Wave,
    output: OutputKind::Wave,
};

/// The run that the texts of its words ask for, or the first cause to refuse them.
pub fn run_of<'a>(texts: &Texts<'a>) -> Result<Run<'a>, Cause>
    ensures run { run_answered result ≡ run_of (texts_in texts.now) }
    ensures ranges { IfOk result (λ r. AreValid (settings_in r.settings)) }
{
    // For the prover: the settings that are made have each number in its range.
    settings_keep_ranges();
    let Plain::Three(program, input, output) = texts.plain else {
        return Err(Cause::Form);
    };
    let numbers = numbers_of(texts)?;
    let settings = settings_of(&numbers)?;
    if is_together(input, &settings) {
        return Err(Cause::Together);
    }
    if is_same(program, input, output, texts.controls) {
        return Err(Cause::Same);
    }
    Ok(Run {
        program,
        input: input_of(input),
        output,
        controls: texts.controls,
        settings,
        manner: WAVE_FILES,
    })
}

/// Lets a run's files be AU files: the input by its first bytes, and the output by its name.
pub fn by_kinds(run: Run<'_>) -> Run<'_>
    ensures { run_in result ≡ by_kinds (run_in run.entry) }
{
    Run {
        manner: Manner {
            program: run.manner.program,
            input: InputKind::Either,
            output: output_kind(run.output),
        },
        ..run
    }
}

/// Lets a run's program be a file of jobs.
pub fn of_jobs(run: Run<'_>) -> Run<'_>
    ensures { run_in result ≡ of_jobs (run_in run.entry) }
{
    Run {
        manner: Manner {
            program: ProgramKind::Rack,
            ..run.manner
        },
        ..run
    }
}

// A name that ends in `.au` is that of an AU file.
fn output_kind(name: &str) -> OutputKind
    ensures { result ≡ output_kind name.now }
{
    if name.as_bytes().ends_with(b".au".as_slice()) {
        OutputKind::Au
    } else {
        OutputKind::Wave
    }
}

// How it is done, where each number is in its range.
fn settings_of(numbers: &Numbers) -> Result<Settings, Cause>
    ensures { settings_answered result ≡ settings_of (numbers_in numbers.now) }
{
    let block = within_or(numbers.block, 1, MOST_BLOCK, 512)?;
    let vector = within_or(numbers.vector, 1, block, default_vector(block))?;
    let workers = within_or(numbers.workers, 1, MOST_WORKERS, 1)?;
    let bits = width(numbers.bits)?;
    let frames = within(numbers.frames, 0, u32::MAX)?;
    let rate = within(numbers.rate, 1, u32::MAX)?;
    if vectors_in(block, vector) > MOST_VECTORS {
        return Err(Cause::Vectors);
    }
    Ok(Settings {
        block,
        vector,
        workers,
        bits,
        frames,
        rate,
    })
}

// A number that is given, in its range.
fn within(number: Option<u64>, least: u32, most: u32) -> Result<Option<u32>, Cause>
    ensures { result ≡ within least most number }
{
    match number {
        None => Ok(None),
        Some(n) => {
            if u64::from(least) <= n && n <= u64::from(most) {
                Ok(Some(n as u32))
            } else {
                Err(Cause::Range)
            }
        }
    }
}

/// A number in its range, or its default.
pub fn within_or(number: Option<u64>, least: u32, most: u32, default: u32) -> Result<u32, Cause>
    requires low { least ≤ default }
    requires high { default ≤ most }
    ensures value { result ≡ within_or least most default number }
    ensures least { IfOk result (λ n. least ≤ n) }
    ensures most { IfOk result (λ n. n ≤ most) }
{
    match number {
        None => Ok(default),
        Some(n) => {
            if u64::from(least) <= n && n <= u64::from(most) {
                Ok(n as u32)
            } else {
                Err(Cause::Range)
            }
        }
    }
}

// The bits of a sample, where they are given.
fn width(number: Option<u64>) -> Result<Option<u32>, Cause>
    ensures value { result ≡ width number }
    ensures is_width { IfOk result (λ bits. ForSome bits (λ n. is_width n ≡ true)) }
{
    match number {
        None => Ok(None),
        Some(n) => {
            if n == 8 || n == 16 || n == 24 || n == 32 {
                Ok(Some(n as u32))
            } else {
                Err(Cause::Range)
            }
        }
    }
}

// The frames of a vector, where they are not given.
fn default_vector(block: u32) -> u32
    requires least { 1 ≤ block }
    requires most { block ≤ MOST_BLOCK }
    ensures value { result ≡ default_vector block }
    ensures least { 1 ≤ result }
    ensures most { result ≤ block }
{
    if block < 32 {
        return block;
    }
    let size = (block + (MOST_VECTORS - 1)) / MOST_VECTORS;
    size.max(32)
}

// How many vectors a block has.
fn vectors_in(block: u32, vector: u32) -> u32
    requires least { 1 ≤ vector }
    requires most { block ≤ MOST_BLOCK }
    requires within { vector ≤ block }
    ensures { result ≡ vectors_in block vector }
{
    (block + vector - 1) / vector
}

// The input's name, but for `-`.
fn input_of(input: &str) -> Option<&str>
    ensures { option_copied result ≡ input_of input.now }
{
    if is_none_word(input) {
        return None;
    }
    Some(input)
}

fn is_none_word(word: &str) -> bool
    ensures { result ≡ is_none_word word.now }
{
    word == "-"
}

// Whether frames or rate are given beside an input file.
fn is_together(input: &str, settings: &Settings) -> bool
    ensures { result ≡ is_together input.now (settings_in settings.now) }
{
    !is_none_word(input) && (settings.frames.is_some() || settings.rate.is_some())
}

// Whether the output's text is that of another file.
fn is_same(program: &str, input: &str, output: &str, controls: Option<&str>) -> bool
    ensures { result ≡ is_same program.now input.now output.now (option_copied controls.entry) }
{
    if output == program || output == input {
        return true;
    }
    match controls {
        None => false,
        Some(name) => output == name,
    }
}
