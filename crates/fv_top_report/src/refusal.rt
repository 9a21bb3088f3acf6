// Why a run is refused.

ghost use Rattle.std.specs.Prelude.{◌≡◌};
ghost use Rattle.fv_top_report.specs.headline.Lines.{row_of};
ghost use Rattle.fv_top_report.specs.Lines.{status_of};
ghost use Rattle.fv_top_report.specs.headline.Layers.{of_jobs, of_bytes, of_tokens, of_value};
ghost use Rattle.fv_top_report.specs.Layers.{of_delay};
ghost use Rattle.fv_top_report.specs.headline.Layers.{of_script, of_wave, of_au};
ghost use Rattle.fv_top_report.specs.declared.refusal.Refusal.TheVariants.{Usage, NoMemory};

use fv_arity::ArityKind;
use fv_au::AuRefusal;
use fv_control::ScriptRefusal;
use fv_diagram::Label;
use fv_interval::DelayRefusal;
use fv_jobs::JobsRefusal;
use fv_lex::LexRefusal;
use fv_outside::{Role, Word};
use fv_parse::ParseRefusal;
use fv_rules::{EvalRefusal, TableCause};
use fv_top_words::Cause;
use fv_wav::WaveRefusal;
use std::alloc::AllocError;

/// Why a run was refused. Lines and columns of the program's text, and lines of a script, count from 1; a column is one byte.
#[derive(Drop)]
pub enum Refusal {
    /// The words are not those of a command.
    Usage {
        cause: Cause,
    },
    /// A file of this role could not be read.
    ReadFault {
        role: Role,
    },
    /// A file of this role could not be written.
    WriteFault {
        role: Role,
    },
    /// The text of this role has more than 1,048,576 bytes.
    TextTooLong {
        role: Role,
    },
    /// No token begins with the byte there.
    BadByte {
        line: u32,
        column: u32,
    },
    /// The comment or string that starts there never ends.
    Unclosed {
        line: u32,
        column: u32,
    },
    /// A number with a fraction or an exponent starts there.
    RealLiteral {
        line: u32,
        column: u32,
    },
    /// An integer above 2147483647 starts there.
    LiteralTooLarge {
        line: u32,
        column: u32,
    },
    /// Up to this place the tokens could go on to a program; with the next token, or the end, they cannot.
    Syntax {
        line: u32,
        column: u32,
    },
    /// A token of the text that is not supported.
    Unsupported {
        word: Word,
    },
    /// One list defines this name more than once, and once without parameters.
    Redefined {
        name: Word,
    },
    /// This name occurs twice among the parameters of a definition, or in a rule's patterns.
    RepeatedName {
        name: Word,
    },
    /// The rule there and the first rule of its case differ in how many patterns they have.
    RuleWidths {
        line: u32,
        column: u32,
    },
    /// No outermost definition is of `process`.
    NoProcess,
    /// A diagram would have `size` nodes, more than 16,384.
    SizeBudget {
        size: u32,
    },
    /// Two diagrams do not compose.
    Arity {
        kind: ArityKind,
        left: u32,
        right: u32,
    },
    /// Nothing binds this name.
    UnknownName {
        name: Word,
    },
    /// The iteration count or control parameter there is no number.
    NotANumber {
        line: u32,
        column: u32,
    },
    /// An iteration is to be made `count` times, less than once.
    IterationCount {
        count: i32,
    },
    /// In the application there no rule matches.
    NoRule {
        line: u32,
        column: u32,
    },
    /// The rules there are not applied, where a diagram is needed.
    NotADiagram {
        line: u32,
        column: u32,
    },
    /// A diagram with `inputs` inputs is applied to arguments with `given` outputs, which are more.
    TooManyArguments {
        given: u64,
        inputs: u64,
    },
    /// Evaluation takes more than 1,000,000 visits.
    EvalBudget,
    /// A label has two kinds of control, or two ranges.
    ControlClash {
        label: Label,
    },
    /// The initial value of this control is not in its range.
    ControlBounds {
        label: Label,
    },
    /// What stands before `rdtable` or `rwtable` is no table, or the program still has one of the two.
    TableForm {
        cause: TableCause,
    },
    /// The waveforms and tables of the program would cost `sum` together, more than 16,777,216.
    TableBudget {
        sum: u64,
    },
    /// A delay may be less than 0.
    DelayNegative {
        least: i32,
    },
    /// A delay may be more than 1,048,575.
    DelayTooLong {
        greatest: i32,
    },
    /// All delays together are more than 16,777,216.
    DelayBudget {
        sum: u64,
    },
    /// There are `have` channels, where `want` are wanted or are the most.
    Channels {
        have: u32,
        want: u32,
    },
    /// A line of the script is not of the form.
    ControlLine {
        line: u32,
    },
    /// A line of the script names no control of the program.
    ControlUnknown {
        line: u32,
    },
    /// A line of the script has a value outside the control's range.
    ControlRange {
        line: u32,
    },
    /// A line of the script has a frame before that of an earlier line.
    ControlOrder {
        line: u32,
    },
    /// The file is no WAV file.
    NotWave {
        place: u64,
    },
    /// The WAV file ends before a byte that is needed.
    WaveTruncated {
        place: u64,
    },
    /// The WAV file is not of a form that can be read.
    WaveFormat {
        place: u64,
    },
    /// Too many chunks stand before the samples of the WAV file.
    WaveChunks {
        place: u64,
    },
    /// The output would have `bytes` bytes of samples, more than a head can state.
    OutputTooLong {
        bytes: u64,
    },
    /// There is no input, and the number of frames is not given.
    FramesNeeded,
    /// Memory ran out.
    NoMemory,
    /// The 129th bracket that is open at once stands there.
    Nesting {
        line: u32,
        column: u32,
    },
    /// An AU file is not of a form that can be read.
    AuFormat {
        place: u64,
    },
    /// The AU file ends before a byte that is needed.
    AuTruncated {
        place: u64,
    },
    /// The text of this job is the first of its file that is refused, for what has this number.
    Job {
        job: u64,
        number: u32,
    },
    /// The file has `jobs` jobs, more than 16.
    RackSize {
        jobs: u64,
    },
}

impl Refusal {
    /// The refusal's number.
    pub fn number(&self) -> u32
        ensures { result ≡ (row_of self.now).number }
    {
        self.row().number
    }

    /// The exit status of a run that ends so.
    pub fn status(&self) -> u8
        ensures { result ≡ status_of self.now }
    {
        self.row().status
    }
}

impl From<Cause> for Refusal {
    ghost from_gives = { λ cause refusal. refusal ≡ Usage cause };

    fn from(cause: Cause) -> Refusal {
        Refusal::Usage { cause }
    }
}

impl From<AllocError> for Refusal {
    ghost from_gives = { λ _ refusal. refusal ≡ NoMemory };

    fn from(_error: AllocError) -> Refusal {
        Refusal::NoMemory
    }
}

impl From<JobsRefusal> for Refusal {
    ghost from_gives = { λ e refusal. refusal ≡ of_jobs e };

    fn from(e: JobsRefusal) -> Refusal {
        match e {
            JobsRefusal::TextTooLong { role } => Refusal::TextTooLong { role },
            JobsRefusal::RackSize { jobs } => Refusal::RackSize { jobs },
            JobsRefusal::NoMemory => Refusal::NoMemory,
        }
    }
}

impl From<LexRefusal> for Refusal {
    ghost from_gives = { λ e refusal. refusal ≡ of_bytes e };

    fn from(e: LexRefusal) -> Refusal {
        match e {
            LexRefusal::TextTooLong { role } => Refusal::TextTooLong { role },
            LexRefusal::BadByte { line, column } => Refusal::BadByte { line, column },
            LexRefusal::Unclosed { line, column } => Refusal::Unclosed { line, column },
            LexRefusal::RealLiteral { line, column } => Refusal::RealLiteral { line, column },
            LexRefusal::LiteralTooLarge { line, column } => {
                Refusal::LiteralTooLarge { line, column }
            }
            LexRefusal::Nesting { line, column } => Refusal::Nesting { line, column },
            LexRefusal::NoMemory => Refusal::NoMemory,
        }
    }
}

impl From<ParseRefusal> for Refusal {
    ghost from_gives = { λ e refusal. refusal ≡ of_tokens e };

    fn from(e: ParseRefusal) -> Refusal {
        match e {
            ParseRefusal::Syntax { line, column } => Refusal::Syntax { line, column },
            ParseRefusal::Unsupported { word } => Refusal::Unsupported { word },
            ParseRefusal::Redefined { name } => Refusal::Redefined { name },
            ParseRefusal::RepeatedName { name } => Refusal::RepeatedName { name },
            ParseRefusal::RuleWidths { line, column } => Refusal::RuleWidths { line, column },
            ParseRefusal::NoProcess => Refusal::NoProcess,
            ParseRefusal::NoMemory => Refusal::NoMemory,
        }
    }
}

impl From<EvalRefusal> for Refusal {
    ghost from_gives = { λ e refusal. refusal ≡ of_value e };

    fn from(e: EvalRefusal) -> Refusal {
        match e {
            EvalRefusal::SizeBudget { size } => Refusal::SizeBudget { size },
            EvalRefusal::Arity { kind, left, right } => Refusal::Arity { kind, left, right },
            EvalRefusal::UnknownName { name } => Refusal::UnknownName { name },
            EvalRefusal::NotANumber { line, column } => Refusal::NotANumber { line, column },
            EvalRefusal::IterationCount { count } => Refusal::IterationCount { count },
            EvalRefusal::NoRule { line, column } => Refusal::NoRule { line, column },
            EvalRefusal::NotADiagram { line, column } => Refusal::NotADiagram { line, column },
            EvalRefusal::TooManyArguments { given, inputs } => {
                Refusal::TooManyArguments { given, inputs }
            }
            EvalRefusal::EvalBudget => Refusal::EvalBudget,
            EvalRefusal::ControlClash { label } => Refusal::ControlClash { label },
            EvalRefusal::ControlBounds { label } => Refusal::ControlBounds { label },
            EvalRefusal::TableForm { cause } => Refusal::TableForm { cause },
            EvalRefusal::TableBudget { sum } => Refusal::TableBudget { sum },
            EvalRefusal::NoMemory => Refusal::NoMemory,
        }
    }
}

impl From<DelayRefusal> for Refusal {
    ghost from_gives = { λ e refusal. refusal ≡ of_delay e };

    fn from(e: DelayRefusal) -> Refusal {
        match e {
            DelayRefusal::DelayNegative { least } => Refusal::DelayNegative { least },
            DelayRefusal::DelayTooLong { greatest } => Refusal::DelayTooLong { greatest },
            DelayRefusal::DelayBudget { sum } => Refusal::DelayBudget { sum },
            DelayRefusal::NoMemory => Refusal::NoMemory,
        }
    }
}

impl From<ScriptRefusal> for Refusal {
    ghost from_gives = { λ e refusal. refusal ≡ of_script e };

    fn from(e: ScriptRefusal) -> Refusal {
        match e {
            ScriptRefusal::TextTooLong { role } => Refusal::TextTooLong { role },
            ScriptRefusal::ControlLine { line } => Refusal::ControlLine { line },
            ScriptRefusal::ControlUnknown { line } => Refusal::ControlUnknown { line },
            ScriptRefusal::ControlRange { line } => Refusal::ControlRange { line },
            ScriptRefusal::ControlOrder { line } => Refusal::ControlOrder { line },
            ScriptRefusal::NoMemory => Refusal::NoMemory,
        }
    }
}

impl From<WaveRefusal> for Refusal {
    ghost from_gives = { λ e refusal. refusal ≡ of_wave e };

    fn from(e: WaveRefusal) -> Refusal {
        match e {
            WaveRefusal::ReadFault { role } => Refusal::ReadFault { role },
            WaveRefusal::NotWave { place } => Refusal::NotWave { place },
            WaveRefusal::WaveTruncated { place } => Refusal::WaveTruncated { place },
            WaveRefusal::WaveFormat { place } => Refusal::WaveFormat { place },
            WaveRefusal::WaveChunks { place } => Refusal::WaveChunks { place },
        }
    }
}

impl From<AuRefusal> for Refusal {
    ghost from_gives = { λ e refusal. refusal ≡ of_au e };

    fn from(e: AuRefusal) -> Refusal {
        match e {
            AuRefusal::ReadFault { role } => Refusal::ReadFault { role },
            AuRefusal::AuFormat { place } => Refusal::AuFormat { place },
            AuRefusal::AuTruncated { place } => Refusal::AuTruncated { place },
            AuRefusal::NoMemory => Refusal::NoMemory,
        }
    }
}
