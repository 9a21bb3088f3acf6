// One row for each refusal: what its line says, and the exit status.

ghost use Rattle.std.specs.Prelude.{◌≡◌, [], ◌∷◌, decimal};
ghost use Rattle.fv_top_report.specs.headline.Lines.{role_word, cause_word, kind_word, table_word, row as row_shown, row_of};
ghost use Rattle.fv_top_report.specs.headline.Lines.{text_status, program_status, file_status};
ghost use Rattle.fv_top_report.specs.Fields.{listed, shown};

use crate::line::{Field, Fields, Row, integer, natural, pair, place, text};
use crate::refusal::{Refusal, Refusal as No};
use fv_arity::ArityKind;
use fv_outside::Role;
use fv_rules::TableCause;
use fv_top_words::Cause;

/// The exit status where a file could not be read or written.
const FAULT: u8 = 1;

/// The exit status where the words are refused.
const USAGE: u8 = 2;

/// The exit status where the program is refused.
const PROGRAM: u8 = 3;

/// The exit status where a WAV or AU file or a control script is refused.
const FILE: u8 = 4;

/// The exit status where memory ran out.
const MEMORY: u8 = 5;

impl Refusal {
    /// Its row.
    pub fn row(&self) -> Row<'_>
        ensures { row_of self.now ≡ shown result }
    {
        row_of(self)
    }
}

// The table: the number, the name and the fields of each.
fn row_of(refusal: &Refusal) -> Row<'_>
    ensures { row_of refusal.now ≡ shown result }
{
    match *refusal {
        No::Usage { cause } => row(1, USAGE, "Usage", word(cause_name(cause))),
        No::ReadFault { role } => row(2, FAULT, "ReadFault", word(role_name(role))),
        No::WriteFault { role } => row(3, FAULT, "WriteFault", word(role_name(role))),
        No::TextTooLong { role } => row(4, text_status(role), "TextTooLong", word(role_name(role))),
        No::BadByte { line, column } => at(5, "BadByte", line, column),
        No::Unclosed { line, column } => at(6, "Unclosed", line, column),
        No::RealLiteral { line, column } => at(7, "RealLiteral", line, column),
        No::LiteralTooLarge { line, column } => at(8, "LiteralTooLarge", line, column),
        No::Syntax { line, column } => at(9, "Syntax", line, column),
        No::Unsupported { ref word } => named(10, "Unsupported", word.bytes()),
        No::Redefined { ref name } => named(11, "Redefined", name.bytes()),
        No::RepeatedName { ref name } => named(12, "RepeatedName", name.bytes()),
        No::RuleWidths { line, column } => at(13, "RuleWidths", line, column),
        No::NoProcess => program(14, "NoProcess", Fields::None),
        No::SizeBudget { size } => program(15, "SizeBudget", natural(u64::from(size))),
        No::Arity { kind, left, right } => program(16, "Arity", arity(kind, left, right)),
        No::UnknownName { ref name } => named(17, "UnknownName", name.bytes()),
        No::NotANumber { line, column } => at(18, "NotANumber", line, column),
        No::IterationCount { count } => program(19, "IterationCount", integer(count)),
        No::NoRule { line, column } => at(20, "NoRule", line, column),
        No::NotADiagram { line, column } => at(21, "NotADiagram", line, column),
        No::TooManyArguments { given, inputs } => program(
            22,
            "TooManyArguments",
            pair(given, inputs),
        ),
        No::EvalBudget => program(23, "EvalBudget", Fields::None),
        No::ControlClash { ref label } => named(24, "ControlClash", label.bytes()),
        No::ControlBounds { ref label } => named(25, "ControlBounds", label.bytes()),
        No::DelayNegative { least } => program(26, "DelayNegative", integer(least)),
        No::DelayTooLong { greatest } => program(27, "DelayTooLong", integer(greatest)),
        No::DelayBudget { sum } => program(28, "DelayBudget", natural(sum)),
        No::Channels { have, want } => program(
            29,
            "Channels",
            pair(u64::from(have), u64::from(want)),
        ),
        No::ControlLine { line } => script(30, "ControlLine", line),
        No::ControlUnknown { line } => script(31, "ControlUnknown", line),
        No::ControlRange { line } => script(32, "ControlRange", line),
        No::ControlOrder { line } => script(33, "ControlOrder", line),
        No::NotWave { place } => sound(34, "NotWave", place),
        No::WaveTruncated { place } => sound(35, "WaveTruncated", place),
        No::WaveFormat { place } => sound(36, "WaveFormat", place),
        No::WaveChunks { place } => sound(37, "WaveChunks", place),
        No::OutputTooLong { bytes } => sound(38, "OutputTooLong", bytes),
        No::FramesNeeded => row(39, USAGE, "FramesNeeded", Fields::None),
        No::NoMemory => row(40, MEMORY, "NoMemory", Fields::None),
        No::TableForm { cause } => program(41, "TableForm", word(table_name(cause))),
        No::TableBudget { sum } => program(42, "TableBudget", natural(sum)),
        No::Nesting { line, column } => at(43, "Nesting", line, column),
        No::AuFormat { place } => sound(44, "AuFormat", place),
        No::AuTruncated { place } => sound(45, "AuTruncated", place),
        No::Job { job, number } => program(46, "Job", pair(job, u64::from(number))),
        No::RackSize { jobs } => program(47, "RackSize", natural(jobs)),
    }
}

// A row of these four.
fn row<'a>(number: u32, status: u8, name: &'static str, fields: Fields<'a>) -> Row<'a>
    ensures { shown result ≡ row_shown number status name.now (listed fields.entry) }
{
    Row {
        number,
        status,
        name,
        fields,
    }
}

// The row of a program that is refused.
fn program<'a>(number: u32, name: &'static str, fields: Fields<'a>) -> Row<'a>
    ensures { shown result ≡ row_shown number program_status name.now (listed fields.entry) }
{
    row(number, PROGRAM, name, fields)
}

// The row of a WAV or AU file, or of a control script, that is refused.
fn file<'a>(number: u32, name: &'static str, fields: Fields<'a>) -> Row<'a>
    ensures { shown result ≡ row_shown number file_status name.now (listed fields.entry) }
{
    row(number, FILE, name, fields)
}

// The row of a program that is refused for what stands there.
fn at(number: u32, name: &'static str, line: u32, column: u32) -> Row<'static>
    ensures { shown result ≡ row_shown number program_status name.now (decimal line ∷ decimal column ∷ []) }
{
    program(number, name, place(line, column))
}

// The row of a program that is refused for a word or a label of it.
fn named<'a>(number: u32, name: &'static str, word: &'a [u8]) -> Row<'a>
    ensures { shown result ≡ row_shown number program_status name.now (word.now ∷ []) }
{
    program(number, name, text(word))
}

// The row of a control script that is refused for this line.
fn script(number: u32, name: &'static str, line: u32) -> Row<'static>
    ensures { shown result ≡ row_shown number file_status name.now (decimal line ∷ []) }
{
    file(number, name, natural(u64::from(line)))
}

// The row of a WAV or AU file that is refused for the byte there, or for its size.
fn sound(number: u32, name: &'static str, place: u64) -> Row<'static>
    ensures { shown result ≡ row_shown number file_status name.now (decimal place ∷ []) }
{
    file(number, name, natural(place))
}

// A word of these tables.
fn word(name: &'static str) -> Fields<'static>
    ensures { listed result ≡ name.now ∷ [] }
{
    text(name.as_bytes())
}

// A kind of composition, and two numbers.
fn arity(kind: ArityKind, left: u32, right: u32) -> Fields<'static>
    ensures { listed result ≡ kind_word kind ∷ decimal left ∷ decimal right ∷ [] }
{
    Fields::Three(
        Field::Word(kind_name(kind).as_bytes()),
        Field::Natural(u64::from(left)),
        Field::Natural(u64::from(right)),
    )
}

// A text that is too long is a program's, or a script.
fn text_status(role: Role) -> u8
    ensures { result ≡ text_status role }
{
    match role {
        Role::Controls => FILE,
        Role::Program | Role::Input | Role::Output | Role::Report => PROGRAM,
    }
}

fn cause_name(cause: Cause) -> &'static str
    ensures { result.now ≡ cause_word cause }
{
    match cause {
        Cause::Form => "form",
        Cause::Number => "number",
        Cause::Range => "range",
        Cause::Vectors => "vectors",
        Cause::Together => "together",
        Cause::Same => "same",
    }
}

fn role_name(role: Role) -> &'static str
    ensures { result.now ≡ role_word role }
{
    match role {
        Role::Program => "program",
        Role::Input => "input",
        Role::Controls => "controls",
        Role::Output => "output",
        Role::Report => "report",
    }
}

fn table_name(cause: TableCause) -> &'static str
    ensures { result.now ≡ table_word cause }
{
    match cause {
        TableCause::Head => "head",
        TableCause::Size => "size",
        TableCause::Primitive => "primitive",
    }
}

fn kind_name(kind: ArityKind) -> &'static str
    ensures { result.now ≡ kind_word kind }
{
    match kind {
        ArityKind::Seq => "seq",
        ArityKind::Split => "split",
        ArityKind::Merge => "merge",
        ArityKind::RecOut => "recout",
        ArityKind::RecIn => "recin",
    }
}
