// One line of a script.

ghost use Rattle.std.specs.Prelude.{◌≡◌, ◌+◌, ◌^◌, ◌<◌, ◌≤◌, ◌==◌, length, None, Some, Ok, Err};
ghost use Rattle.std.specs.Prelude.{IfOk, IfErr, IfSome, MatchOption, take, drop, position, bytes_eq, slice_index_or};
ghost use Rattle.std.specs.List.{position_or_len};
ghost use Rattle.std.specs.Str.Lines.{strip_carriage_return};
ghost use Rattle.fv_control.specs.headline.Script.{line_says, request_of, is_space, last_space, natural_to, value_of};
ghost use Rattle.fv_control.specs.headline.Script.{asked, Request as Asked};

use crate::refusal::ScriptRefusal;
use crate::script::Change;
use fv_base::decimal_of;
use fv_diagram::ControlInfo;

/// What a line asks for.
#[derive(Clone, Copy)]
struct Request<'a> {
    frame: u32,
    label: &'a [u8],
    value: i32,
}

/// What a line says: a change, or nothing.
#[tactic(auto, unfolding(crate::specs::headline::Script::line_says))]
pub fn read_line(
    line: &[u8],
    controls: &[ControlInfo],
    least: u32,
    number: u32,
) -> Result<Option<Change>, ScriptRefusal>
    requires { length controls.now < 2 ^ 32 }
    ensures { result ≡ line_says controls.now least number line.now }
{
    let line = bare(line);
    if line.is_empty() || line[0] == b'#' {
        return Ok(None);
    }
    match read_request(line) {
        Some(request) => change(request, controls, least, number),
        None => Err(ScriptRefusal::ControlLine { line: number }),
    }
}

// The line without a byte 13 at its end.
fn bare(line: &[u8]) -> &[u8]
    ensures { result.now ≡ strip_carriage_return line.now }
{
    if !line.is_empty() && line[line.len() - 1] == b'\r' {
        &line[..line.len() - 1]
    } else {
        line
    }
}

// What it asks for.
fn read_request(line: &[u8]) -> Option<Request<'_>>
    ensures { MatchOption result (request_of line.now ≡ None)
        (λ r. request_of line.now ≡ Some (record { frame = r.frame; label = r.label.now; value = r.value })) }
{
    let first = first_place(line, b' ');
    if first == line.len() {
        return None;
    }
    let rest = &line[first + 1..];
    let Some(last) = last_space(rest) else {
        return None;
    };
    if last == 0 {
        return None;
    }
    let Some(frame) = natural_to(&line[..first], 4294967295) else {
        return None;
    };
    let Some(value) = value_of(&rest[last + 1..]) else {
        return None;
    };
    Some(Request {
        frame: frame as u32,
        label: &rest[..last],
        value,
    })
}

/// The first place of this byte, or the length.
pub fn first_place(bytes: &[u8], wanted: u8) -> usize
    ensures place { result ≡ position_or_len (λ b. b == wanted) bytes.now }
    ensures within { result ≤ length bytes.now }
{
    for (i, b) in bytes.iter().enumerate() {
        if *b == wanted {
            return i;
        }
    }
    bytes.len()
}

// The place of the last space.
fn last_space(rest: &[u8]) -> Option<usize>
    ensures place { result ≡ last_space rest.now }
    ensures within { IfSome result (λ i. i < length rest.now) }
{
    let mut last = None;
    for i in 0..rest.len() {
        if rest[i] == b' ' {
            last = Some(i);
        }
    }
    last
}

// The number that one to ten digits write, if it is not above `most`.
fn natural_to(digits: &[u8], most: u64) -> Option<u64>
    ensures number { result ≡ natural_to most digits.now }
    ensures within { IfSome result (λ n. n ≤ most) }
{
    let Some(n) = decimal_of(digits) else {
        return None;
    };
    if n > most {
        return None;
    }
    Some(n)
}

// An optional sign and digits, within 32 bits.
fn value_of(bytes: &[u8]) -> Option<i32>
    ensures { result ≡ value_of bytes.now }
{
    if bytes.is_empty() {
        return None;
    }
    if bytes[0] == b'-' {
        return match natural_to(&bytes[1..], 2147483648) {
            Some(n) => Some((0 - n as i64) as i32),
            None => None,
        };
    }
    match natural_to(bytes, 2147483647) {
        Some(n) => Some(n as i32),
        None => None,
    }
}

// The change that is asked for.
fn change(
    request: Request<'_>,
    controls: &[ControlInfo],
    least: u32,
    number: u32,
) -> Result<Option<Change>, ScriptRefusal>
    requires { length controls.now < 2 ^ 32 }
    ensures { let r : Asked = record { frame = request.entry.frame; label = request.entry.label.now; value = request.entry.value } in
        result ≡ asked controls.now least number r (position (λ c. bytes_eq c.label r.label) controls.now) }
{
    let Some(k) = place_labelled(controls, request.label) else {
        return Err(ScriptRefusal::ControlUnknown { line: number });
    };
    let control = &controls[k];
    if request.value < control.min || request.value > control.max {
        return Err(ScriptRefusal::ControlRange { line: number });
    }
    if request.frame < least {
        return Err(ScriptRefusal::ControlOrder { line: number });
    }
    Ok(Some(Change {
        frame: request.frame,
        control: k as u32,
        value: request.value,
    }))
}

// The number of the control with this label.
fn place_labelled(controls: &[ControlInfo], label: &[u8]) -> Option<usize>
    ensures place { result ≡ position (λ c. bytes_eq c.label label.now) controls.now }
    ensures within { IfSome result (λ k. k < length controls.now) }
{
    controls.iter().position(|c| c.label.bytes() == label)
}
