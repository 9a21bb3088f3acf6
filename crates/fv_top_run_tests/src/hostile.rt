// Desks that give and take little at a time, and desks that fail.

ghost use Rattle.std.specs.Prelude.{◌≤◌};

use fv_outside::{MemoryDesk, Role};
use std::alloc::{AllocError, Global};
use std::sync::Wait;
use std::test::Fail;
use std::thread::Threads;
use test_runs::{
    BLOCKS_OF_FOUR, End, GAIN, Row, THREE, TO_AU, WORDS, assert_ends, desk_of, status_of,
};

const ROLES: [Role; 5] = [
    Role::Program,
    Role::Controls,
    Role::Input,
    Role::Output,
    Role::Report,
];

/// Five frames of 5, and what the gain makes of them.
pub const FIVE: [u8; 54] =
    *b"RIFF\x2e\0\0\0WAVEfmt \x10\0\0\0\x01\0\x01\0\x44\xac\0\0\x88\x58\x01\0\x02\0\x10\0data\x0a\0\0\0\x05\0\x05\0\x05\0\x05\0\x05\0";

const GAINED: [u8; 54] =
    *b"RIFF\x2e\0\0\0WAVEfmt \x10\0\0\0\x01\0\x01\0\x44\xac\0\0\x88\x58\x01\0\x02\0\x10\0data\x0a\0\0\0\x05\0\x05\0\x0f\0\0\0\0\0";

// Two samples of 24 bits, 1 and -2, in an extensible file with an odd chunk.
const ODD: [u8; 86] = [
    82, 73, 70, 70, 78, 0, 0, 0, 87, 65, 86, 69, 102, 109, 116, 32, 40, 0, 0, 0, 254, 255, 1, 0,
    68, 172, 0, 0, 204, 4, 2, 0, 3, 0, 24, 0, 22, 0, 24, 0, 4, 0, 0, 0, 1, 0, 0, 0, 0, 0, 16, 0,
    128, 0, 0, 170, 0, 56, 155, 113, 76, 73, 83, 84, 3, 0, 0, 0, 65, 66, 67, 0, 100, 97, 116, 97,
    6, 0, 0, 0, 1, 0, 0, 254, 255, 255,
];

// Two samples of 24 bits, 1 and -2, after a plain head.
const PLAIN: [u8; 50] = [
    82, 73, 70, 70, 42, 0, 0, 0, 87, 65, 86, 69, 102, 109, 116, 32, 16, 0, 0, 0, 1, 0, 1, 0, 68,
    172, 0, 0, 204, 4, 2, 0, 3, 0, 24, 0, 100, 97, 116, 97, 6, 0, 0, 0, 1, 0, 0, 254, 255, 255,
];

// Three samples of 16 bits, 1, -2 and 3, in an AU file.
const AU_THREE: [u8; 30] =
    *b".snd\0\0\0\x18\0\0\0\x06\0\0\0\x03\0\0\xac\x44\0\0\0\x01\0\x01\xff\xfe\0\x03";

// Three samples of 16 bits, 1, -2 and 3, in an AU file whose size is not stated.
const AU_OPEN: [u8; 30] =
    *b".snd\0\0\0\x18\xff\xff\xff\xff\0\0\0\x03\0\0\xac\x44\0\0\0\x01\0\x01\xff\xfe\0\x03";

const WIRE_ROW: Row = (
    &WORDS,
    "process = _;",
    &THREE,
    (0, "done 3 frames\n", &THREE),
);

const GAIN_ROW: Row = (
    &BLOCKS_OF_FOUR,
    GAIN,
    &FIVE,
    (0, "done 5 frames\n", &GAINED),
);

const ODD_ROW: Row = (&WORDS, "process = _;", &ODD, (0, "done 2 frames\n", &PLAIN));

const AU_ROW: Row = (
    &TO_AU,
    "process = _;",
    &AU_THREE,
    (0, "done 3 frames\n", &AU_THREE),
);

const AU_OPEN_ROW: Row = (
    &TO_AU,
    "process = _;",
    &AU_OPEN,
    (0, "done 3 frames\n", &AU_THREE),
);

// A desk that gives and takes `size` bytes at a time.
fn desk_in_pieces(
    alloc: Global,
    text: &str,
    input: &[u8],
    size: u32,
) -> Result<MemoryDesk, AllocError>
    requires { 1 ≤ size }
{
    let mut desk = desk_of(alloc, text.as_bytes(), input)?;
    for role in ROLES {
        desk.pieces(role, size);
    }
    Ok(desk)
}

static IN_PIECES: [Row; 5] = [WIRE_ROW, GAIN_ROW, ODD_ROW, AU_ROW, AU_OPEN_ROW];

#[test]
fn plays_in_pieces(rt: HostRuntime) -> Result<(), Fail> {
    for (words, text, input, end) in &IN_PIECES {
        for size in 1..8 {
            let mut desk = desk_in_pieces(rt.alloc(), text, input, size)?;
            assert_ends(&rt, rt.alloc(), &mut desk, words, *end)?;
        }
    }
    Ok(())
}

// The line of a refusal for a fault of a role.
fn fault_line(role: Role) -> &'static str {
    match role {
        Role::Program => "refused 2 ReadFault program\n",
        Role::Input => "refused 2 ReadFault input\n",
        Role::Controls => "refused 2 ReadFault controls\n",
        Role::Output => "refused 3 WriteFault output\n",
        Role::Report => "refused 3 WriteFault report\n",
    }
}

// What is seen of a run whose call for a role failed: its line alone, after what was reported before only where the report failed, and
// of the whole output a part from the front.
fn is_fault(desk: &MemoryDesk, role: Role, output: &[u8]) -> bool {
    let line = fault_line(role).as_bytes();
    let report = desk.written(Role::Report);
    report.ends_with(line)
        && (role == Role::Report || report.len() == line.len())
        && output.starts_with(desk.written(Role::Output))
}

// A call for a role, with `size` bytes at a time, that is refused.
#[derive(Clone, Copy)]
struct Fault {
    role: Role,
    size: u32,
    call: u32,
}

// The desk of a row, of which a call will fail.
fn faulty_desk(alloc: Global, row: &Row<'_>, fault: &Fault) -> Result<MemoryDesk, AllocError>
    requires { 1 ≤ fault.now.size }
{
    let (_, text, input, _) = *row;
    let mut desk = desk_of(alloc, text.as_bytes(), input)?;
    desk.pieces(fault.role, fault.size);
    desk.fail(fault.role, fault.call)?;
    Ok(desk)
}

// Whether a run ends by the fault of this desk. Where it does not, it ends as its row says.
fn ends_by_fault(
    rt: &(impl Threads + Wait + Sync),
    alloc: Global,
    desk: &mut MemoryDesk,
    row: &Row<'_>,
    fault: &Fault,
) -> Result<bool, Fail> {
    let (words, _, _, (_, line, output)) = *row;
    let ended = status_of(rt, alloc, desk, words)?;
    if ended == 1 && is_fault(desk, fault.role, output) {
        return Ok(true);
    }
    let told = desk.written(Role::Report);
    if ended == 0 && told == line.as_bytes() && desk.written(Role::Output) == output {
        return Ok(false);
    }
    let Fault { role, size, call } = fault;
    Err(Fail::new(format_args!("{role:?} {size} {call}: {ended}")))
}

// Whether a run ends by the fault, on the desk of its row.
fn fails(
    rt: &(impl Threads + Wait + Sync),
    alloc: Global,
    row: &Row<'_>,
    fault: &Fault,
) -> Result<bool, Fail>
    requires { 1 ≤ fault.now.size }
{
    let mut desk = faulty_desk(alloc, row, fault)?;
    ends_by_fault(rt, alloc, &mut desk, row, fault)
}

// How many calls of a role a run makes, with `size` bytes at a time. Each of them is refused in turn, and the next one is not made.
fn calls_that_fail(
    rt: &(impl Threads + Wait + Sync),
    alloc: Global,
    row: &Row<'_>,
    role: Role,
    size: u32,
) -> Result<u32, Fail>
    requires { 1 ≤ size }
{
    for call in 0..200 {
        if !fails(rt, alloc, row, &Fault { role, size, call })? {
            return Ok(call);
        }
    }
    Ok(200)
}

/// Runs, and whether each has a script: one without asks for none.
static WITH_FAULTS: [(Row, bool); 3] = [(WIRE_ROW, false), (GAIN_ROW, true), (ODD_ROW, false)];

#[test]
fn each_call_of_each_role_fails(rt: HostRuntime) -> Result<(), Fail> {
    for (row, has_script) in &WITH_FAULTS {
        for role in ROLES {
            let is_asked = *has_script || role != Role::Controls;
            for size in [1, 1000] {
                let calls = calls_that_fail(&rt, rt.alloc(), row, role, size)?;
                assert!(rt; calls < 200 && (calls > 0) == is_asked, "{role:?} {size}");
            }
        }
    }
    Ok(())
}

static CALLS: [(Row, Role, u32); 6] = [
    (WIRE_ROW, Role::Program, 3),
    (WIRE_ROW, Role::Input, 13),
    (WIRE_ROW, Role::Output, 12),
    (WIRE_ROW, Role::Report, 3),
    (AU_ROW, Role::Input, 4),
    (AU_OPEN_ROW, Role::Input, 5),
];

#[test]
fn names_what_failed(rt: HostRuntime) -> Result<(), Fail> {
    for (row, role, calls) in &CALLS {
        assert_eq!(rt;
            calls_that_fail(&rt, rt.alloc(), row, *role, 1000)?,
            *calls,
            "{role:?}"
        );
    }
    Ok(())
}

// The desk of the gain on five frames, of which a call for a role will fail.
fn failing_desk(alloc: Global, role: Role, call: u32) -> Result<MemoryDesk, AllocError> {
    let mut desk = desk_of(alloc, GAIN.as_bytes(), &FIVE)?;
    desk.fail(role, call)?;
    Ok(desk)
}

// The next calls of the report fail too.
fn silence(desk: &mut MemoryDesk) -> Result<(), AllocError> {
    for later in 0..4 {
        desk.fail(Role::Report, later)?;
    }
    Ok(())
}

// A run over that desk ends so where the refusal's own line can not be written.
fn assert_ends_in_silence(
    rt: &(impl Threads + Wait + Sync),
    alloc: Global,
    role: Role,
    call: u32,
    end: End<'_>,
) -> Result<(), Fail> {
    let mut desk = failing_desk(alloc, role, call)?;
    silence(&mut desk)?;
    assert_ends(rt, alloc, &mut desk, &BLOCKS_OF_FOUR, end)
}

// Where it can not, the answer and the output are what they are on this desk, where it can. Whether there was a refusal.
fn ends_alike(
    rt: &(impl Threads + Wait + Sync),
    alloc: Global,
    desk: &mut MemoryDesk,
    role: Role,
    call: u32,
) -> Result<bool, Fail> {
    let ended = status_of(rt, alloc, desk, &BLOCKS_OF_FOUR)?;
    if ended == 0 {
        return Ok(false);
    }
    let end = (ended, "", desk.written(Role::Output));
    assert_ends_in_silence(rt, alloc, role, call, end)?;
    Ok(true)
}

// Whether a call for a role is refused; then the answer and the output are what they are where the run can report.
fn ends_alike_in_silence(
    rt: &(impl Threads + Wait + Sync),
    alloc: Global,
    role: Role,
    call: u32,
) -> Result<bool, Fail> {
    let mut desk = failing_desk(alloc, role, call)?;
    ends_alike(rt, alloc, &mut desk, role, call)
}

#[test]
fn a_line_that_fails_changes_nothing(rt: HostRuntime) -> Result<(), Fail> {
    for role in ROLES {
        for call in 0..20 {
            if !ends_alike_in_silence(&rt, rt.alloc(), role, call)? {
                break;
            }
        }
    }
    Ok(())
}

// A desk that has room for all but the last byte of an output.
fn desk_without_room(alloc: Global) -> Result<MemoryDesk, AllocError> {
    let mut desk = MemoryDesk::new(alloc);
    desk.put("p.dsp", b"process = _;")?;
    desk.put("in.wav", &THREE)?;
    desk.room(Role::Output, 49)?;
    desk.room(Role::Report, 100)?;
    Ok(desk)
}

#[test]
fn writes_what_there_is_room_for(rt: HostRuntime) -> Result<(), Fail> {
    let mut desk = desk_without_room(rt.alloc())?;
    let end = (1, "refused 3 WriteFault output\n", &THREE[..49]);
    assert_ends(&rt, rt.alloc(), &mut desk, &WORDS, end)
}
