//! Scripts, with their changes or what refuses them.

ghost use Rattle.std.specs.Prelude.{◌≡◌, length, IfOk};

use fv_base::Role;
use fv_control::{Change, Script, ScriptRefusal};
use fv_diagram::{ControlInfo, ControlKind, Label};
use std::alloc::Global;
use std::process::Abort;
use std::test::Fail;

/// A slider of this label and range.
fn slider(alloc: Global, label: &[u8], min: i32, max: i32) -> Result<ControlInfo, Fail> {
    Ok(ControlInfo {
        kind: ControlKind::HSlider,
        label: Label::new(alloc, label)?,
        init: min,
        min,
        max,
    })
}

/// Controls 0 to 2: `g` from 0 to 10, `my gain` of the whole range, and ` g`.
fn controls(alloc: Global) -> Result<Vec<ControlInfo>, Fail>
    ensures { IfOk result (λ v. length v.items ≡ 3) }
{
    let mut controls = Vec::new(alloc);
    controls.push(slider(alloc, b"g", 0, 10)?)?;
    controls.push(slider(alloc, b"my gain", -2147483648, 2147483647)?)?;
    controls.push(slider(alloc, b" g", 0, 10)?)?;
    Ok(controls)
}

/// What the text spells for these controls.
fn read(alloc: Global, text: &[u8]) -> Result<Result<Script, ScriptRefusal>, Fail> {
    let controls = controls(alloc)?;
    Ok(Script::read(alloc, text, &controls))
}

/// Each text has these changes, each as frame, control and value.
fn expect_changes(
    rt: &impl Abort,
    alloc: Global,
    rows: &[(&[u8], &[(u32, u32, i32)])],
) -> Result<(), Fail> {
    for (text, changes) in rows {
        let mut expected = Vec::new(alloc);
        for (frame, control, value) in changes.iter() {
            expected.push(Change {
                frame: *frame,
                control: *control,
                value: *value,
            })?;
        }
        match read(alloc, text)? {
            Ok(script) => assert!(rt; script.changes() == expected.as_slice()),
            Err(_refusal) => panic!(rt; "refused"),
        }
    }
    Ok(())
}

// Texts, and their changes.
static CHANGES: [(&[u8], &[(u32, u32, i32)]); 12] = [
    (b"", &[]),
    (b"\n\r\n# 5 g 1\n", &[]),
    (b"5 g 1", &[(5, 0, 1)]),
    (b"5 g 1\n", &[(5, 0, 1)]),
    (b"5 g 1\r\n", &[(5, 0, 1)]),
    (b"5 g 0\n5 g 10\n", &[(5, 0, 0), (5, 0, 10)]),
    (b"0 my gain 3\n", &[(0, 1, 3)]),
    (b"0  g 1\n", &[(0, 2, 1)]),
    (b"0000000001 g 0000000002\n", &[(1, 0, 2)]),
    (b"4294967295 g 1\n", &[(4294967295, 0, 1)]),
    (
        b"0 my gain -2147483648\n0 my gain 2147483647\n",
        &[(0, 1, -2147483648), (0, 1, 2147483647)],
    ),
    (b"0 g -0\n", &[(0, 0, 0)]),
];

#[test]
fn changes(rt: HostRuntime) -> Result<(), Fail> {
    expect_changes(&rt, rt.alloc(), &CHANGES)
}

/// Each text is refused so.
fn expect_refusals(
    rt: &impl Abort,
    alloc: Global,
    rows: &[(&[u8], ScriptRefusal)],
) -> Result<(), Fail> {
    for (text, refusal) in rows {
        match read(alloc, text)? {
            Ok(_script) => panic!(rt; "not refused"),
            Err(found) => assert_eq!(rt; found, *refusal),
        }
    }
    Ok(())
}

// Texts, and what refuses them.
static REFUSALS: [(&[u8], ScriptRefusal); 18] = [
    (b"x g 1", ScriptRefusal::ControlLine { line: 1 }),
    (b"\n# a\n1 g\n", ScriptRefusal::ControlLine { line: 3 }),
    (b"0  1", ScriptRefusal::ControlLine { line: 1 }),
    (b" 0 g 1", ScriptRefusal::ControlLine { line: 1 }),
    (b"0 g 1 ", ScriptRefusal::ControlLine { line: 1 }),
    (b"0 g 1\r\r", ScriptRefusal::ControlLine { line: 1 }),
    (b"0 g +1", ScriptRefusal::ControlLine { line: 1 }),
    (b"0 g -", ScriptRefusal::ControlLine { line: 1 }),
    (b"00000000001 g 1", ScriptRefusal::ControlLine { line: 1 }),
    (b"4294967296 g 1", ScriptRefusal::ControlLine { line: 1 }),
    (
        b"0 my gain 2147483648",
        ScriptRefusal::ControlLine { line: 1 },
    ),
    (
        b"0 my gain -2147483649",
        ScriptRefusal::ControlLine { line: 1 },
    ),
    (b"0 h 99\n", ScriptRefusal::ControlUnknown { line: 1 }),
    (b"0 G 1\n", ScriptRefusal::ControlUnknown { line: 1 }),
    (b"9 g 1\n0 g 11\n", ScriptRefusal::ControlRange { line: 2 }),
    (b"0 g -1\n", ScriptRefusal::ControlRange { line: 1 }),
    (b"3 g 1\n2 g 1\n", ScriptRefusal::ControlOrder { line: 2 }),
    (b"1 g 1\nx\n0 g 1\n", ScriptRefusal::ControlLine { line: 2 }),
];

#[test]
fn refusals(rt: HostRuntime) -> Result<(), Fail> {
    expect_refusals(&rt, rt.alloc(), &REFUSALS)
}

/// `count` bytes of this value.
fn repeated(alloc: Global, byte: u8, count: usize) -> Result<Vec<u8>, Fail> {
    let mut bytes = Vec::new(alloc);
    bytes.resize(count, byte)?;
    Ok(bytes)
}

#[test]
fn lengths(rt: HostRuntime) -> Result<(), Fail> {
    let alloc = rt.alloc();
    let comment = repeated(alloc, b'#', 1048576)?;
    let digits = repeated(alloc, b'1', 1048576)?;
    let longer = repeated(alloc, b'#', 1048577)?;
    expect_changes(&rt, alloc, &[(&comment, &[])])?;
    let too_long = ScriptRefusal::TextTooLong {
        role: Role::Controls,
    };
    expect_refusals(
        &rt,
        alloc,
        &[
            (&digits, ScriptRefusal::ControlLine { line: 1 }),
            (&longer, too_long),
        ],
    )
}
