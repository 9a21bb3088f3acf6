// The lines of the report.

ghost use Rattle.std.specs.Prelude.{◌≡◌, List, ℕ, ◌+◌, ◌≤◌, [], ◌∷◌, ◌++◌, length, codes, decimal, IsTrue, IsOk, OnOk, OnErr};
ghost use Rattle.std.specs.Fmt.{signed_decimal};
ghost use Rattle.fv_outside.specs.Role.TheVariants.{Report};
ghost use Rattle.fv_outside.specs.Lists.{IsPrefixOf};
ghost use Rattle.fv_outside.specs.headline.Desk.{HasFault, KeepsFaults, IsUnfailing};
ghost use Rattle.fv_outside.specs.Desk.{Appends};
ghost use Rattle.fv_top_report.specs.headline.Lines.{spaced, refused_line, check_line, made_line, done_line};
ghost use Rattle.fv_top_report.specs.Fields.{printed, listed};
ghost use Rattle.fv_top_report.specs.Parts.{AppendsPart};

use crate::line::{Field, Fields};
use crate::refusal::Refusal;
use fv_outside::{Desk, Failed, Role, write_all, write_pieces};
use itoa::Buffer;

/// Reports a run that is done. A call that fails leaves a part from the line's front.
pub fn report_done<D: Desk>(desk: &mut D, frames: u32) -> Result<(), Failed>
    ensures ok { OnOk result (Appends Report (done_line frames) (D.state desk.old) (D.state desk.new)) }
    ensures err { OnErr result ((part : List ℕ) × IsPrefixOf part (done_line frames) × Appends Report part (D.state desk.old) (D.state desk.new)) }
    ensures failed { OnErr result (HasFault Report (D.state desk.old) (D.state desk.new)) }
    ensures steady { OnOk result (KeepsFaults (D.state desk.old) (D.state desk.new)) }
    ensures answers { IsTrue (D.state desk.old).tells → IsUnfailing Report (D.state desk.old) →
        length ((D.state desk.old).written Report) + length (done_line frames) ≤ (D.state desk.old).room Report → IsOk result }
{
    let mut buffer = Buffer::new();
    let digits = buffer.format(frames).as_bytes();
    write_pieces(
        desk,
        Role::Report,
        &[b"done ".as_slice(), digits, b" frames\n".as_slice()],
    )
}

/// Reports a program that was checked. A call that fails leaves a part from the line's front.
pub fn report_numbers<D: Desk>(
    desk: &mut D,
    inputs: u32,
    outputs: u32,
    controls: u64,
    size: u32,
    delays: u64,
) -> Result<(), Failed>
    ensures ok { OnOk result (Appends Report (check_line inputs outputs controls size delays) (D.state desk.old) (D.state desk.new)) }
    ensures err { OnErr result ((part : List ℕ) × IsPrefixOf part (check_line inputs outputs controls size delays)
        × Appends Report part (D.state desk.old) (D.state desk.new)) }
    ensures failed { OnErr result (HasFault Report (D.state desk.old) (D.state desk.new)) }
    ensures steady { OnOk result (KeepsFaults (D.state desk.old) (D.state desk.new)) }
    ensures answers { IsTrue (D.state desk.old).tells → IsUnfailing Report (D.state desk.old) →
        length ((D.state desk.old).written Report) + length (check_line inputs outputs controls size delays) ≤ (D.state desk.old).room Report → IsOk result }
{
    let (mut a, mut b, mut c, mut d, mut e) = (
        Buffer::new(),
        Buffer::new(),
        Buffer::new(),
        Buffer::new(),
        Buffer::new(),
    );
    write_pieces(
        desk,
        Role::Report,
        &[
            b"inputs ".as_slice(),
            a.format(inputs).as_bytes(),
            b" outputs ".as_slice(),
            b.format(outputs).as_bytes(),
            b" controls ".as_slice(),
            c.format(controls).as_bytes(),
            b" size ".as_slice(),
            d.format(size).as_bytes(),
            b" delays ".as_slice(),
            e.format(delays).as_bytes(),
            b"\n".as_slice(),
        ],
    )
}

/// Reports the sum of a program that was made. A call that fails leaves a part from the line's front.
pub fn report_made<D: Desk>(desk: &mut D, voices: u32, frames: u32, sum: i32) -> Result<(), Failed>
    ensures ok { OnOk result (Appends Report (made_line voices frames sum) (D.state desk.old) (D.state desk.new)) }
    ensures err { OnErr result ((part : List ℕ) × IsPrefixOf part (made_line voices frames sum) × Appends Report part (D.state desk.old) (D.state desk.new)) }
    ensures failed { OnErr result (HasFault Report (D.state desk.old) (D.state desk.new)) }
    ensures steady { OnOk result (KeepsFaults (D.state desk.old) (D.state desk.new)) }
    ensures answers { IsTrue (D.state desk.old).tells → IsUnfailing Report (D.state desk.old) →
        length ((D.state desk.old).written Report) + length (made_line voices frames sum) ≤ (D.state desk.old).room Report → IsOk result }
{
    let (mut a, mut b, mut c) = (Buffer::new(), Buffer::new(), Buffer::new());
    write_pieces(
        desk,
        Role::Report,
        &[
            b"made ".as_slice(),
            a.format(voices).as_bytes(),
            b" voices, ".as_slice(),
            b.format(frames).as_bytes(),
            b" frames, sum ".as_slice(),
            c.format(sum).as_bytes(),
            b"\n".as_slice(),
        ],
    )
}

/// Reports a run that was refused. A call that fails leaves a part from the line's front.
#[tactic(auto, using(fv_outside::proofs::lemmas::States::steps))]
pub fn report_refusal<D: Desk>(desk: &mut D, refusal: &Refusal) -> Result<(), Failed>
    ensures ok { OnOk result (Appends Report (refused_line refusal.now) (D.state desk.old) (D.state desk.new)) }
    ensures err { OnErr result (AppendsPart Report (refused_line refusal.now) (D.state desk.old) (D.state desk.new)) }
    ensures failed { OnErr result (HasFault Report (D.state desk.old) (D.state desk.new)) }
{
    let row = refusal.row();
    write_front(desk, row.number, row.name)?;
    write_fields(desk, &row.fields)?;
    write_all(desk, Role::Report, b"\n")?;
    Ok(())
}

// Writes the line up to the name.
#[tactic(auto, using(fv_outside::proofs::lemmas::States::steps))]
fn write_front<D: Desk>(desk: &mut D, number: u32, name: &str) -> Result<(), Failed>
    ensures ok { OnOk result (Appends Report (codes "refused " ++ decimal number ++ codes " " ++ name.now) (D.state desk.old) (D.state desk.new)) }
    ensures err { OnErr result (AppendsPart Report (codes "refused " ++ decimal number ++ codes " " ++ name.now) (D.state desk.old) (D.state desk.new)) }
    ensures failed { OnErr result (HasFault Report (D.state desk.old) (D.state desk.new)) }
{
    let mut buffer = Buffer::new();
    let digits = buffer.format(number).as_bytes();
    write_pieces(
        desk,
        Role::Report,
        &[
            b"refused ".as_slice(),
            digits,
            b" ".as_slice(),
            name.as_bytes(),
        ],
    )
}

// Writes each field, one space before it.
fn write_fields<D: Desk>(desk: &mut D, fields: &Fields<'_>) -> Result<(), Failed>
    ensures ok { OnOk result (Appends Report (spaced (listed fields.now)) (D.state desk.old) (D.state desk.new)) }
    ensures err { OnErr result (AppendsPart Report (spaced (listed fields.now)) (D.state desk.old) (D.state desk.new)) }
    ensures failed { OnErr result (HasFault Report (D.state desk.old) (D.state desk.new)) }
{
    match fields {
        Fields::None => Ok(()),
        Fields::One(a) => write_one(desk, a),
        Fields::Two(a, b) => write_two(desk, a, b),
        Fields::Three(a, b, c) => write_three(desk, a, b, c),
    }
}

#[tactic(auto, using(fv_outside::proofs::lemmas::States::steps))]
fn write_one<D: Desk>(desk: &mut D, a: &Field<'_>) -> Result<(), Failed>
    ensures ok { OnOk result (Appends Report (spaced (printed a.now ∷ [])) (D.state desk.old) (D.state desk.new)) }
    ensures err { OnErr result (AppendsPart Report (spaced (printed a.now ∷ [])) (D.state desk.old) (D.state desk.new)) }
    ensures failed { OnErr result (HasFault Report (D.state desk.old) (D.state desk.new)) }
{
    write_field(desk, a)?;
    Ok(())
}

#[tactic(auto, using(fv_outside::proofs::lemmas::States::steps))]
fn write_two<D: Desk>(desk: &mut D, a: &Field<'_>, b: &Field<'_>) -> Result<(), Failed>
    ensures ok { OnOk result (Appends Report (spaced (printed a.now ∷ printed b.now ∷ [])) (D.state desk.old) (D.state desk.new)) }
    ensures err { OnErr result (AppendsPart Report (spaced (printed a.now ∷ printed b.now ∷ [])) (D.state desk.old) (D.state desk.new)) }
    ensures failed { OnErr result (HasFault Report (D.state desk.old) (D.state desk.new)) }
{
    write_field(desk, a)?;
    write_one(desk, b)?;
    Ok(())
}

#[tactic(auto, using(fv_outside::proofs::lemmas::States::steps))]
fn write_three<D: Desk>(
    desk: &mut D,
    a: &Field<'_>,
    b: &Field<'_>,
    c: &Field<'_>,
) -> Result<(), Failed>
    ensures ok { OnOk result (Appends Report (spaced (printed a.now ∷ printed b.now ∷ printed c.now ∷ [])) (D.state desk.old) (D.state desk.new)) }
    ensures err { OnErr result (AppendsPart Report (spaced (printed a.now ∷ printed b.now ∷ printed c.now ∷ [])) (D.state desk.old) (D.state desk.new)) }
    ensures failed { OnErr result (HasFault Report (D.state desk.old) (D.state desk.new)) }
{
    write_field(desk, a)?;
    write_two(desk, b, c)?;
    Ok(())
}

// Writes a field, one space before it.
fn write_field<D: Desk>(desk: &mut D, field: &Field<'_>) -> Result<(), Failed>
    ensures ok { OnOk result (Appends Report (codes " " ++ printed field.now) (D.state desk.old) (D.state desk.new)) }
    ensures err { OnErr result (AppendsPart Report (codes " " ++ printed field.now) (D.state desk.old) (D.state desk.new)) }
    ensures failed { OnErr result (HasFault Report (D.state desk.old) (D.state desk.new)) }
{
    match field {
        Field::Word(bytes) => write_word(desk, bytes),
        Field::Natural(n) => write_natural(desk, *n),
        Field::Integer(n) => write_integer(desk, *n),
    }
}

fn write_natural<D: Desk>(desk: &mut D, n: u64) -> Result<(), Failed>
    ensures ok { OnOk result (Appends Report (codes " " ++ decimal n) (D.state desk.old) (D.state desk.new)) }
    ensures err { OnErr result (AppendsPart Report (codes " " ++ decimal n) (D.state desk.old) (D.state desk.new)) }
    ensures failed { OnErr result (HasFault Report (D.state desk.old) (D.state desk.new)) }
{
    let mut buffer = Buffer::new();
    write_word(desk, buffer.format(n).as_bytes())
}

fn write_integer<D: Desk>(desk: &mut D, n: i32) -> Result<(), Failed>
    ensures ok { OnOk result (Appends Report (codes " " ++ signed_decimal n) (D.state desk.old) (D.state desk.new)) }
    ensures err { OnErr result (AppendsPart Report (codes " " ++ signed_decimal n) (D.state desk.old) (D.state desk.new)) }
    ensures failed { OnErr result (HasFault Report (D.state desk.old) (D.state desk.new)) }
{
    let mut buffer = Buffer::new();
    write_word(desk, buffer.format(n).as_bytes())
}

// Writes some bytes, one space before them.
#[tactic(auto, using(fv_outside::proofs::lemmas::States::steps))]
fn write_word<D: Desk>(desk: &mut D, bytes: &[u8]) -> Result<(), Failed>
    ensures ok { OnOk result (Appends Report (codes " " ++ bytes.now) (D.state desk.old) (D.state desk.new)) }
    ensures err { OnErr result (AppendsPart Report (codes " " ++ bytes.now) (D.state desk.old) (D.state desk.new)) }
    ensures failed { OnErr result (HasFault Report (D.state desk.old) (D.state desk.new)) }
{
    write_all(desk, Role::Report, b" ")?;
    write_all(desk, Role::Report, bytes)?;
    Ok(())
}
