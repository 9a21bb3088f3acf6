// What the line of a refusal says.

ghost use Rattle.std.specs.Prelude.{◌≡◌, [], ◌∷◌, decimal};
ghost use Rattle.std.specs.Fmt.{signed_decimal};
ghost use Rattle.fv_top_report.specs.Fields.{listed};

/// What the line of a refusal says, and the exit status.
#[derive(Clone, Copy)]
pub struct Row<'a> {
    pub number: u32,
    pub status: u8,
    pub name: &'static str,
    pub fields: Fields<'a>,
}

/// What follows the name.
#[derive(Clone, Copy)]
pub enum Fields<'a> {
    None,
    One(Field<'a>),
    Two(Field<'a>, Field<'a>),
    Three(Field<'a>, Field<'a>, Field<'a>),
}

/// A field of a line.
#[derive(Clone, Copy)]
pub enum Field<'a> {
    Word(&'a [u8]),
    Natural(u64),
    Integer(i32),
}

/// A field that is a word.
pub fn text(bytes: &[u8]) -> Fields<'_>
    ensures { listed result ≡ bytes.now ∷ [] }
{
    Fields::One(Field::Word(bytes))
}

/// A field that is a number.
pub fn natural(n: u64) -> Fields<'static>
    ensures { listed result ≡ decimal n ∷ [] }
{
    Fields::One(Field::Natural(n))
}

/// A field that is a number with a sign.
pub fn integer(n: i32) -> Fields<'static>
    ensures { listed result ≡ signed_decimal n ∷ [] }
{
    Fields::One(Field::Integer(n))
}

/// Two numbers.
pub fn pair(a: u64, b: u64) -> Fields<'static>
    ensures { listed result ≡ decimal a ∷ decimal b ∷ [] }
{
    Fields::Two(Field::Natural(a), Field::Natural(b))
}

/// A place of the text.
pub fn place(line: u32, column: u32) -> Fields<'static>
    ensures { listed result ≡ decimal line ∷ decimal column ∷ [] }
{
    pair(u64::from(line), u64::from(column))
}
