// One word.

ghost use Rattle.std.specs.Prelude.{◌≡◌};
ghost use Rattle.fv_top_words.specs.headline.Pieces.{is_dashed};
ghost use Rattle.fv_top_words.specs.inner.Reader.{kind_of, option_kind};
ghost use Rattle.fv_top_words.specs.Views.{kind_in};

/// What a word is, where options may stand.
#[derive(Clone, Copy)]
pub enum Kind<'a> {
    /// A name or a number.
    Plain,
    /// `--`: no option stands after it.
    Ends,
    /// An option whose value is the next word.
    Apart,
    /// An option with its value.
    Joined { name: &'a str, value: &'a str },
}

/// What the word is.
pub fn kind_of(word: &str) -> Kind<'_>
    ensures { kind_in result ≡ kind_of word.now }
{
    if !is_dashed(word) {
        return Kind::Plain;
    }
    if word == "--" {
        return Kind::Ends;
    }
    option_kind(word)
}

// Whether the word begins with a dash, and is more than that.
fn is_dashed(word: &str) -> bool
    ensures { result ≡ is_dashed word.now }
{
    match word.as_bytes() {
        [b'-', _, ..] => true,
        _ => false,
    }
}

// An option is cut at its first `=`.
fn option_kind(word: &str) -> Kind<'_>
    ensures { kind_in result ≡ option_kind word.now }
{
    match word.split_once('=') {
        Some((name, value)) => Kind::Joined { name, value },
        None => Kind::Apart,
    }
}
