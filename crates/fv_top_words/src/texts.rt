// The plain words and the values of the options, as they are spelled.

ghost use Rattle.std.specs.Prelude.{◌≡◌, [], map, string_bytes, is_some, option_map, option_copied};
ghost use Rattle.std.specs.List.{list_any};
ghost use Rattle.fv_top_words.specs.inner.Reader.{Any as any_word};
ghost use Rattle.fv_top_words.specs.headline.Pieces.{Given};
ghost use Rattle.fv_top_words.specs.headline.Texts.{add, take_piece, texts_of, no_options};
ghost use Rattle.fv_top_words.specs.inner.Reader.{once};
ghost use Rattle.fv_top_words.specs.Views.{texts_in, options_in, read_in, read_more};

use crate::word::{Kind, kind_of};

/// The plain words, in order; no command has more than three.
#[derive(Clone, Copy)]
pub enum Plain<'a> {
    None,
    One(&'a str),
    Two(&'a str, &'a str),
    Three(&'a str, &'a str, &'a str),
}

/// The words after the command word, as they are spelled.
#[derive(Clone, Copy)]
pub struct Texts<'a> {
    /// The words that are no options.
    pub plain: Plain<'a>,
    /// The value of the option for the control script.
    pub controls: Option<&'a str>,
    /// The value of the option for the most frames of a block.
    pub block: Option<&'a str>,
    /// The value of the option for the frames of a vector.
    pub vector: Option<&'a str>,
    /// The value of the option for the number of workers.
    pub workers: Option<&'a str>,
    /// The value of the option for the bits of the output's samples.
    pub bits: Option<&'a str>,
    /// The value of the option for the number of frames.
    pub frames: Option<&'a str>,
    /// The value of the option for the frames a second.
    pub rate: Option<&'a str>,
}

// What may stand next.
#[derive(Clone, Copy)]
enum State<'a> {
    Any,
    Value(&'a str),
    Names,
}

// The words so far.
#[derive(Clone, Copy)]
struct Reader<'a> {
    state: State<'a>,
    texts: Texts<'a>,
}

/// The texts of these words, or nothing where they are of no form.
pub fn texts_of(words: &[String]) -> Option<Texts<'_>>
    ensures { option_map texts_in result ≡ texts_of (map string_bytes words.now) }
{
    let mut reader = Reader {
        state: State::Any,
        texts: no_texts(),
    };
    for word in words {
        reader = reader.take(word.as_str())?;
    }
    match reader.state {
        State::Value(_) => None,
        State::Any | State::Names => Some(reader.texts),
    }
}

fn no_texts<'a>() -> Texts<'a>
    ensures { texts_in result ≡ record { plain = []; options = no_options } }
{
    Texts {
        plain: Plain::None,
        controls: None,
        block: None,
        vector: None,
        workers: None,
        bits: None,
        frames: None,
        rate: None,
    }
}

impl<'a> Reader<'a> {
    // With one word more.
    fn take(self, word: &'a str) -> Option<Reader<'a>>
        ensures { option_map read_in result ≡ read_more (read_in self.entry) word.now }
    {
        match self.state {
            State::Any => self.take_any(word),
            State::Value(name) => Some(Reader {
                state: State::Any,
                texts: self.texts.put(name, word)?,
            }),
            State::Names => Some(Reader {
                state: State::Names,
                texts: self.texts.add(word)?,
            }),
        }
    }

    // With a word where options may stand.
    fn take_any(self, word: &'a str) -> Option<Reader<'a>>
        ensures { option_map read_in result
            ≡ read_more (record { state = any_word; texts = texts_in self.entry.texts }) word.now }
    {
        match kind_of(word) {
            Kind::Plain => Some(Reader {
                state: State::Any,
                texts: self.texts.add(word)?,
            }),
            Kind::Ends => Some(Reader {
                state: State::Names,
                texts: self.texts,
            }),
            Kind::Apart => Some(Reader {
                state: State::Value(word),
                texts: self.texts,
            }),
            Kind::Joined { name, value } => Some(Reader {
                state: State::Any,
                texts: self.texts.put(name, value)?,
            }),
        }
    }
}

impl<'a> Texts<'a> {
    // With a plain word more.
    fn add(self, word: &'a str) -> Option<Texts<'a>>
        ensures { option_map texts_in result ≡ add word.now (texts_in self.entry) }
    {
        let plain = match self.plain {
            Plain::None => Plain::One(word),
            Plain::One(a) => Plain::Two(a, word),
            Plain::Two(a, b) => Plain::Three(a, b, word),
            Plain::Three(_, _, _) => return None,
        };
        Some(Texts { plain, ..self })
    }

    /// Whether an option is given.
    pub fn has_options(&self) -> bool
        ensures { result ≡ list_any (λ o. is_some o.1) (options_in self.now) }
    {
        self.controls.is_some()
            || self.block.is_some()
            || self.vector.is_some()
            || self.workers.is_some()
            || self.bits.is_some()
            || self.frames.is_some()
            || self.rate.is_some()
    }

    // With an option more. They have one row each.
    fn put(mut self, name: &str, value: &'a str) -> Option<Texts<'a>>
        ensures { option_map texts_in result ≡ take_piece (Given name.now value.now) (texts_in self.entry) }
    {
        match name {
            "--controls" => {
                self.controls = once(self.controls, value)?;
                Some(self)
            }
            "--block" => {
                self.block = once(self.block, value)?;
                Some(self)
            }
            "--vector" => {
                self.vector = once(self.vector, value)?;
                Some(self)
            }
            "--workers" => {
                self.workers = once(self.workers, value)?;
                Some(self)
            }
            "--bits" => {
                self.bits = once(self.bits, value)?;
                Some(self)
            }
            "--frames" => {
                self.frames = once(self.frames, value)?;
                Some(self)
            }
            "--rate" => {
                self.rate = once(self.rate, value)?;
                Some(self)
            }
            _ => None,
        }
    }
}

// The value of an option, which is given once.
fn once<'a>(before: Option<&'a str>, value: &'a str) -> Option<Option<&'a str>>
    ensures { option_map option_copied result ≡ once (option_copied before.entry) value.now }
{
    match before {
        None => Some(Some(value)),
        Some(_) => None,
    }
}
