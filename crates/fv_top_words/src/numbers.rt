// The numbers that words spell.

ghost use Rattle.std.specs.Prelude.{◌≡◌, option_copied};
ghost use Rattle.fv_top_words.specs.headline.Numbers.{number_in, number_if, numbers_of};
ghost use Rattle.fv_top_words.specs.Views.{options_in, numbers_answered};

use crate::cause::Cause;
use crate::texts::Texts;
use fv_base::decimal_of;

/// The numbers of the options that are given.
#[derive(Clone, Copy)]
pub struct Numbers {
    /// The most frames of a block.
    pub block: Option<u64>,
    /// The frames of a vector.
    pub vector: Option<u64>,
    /// How many workers run each block.
    pub workers: Option<u64>,
    /// The bits of the output's samples.
    pub bits: Option<u64>,
    /// How many frames the run has.
    pub frames: Option<u64>,
    /// The frames a second.
    pub rate: Option<u64>,
}

/// The numbers that the texts of the options spell, if each spells one.
pub fn numbers_of(texts: &Texts<'_>) -> Result<Numbers, Cause>
    ensures { numbers_answered result ≡ numbers_of (options_in texts.now) }
{
    Ok(Numbers {
        block: number_if(texts.block)?,
        vector: number_if(texts.vector)?,
        workers: number_if(texts.workers)?,
        bits: number_if(texts.bits)?,
        frames: number_if(texts.frames)?,
        rate: number_if(texts.rate)?,
    })
}

// The number of an option, where it is given.
fn number_if(text: Option<&str>) -> Result<Option<u64>, Cause>
    ensures { result ≡ number_if (option_copied text.entry) }
{
    match text {
        None => Ok(None),
        Some(word) => {
            let n = number_in(word)?;
            Ok(Some(n))
        }
    }
}

/// The number that a word has to spell: one to ten digits.
pub fn number_in(word: &str) -> Result<u64, Cause>
    ensures { result ≡ number_in word.now }
{
    match decimal_of(word.as_bytes()) {
        None => Err(Cause::Number),
        Some(n) => Ok(n),
    }
}
