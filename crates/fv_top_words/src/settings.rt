// How a run is done.

ghost use Rattle.std.specs.Prelude.{◌≡◌, true};
ghost use Rattle.std.specs.Option.{ForSome};
ghost use Rattle.fv_top_words.specs.headline.Runs.{is_width};

/// How a run is done.
#[derive(Clone, Copy)]
pub struct Settings {
    /// The most frames of a block, 1 to 4096.
    pub block: u32,
    /// The frames of a vector, 1 to the block's.
    pub vector: u32,
    /// How many workers run each block, 1 to 16.
    pub workers: u32,
    /// The bits of the output's samples, where they are not the input's: 8, 16, 24 or 32.
    pub bits: Option<u32>,
    /// The number of frames, where there is no input file.
    pub frames: Option<u32>,
    /// The frames a second, where there is no input file.
    pub rate: Option<u32>,
    pub ghost width: { ForSome bits (λ n. is_width n ≡ true) },
}
