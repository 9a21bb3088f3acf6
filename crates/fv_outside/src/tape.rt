// What a run hears its frames from, and says its frames to.

ghost use Rattle.std.specs.Prelude.{◌≡◌, ◌+◌, ◌*◌, ◌≤◌, ℕ, ℤ, List, [], ◌++◌, length, OnOk, IfErr};
ghost use Rattle.fv_outside.specs.Acts.{Act, Beginning, Hearing, Saying};

/// What a run hears its frames from, and says its frames to, some frames at a time. Both lie in a world that is handed to each call.
pub trait Tape<W> {
    /// Why it stops.
    type Stop;

    /// How many samples a frame has that is heard.
    ghost ears: { Self → ℕ };

    /// How many samples a frame has that is said.
    ghost mouth: { Self → ℕ };

    /// The most frames that may be heard or said at once.
    ghost most: { Self → ℕ };

    /// How many frames are left to hear.
    ghost left: { Self → ℕ };

    /// What each call asks of it, and keeps.
    ghost is_valid: { Self → Type 0 };

    /// Nothing was asked of it yet.
    ghost is_fresh: { Self → Type 0 };

    /// From one moment of the world to a later one these samples were heard, and those were said. It stands for what the tape was
    /// at first.
    ghost Went: { (first tape : Self) (start now : W) → (heard said : List ℤ) → Type 0 };

    /// It stopped after these samples, when it was asked for this, for this reason.
    ghost Stopped: { (first tape : Self) (start now : W) → (heard said : List ℤ) → Act → Self.Stop → Type 0 };

    /// Begins: comes before all that is heard and said.
    fn begin(&mut self, world: &mut W) -> Result<(), Self::Stop>
        requires valid { is_valid self.old }
        requires fresh { is_fresh self.old }
        ensures valid { is_valid self.new }
        ensures ears { ears self.new ≡ ears self.old }
        ensures mouth { mouth self.new ≡ mouth self.old }
        ensures most { most self.new ≡ most self.old }
        ensures left { left self.new ≡ left self.old }
        ensures ok { OnOk result (Went self.old self.new world.old world.new [] []) }
        ensures err { IfErr result (Stopped self.old self.new world.old world.new [] [] Beginning) };

    /// Hears the next `frames` frames. `to` gets their samples, interleaved by channel.
    fn hear(&mut self, world: &mut W, frames: u32, to: &mut [i32]) -> Result<(), Self::Stop>
        requires valid { is_valid self.old }
        requires few { frames ≤ most self.old }
        requires there { frames ≤ left self.old }
        requires room { length to.old ≡ frames * ears self.old }
        ensures valid { is_valid self.new }
        ensures ears { ears self.new ≡ ears self.old }
        ensures mouth { mouth self.new ≡ mouth self.old }
        ensures most { most self.new ≡ most self.old }
        ensures left { OnOk result (left self.new + frames ≡ left self.old) }
        ensures ok { OnOk result ((first : Self) (start : W) (h s : List ℤ) → Went first self.old start world.old h s
            → Went first self.new start world.new (h ++ to.new) s) }
        ensures err { IfErr result (λ e. (first : Self) (start : W) (h s : List ℤ) → Went first self.old start world.old h s
            → Stopped first self.new start world.new h s (Hearing frames) e) };

    /// Says `frames` frames more. `samples` are interleaved by channel.
    fn say(&mut self, world: &mut W, frames: u32, samples: &[i32]) -> Result<(), Self::Stop>
        requires valid { is_valid self.old }
        requires few { frames ≤ most self.old }
        requires room { length samples.now ≡ frames * mouth self.old }
        ensures valid { is_valid self.new }
        ensures ears { ears self.new ≡ ears self.old }
        ensures mouth { mouth self.new ≡ mouth self.old }
        ensures most { most self.new ≡ most self.old }
        ensures left { left self.new ≡ left self.old }
        ensures ok { OnOk result ((first : Self) (start : W) (h s : List ℤ) → Went first self.old start world.old h s
            → Went first self.new start world.new h (s ++ samples.now)) }
        ensures err { IfErr result (λ e. (first : Self) (start : W) (h s : List ℤ) → Went first self.old start world.old h s
            → Stopped first self.new start world.new h s (Saying samples.now) e) };
}
