// A tape in memory.

use fv_outside::Tape;
use std::convert::Infallible;

/// The samples that are to be heard, and room for those that are said. After what is to be heard there are zeros, and what has no
/// room is lost.
#[derive(Drop)]
pub(crate) struct Memory<'a> {
    pub(crate) input: &'a [i32],
    pub(crate) heard: usize,
    pub(crate) output: Vec<i32>,
    pub(crate) said: usize,
}

/// A tape over them, which never stops.
#[derive(Clone, Copy)]
pub(crate) struct MemoryTape {
    /// The frames that are left.
    pub(crate) left: u32,
    /// The most frames at once.
    pub(crate) most: u32,
    /// How many samples a frame has that is heard, and one that is said.
    pub(crate) inputs: u32,
    pub(crate) outputs: u32,
}

impl<'a> Tape<Memory<'a>> for MemoryTape {
    type Stop = Infallible;

    ghost ears = { λ t. t.inputs };

    ghost mouth = { λ t. t.outputs };

    ghost most = { λ t. t.most };

    ghost left = { λ t. t.left };

    ghost is_valid = { λ t. Unit {0} };

    ghost is_fresh = { λ t. Unit {0} };

    ghost Went = { λ first t start now h s. Unit {0} };

    ghost Stopped = { λ first t start now h s act e. ⊥ };

    fn begin(&mut self, memory: &mut Memory<'a>) -> Result<(), Infallible> {
        Ok(())
    }

    fn hear(
        &mut self,
        memory: &mut Memory<'a>,
        frames: u32,
        to: &mut [i32],
    ) -> Result<(), Infallible> {
        for sample in to.iter_mut() {
            *sample = memory.input.get(memory.heard).copied().unwrap_or(0);
            memory.heard = memory.heard.saturating_add(1);
        }
        self.left -= frames;
        Ok(())
    }

    fn say(
        &mut self,
        memory: &mut Memory<'a>,
        _frames: u32,
        samples: &[i32],
    ) -> Result<(), Infallible> {
        for sample in samples {
            if let Some(cell) = memory.output.get_mut(memory.said) {
                *cell = *sample;
            }
            memory.said = memory.said.saturating_add(1);
        }
        Ok(())
    }
}
