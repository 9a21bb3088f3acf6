// The tape of a run's files.

ghost use Rattle.std.specs.Prelude.{◌≡◌, ◌*◌, ◌/◌, ◌≤◌, length, true, IfOk};
ghost use Rattle.std.specs.Option.{ForSome};
ghost use Rattle.fv_base.specs.declared.limits.TheConstants.{MOST_BLOCK, MOST_CHANNELS};
ghost use Rattle.fv_diagram.specs.Words.{is_sample_width};
ghost use Rattle.fv_pcm.specs.headline.Sizes.{data_limit};
ghost use Rattle.fv_file_tape.specs.Tapes.{IsTape};
ghost use Rattle.fv_top_files.specs.headline.Inputs.{stated_frames};
ghost use Rattle.fv_top_files.specs.Loading.{IsPlaced};
ghost use Rattle.fv_top_files.specs.Loaded.{HoldsAll};
ghost use Rattle.fv_top.specs.inner.Prepared.{IsTapeOf};

use fv_file_tape::{FileTape, Incoming, OutputHead};
use fv_pcm::frame_size;
use fv_top_files::{Loaded, OutputFormat};
use std::alloc::{AllocError, Global};

/// A tape from an input to an output of this name, with room for a block of `block` frames of `channels` samples.
pub fn make_tape<'a>(
    alloc: Global,
    output: &'a str,
    channels: u32,
    format: OutputFormat,
    loaded: Loaded,
    block: u32,
) -> Result<FileTape<'a>, AllocError>
    requires some { 1 ≤ channels }
    requires few { channels ≤ MOST_CHANNELS }
    requires bits { is_sample_width format.bits ≡ true }
    requires size { format.size ≤ data_limit }
    requires head { ForSome loaded.head IsPlaced }
    requires held { HoldsAll loaded }
    requires frames { ForSome loaded.head (λ h. format.frames ≡ stated_frames h) }
    requires block { block ≤ MOST_BLOCK }
    ensures tape { IfOk result IsTape }
    ensures is { IfOk result (IsTapeOf output.now channels format loaded block) }
{
    let Loaded { head, held } = loaded;
    let frame = frame_room(head, channels, format.bits);
    let bytes = vec![in alloc; 0u8; block as usize * frame as usize]?;
    Ok(FileTape {
        output,
        head: OutputHead {
            coding: format.coding,
            channels,
            rate: format.rate,
            bits: format.bits,
            size: format.size,
        },
        input: head,
        held,
        done: 0,
        stated: format.frames,
        most: block,
        bytes,
    })
}

// As many bytes as a frame takes, of the input or of the output, whichever are more.
fn frame_room(head: Option<Incoming>, channels: u32, bits: u32) -> u32
    requires head { ForSome head IsPlaced }
    requires few { channels ≤ MOST_CHANNELS }
    requires bits { is_sample_width bits ≡ true }
    ensures heard { ForSome head (λ h. h.channels * (h.bits / 8) ≤ result) }
    ensures said { channels * (bits / 8) ≤ result }
    ensures few { result ≤ 1024 }
{
    let said = frame_size(channels, bits);
    match head {
        Some(head) => said.max(frame_size(head.channels, head.bits)),
        None => said,
    }
}
