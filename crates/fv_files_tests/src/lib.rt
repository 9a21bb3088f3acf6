//! Tests of sound files, scripts, files of jobs, and of the words of a command line.
#![tactic(auto)]

#[cfg(test)]
mod ahead;
#[cfg(test)]
mod au_frames;
#[cfg(test)]
mod au_heads;
#[cfg(test)]
mod examples;
#[cfg(test)]
mod files;
#[cfg(test)]
mod scripts;
#[cfg(test)]
mod wav_frames;
#[cfg(test)]
mod wav_heads;
#[cfg(test)]
mod words;
