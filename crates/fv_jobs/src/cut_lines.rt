// Cutting a file at the lines that separate its jobs.

ghost use Rattle.std.specs.Prelude.{◌≡◌, ◌≤◌, ◌<◌, length, take, drop, map, position, IfOk, IfSome, ◌∷◌};
ghost use Rattle.std.specs.Io.BufRead.{strip_last};
ghost use Rattle.fv_jobs.specs.headline.Jobs.{is_feed, lines_in, jobs_in, is_separator};

use std::alloc::{AllocError, Global};

/// A line that is just this, without its end, separates two jobs.
const SEPARATOR: [u8; 2] = *b"%%";

/// The line that the bytes begin with, with the byte that ends it.
pub fn first_line(bytes: &[u8]) -> &[u8]
    requires { 0 < length bytes.now }
    ensures line { lines_in bytes.now ≡ result.now ∷ lines_in (drop (length result.now) bytes.now) }
    ensures front { result.now ≡ take (length result.now) bytes.now }
    ensures some { 0 < length result.now }
    ensures within { length result.now ≤ length bytes.now }
{
    match first_feed(bytes) {
        Some(place) => &bytes[..place + 1],
        None => bytes,
    }
}

// The place of the first byte 10.
fn first_feed(bytes: &[u8]) -> Option<usize>
    ensures place { result ≡ position is_feed bytes.now }
    ensures within { IfSome result (λ i. i < length bytes.now) }
{
    bytes.iter().position(|b| *b == b'\n')
}

/// Whether the line separates two jobs.
pub fn is_separator(line: &[u8]) -> bool
    ensures { result ≡ is_separator line.now }
{
    without_last(without_last(line, b'\n'), b'\r') == SEPARATOR.as_slice()
}

// The line without this byte at its end.
fn without_last(line: &[u8], byte: u8) -> &[u8]
    ensures { result.now ≡ strip_last byte line.now }
{
    if !line.is_empty() && line[line.len() - 1] == byte {
        &line[..line.len() - 1]
    } else {
        line
    }
}

/// How many jobs the file has.
pub fn count(bytes: &[u8]) -> u64
    ensures { result ≡ length (jobs_in bytes.now) }
{
    let mut separators = 0u64;
    let mut at = 0;
    'lines: while at < bytes.len() {
        let line = first_line(&bytes[at..]);
        if is_separator(line) {
            separators += 1;
        }
        at += line.len();
    }
    separators + 1
}

/// The texts of the file's jobs, in order.
pub fn cut<'a>(alloc: Global, bytes: &'a [u8]) -> Result<Vec<&'a [u8]>, AllocError>
    ensures { IfOk result (λ v. map (λ t. t.now) v.items ≡ jobs_in bytes.now) }
{
    let mut texts = Vec::new(alloc);
    let mut start = 0;
    let mut at = 0;
    'lines: while at < bytes.len() {
        let line = first_line(&bytes[at..]);
        let end = at + line.len();
        if is_separator(line) {
            texts.push(&bytes[start..at])?;
            start = end;
        }
        at = end;
    }
    texts.push(&bytes[start..])?;
    Ok(texts)
}
