// Who reads each signal.

ghost use Rattle.std.specs.Prelude.{◌≡◌, ◌<◌, length, All, IfOk};
ghost use Rattle.fv_components.specs.Reach.{AreLinks};
ghost use Rattle.fv_components.specs.Reach.{next_of};
ghost use Rattle.fv_split_lanes.specs.inner.Readers.{met_by as met_by_of, with_row, AreReaders};

use fv_components::Rows;
use std::alloc::{AllocError, Global};

/// The readers of a signal.
#[derive(Clone, Copy)]
pub enum Reader {
    Nobody,
    One(u64),
    Many,
}

// One reader more.
fn met_by(reader: Reader, r: u64) -> Reader
    ensures { result ≡ met_by_of reader r }
{
    match reader {
        Reader::Nobody => Reader::One(r),
        Reader::One(q) => { if q == r { Reader::One(q) } else { Reader::Many } }
        Reader::Many => Reader::Many,
    }
}

// Notes that the signals of a row have this reader.
fn meet_row(readers: &mut Vec<Reader>, row: &[u64], r: u64)
    requires { All (λ s. s < length readers.old.items) row.now }
    ensures { readers.new.items ≡ with_row readers.old.items row.now r }
{
    for s in row {
        readers[*s as usize] = met_by(readers[*s as usize], r);
    }
}

/// The readers of each signal.
pub fn readers(alloc: Global, reads: &Rows) -> Result<Vec<Reader>, AllocError>
    requires { AreLinks (next_of reads.now) (length reads.now) }
    ensures { IfOk result (λ v. AreReaders (next_of reads.now) (length reads.now) (length reads.now) v.items) }
{
    let mut readers = vec![in alloc; Reader::Nobody; reads.len() as usize]?;
    for r in 0..reads.len() {
        meet_row(&mut readers, reads.row(r), r);
    }
    Ok(readers)
}
