//! Files of jobs, with their texts or what refuses them.

use fv_base::Role;
use fv_jobs::{Jobs, JobsRefusal};
use std::alloc::Global;
use std::process::Abort;
use std::test::Fail;

/// The file has just these texts.
fn expect_texts(rt: &impl Abort, alloc: Global, file: &[u8], texts: &[&[u8]]) {
    match Jobs::read(alloc, file) {
        Ok(jobs) => {
            assert_eq!(rt; jobs.len(), texts.len());
            for (job, text) in texts.iter().enumerate() {
                assert!(rt; job < jobs.len());
                assert_eq!(rt; jobs.text(job), *text);
            }
        }
        Err(_refusal) => panic!(rt; "refused"),
    }
}

// Files, and the texts of their jobs.
static TEXTS: [(&[u8], &[&[u8]]); 15] = [
    (b"", &[b""]),
    (b"process = _;", &[b"process = _;"]),
    (b"a\n%%\nb\n", &[b"a\n", b"b\n"]),
    (b"a\n%%\nb", &[b"a\n", b"b"]),
    (b"a\r\n%%\r\nb\r\n", &[b"a\r\n", b"b\r\n"]),
    // A last line that separates has an empty job after it.
    (b"a\n%%", &[b"a\n", b""]),
    (b"a\n%%\n", &[b"a\n", b""]),
    (b"a\n%%\r", &[b"a\n", b""]),
    (b"%%", &[b"", b""]),
    (b"%%\n%%\n", &[b"", b"", b""]),
    // No line but `%%` separates.
    (
        b"a\n%%%\n%% \n %%\n%\n%%\r\r\n%%b\n",
        &[b"a\n%%%\n%% \n %%\n%\n%%\r\r\n%%b\n"],
    ),
    (b"a %%\nb", &[b"a %%\nb"]),
    (b"a\r%%\rb", &[b"a\r%%\rb"]),
    // It does within a comment and within a string.
    (b"/*\n%%\n*/", &[b"/*\n", b"*/"]),
    (b"x = \"\n%%\n\";\n\0\xff", &[b"x = \"\n", b"\";\n\0\xff"]),
];

#[test]
fn texts(rt: HostRuntime) -> Result<(), Fail> {
    for (file, texts) in &TEXTS {
        expect_texts(&rt, rt.alloc(), file, texts);
    }
    Ok(())
}

/// `separators` lines that separate, and then bytes of this value up to `length` bytes in all.
fn lines(alloc: Global, separators: usize, byte: u8, length: usize) -> Result<Vec<u8>, Fail> {
    let mut file = Vec::new(alloc);
    for _ in 0..separators {
        file.extend_from_slice(b"%%\n")?;
    }
    file.resize(length, byte)?;
    Ok(file)
}

/// The file is refused so.
fn expect_refusal(rt: &impl Abort, alloc: Global, file: &[u8], refusal: JobsRefusal) {
    match Jobs::read(alloc, file) {
        Ok(_jobs) => panic!(rt; "not refused"),
        Err(found) => assert_eq!(rt; found, refusal),
    }
}

#[test]
fn sizes(rt: HostRuntime) -> Result<(), Fail> {
    let alloc = rt.alloc();
    // Sixteen jobs in a file as long as it may be, and one job or one byte more.
    match Jobs::read(alloc, &lines(alloc, 15, b' ', 1048576)?) {
        Ok(jobs) => assert_eq!(rt; jobs.len(), 16),
        Err(_refusal) => panic!(rt; "refused"),
    }
    let seventeen = lines(alloc, 16, b' ', 1048576)?;
    expect_refusal(&rt, alloc, &seventeen, JobsRefusal::RackSize { jobs: 17 });
    let most = lines(alloc, 349525, b'%', 1048576)?;
    expect_refusal(&rt, alloc, &most, JobsRefusal::RackSize { jobs: 349526 });
    // A file that is too long is refused for that, however many jobs it has.
    let longer = lines(alloc, 16, b' ', 1048577)?;
    expect_refusal(
        &rt,
        alloc,
        &longer,
        JobsRefusal::TextTooLong {
            role: Role::Program,
        },
    );
    Ok(())
}
