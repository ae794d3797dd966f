// Runs that watches judge, where a file of watches is long, and where files or the output fail.
use pz_io::{FailingFiles, MemFiles};
use std::alloc::{AllocError, Global};
use std::test::Fail;
use tests_run_calls::{expect, expect_through};

const MODEL: &str =
    "process class S(d : Integer)\nports o\nmessages o!m\ninit a()()\nmethods a()() delay d; o!m\nprocess class R\nports i\nmessages i?m\ninit a()()\nmethods a()() sel i?m or delay 5; skip les\nsystem\ninstances s : S(d := 3) r : R\nchannels {s.o, r.i}\n";

const WATCHES: &str = "a : once * message m\nb : not and message m not once 2 pass\n";

const JUDGED: &str =
    "poosl-trace 3 100000\n0 time 3\nbroken a\n3 1 0 s expire 5:15\nbroken a\n3 1 0 #1 s ! m() -> r\nbroken b\n3 end\n";

// The files with that model, named `m`, and these watches, named `w`.
fn two_files(alloc: Global, watches: Vec<u8>) -> Result<MemFiles, AllocError> {
    let model = MODEL.as_bytes().to_vec(alloc)?;
    let m = String::from_str(alloc, "m")?;
    let w = String::from_str(alloc, "w")?;
    Ok(MemFiles::new(vec![in alloc; (m, model), (w, watches)]?))
}

// The model is read by calls 1 to 3, the watches by calls 4 to 6.
#[test]
fn the_file_that_failed_is_named(rt: HostRuntime) -> Result<(), Fail> {
    for call in 1..8u64 {
        let inner = two_files(rt.alloc(), WATCHES.as_bytes().to_vec(rt.alloc())?)?;
        let mut files = FailingFiles::new(inner, vec![in rt.alloc(); call]?);
        let (status, output) = match call {
            1..4 => (8, "read fault: m\n"),
            4..7 => (8, "read fault: w\n"),
            _ => (11, JUDGED),
        };
        expect(rt.alloc(), "watch m w", &mut files, status, output)?;
    }
    Ok(())
}

// Each line is one write, those of broken watches too.
#[test]
fn a_sink_that_fails_has_the_lines_before(rt: HostRuntime) -> Result<(), Fail> {
    let rows = [
        (1, ""),
        (2, "poosl-trace 3 100000\n"),
        (3, "poosl-trace 3 100000\n0 time 3\n"),
        (4, "poosl-trace 3 100000\n0 time 3\nbroken a\n"),
    ];
    for (write, output) in rows {
        let mut files = two_files(rt.alloc(), WATCHES.as_bytes().to_vec(rt.alloc())?)?;
        let writes = vec![in rt.alloc(); write]?;
        let output = output.as_bytes();
        expect_through(rt.alloc(), "watch m w", &mut files, writes, 9, output)?;
    }
    Ok(())
}

#[test]
fn a_file_of_watches_may_have_64_kibibytes_and_no_byte_more(rt: HostRuntime) -> Result<(), Fail> {
    let rows = [
        (65_536, 12, "watch refused line 1\n"),
        (65_537, 7, "too long: w\n"),
    ];
    for (length, status, output) in rows {
        let blanks = " ".repeat(rt.alloc(), length)?;
        let mut files = two_files(rt.alloc(), blanks.into_bytes())?;
        expect(rt.alloc(), "watch m w", &mut files, status, output)?;
    }
    Ok(())
}
