// Replays where a trace is cut, where it is long, and where files or the output fail.
use pz_io::{FailingFiles, MemFiles};
use std::alloc::{AllocError, Global};
use std::test::Fail;
use tests_run_calls::{expect, expect_through};

const MODEL: &str =
    "process class S(d : Integer)\nports o\nmessages o!m\ninit a()()\nmethods a()() delay d; o!m\nprocess class R\nports i\nmessages i?m\ninit a()()\nmethods a()() sel i?m or delay 5; skip les\nsystem\ninstances s : S(d := 5) r : R\nchannels {s.o, r.i}\n";

// Of the first edition, in which the calls are actions.
const TRACE: &str =
    "poosl-trace 1\n0 2 0 s call 4:6\n0 1 0 r call 9:6\n0 time 5\n5 2 0 s expire 5:15\n5 2 1 #1 s ! m() -> r\n5 end\n";

// The files with that model, named `m`, and a trace, named `t`.
fn two_files(alloc: Global, trace: Vec<u8>) -> Result<MemFiles, AllocError> {
    let model = MODEL.as_bytes().to_vec(alloc)?;
    let m = String::from_str(alloc, "m")?;
    let t = String::from_str(alloc, "t")?;
    Ok(MemFiles::new(vec![in alloc; (m, model), (t, trace)]?))
}

const SECOND: &str =
    "poosl-trace 3 100000\n0 time 5\n5 2 0 s expire 5:15\n5 2 1 #1 s ! m() -> r\n5 end\n";

// What is expected in the place of a line that is missing or cut off: nothing of an action, since there no
// number of an offer can be read.
const EXPECTED: [&str; 7] = [
    "expected poosl-trace 3 100000\n",
    "",
    "",
    "expected 0 time 5\n",
    "",
    "",
    "expected 5 end\n",
];

const EXPECTED_OF_SECOND: [&str; 5] = [
    "expected poosl-trace 3 100000\n",
    "expected 0 time 5\n",
    "",
    "",
    "expected 5 end\n",
];

// Replays each proper front of a trace, where a line of `expected` is what is told behind as many lines.
fn expect_fronts(alloc: Global, trace: &[u8], expected: &[&str]) -> Result<(), Fail> {
    for cut in 0..trace.len() {
        let front = &trace[..cut];
        let whole = match front.iter().rposition(|b| *b == b'\n') {
            Some(last) => &front[..last + 1],
            None => b"",
        };
        let lines = front.iter().filter(|b| **b == b'\n').count();
        let behind = expected.get(lines).copied().unwrap_or("");
        let refused = format!(in alloc; "refused line {}\n{behind}", lines + 1)?;
        let mut output = whole.to_vec(alloc)?;
        output.extend_from_slice(refused.as_bytes())?;
        let mut files = two_files(alloc, front.to_vec(alloc)?)?;
        let none = Vec::new(alloc);
        expect_through(alloc, "replay m t", &mut files, none, 6, &output)?;
    }
    Ok(())
}

#[test]
fn each_front_of_a_trace_is_refused_behind_its_whole_lines(rt: HostRuntime) -> Result<(), Fail> {
    expect_fronts(rt.alloc(), TRACE.as_bytes(), &EXPECTED)?;
    expect_fronts(rt.alloc(), SECOND.as_bytes(), &EXPECTED_OF_SECOND)?;
    let mut files = two_files(rt.alloc(), SECOND.as_bytes().to_vec(rt.alloc())?)?;
    expect(rt.alloc(), "replay m t", &mut files, 0, SECOND)?;
    Ok(())
}

#[test]
fn a_line_behind_the_end_is_refused(rt: HostRuntime) -> Result<(), Fail> {
    let trace = format!(in rt.alloc(); "{TRACE}5 end\n")?;
    let output = format!(in rt.alloc(); "{TRACE}refused line 8\n")?;
    let mut files = two_files(rt.alloc(), trace.into_bytes())?;
    expect(rt.alloc(), "replay m t", &mut files, 6, output.as_str())?;
    Ok(())
}

// The model is read by calls 1 to 3, the trace by calls 4 to 6.
#[test]
fn the_file_that_failed_is_named(rt: HostRuntime) -> Result<(), Fail> {
    for call in 1..8u64 {
        let inner = two_files(rt.alloc(), TRACE.as_bytes().to_vec(rt.alloc())?)?;
        let mut files = FailingFiles::new(inner, vec![in rt.alloc(); call]?);
        let (status, output) = match call {
            1..4 => (8, "read fault: m\n"),
            4..7 => (8, "read fault: t\n"),
            _ => (0, TRACE),
        };
        expect(rt.alloc(), "replay m t", &mut files, status, output)?;
    }
    Ok(())
}

#[test]
fn a_sink_that_fails_has_the_lines_before(rt: HostRuntime) -> Result<(), Fail> {
    let cut = "poosl-trace 1\n0 2 0 s call 4:6\n0 1 0 r call 9:6\n";
    let rows = [
        (1, ""),
        (3, "poosl-trace 1\n0 2 0 s call 4:6\n"),
        (4, cut),
        (
            5,
            "poosl-trace 1\n0 2 0 s call 4:6\n0 1 0 r call 9:6\nrefused line 4\n",
        ),
    ];
    for (write, output) in rows {
        let mut files = two_files(rt.alloc(), cut.as_bytes().to_vec(rt.alloc())?)?;
        let writes = vec![in rt.alloc(); write]?;
        let output = output.as_bytes();
        expect_through(rt.alloc(), "replay m t", &mut files, writes, 9, output)?;
    }
    Ok(())
}

#[test]
fn a_trace_may_have_64_mebibytes_and_no_byte_more(rt: HostRuntime) -> Result<(), Fail> {
    let behind = format!(in rt.alloc(); "{TRACE}refused line 8\n")?;
    let rows = [
        (67_108_864, 6, behind.as_str()),
        (67_108_865, 7, "too long: t\n"),
    ];
    for (length, status, output) in rows {
        let lines = TRACE.repeat(rt.alloc(), length / TRACE.len())?;
        let blanks = " ".repeat(rt.alloc(), length - lines.len())?;
        let trace = format!(in rt.alloc(); "{lines}{blanks}")?;
        let mut files = two_files(rt.alloc(), trace.into_bytes())?;
        expect(rt.alloc(), "replay m t", &mut files, status, output)?;
    }
    Ok(())
}
