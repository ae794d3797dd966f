// One call of the files or one write that fails, each in turn, and all in parts of one byte. The model that is
// run has 84 bytes, and its trace has 89 bytes in six lines.
use pz_io::{FailingFiles, NarrowFiles, NarrowSink, RoomySink};
use std::alloc::{AllocError, Global};
use std::process::Abort;
use std::test::Fail;
use tests_run_calls::{MODEL, TRACE, call, expect, expect_through, one_file};

// The files with the model, of which a read hands out at most so many bytes, and this call fails.
fn narrow_files(
    rt: &impl Abort,
    alloc: Global,
    most: usize,
    call: u64,
) -> Result<NarrowFiles, AllocError> {
    assert!(rt; most >= 1);
    let inner = one_file(alloc, MODEL, 0)?;
    let failing = FailingFiles::new(inner, vec![in alloc; call]?);
    Ok(NarrowFiles::new(failing, most))
}

// A model that is read at once takes an open, a read, and one that answers End; byte by byte it takes 84 reads
// and one more.
#[test]
fn a_call_of_the_files_that_fails_is_a_read_fault(rt: HostRuntime) -> Result<(), Fail> {
    for (most, calls) in [(4096, 3u64), (1, 86)] {
        for call in 1..88u64 {
            let mut files = narrow_files(&rt, rt.alloc(), most, call)?;
            let (status, output) = if call <= calls {
                (8, "read fault: m\n")
            } else {
                (0, TRACE)
            };
            expect(rt.alloc(), "run m", &mut files, status, output)?;
        }
    }
    let mut files = one_file(rt.alloc(), MODEL, 0)?;
    expect(rt.alloc(), "run n", &mut files, 8, "read fault: n\n")?;
    Ok(())
}

// Runs the model in parts of one byte on both sides, where this write fails.
fn expect_narrow(
    rt: &impl Abort,
    alloc: Global,
    write: u64,
    status: u8,
    output: &[u8],
) -> Result<(), AllocError> {
    let mut files = narrow_files(rt, alloc, 1, 0)?;
    let inner = RoomySink::new(alloc, 1000, vec![in alloc; write]?)?;
    let mut out = NarrowSink::new(inner, 1);
    assert_eq!(rt;
        call(alloc, "run m", &mut files, &mut out)?,
        status,
        "{write}"
    );
    assert_eq!(rt; out.bytes(), output, "{write}");
    Ok(())
}

// A line is one write, or as many as it has bytes where each takes one byte.
#[test]
fn a_write_that_fails_leaves_what_was_taken_before(rt: HostRuntime) -> Result<(), Fail> {
    let trace = TRACE.as_bytes();
    for cut in 0..trace.len() {
        let front = &trace[..cut];
        expect_narrow(&rt, rt.alloc(), cut as u64 + 1, 9, front)?;
        if cut == 0 || front.ends_with(b"\n") {
            let lines = front.iter().filter(|b| **b == b'\n').count();
            let mut files = one_file(rt.alloc(), MODEL, 0)?;
            let writes = vec![in rt.alloc(); lines as u64 + 1]?;
            expect_through(rt.alloc(), "run m", &mut files, writes, 9, front)?;
        }
    }
    expect_narrow(&rt, rt.alloc(), 90, 0, trace)?;
    let mut files = one_file(rt.alloc(), MODEL, 0)?;
    let writes = vec![in rt.alloc(); 7]?;
    expect_through(rt.alloc(), "run m", &mut files, writes, 0, trace)?;
    Ok(())
}
