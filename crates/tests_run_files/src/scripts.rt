// Runs that a script drives, where the script is long, and where files or the output fail; and the simulator
// that such a run hands out.
use pz_io::{FailingFiles, MemFiles, RoomySink};
use pz_rules::{Action, Moment};
use pz_sim::Sim;
use std::alloc::{AllocError, Global};
use std::process::Abort;
use std::test::Fail;
use tests_run_calls::{expect, expect_through, finish};

const MODEL: &str =
    "process class R\nports i\nmessages i?m(Integer)\nvariables x : Integer\ninit a()()\nmethods a()() i?m(x | x > 2); delay 1\nsystem instances r : R\n";

const SCRIPT: &str = "2 send r i m 3\n";

const DRIVEN: &str =
    "poosl-drive 1 100000\n0 time 2\n2 1 0 env expire 1:1\n2 1 0 #1 env ! m(3) -> r\n2 time 1\n3 1 0 r expire 6:31\n3 end\n";

// The files with that model, named `m`, and this script, named `s`.
fn two_files(alloc: Global, script: Vec<u8>) -> Result<MemFiles, AllocError> {
    let model = MODEL.as_bytes().to_vec(alloc)?;
    let m = String::from_str(alloc, "m")?;
    let s = String::from_str(alloc, "s")?;
    Ok(MemFiles::new(vec![in alloc; (m, model), (s, script)]?))
}

// The model is read by calls 1 to 3, the script by calls 4 to 6.
#[test]
fn the_file_that_failed_is_named(rt: HostRuntime) -> Result<(), Fail> {
    for call in 1..8u64 {
        let inner = two_files(rt.alloc(), SCRIPT.as_bytes().to_vec(rt.alloc())?)?;
        let mut files = FailingFiles::new(inner, vec![in rt.alloc(); call]?);
        let (status, output) = match call {
            1..4 => (8, "read fault: m\n"),
            4..7 => (8, "read fault: s\n"),
            _ => (0, DRIVEN),
        };
        expect(rt.alloc(), "drive m s", &mut files, status, output)?;
    }
    Ok(())
}

#[test]
fn a_file_that_is_missing_is_named(rt: HostRuntime) -> Result<(), Fail> {
    let rows = [
        ("drive m t", "read fault: t\n"),
        ("drive n s", "read fault: n\n"),
        ("drive n t", "read fault: n\n"),
    ];
    for (line, output) in rows {
        let mut files = two_files(rt.alloc(), SCRIPT.as_bytes().to_vec(rt.alloc())?)?;
        expect(rt.alloc(), line, &mut files, 8, output)?;
    }
    Ok(())
}

// Each line is one write.
#[test]
fn a_sink_that_fails_has_the_lines_before(rt: HostRuntime) -> Result<(), Fail> {
    let rows = [
        (1, 9, ""),
        (2, 9, "poosl-drive 1 100000\n"),
        (3, 9, "poosl-drive 1 100000\n0 time 2\n"),
        (
            4,
            9,
            "poosl-drive 1 100000\n0 time 2\n2 1 0 env expire 1:1\n",
        ),
        (8, 0, DRIVEN),
    ];
    for (write, status, output) in rows {
        let mut files = two_files(rt.alloc(), SCRIPT.as_bytes().to_vec(rt.alloc())?)?;
        let writes = vec![in rt.alloc(); write]?;
        let output = output.as_bytes();
        expect_through(rt.alloc(), "drive m s", &mut files, writes, status, output)?;
    }
    Ok(())
}

#[test]
fn a_script_may_have_a_mebibyte_and_no_byte_more(rt: HostRuntime) -> Result<(), Fail> {
    let rows = [
        (1_048_576, 13, "script refused line 1\n"),
        (1_048_577, 7, "too long: s\n"),
    ];
    for (length, status, output) in rows {
        let blanks = " ".repeat(rt.alloc(), length)?;
        let mut files = two_files(rt.alloc(), blanks.into_bytes())?;
        expect(rt.alloc(), "drive m s", &mut files, status, output)?;
    }
    Ok(())
}

// Whether the one offer is the message of the environment, which stands behind the one process of the model.
fn offers_its_message(sim: &Sim) -> Result<bool, AllocError> {
    match sim.moment() {
        Moment::Actions(offers) => {
            if offers != 1 {
                return Ok(false);
            }
            let only = sim.offer(0)?;
            Ok(is_sent_by_second(&only))
        }
        _ => Ok(false),
    }
}

fn is_sent_by_second(action: &Action) -> bool {
    match action {
        Action::Internal { .. } => false,
        Action::Comm {
            sender,
            receiver,
            ..
        } => sender.process == 1 && receiver.process == 0,
    }
}

// Does what the words ask for, and says whether the simulator that is handed out stands before the message of
// the environment; there may be none.
fn hands_out(
    rt: &impl Abort,
    alloc: Global,
    line: &str,
    script: &str,
    status: u8,
) -> Result<Option<bool>, AllocError> {
    let mut files = two_files(alloc, script.as_bytes().to_vec(alloc)?)?;
    let none = Vec::new(alloc);
    let mut out = RoomySink::new(alloc, 1_000, none)?;
    let finish = finish(alloc, line, &mut files, &mut out)?;
    assert_eq!(rt; finish.status.number(), status, "{line}");
    let stands = match &finish.sim {
        Some(sim) => Some(offers_its_message(sim)?),
        None => None,
    };
    Ok(stands)
}

#[test]
fn a_driven_run_hands_out_the_simulator_of_the_closed_model(rt: HostRuntime) -> Result<(), Fail> {
    let rows = [
        ("drive m s --steps 1", SCRIPT, 0, Some(true)),
        ("drive m s", SCRIPT, 0, Some(false)),
        ("drive m s", "2 send q i m 3\n", 13, None),
        ("drive m s", "2 send r i m 3", 13, None),
    ];
    for (line, script, status, stands) in rows {
        let had = hands_out(&rt, rt.alloc(), line, script, status)?;
        assert!(rt; had == stands, "{line}");
    }
    Ok(())
}
