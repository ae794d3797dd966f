// The simulator that a call hands out.
use pz_io::{MemFiles, RoomySink};
use pz_rules::{Action, Kind, Moment};
use pz_sim::Sim;
use std::alloc::{AllocError, Global};
use std::test::Fail;
use tests_run_calls::finish;

const MODEL: &str =
    "process class P\ninit a()()\nmethods a()()\npar b()() and b()() rap\nb()() skip\nsystem instances p : P\n";

// Of the first edition, in which the calls are actions.
const TRACE: &str = "poosl-trace 1\n0 1 0 p call 2:6\n0 stop\n";

// The files with that model, named `m`, and the trace, named `t`.
fn two_files(alloc: Global) -> Result<MemFiles, AllocError> {
    let model = MODEL.as_bytes().to_vec(alloc)?;
    let trace = TRACE.as_bytes().to_vec(alloc)?;
    let m = String::from_str(alloc, "m")?;
    let t = String::from_str(alloc, "t")?;
    Ok(MemFiles::new(vec![in alloc; (m, model), (t, trace)]?))
}

// Whether two offers are there, the second of which is the call in line 4, column 15.
fn offers_two_calls(sim: &Sim) -> Result<bool, AllocError> {
    match sim.moment() {
        Moment::Actions(offers) => {
            if offers != 2 {
                return Ok(false);
            }
            let second = sim.offer(1)?;
            Ok(is_second_call(&second))
        }
        _ => Ok(false),
    }
}

fn is_second_call(action: &Action) -> bool {
    match action {
        Action::Internal { kind, pos, .. } => {
            *kind == Kind::Call && pos.line == 4 && pos.column == 15
        }
        Action::Comm { .. } => false,
    }
}

#[test]
fn a_replay_hands_out_the_simulator_where_its_lines_lead(rt: HostRuntime) -> Result<(), Fail> {
    let alloc = rt.alloc();
    let mut files = two_files(alloc)?;
    let none = Vec::new(alloc);
    let mut out = RoomySink::new(alloc, 1_000, none)?;
    let finish = finish(alloc, "replay m t", &mut files, &mut out)?;
    assert_eq!(rt; finish.status.number(), 0, "the replay");
    let stands = match &finish.sim {
        Some(sim) => offers_two_calls(sim)?,
        None => false,
    };
    assert!(rt; stands, "the simulator");
    Ok(())
}
