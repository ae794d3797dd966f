//! Packing out of large states, to be timed.

use crate::conditions::refer_within;
use crate::nodes::{make_nodes, set};
use pz_copy::pack;
use pz_copy::pz_state::State;
use pz_copy::pz_value::Value;
use std::alloc::{AllocError, Global};
use std::io;

/// Makes a chain of so many objects, each of which holds the one before. Gives the number of the last.
fn make_chain(state: &mut State, length: u32) -> Result<u32, AllocError> {
    let mut latest = 0;
    for _link in 0..length {
        let link = state.objects();
        make_nodes(state, 1)?;
        set(state, link, 0, Value::Ref(latest))?;
        latest = link;
    }
    Ok(latest)
}

/// Packs the values so many times. Gives how many objects the parcels have together.
fn pack_times(
    alloc: Global,
    state: &State,
    values: &[Value],
    times: u32,
) -> Result<u64, AllocError> {
    let mut packed: u64 = 0;
    for _time in 0..times {
        if refer_within(values, state.objects()) {
            let parcel = pack(alloc, state, values)?;
            packed = packed.saturating_add(parcel.objects().len() as u64);
        }
    }
    Ok(packed)
}

/// The number that a word writes; 0 where it writes none.
fn number(word: &str) -> u32 {
    word.parse::<u32>().unwrap_or(0)
}

/// Makes a chain of so many objects, and then so many others. Gives the number of the chain's last.
fn fill(state: &mut State, reached: u32, others: u32) -> Result<u32, AllocError> {
    let last = make_chain(state, reached)?;
    make_nodes(state, others)?;
    Ok(last)
}

/// Packs the last of a chain, and shows how many objects that copied and how many the state has.
fn show_packing(
    rt: &HostRuntime,
    state: &mut State,
    reached: u32,
    others: u32,
    times: u32,
) -> io::Result<()> {
    let last = fill(state, reached, others)?;
    let packed = pack_times(rt.alloc(), state, &[Value::Ref(last)], times)?;
    let objects = state.objects();
    println!(rt; "{packed} objects packed, out of a state of {objects}")
}

/// Packs the last of a chain of so many objects so many times, out of a state that has so many others.
pub fn show_bench(rt: &HostRuntime, reached: &str, others: &str, times: &str) -> io::Result<()> {
    let mut state = State::new(rt.alloc(), Vec::new(rt.alloc()));
    show_packing(
        rt,
        &mut state,
        number(reached),
        number(others),
        number(times),
    )
}
