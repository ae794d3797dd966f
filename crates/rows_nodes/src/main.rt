//! Rows of nodes under keys and of their shapes, with ample memory. What the first rows show, and how many
//! steps that takes, is a contract too; else nothing is promised here: the output is the test.
#![tactic(auto)]

mod keyed;
mod shaped;

use pz_nodes_shapes::Kids;
use std::io;
use std::marker::Brand;
use std::sync::ledger::Blank;

fn show(rt: &HostRuntime, what: &str, node: Option<u32>) -> io::Result<()> {
    match node {
        Some(number) => println!(rt; "{what} {number}"),
        None => println!(rt; "{what} none"),
    }
}

fn show_all(rt: &HostRuntime, what: &str, nodes: &[Option<u32>]) -> io::Result<()> {
    for node in nodes {
        show(rt, what, *node)?;
    }
    Ok(())
}

fn show_kids(rt: &HostRuntime, kids: &Kids) -> io::Result<()> {
    for kid in kids.as_slice() {
        match kid {
            Some(key) => println!(rt; "child {key}")?,
            None => println!(rt; "gone")?,
        }
    }
    Ok(())
}

fn main(rt: HostRuntime) -> io::Result<()> {
    let (read, taken, after) = keyed::put_and_take::<Brand>(rt.alloc(), Blank::new(1))?;
    show(&rt, "read", read)?;
    show(&rt, "taken", taken)?;
    show(&rt, "read again", after)?;
    let kids = shaped::three(rt.alloc())?;
    show_kids(&rt, &kids)?;
    let (before, after) = shaped::plant_and_cut::<Brand>(rt.alloc(), Blank::new(1))?;
    show_all(&rt, "before", &before)?;
    show_all(&rt, "after", &after)
}
