//! Pairs and troubles as lines.

ghost use Rattle.std.specs.Prelude.{◌≡◌, false};

use pz_match::Pairs;
use pz_offer::{End, Trouble};
use std::io;

fn show_end(rt: &HostRuntime, end: &End) -> io::Result<()> {
    let process = end.process;
    let place = end.place.as_slice();
    print!(rt; "{process}{place:?}")
}

/// The ends of a pair, which is there.
fn show_ends(rt: &HostRuntime, sender: &End, receiver: &End) -> io::Result<bool> {
    show_end(rt, sender)?;
    print!(rt; " -> ")?;
    show_end(rt, receiver)?;
    println!(rt;)?;
    Ok(true)
}

/// The pair with this number; whether there is one.
fn show_pair(rt: &HostRuntime, table: &Pairs, number: u64) -> io::Result<bool>
    requires { table.now.lost ≡ false }
{
    match table.kth(number)? {
        Some((sender, receiver)) => show_ends(rt, &sender.end, &receiver),
        None => Ok(false),
    }
}

/// The pair with this number.
pub fn show_kth(rt: &HostRuntime, table: &Pairs, number: u64) -> io::Result<()>
    requires { table.now.lost ≡ false }
{
    if show_pair(rt, table, number)? {
        Ok(())
    } else {
        println!(rt; "none")
    }
}

fn show_trouble(rt: &HostRuntime, trouble: Option<Trouble>) -> io::Result<()> {
    match trouble {
        Some(Trouble::Spent { process, pos }) => {
            let sender = pos.line;
            println!(rt; "trouble of {process} with {sender}")
        }
        Some(_) => println!(rt; "another trouble"),
        None => println!(rt; "no trouble"),
    }
}

/// All pairs that are taken, and the first trouble.
pub fn show_pairs(rt: &HostRuntime, table: &Pairs) -> io::Result<()>
    requires { table.now.lost ≡ false }
{
    for number in 0..=table.count() {
        if !show_pair(rt, table, number)? {
            break;
        }
    }
    show_trouble(rt, table.trouble())
}
