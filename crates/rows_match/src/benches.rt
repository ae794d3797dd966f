//! Updates and pairs of a table with many receivers on one wire, or with many wires, to be timed.

ghost use Rattle.std.specs.Prelude.{◌≡◌, ◌+◌, ◌<◌, false, length, OnOk};

use crate::asker::Asker;
use crate::updating::update;
use pz_match::Pairs;
use rows_match_plain::{Kind, Wish};
use std::alloc::{AllocError, Global};
use std::io;
use std::sync::ledger::Ledger;

fn on_wire(kind: Kind) -> Wish {
    Wish {
        kind,
        wire: Some(0),
        second: false,
        values: 0,
    }
}

/// All processes receive; the last one has a receive of this kind.
fn fill<L: Ledger>(
    alloc: Global,
    table: &mut Pairs,
    asker: &mut Asker<L>,
    size: u32,
    last: Kind,
) -> Result<(), AllocError>
    requires size { length table.old.senders ≡ size + 1 }
    requires there { table.old.lost ≡ false }
    ensures size { OnOk result (length table.new.senders ≡ size + 1) }
    ensures there { OnOk result (table.new.lost ≡ false) }
{
    let wish = [on_wire(Kind::Receive)];
    for process in 0..size {
        update(alloc, table, process, &wish, asker)?;
    }
    update(alloc, table, size, &[on_wire(last)], asker)
}

/// So many updates of a process, which takes back an offer of this kind at one and makes it again at
/// the next.
fn come_and_go<L: Ledger>(
    alloc: Global,
    table: &mut Pairs,
    asker: &mut Asker<L>,
    process: u32,
    kind: Kind,
    times: u32,
) -> Result<(), AllocError>
    requires process { process < length table.old.senders }
    requires there { table.old.lost ≡ false }
    ensures size { OnOk result (length table.new.senders ≡ length table.old.senders) }
    ensures there { OnOk result (table.new.lost ≡ false) }
{
    let wish = [on_wire(kind)];
    for _ in 0..times / 2 {
        update(alloc, table, process, &[], asker)?;
        update(alloc, table, process, &wish, asker)?;
    }
    Ok(())
}

/// So many updates of a process, which makes the same offer of this kind each time.
fn offer_again<L: Ledger>(
    alloc: Global,
    table: &mut Pairs,
    asker: &mut Asker<L>,
    process: u32,
    kind: Kind,
    times: u32,
) -> Result<(), AllocError>
    requires process { process < length table.old.senders }
    requires there { table.old.lost ≡ false }
    ensures size { OnOk result (length table.new.senders ≡ length table.old.senders) }
    ensures there { OnOk result (table.new.lost ≡ false) }
{
    let wish = [on_wire(kind)];
    for _ in 0..times {
        update(alloc, table, process, &wish, asker)?;
    }
    Ok(())
}

/// So many updates of a process with ten offers of this kind, of which one has another message each time.
fn change_one<L: Ledger>(
    alloc: Global,
    table: &mut Pairs,
    asker: &mut Asker<L>,
    process: u32,
    kind: Kind,
    times: u32,
) -> Result<(), AllocError>
    requires process { process < length table.old.senders }
    requires there { table.old.lost ≡ false }
    ensures size { OnOk result (length table.new.senders ≡ length table.old.senders) }
    ensures there { OnOk result (table.new.lost ≡ false) }
{
    let wishes = [on_wire(kind); 10];
    let mut others = wishes;
    others[4].second = true;
    for _ in 0..times / 2 {
        update(alloc, table, process, &others, asker)?;
        update(alloc, table, process, &wishes, asker)?;
    }
    Ok(())
}

/// Each process sends over a wire of its own and receives over that of the next.
fn fill_ring<L: Ledger>(
    alloc: Global,
    table: &mut Pairs,
    asker: &mut Asker<L>,
    size: u32,
) -> Result<(), AllocError>
    requires size { length table.old.senders ≡ size + 1 }
    requires there { table.old.lost ≡ false }
    ensures size { OnOk result (length table.new.senders ≡ size + 1) }
    ensures there { OnOk result (table.new.lost ≡ false) }
{
    for process in 0..size {
        let send = Wish {
            wire: Some(process),
            ..on_wire(Kind::Send)
        };
        let receive = Wish {
            wire: Some((process + 1) % size),
            ..on_wire(Kind::Receive)
        };
        update(alloc, table, process, &[send, receive], asker)?;
    }
    Ok(())
}

/// How many of so many pairs are there, here and there in the table.
fn seek(table: &Pairs, times: u32) -> Result<u32, AllocError>
    requires { table.now.lost ≡ false }
{
    let count = table.count().max(1);
    let mut found = 0_u32;
    for time in 0..times {
        let pair = table.kth(u64::from(time) * 7_919 % count)?;
        found = found.saturating_add(u32::from(pair.is_some()));
    }
    Ok(found)
}

/// The updates that a bench times, so many times.
fn change<L: Ledger>(
    alloc: Global,
    table: &mut Pairs,
    asker: &mut Asker<L>,
    bench: &str,
    size: u32,
    times: u32,
) -> Result<(), AllocError>
    requires size { length table.old.senders ≡ size + 1 }
    requires there { table.old.lost ≡ false }
    ensures there { OnOk result (table.new.lost ≡ false) }
{
    match bench {
        "askers" => come_and_go(alloc, table, asker, size, Kind::Asking, times),
        "again" => offer_again(alloc, table, asker, 0, Kind::Send, times),
        "nearly" => change_one(alloc, table, asker, 0, Kind::Send, times),
        _ => come_and_go(alloc, table, asker, 0, Kind::Send, times),
    }
}

fn last_kind(bench: &str) -> Kind {
    match bench {
        "conditions" | "askers" => Kind::Asking,
        _ => Kind::Receive,
    }
}

/// Fills the table for a bench and does what it times; how often, or how many pairs were found.
fn run<L: Ledger>(
    alloc: Global,
    table: &mut Pairs,
    asker: &mut Asker<L>,
    bench: &str,
    size: u32,
    times: u32,
) -> Result<u32, AllocError>
    requires size { length table.old.senders ≡ size + 1 }
    requires there { table.old.lost ≡ false }
    ensures there { OnOk result (table.new.lost ≡ false) }
{
    if bench == "ring" {
        fill_ring(alloc, table, asker, size)?;
        return seek(table, times);
    }
    fill(alloc, table, asker, size, last_kind(bench))?;
    come_and_go(alloc, table, asker, 0, Kind::Send, 2)?;
    if bench == "pairs" {
        return seek(table, times);
    }
    change(alloc, table, asker, bench, size, times)?;
    Ok(times)
}

/// One of the benches, in a table of so many processes and one: `updates`, `again`, `nearly`, `conditions`,
/// `askers`, `pairs` or `ring`.
pub fn show<L: Ledger>(
    rt: &HostRuntime,
    table: &mut Pairs,
    asker: &mut Asker<L>,
    bench: &str,
    size: u32,
    times: u32,
) -> io::Result<()>
    requires size { length table.old.senders ≡ size + 1 }
    requires there { table.old.lost ≡ false }
{
    let done = run(rt.alloc(), table, asker, bench, size, times)?;
    let count = table.count();
    let questions = asker.take_questions();
    println!(rt; "{done} done, taken {count}, questions {questions}")
}
