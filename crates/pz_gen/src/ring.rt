ghost use Rattle.std.specs.Prelude.{◌≡◌, ◌≤◌, ◌<◌, ◌++◌, IfOk, OnOk, string_bytes};
ghost use Rattle.pz_gen.specs.Ring as ring;

use std::alloc::{AllocError, Global};

/// The classes of the model, and the head of its system.
const CLASSES: &str = "process class Station(first : Boolean)
ports left, right, sup
messages left?token(Integer), right!token(Integer), sup?halt
variables t : Integer
init start()()
methods start()()
if first then right!token(0) fi;
interrupt loop()() with (sup?halt; delay 3)
loop()() left?token(t); delay 1; right!token(t + 1); loop()()
process class Supervisor
ports sup
messages sup!halt
init loop()()
methods loop()() delay 10; sup!halt; loop()()
system
instances
";

/// The model of a ring with this many stations, whose first one has the token at the start. Takes
/// time linear in the number of stations. The only error is want of memory.
pub fn make(alloc: Global, n: u32) -> Result<Vec<u8>, AllocError>
    requires least { 2 ≤ n }
    requires most { n ≤ 1000 }
    ensures { IfOk result (λ text. text.items ≡ ring.model n) }
{
    let mut text = String::from_str(alloc, CLASSES)?;
    add_stations(alloc, &mut text, n)?;
    text.push_str("v : Supervisor\nchannels\n")?;
    add_channels(alloc, &mut text, n)?;
    add_halting(alloc, &mut text, n)?;
    Ok(text.into_bytes())
}

/// Adds the instances of the stations. The only error is want of memory.
fn add_stations(alloc: Global, text: &mut String, n: u32) -> Result<(), AllocError>
    ensures { OnOk result (string_bytes text.new ≡
        string_bytes text.old ++ ring.each n ring.station) }
{
    for i in 0..n {
        let first = i == 0;
        let line = format!(in alloc; "s{i} : Station(first := {first})\n")?;
        text.push_str(line.as_str())?;
    }
    Ok(())
}

/// Of so many stations, the one behind this one.
fn station_behind(n: u32, i: u32) -> u32
    requires { i < n }
    ensures { result ≡ ring.next n i }
{
    if i + 1 == n { 0 } else { i + 1 }
}

/// Adds the channels from each station to the next. The only error is want of memory.
fn add_channels(alloc: Global, text: &mut String, n: u32) -> Result<(), AllocError>
    ensures { OnOk result (string_bytes text.new ≡ string_bytes text.old ++ ring.each n
        (ring.channel n)) }
{
    for i in 0..n {
        let next = station_behind(n, i);
        let line = format!(in alloc; "{{s{i}.right, s{next}.left}}\n")?;
        text.push_str(line.as_str())?;
    }
    Ok(())
}

/// Adds the channel by which the supervisor halts a station. The only error is want of memory.
fn add_halting(alloc: Global, text: &mut String, n: u32) -> Result<(), AllocError>
    ensures { OnOk result (string_bytes text.new ≡ string_bytes text.old ++ ring.halting n) }
{
    text.push_str("{v.sup")?;
    for i in 0..n {
        let end = format!(in alloc; ", s{i}.sup")?;
        text.push_str(end.as_str())?;
    }
    text.push_str("}\n")
}
