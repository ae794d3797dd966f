// The model of a ring.
ghost use Rattle.pz_words.specs.Jobs.{IsRingSize};
ghost use Rattle.pz_gen.specs.Ring.{model as ring_text};
ghost use Rattle.pz_run_output.specs.devices.Saying.{Said};

use crate::Status;
use crate::printing::say_made;
use pz_gen::make;
use pz_io::Sink;
use std::alloc::Global;

/// Prints the model of a ring with this many stations.
pub fn make_ring<W: Sink>(alloc: Global, n: u32, out: &mut W) -> Status
    requires { IsRingSize n }
    ensures { Said (W.state out.old) (W.state out.new) (ring_text n) Status.Done result }
{
    say_made(out, make(alloc, n), Status::Done)
}
