// How the answers of the system are taken.
ghost use Rattle.std.specs.Prelude.{◌≡◌};
ghost use Rattle.pz_io.specs.Answers.{read_answer, write_answer};

use crate::outside::{Got, Put};
use std::io;

/// The answer to a read of which the system says this, where so many bytes were handed out before.
pub(crate) fn got_of(said: io::Result<usize>, handed: u64) -> Got
    ensures { result ≡ read_answer said handed }
{
    match said {
        Ok(0) => Got::End,
        Ok(n) if n as u64 <= u64::MAX - handed => Got::Bytes(n),
        Ok(_) | Err(_) => Got::Failed,
    }
}

/// The answer to a write of which the system says this.
pub(crate) fn put_of(said: io::Result<usize>) -> Put
    ensures { result ≡ write_answer said }
{
    match said {
        Ok(0) | Err(_) => Put::Failed,
        Ok(n) => Put::Took(n),
    }
}
