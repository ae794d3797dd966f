//! Numbers and offers drawn by a seed.

ghost use Rattle.std.specs.Prelude.{◌<◌};

use crate::words::{Kind, Wish};
use std::alloc::{AllocError, Global};

/// Draws by the rule of Lehmer: each number is the one before times 48271, modulo 2^31 - 1.
#[derive(Clone, Copy)]
pub struct Dice {
    pub number: u32,
}

impl Dice {
    ghost use Rattle.std.specs.Prelude.{◌<◌};

    /// A number below this one.
    pub fn draw(&mut self, below: u32) -> u32
        requires { 0 < below }
        ensures { result < below }
    {
        self.number = (u64::from(self.number) * 48_271 % 2_147_483_647) as u32;
        self.number % below
    }

    fn kind(&mut self) -> Kind {
        match self.draw(3) {
            0 => Kind::Send,
            1 => Kind::Receive,
            _ => Kind::Asking,
        }
    }

    /// One of three wires, or none.
    fn wire(&mut self) -> Option<u32> {
        match self.draw(7) {
            0 => None,
            number => Some(number % 3),
        }
    }

    fn wish(&mut self) -> Wish {
        let kind = self.kind();
        let wire = self.wire();
        let second = self.draw(4) == 0;
        let values = u32::from(self.draw(4) == 0);
        Wish {
            kind,
            wire,
            second,
            values,
        }
    }

    /// Up to five offers.
    pub fn wishes(&mut self, alloc: Global) -> Result<Vec<Wish>, AllocError> {
        let mut wishes = Vec::new(alloc);
        for _ in 0..self.draw(6) {
            wishes.push(self.wish())?;
        }
        Ok(wishes)
    }
}
