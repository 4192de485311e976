ghost use Rattle.scheme.specs.Rules.{single};
ghost use Rattle.scheme.specs.Singles;

use crate::engines::Engine;
use crate::schemes::Scheme;
use crate::shared::{accepts, fill, fits, next_value};
use alphabet::Fault;

/// Every engine is a scheme of one layer. Its running values are numbers, and its meaning is that of its rules.
impl<E: Engine> Scheme for E {
    type Value = u16;

    ghost meaning = { λ e. single (E.Engine.rules e) };

    ghost lawful = { λ s e. Singles.lawful (E.Engine.rules s) (E.Engine.keeps s) };

    fn unfit(&self) -> bool {
        false
    }

    fn layers(&self) -> usize {
        1
    }

    fn reach(&self) -> usize {
        self.keys()
    }

    fn start(&self) -> u16 {
        self.initial()
    }

    fn next(&self, width: usize, place: usize, value: u16, character: u8) -> u16 {
        next_value(self, width, place, value, character)
    }

    fn good(&self) -> u16 {
        self.target()
    }

    fn same(&self, one: u16, other: u16) -> bool {
        one == other
    }

    fn fit(&self, reading: &[u8]) -> bool {
        fits(self, reading)
    }

    fn accept(&self, reading: &[u8], last: u16) -> Result<(), Fault> {
        accepts(self, reading, last)
    }

    fn key(&self, reading: &mut [u8]) {
        fill(self, reading)
    }
}
