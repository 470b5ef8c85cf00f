// A record of places with what it takes to read it.
ghost use Rattle.std.specs.Prelude.{◌<◌, length};
ghost use Rattle.places.specs.Numbered.{Numbered};
ghost use Rattle.places.specs.Props.{numbered_props};

use record::{Held, N, count_at};

// The record of a path with a place in each policy's stead, where each certificate starts in it, and the policy that each place stands for.
#[derive(Clone, Copy)]
pub struct Places<'a> {
    pub rec: &'a [u16],
    pub starts: &'a [u16],
    pub names: &'a [u16],
    ghost numbered: { Numbered rec.now starts.now names.now } by { Prim.hlevel numbered_props },
    ghost few: { length names.now < 65536 },
}

impl<'a> Places<'a> {
    ghost use Rattle.std.specs.Prelude.{◌≡◌, ◌<◌, drop};
    ghost use Rattle.names.specs.Places.{at};

    // How many certificates there are, at least one.
    pub fn certificates(&self) -> usize
        ensures { result ≡ at self.now.rec.now 0 }
    {
        count_at(self.rec, 0, N)
    }

    // Certificate i + 1.
    pub fn certificate(&self, i: usize) -> Held<'a>
        requires { i < at self.now.rec.now 0 }
        ensures { result.numbers.now ≡ drop (at self.now.starts.now i) self.now.rec.now }
    {
        Held::at(self.rec, usize::from(self.starts[i]))
    }
}
