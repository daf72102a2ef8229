// The room for tables, and lengths held to it.
ghost use Rattle.std.specs.Prelude.{◌≡◌, ◌≤◌, drop, replicate, take};
ghost use Rattle.word_list.specs.Lent.{Marked};
ghost use Rattle.word_list.specs.Room.{Held};

use crate::entry::Entry;
use crate::lent::{lent, table};

// A table of blocks, and one of stored blocks.
pub const BLOCKS: usize = 4112;

pub const STORED: usize = 65552;

// The length, at most the room.
pub fn held(n: u32, room: usize) -> usize
    ensures { Held n room result }
{
    room.min(n as usize)
}

// A table or a buffer: the room for it, and how long it is.
#[derive(Drop)]
pub struct Room<E, const N: usize> {
    pub places: [E; N],
    pub long: usize,
    pub ghost fits: { long ≤ N },
}

impl<E: Entry, const N: usize> Room<E, N> {
    ghost use Rattle.std.specs.Borrow.{sem};
    ghost use Rattle.word_list.specs.Lending.{lends_part};

    // A table of the next n entries of the list.
    pub fn table(n: u32) -> Self
        ensures long { Held n N result.long }
        ensures beyond { drop result.long result.places ≡ drop result.long (replicate N E.nought) }
    {
        let long = held(n, N);
        Room {
            places: table(long),
            long,
        }
    }

    // A buffer to lend n places of, marked.
    pub fn lent(n: u32) -> Self
        ensures long { Held n N result.long }
        ensures marked { Marked E.marks 0 result.places }
    {
        Room {
            places: lent(),
            long: held(n, N),
        }
    }

    // What a call is given.
    pub fn part(&self) -> &[E]
        ensures { result.now ≡ take self.now.long self.now.places }
    {
        &self.places[..self.long]
    }

    // The same, to be written.
    pub fn part_mut(&mut self) -> &mut [E]
        ensures* writes_back { sem 𝓛 (lends_part E.row N.row self.entry result) }
        ensures value { result.now ≡ take self.old.long self.old.places }
    {
        let long = self.long;
        let places = &mut self.places;
        &mut places[..long]
    }
}
