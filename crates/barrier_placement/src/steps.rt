// What placement sees of a lane: for each operation its class, or where it can go besides the next position.
use crate::cookbook::Class;

// An operation of a chain. A Skip holds its target's position in the chain; the end is the chain's length.
#[derive(Clone, Copy, PartialEq, Eq, Debug)]
pub enum Step {
    Access(Class),
    Skip(u16),
    Other,
}
