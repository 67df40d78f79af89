// The operations of a lane.

// One operation of a lane; a skip's target is a position of the lane, and the end is the lane's length.
#[derive(Clone, Copy)]
pub enum Op {
    Set(u8, u32),
    Add(u8, u8),
    Load(u8, u8),
    Store(u8, u8),
    Lock(u8),
    Unlock(u8),
    Skip(u8, u16),
}
