// How many lanes, locations and locks there are, from the header of a file or of rows.
ghost use Rattle.std.specs.Prelude.{◌≡◌, get_or};

use file_format::fields::byte_at;

#[derive(Clone, Copy)]
pub struct Extent {
    pub lanes: u32,
    pub locations: u32,
    pub locks: u32,
}

pub const NO_EXTENT: Extent = Extent {
    lanes: 0,
    locations: 0,
    locks: 0,
};

// A header begins with the three numbers, a byte each.
pub fn extent_of(header: &[u8]) -> Extent
    ensures lanes { result.lanes ≡ get_or header.now 0 0 }
    ensures locations { result.locations ≡ get_or header.now 1 0 }
    ensures locks { result.locks ≡ get_or header.now 2 0 }
{
    Extent {
        lanes: u32::from(byte_at(header, 0)),
        locations: u32::from(byte_at(header, 1)),
        locks: u32::from(byte_at(header, 2)),
    }
}
