// Where the rows of each lane lie in a sheet, by the counts of its header.
ghost use Rattle.std.specs.Prelude.{◌≡◌, ◌<◌, get_or};
ghost use Rattle.sheet_format.specs.Read.{counts};
ghost use Rattle.sheet_rows.specs.Rows.{parts_in};

use file_format::fields::{byte_at, word_at};

// Of each lane the byte at which its rows begin, and how many they are: none past the header's lanes.
#[derive(Clone, Copy, PartialEq, Eq)]
pub struct Parts {
    pub from: [usize; 4],
    pub count: [usize; 4],
}

fn count_of(sheet: &[u8], t: u8) -> usize
    requires { t < 4 }
    ensures { (result ≡ get_or (counts sheet.now) t 0) × (result < 65536) }
{
    if t < byte_at(sheet, 0) {
        usize::from(word_at(sheet, 8 + 2 * usize::from(t)))
    } else {
        0
    }
}

pub fn parts_of(sheet: &[u8]) -> Parts
    ensures { result ≡ parts_in sheet.now }
{
    let a = count_of(sheet, 0);
    let b = count_of(sheet, 1);
    let c = count_of(sheet, 2);
    let d = count_of(sheet, 3);
    Parts {
        from: [16, 16 + 8 * a, 16 + 8 * (a + b), 16 + 8 * (a + b + c)],
        count: [a, b, c, d],
    }
}
