// Texts and numbers laid into the columns of a line.
ghost use Rattle.std.specs.Prelude.{◌≡◌, ◌-◌, ◌≤◌, length};
ghost use Rattle.text_put.specs.Decimal.{decimal};
ghost use Rattle.text_page.specs.Columns.{place_in, in_column, InLine};

use text_put::put::put_text;
use text_put::words::put_decimal;

// The side of its column to which a text stands.
#[derive(Clone, Copy)]
pub enum Side {
    Left,
    Right,
}

// A column of a line: its first character, from 1, how many it has, and the side to which its text stands.
#[derive(Clone, Copy)]
pub struct Column {
    pub first: usize,
    pub width: usize,
    pub side: Side,
}

// Where a text of n characters begins in its column, from 0.
fn place_in(column: Column, n: usize) -> usize
    requires { InLine column }
    ensures { (result ≡ place_in column n) × (result ≤ 32) }
{
    let from = column.first - 1;
    let gap = column.width.saturating_sub(n);
    match column.side {
        Side::Left => from,
        Side::Right => from + gap,
    }
}

// Lays a text into its column of a line.
pub(crate) fn put_in(line: &mut [u8], column: Column, text: &[u8])
    requires { InLine column × (length text.now ≤ 32) }
    ensures { line.new ≡ in_column line.old column text.now }
{
    put_text(line, place_in(column, text.len()), text);
}

// Lays a number into its column, in decimal.
pub(crate) fn put_number(line: &mut [u8], column: Column, n: u32)
    requires { InLine column }
    ensures { line.new ≡ in_column line.old column (decimal n) }
{
    let mut digits = [0u8; 10];
    let size = put_decimal(&mut digits, 0, n);
    put_in(line, column, &digits[..size]);
}
