// The lines of a schedule: the first that is not a move, and the moves of all.
ghost use Rattle.std.specs.Prelude.{◌≡◌, [], ◌∷◌, ◌+◌, ◌<◌, ◌^◌};
ghost use Rattle.sheet_format.specs.Put.{Puts};
ghost use Rattle.text_schedule.specs.Text.{malformed_from, move_at, moves_of};

use crate::place::{Place, after, is_wrong};
use text_put::put::store;

// The first line, counted from 1, that is neither a move nor empty.
pub(crate) fn malformed(text: &[u8]) -> Option<usize>
    ensures { result ≡ malformed_from 1 Place.Blank text.now }
{
    let mut line = 1;
    let mut p = Place::Blank;
    for &b in text {
        if b == b'\n' {
            if is_wrong(p) {
                return Some(line);
            }
            line += 1;
            p = Place::Blank;
        } else {
            p = after(p, b);
        }
    }
    if is_wrong(p) { Some(line) } else { None }
}

fn lay_two(out: &mut [u8], at: usize, a: u8, b: u8) -> usize
    requires { at + 2 < 2 ^ 64 }
    ensures { Puts out.old at (a ∷ b ∷ []) out.new result }
{
    store(out, at, a);
    store(out, at + 1, b);
    at + 2
}

// The move of a line that ends here, if it is one.
fn lay_move(out: &mut [u8], at: usize, p: Place) -> usize
    requires { at + 2 < 2 ^ 64 }
    ensures { Puts out.old at (move_at p) out.new result }
{
    match p {
        Place::Choice(l, c) | Place::Full(l, c) | Place::Noted(l, c) => lay_two(out, at, l, c),
        _ => at,
    }
}

// The moves of all lines, as far as the buffer reaches.
pub(crate) fn lay_moves(text: &[u8], out: &mut [u8]) -> usize
    ensures { Puts out.old 0 (moves_of text.now) out.new result }
{
    let mut at = 0;
    let mut p = Place::Blank;
    for &b in text {
        if b == b'\n' {
            at = lay_move(out, at, p);
            p = Place::Blank;
        } else {
            p = after(p, b);
        }
    }
    lay_move(out, at, p)
}
