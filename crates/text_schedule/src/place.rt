// Where a reader stands in a line of a schedule.
ghost use Rattle.std.specs.Prelude.{◌≡◌};
ghost use Rattle.text_schedule.specs.Place.{sorted as sortedBy, grown as grownBy, after as afterBy};
ghost use Rattle.text_schedule.specs.Place.{is_wrong as wrongBy};

// Nothing so far; within the lane, behind it; within the choice, behind it; in a comment, or in one behind a move; or
// no line can begin so.
#[derive(Clone, Copy)]
pub enum Place {
    Blank,
    Lane(u8),
    Between(u8),
    Choice(u8, u8),
    Full(u8, u8),
    Remark,
    Noted(u8, u8),
    Wrong,
}

// A number with one digit more; 255 where it is larger.
fn grown(n: u8, b: u8) -> u8
    ensures { result ≡ grownBy n b }
{
    n.saturating_mul(10).saturating_add(b.saturating_sub(b'0'))
}

// One of three places, by what the byte is to a line, or the place of no line.
fn sorted(b: u8, blank: Place, digit: Place, hash: Place) -> Place
    ensures { result ≡ sortedBy b blank digit hash Place.Wrong }
{
    match b {
        b' ' | b'\t' | b'\r' => blank,
        b'0'..=b'9' => digit,
        b'#' => hash,
        _ => Place::Wrong,
    }
}

// Where the reader stands after one more byte of the line.
pub fn after(p: Place, b: u8) -> Place
    ensures { result ≡ afterBy p b }
{
    match p {
        Place::Blank => sorted(b, Place::Blank, Place::Lane(grown(0, b)), Place::Remark),
        Place::Lane(l) => sorted(b, Place::Between(l), Place::Lane(grown(l, b)), Place::Wrong),
        Place::Between(l) => sorted(
            b,
            Place::Between(l),
            Place::Choice(l, grown(0, b)),
            Place::Wrong,
        ),
        Place::Choice(l, c) => sorted(
            b,
            Place::Full(l, c),
            Place::Choice(l, grown(c, b)),
            Place::Noted(l, c),
        ),
        Place::Full(l, c) => sorted(b, Place::Full(l, c), Place::Wrong, Place::Noted(l, c)),
        Place::Remark => Place::Remark,
        Place::Noted(l, c) => Place::Noted(l, c),
        Place::Wrong => Place::Wrong,
    }
}

// Whether a line that ends here is neither a move nor empty.
pub fn is_wrong(p: Place) -> bool
    ensures { result ≡ wrongBy p }
{
    matches!(p, Place::Lane(_) | Place::Between(_) | Place::Wrong)
}
