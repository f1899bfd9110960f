// The term writer and the expression writer, which call each other: from an expression to a bracket term, and to the
// expression in the bracket. The brackets that may still be open fall from one expression to the next inside it, and
// within one the cells left; so the stack goes as deep as brackets may nest, whatever the store. Each takes the place
// of its first byte and gives the place behind its last one. Where a byte does not fit or a bracket is one too many,
// all of them end at once, so the time goes with the bytes that are written.
ghost use Rattle.std.specs.Prelude.{◌≡◌, ◌≤◌, ◌<◌};
ghost use Rattle.meaning.specs.Limits.{first_heap_cell};
ghost use Rattle.meaning.specs.Sound.{Sound};
ghost use Rattle.meaning.specs.Meaning.{run, term_at};
ghost use Rattle.meaning.specs.Text.{text};
ghost use Rattle.octets.specs.Decimal.{decimal};
ghost use Rattle.octets.specs.Space.{up_to, write};
ghost use Rattle.octets.specs.Places.{space};
ghost use Rattle.text.specs.Page.{page, reached, between, writes, Within};
ghost use Rattle.text.specs.declared.writers.Stop.TheVariants.{ShortSpace};

use octets::writing;
use octets::writing::Full;

// Where a text stopped: at a byte that does not fit, or before a bracket that is one too many.
#[derive(Clone, Copy, PartialEq, Eq)]
pub enum Stop {
    ShortSpace(usize),
    TooDeep(usize),
}

impl From<Full> for Stop {
    ghost from_gives = { λ full stop. stop ≡ ShortSpace full.place };

    fn from(full: Full) -> Stop {
        Stop::ShortSpace(full.place)
    }
}

// The space before a term, where i terms stand before it.
fn put_gap(out: &mut [u8], place: usize, i: usize) -> Result<usize, Stop>
    ensures { page out.new result ≡ between i (reached out.old place) }
{
    if i == 0 {
        return Ok(place);
    }
    Ok(writing::put(out, place, b' ')?)
}

// A code in decimal. Its digits stay out of the stack of the writers, which call each other.
#[inline(never)]
fn put_code(out: &mut [u8], place: usize, code: u32) -> Result<usize, Full>
    ensures { space out.new result ≡ write (decimal code) (up_to out.old place) }
{
    writing::put_decimal(out, place, code as usize)
}

// The term of cell c, where `left` more brackets may be open.
#[cycle(write_run_write_term)]
fn write_term(
    ws: &[u32],
    top: usize,
    c: usize,
    left: usize,
    out: &mut [u8],
    place: usize,
) -> Result<usize, Stop>
    requires { Sound first_heap_cell ws.now top × (first_heap_cell ≤ c) × (c < top) }
    ensures { page out.new result
        ≡ writes left (text (term_at ws.now c)) (reached out.old place) }
{
    match store::term_at(ws, c) {
        store::Term::Symbol(code) => Ok(put_code(out, place, code)?),
        store::Term::Bracket(inside) => {
            if left == 0 {
                return Err(Stop::TooDeep(place));
            }
            let opened = writing::put(out, place, b'(')?;
            let written = write_run(ws, top, inside.start, inside.size, left - 1, out, opened)?;
            Ok(writing::put(out, written, b')')?)
        }
    }
}

// The expression of n cells from l on, where `left` more brackets may be open.
#[cycle(write_run_write_term)]
pub fn write_run(
    ws: &[u32],
    top: usize,
    l: usize,
    n: usize,
    left: usize,
    out: &mut [u8],
    place: usize,
) -> Result<usize, Stop>
    requires { Sound first_heap_cell ws.now top × Within top l n }
    ensures { page out.new result
        ≡ writes left (text (run (term_at ws.now) l n)) (reached out.old place) }
{
    let mut next = place;
    for i in 0..n {
        next = put_gap(out, next, i)?;
        next = write_term(ws, top, l + i, left, out, next)?;
    }
    Ok(next)
}
