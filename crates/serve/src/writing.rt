// The program's output: lines of numbers, written from left to right. What writes a line takes the place of its first
// byte and gives the place behind its last one. `report` and `refuse` begin at the start of a space that has room for
// all they write.
ghost use Rattle.std.specs.Prelude.{◌≡◌, [], ◌∷◌, ◌++◌, ◌≤◌, length};
ghost use Rattle.octets.specs.Decimal.{decimal};
ghost use Rattle.octets.specs.Space.{up_to, write};
ghost use Rattle.octets.specs.Places.{space};
ghost use Rattle.meaning.specs.Program.{lines_of, refusal};
ghost use Rattle.serve.specs.Front.{Front};
ghost use Rattle.serve.specs.Lines.{top_line};

use octets::writing;
use octets::writing::Full;

// n in decimal, and the byte that ends it.
fn field(out: &mut [u8], place: usize, n: usize, end: u8) -> Result<usize, Full>
    ensures { space out.new result ≡ write (decimal n ++ (end ∷ [])) (up_to out.old place) }
{
    let last = writing::put_decimal(out, place, n)?;
    writing::put(out, last, end)
}

// A line of two numbers: a status and a value.
fn line(out: &mut [u8], place: usize, s: usize, v: usize) -> Result<usize, Full>
    ensures { space out.new result ≡ write (lines_of (s ∷ v ∷ [])) (up_to out.old place) }
{
    let value = field(out, place, s, b' ')?;
    field(out, value, v, b'\n')
}

// A line for each two answers.
fn lines(out: &mut [u8], place: usize, answers: &[u32]) -> Result<usize, Full>
    ensures { space out.new result ≡ write (lines_of answers.now) (up_to out.old place) }
{
    let (pairs, _) = answers.as_chunks::<2>();
    let mut next = place;
    for [status, value] in pairs {
        next = line(out, next, *status as usize, *value as usize)?;
    }
    Ok(next)
}

// `top N`.
fn last_line(out: &mut [u8], place: usize, top: usize) -> Result<usize, Full>
    ensures { space out.new result ≡ write (top_line top) (up_to out.old place) }
{
    let name = writing::put_bytes(out, place, b"top ")?;
    field(out, name, top, b'\n')
}

// The lines of a batch that ran to its end. There is room for them.
pub fn report(out: &mut [u8], answers: &[u32], top: usize) -> usize
    requires { length (lines_of answers.now ++ top_line top) ≤ length out.old }
    ensures { Front out.old (lines_of answers.now ++ top_line top) out.new result }
{
    let last = lines(out, 0, answers).unwrap();
    last_line(out, last, top).unwrap_or(last)
}

// `refused N 0`. There is room for it.
pub fn refuse(out: &mut [u8], s: usize) -> usize
    requires { length (refusal s 0) ≤ length out.old }
    ensures { Front out.old (refusal s 0) out.new result }
{
    let name = writing::put_bytes(out, 0, b"refused ").unwrap();
    line(out, name, s, 0).unwrap_or(name)
}
