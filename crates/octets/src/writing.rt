// A lent space of bytes, written from left to right. Each function takes the place of its first byte and gives the
// place behind its last one. Where a byte does not fit, nothing more is written, and the answer is the place of that
// byte.
ghost use Rattle.std.specs.Prelude.{◌≡◌, ◌∷◌, [], ℕ, ◌+◌, ◌*◌, ◌≤◌, ◌↔◌, length, take, IsTrue};
ghost use Rattle.std.proofs.lemmas.List.Edits.{sets};
ghost use Rattle.octets.specs.Little.{bytes_of};
ghost use Rattle.octets.specs.Decimal.{decimal};
ghost use Rattle.octets.specs.Space.{up_to, put_byte, write, filled};
ghost use Rattle.octets.specs.Places.{space};

// The byte that would go at `place` does not fit.
#[derive(Clone, Copy, Debug, PartialEq, Eq)]
pub struct Full {
    pub place: usize,
}

// One byte.
pub fn put(out: &mut [u8], place: usize, b: u8) -> Result<usize, Full>
    ensures { space out.new result ≡ put_byte b (up_to out.old place) }
{
    if out.len() <= place {
        return Err(Full { place });
    }
    out[place] = b;
    Ok(place + 1)
}

// The bytes of s.
pub fn put_bytes(out: &mut [u8], place: usize, s: &[u8]) -> Result<usize, Full>
    ensures { space out.new result ≡ write s.now (up_to out.old place) }
{
    let mut next = place;
    for b in s {
        next = put(out, next, *b)?;
    }
    Ok(next)
}

// The most digits that a number has.
const DIGITS: usize = 20;

// n in decimal: the digits from the last one on, then written from the first.
pub fn put_decimal(out: &mut [u8], place: usize, n: usize) -> Result<usize, Full>
    ensures { space out.new result ≡ write (decimal n) (up_to out.old place) }
{
    let mut digits = [0u8; DIGITS];
    let mut rest = n;
    for first in (0..DIGITS).rev() {
        digits[first] = b'0' + (rest % 10) as u8;
        rest /= 10;
        if rest == 0 {
            return put_bytes(out, place, &digits[first..]);
        }
    }
    unreachable!() // no number has more digits
}

// The four bytes of a word, the lowest first.
pub fn put_word(out: &mut [u8], place: usize, w: u32) -> Result<usize, Full>
    ensures { space out.new result ≡ write (bytes_of (w ∷ [])) (up_to out.old place) }
{
    put_bytes(out, place, &w.to_le_bytes())
}

// Whether the bytes of n words fit from a place on.
fn all_fit(place: usize, n: usize, len: usize) -> bool
    ensures { IsTrue result ↔ (place + 4 * n ≤ len) }
{
    n <= len / 4 && place <= len - 4 * n
}

// The bytes of words from a place on, where all of them fit.
fn set_words(out: &mut [u8], place: usize, ws: &[u32])
    requires { place + 4 * length ws.now ≤ length out.old }
    ensures { out.new ≡ sets out.old place (bytes_of ws.now) }
{
    for (i, w) in ws.iter().enumerate() {
        let at = place + 4 * i;
        out[at..at + 4].copy_from_slice(&w.to_le_bytes());
    }
}

// The bytes of words, of which some may not fit.
fn put_each(out: &mut [u8], place: usize, ws: &[u32]) -> Result<usize, Full>
    ensures { space out.new result ≡ write (bytes_of ws.now) (up_to out.old place) }
{
    let mut next = place;
    for w in ws {
        next = put_word(out, next, *w)?;
    }
    Ok(next)
}

// The bytes of words. Where all of them fit, the space is asked once and not for each byte.
pub fn put_words(out: &mut [u8], place: usize, ws: &[u32]) -> Result<usize, Full>
    ensures { space out.new result ≡ write (bytes_of ws.now) (up_to out.old place) }
{
    if all_fit(place, ws.len(), out.len()) {
        set_words(out, place, ws);
        return Ok(place + 4 * ws.len());
    }
    put_each(out, place, ws)
}

// Zeros from a place on.
pub fn zero_from(out: &mut [u8], from: usize)
    ensures { out.new ≡ filled (length out.old) (take from out.old) }
{
    if from < out.len() {
        out[from..].fill(0);
    }
}
