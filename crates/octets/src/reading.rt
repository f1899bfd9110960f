// Bytes as little-endian words.
ghost use Rattle.std.specs.Prelude.{◌≡◌, length, get_or};
ghost use Rattle.octets.specs.Little.{words_of};
ghost use Rattle.octets.specs.Space.{filled};

// Word i of the bytes, or 0 where there are not so many.
pub fn word(bytes: &[u8], i: usize) -> u32
    ensures { result ≡ get_or (words_of bytes.now) i 0 }
{
    let (words, _) = bytes.as_chunks::<4>();
    words.get(i).map_or(0, |word| u32::from_le_bytes(*word))
}

// The words of the bytes in a lent slice, as many as it has room for, and zeros after them.
pub fn fill_words(ws: &mut [u32], bytes: &[u8])
    ensures { ws.new ≡ filled (length ws.old) (words_of bytes.now) }
{
    for (i, w) in ws.iter_mut().enumerate() {
        *w = word(bytes, i);
    }
}
