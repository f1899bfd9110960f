// The program: standard input in, the lines of its batch out. It reads one byte more than the longest input, to know
// one that is too long, and no more than that: no byte after those counts (`ProgramReads`, promises/specs/Program).
//
// No contract can say what the system reads and writes. A read that fails counts as the end of the input; output that
// cannot be written, as on a full disk, is lost; and there is no exit status, the program ends with 0 in both cases. An
// output is whole exactly if it ends with a line `top N` or `refused N V`. tools/program-test holds that each byte read
// is served.
#![tactic(auto)]

ghost use Rattle.std.specs.Prelude.{◌≤◌, length, take};
ghost use Rattle.std.specs.Io.KnownBytes.{Consumes};

use std::io::Read;

// Reads until `buf` is full, the input ends or a read fails. What came stands at the start of `buf`, and its length
// comes back.
fn read_full<R: Read>(from: &mut R, buf: &mut [u8]) -> usize
    ensures within { result ≤ length buf.new }
    ensures bytes { Consumes (R.remaining from.old) (R.remaining from.new) (take result buf.new) }
{
    let mut done = 0;
    while done < buf.len() {
        match from.read(&mut buf[done..]) {
            Ok(n) if n > 0 => done += n,
            _ => break,
        }
    }
    done
}

fn main(rt: HostRuntime) {
    let mut input = [0u8; meaning::PROGRAM_BYTES + 1];
    let mut out = [0u8; serve::OUTPUT];
    let n = read_full(&mut rt.stdin(), &mut input);
    let r = serve::serve(&input[..n], &mut out);
    let _ = rt.write_all(&out[..r]);
}
