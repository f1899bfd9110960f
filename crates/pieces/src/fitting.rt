// The states that go on: those with numbers to which a text may have led. Any other is taken as refused, so that no
// count runs over and no place beyond the counts is asked for.
ghost use Rattle.std.specs.Prelude.{◌≡◌, ◌+◌, ◌*◌, ◌^◌, ◌≤◌, leb};
ghost use Rattle.std.specs.List.{list_all};
ghost use Rattle.meaning.specs.Limits.{depth_limit, terms_limit};
ghost use Rattle.meaning.specs.Pieces.{ahead, fits};
ghost use Rattle.reader.specs.Readers.{stand_of};
ghost use Rattle.pieces.specs.Feeding.{state_is, Resumes};

use crate::Pieces;
use crate::feeding::{Level, State};
use crate::numbers::stand_of;
use reader::judging::{Fault, Stand};
use reader::{BadText, Reader};

// One more than the largest code.
const CODES: usize = meaning::CODE_LIMIT as usize + 1;

// The bytes that may come before a term must begin, where no bracket is open.
fn bytes_ahead(stand: Stand) -> usize
    ensures { (result ≡ ahead (stand_of stand)) × (result ≤ 2 ^ 28) }
{
    match stand {
        Stand::Begun | Stand::Closed => 1,
        Stand::Spaced => 0,
        Stand::Number(code) => CODES - code.value as usize,
    }
}

// The offset is not farther than so many terms can lead, with so many bytes ahead.
#[tactic(auto, unfolding(meaning::specs::Limits::depth_limit, meaning::specs::Limits::terms_limit))]
fn offset_fits(offset: usize, depth: usize, bytes: usize, terms: usize) -> bool
    requires { (depth ≤ depth_limit) × (bytes ≤ 2 ^ 28) × (terms ≤ terms_limit) }
    ensures { result ≡ leb (offset + depth + bytes) (2 ^ 28 * terms + 1) }
{
    let far = CODES * terms + 1;
    offset <= far && depth + bytes <= far - offset
}

// Each of the counts is at most n.
fn each_within(n: usize, counts: &[u32]) -> bool
    ensures { result ≡ list_all (λ x. leb x n) counts.now }
{
    counts.iter().all(|x| *x as usize <= n)
}

// A text may have led to these numbers.
#[tactic(auto, unfolding(meaning::specs::Limits::depth_limit, meaning::specs::Limits::terms_limit))]
fn goes_on(s: State, counts: &[u32; meaning::DEPTH_LIMIT]) -> bool
    ensures { result ≡ fits (state_is s counts.now) }
{
    let r = s.place;
    r.depth <= meaning::DEPTH_LIMIT
        && r.total <= meaning::TERMS_LIMIT
        && s.level.own as usize <= r.total
        && s.level.most as usize <= r.total
        && offset_fits(r.offset, r.depth, bytes_ahead(r.stand), r.total)
        && each_within(r.total, &counts[..r.depth])
}

// The state that a struct stands for, or why bytes that led to none are refused.
#[tactic(auto, unfolding(meaning::specs::Pieces::fits, meaning::specs::Reader::stop_verdict))]
impl TryFrom<&Pieces> for State {
    type Error = BadText;

    ghost try_from_gives = { λ s r. Resumes s.now r };

    fn try_from(s: &Pieces) -> Result<State, BadText> {
        let stand = stand_of(s.stand, s.code).map_err(|fault| BadText {
            fault,
            offset: s.offset,
        })?;
        let state = State {
            place: Reader {
                stand,
                offset: s.offset,
                depth: s.depth,
                total: s.terms,
            },
            level: Level {
                own: s.own,
                most: s.most,
            },
        };
        if goes_on(state, &s.counts) {
            Ok(state)
        } else {
            Err(state.place.refuse(Fault::NotText))
        }
    }
}
