// SCOPE's numbers for the answers (5.1), in code: status, value, rule and `top`. Each function promises those of the
// definition that gives them.
ghost use Rattle.std.specs.Prelude.{◌≡◌};
ghost use Rattle.meaning.specs.Verdicts.{only};
ghost use Rattle.store.specs.Answers.{refusal_of, verdict_of};
ghost use Rattle.store.specs.declared.Unsound.TheVariants as unsound;
ghost use Rattle.calls.specs.Answers.{not_run_of};
ghost use Rattle.vectors.specs.Answers.{verdict_is, IsMade, IsRan};

use calls::NotRun;
use std::fmt;
use store::{BadLength, Unsound};

// A status, the value that goes with it, and the rule of a damaged cell, 0 where there is none.
#[derive(Clone, Copy)]
pub struct Verdict {
    pub status: u32,
    pub value: usize,
    pub rule: u32,
}

// A verdict, and `top` afterwards.
#[derive(Clone, Copy)]
pub struct Answer {
    pub verdict: Verdict,
    pub top: usize,
}

impl fmt::Display for Verdict {
    fn fmt<W: fmt::Write>(&self, f: &mut fmt::Formatter<W>) -> fmt::Result {
        write!(f, "{} {} {}", self.status, self.value, self.rule)
    }
}

impl fmt::Display for Answer {
    fn fmt<W: fmt::Write>(&self, f: &mut fmt::Formatter<W>) -> fmt::Result {
        let Verdict { status, value, .. } = self.verdict;
        write!(f, "{status} {value} top {}", self.top)
    }
}

impl Verdict {
    fn only(status: u32) -> Verdict
        ensures { verdict_is result ≡ only status }
    {
        Verdict {
            status,
            value: 0,
            rule: 0,
        }
    }
}

// Why a store is refused.
impl From<Unsound> for Verdict {
    ghost from_gives = { λ why v. verdict_is v ≡ refusal_of why };

    fn from(why: Unsound) -> Verdict {
        match why {
            Unsound::BadLength => Verdict::only(1),
            Unsound::BadTop => Verdict::only(2),
            Unsound::Damaged(cell, rule) => Verdict {
                status: 3,
                value: cell,
                rule: rule.into(),
            },
        }
    }
}

// The check.
pub fn checked(found: Result<(), Unsound>) -> Verdict
    ensures { verdict_is result ≡ verdict_of found }
{
    match found {
        Ok(()) => Verdict::only(0),
        Err(why) => why.into(),
    }
}

impl From<BadLength> for Verdict {
    ghost from_gives = { λ why v. verdict_is v ≡ refusal_of unsound.BadLength };

    fn from(_: BadLength) -> Verdict {
        Unsound::BadLength.into()
    }
}

// Why a batch is refused.
impl From<NotRun> for Verdict {
    ghost from_gives = { λ why v. verdict_is v ≡ not_run_of why };

    fn from(why: NotRun) -> Verdict {
        match why {
            NotRun::Unsound(why) => why.into(),
            NotRun::BadCalls => Verdict::only(4),
            NotRun::ShortAnswers => Verdict::only(5),
        }
    }
}

// A fresh store. Where there is none, `top` is 0.
pub fn made(fresh: Result<usize, BadLength>) -> Answer
    ensures { IsMade result fresh }
{
    let (verdict, top) = match fresh {
        Ok(top) => (Verdict::only(0), top),
        Err(why) => (why.into(), 0),
    };
    Answer { verdict, top }
}

// A batch that was handed `top`.
pub fn ran(batch: Result<usize, NotRun>, top: usize) -> Answer
    ensures { IsRan result batch top }
{
    let (verdict, top) = match batch {
        Ok(last) => (Verdict::only(0), last),
        Err(why) => (why.into(), top),
    };
    Answer { verdict, top }
}
