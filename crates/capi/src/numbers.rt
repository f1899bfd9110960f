// An answer in numbers: one conversion for each kind of refusal.
ghost use Rattle.std.specs.Prelude.{◌≡◌};
ghost use Rattle.meaning.specs.Verdicts.{valued};
ghost use Rattle.store.specs.Answers.{refusal_of};
ghost use Rattle.text.specs.Answers.{no_text_of};
ghost use Rattle.file.specs.Answers.{not_loaded_of, not_saved_of};
ghost use Rattle.store.specs.declared.Unsound.TheVariants as unsound;
ghost use Rattle.calls.specs.Answers.{not_run_of};
ghost use Rattle.typing.specs.Answers.{not_typed_of};
ghost use Rattle.capi.specs.Answers.{numbers_are};

use calls::NotRun;
use file::{NotLoaded, NotSaved};
use store::{BadLength, Unsound};
use text::NoText;
use typing::NotTyped;

// A status, the rule of a damaged cell or 0, and the value that goes with the status.
#[derive(Clone, Copy)]
pub struct Numbers {
    pub status: u32,
    pub rule: u32,
    pub value: usize,
}

// Done, with nothing to say.
pub const DONE: Numbers = Numbers {
    status: 0,
    rule: 0,
    value: 0,
};

impl Numbers {
    // Nothing is damaged.
    pub fn new(status: u32, value: usize) -> Numbers
        ensures { numbers_are result ≡ valued status value }
    {
        Numbers {
            status,
            rule: 0,
            value,
        }
    }
}

impl From<Unsound> for Numbers {
    ghost from_gives = { λ why n. numbers_are n ≡ refusal_of why };

    fn from(why: Unsound) -> Numbers {
        match why {
            Unsound::BadLength => Numbers::new(1, 0),
            Unsound::BadTop => Numbers::new(2, 0),
            Unsound::Damaged(cell, rule) => Numbers {
                status: 3,
                rule: rule.into(),
                value: cell,
            },
        }
    }
}

impl From<BadLength> for Numbers {
    ghost from_gives = { λ why n. numbers_are n ≡ refusal_of unsound.BadLength };

    fn from(_: BadLength) -> Numbers {
        Unsound::BadLength.into()
    }
}

impl From<NotRun> for Numbers {
    ghost from_gives = { λ why n. numbers_are n ≡ not_run_of why };

    fn from(why: NotRun) -> Numbers {
        match why {
            NotRun::Unsound(why) => why.into(),
            NotRun::BadCalls => Numbers::new(4, 0),
            NotRun::ShortAnswers => Numbers::new(5, 0),
        }
    }
}

impl From<NotTyped> for Numbers {
    ghost from_gives = { λ why n. numbers_are n ≡ not_typed_of why };

    fn from(why: NotTyped) -> Numbers {
        match why {
            NotTyped::Unsound(why) => why.into(),
            NotTyped::NoRoom(_) => Numbers::new(16, 0),
            NotTyped::NoRegister => Numbers::new(20, 0),
            NotTyped::BadText(bad) => Numbers::new(bad.fault.into(), bad.offset),
        }
    }
}

impl From<NoText> for Numbers {
    ghost from_gives = { λ why n. numbers_are n ≡ no_text_of why };

    fn from(why: NoText) -> Numbers {
        match why {
            NoText::Unsound(why) => why.into(),
            NoText::NoRegister => Numbers::new(20, 0),
            NoText::TooDeep => Numbers::new(21, 0),
            NoText::ShortSpace => Numbers::new(22, 0),
        }
    }
}

impl From<NotSaved> for Numbers {
    ghost from_gives = { λ why n. numbers_are n ≡ not_saved_of why };

    fn from(why: NotSaved) -> Numbers {
        match why {
            NotSaved::Unsound(why) => why.into(),
            NotSaved::ShortSpace(_) => Numbers::new(22, 0),
        }
    }
}

impl From<NotLoaded> for Numbers {
    ghost from_gives = { λ why n. numbers_are n ≡ not_loaded_of why };

    fn from(why: NotLoaded) -> Numbers {
        match why {
            NotLoaded::ShortFile => Numbers::new(30, 0),
            NotLoaded::BadEdition => Numbers::new(31, 0),
            NotLoaded::BadDistance => Numbers::new(32, 0),
            NotLoaded::BadCapacity => Numbers::new(33, 0),
            NotLoaded::WrongSlice => Numbers::new(35, 0),
            NotLoaded::Damaged(cell, rule) => Unsound::Damaged(cell, rule).into(),
            NotLoaded::NotCollected => Numbers::new(34, 0),
        }
    }
}
