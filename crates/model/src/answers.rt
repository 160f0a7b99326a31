// What calls answer, as numbers: 0 or the refusal's number, and the answer's values in order, zeros after.
ghost use Rattle.std.specs.Prelude.{◌≡◌};
ghost use Rattle.model.specs.declared.Unserved.TheVariants.{Refused};
ghost use Rattle.model.specs.Calls.{refusal_number, refused};
ghost use Rattle.model.specs.RunCalls.{said_words};
ghost use Rattle.model.specs.Answers.{reply_of, count_reply, alloc_reply, mark_reply, release_reply, classes_reply, said_of};

use crate::{ANSWER_WORDS, Refusal, Released, Said, Served, Unserved, Verdict};

// Document 01's number of a refusal.
impl From<Refusal> for usize {
    ghost from_gives = { λ x number. number ≡ refusal_number x };

    #[tactic(auto, unfolding(crate::specs::Calls::refusal_number))]
    fn from(x: Refusal) -> usize {
        match x {
            Refusal::BadSetup => 1,
            Refusal::BadTables => 2,
            Refusal::WrongPhase => 3,
            Refusal::BadHolder => 4,
            Refusal::BadRequest => 5,
            Refusal::TooBig => 6,
            Refusal::BadOffer => 7,
            Refusal::BadLink => 8,
            Refusal::Exhausted => 9,
            Refusal::BadObject => 10,
            Refusal::BadLine => 11,
            Refusal::BadClasses => 12,
        }
    }
}

impl From<Refusal> for Unserved {
    ghost from_gives = { λ x why. why ≡ Refused x };

    fn from(x: Refusal) -> Unserved {
        Unserved::Refused(x)
    }
}

impl From<Refusal> for Said {
    ghost from_gives = { λ x said. said ≡ said_of (refused x) };

    fn from(x: Refusal) -> Said {
        Said {
            number: usize::from(x),
            ..Said::default()
        }
    }
}

// One for each kind of answer: they share the arm of a refusal, and a trait for the other arm would be no plainer than the arm.
impl From<Result<(), Refusal>> for Said {
    ghost from_gives = { λ x said. said ≡ said_of (reply_of x) };

    #[tactic(auto, unfolding(crate::specs::Answers::reply_of))]
    fn from(x: Result<(), Refusal>) -> Said {
        match x {
            Ok(()) => Said::default(),
            Err(refusal) => Said::from(refusal),
        }
    }
}

impl From<Result<usize, Refusal>> for Said {
    ghost from_gives = { λ x said. said ≡ said_of (count_reply x) };

    #[tactic(auto, unfolding(crate::specs::Answers::count_reply))]
    fn from(x: Result<usize, Refusal>) -> Said {
        match x {
            Ok(first) => Said {
                first,
                ..Said::default()
            },
            Err(refusal) => Said::from(refusal),
        }
    }
}

impl From<Result<bool, Refusal>> for Said {
    ghost from_gives = { λ x said. said ≡ said_of (mark_reply x) };

    #[tactic(auto, unfolding(crate::specs::Answers::mark_reply, crate::specs::Base::flag))]
    fn from(x: Result<bool, Refusal>) -> Said {
        match x {
            Ok(new) => Said {
                first: usize::from(new),
                ..Said::default()
            },
            Err(refusal) => Said::from(refusal),
        }
    }
}

impl From<Result<Released, Refusal>> for Said {
    ghost from_gives = { λ x said. said ≡ said_of (release_reply x) };

    #[tactic(auto, unfolding(crate::specs::Answers::release_reply))]
    fn from(x: Result<Released, Refusal>) -> Said {
        match x {
            Ok(done) => Said {
                first: done.blocks,
                second: done.merged,
                third: done.swept,
                ..Said::default()
            },
            Err(refusal) => Said::from(refusal),
        }
    }
}

impl From<Result<Served, Unserved>> for Said {
    ghost from_gives = { λ x said. said ≡ said_of (alloc_reply x) };

    #[tactic(auto, unfolding(crate::specs::Answers::alloc_reply, crate::specs::Base::flag))]
    fn from(x: Result<Served, Unserved>) -> Said {
        match x {
            Ok(served) => Said {
                number: 0,
                first: served.address.0,
                second: served.cell_size,
                third: usize::from(served.offer_used),
                fourth: served.swept,
            },
            Err(Unserved::Exhausted { swept }) => Said {
                fourth: swept,
                ..Said::from(Refusal::Exhausted)
            },
            Err(Unserved::Refused(refusal)) => Said::from(refusal),
        }
    }
}

impl From<Result<Verdict, Refusal>> for Said {
    ghost from_gives = { λ x said. said ≡ said_of (classes_reply x) };

    #[tactic(auto, unfolding(crate::specs::Answers::classes_reply))]
    fn from(x: Result<Verdict, Refusal>) -> Said {
        match x {
            Ok(Verdict::Accepted) => Said::default(),
            Ok(Verdict::BadCount(count)) => Said {
                first: 1,
                second: count,
                ..Said::default()
            },
            Ok(Verdict::BadRow(row)) => Said {
                first: 2,
                second: row,
                ..Said::default()
            },
            Err(refusal) => Said::from(refusal),
        }
    }
}

// What the words of an answer in a row of calls say.
impl From<[usize; ANSWER_WORDS]> for Said {
    ghost from_gives = { λ words x. said_words x ≡ words };

    #[tactic(auto, unfolding(crate::specs::RunCalls::said_words))]
    fn from(words: [usize; ANSWER_WORDS]) -> Said {
        let [number, first, second, third, fourth] = words;
        Said {
            number,
            first,
            second,
            third,
            fourth,
        }
    }
}
