//! What the replies to the commands of a generator come to.
ghost use Rattle.std.specs.Prelude.{◌≡◌, ◌<◌, ◌^◌};
ghost use Rattle.oriedit.specs.Summary.{nothing, plus, of_turn, of_question};
ghost use Rattle.oriedit.specs.Counting.{IsTurnMore, IsQuestionMore};

use crate::summary::faults_told;
use dialogue::Reply;

/// How many of the turns were done, refused, and met by a failure of the keeper, and how many faults
/// were listed between them.
#[derive(Clone, Copy, Debug, PartialEq, Eq)]
pub(crate) struct Tally {
    pub(crate) done: u64,
    pub(crate) refused: u64,
    pub(crate) failed: u64,
    pub(crate) seen: u128,
}

impl Tally {
    /// Before the first turn.
    pub(crate) fn new() -> Tally
        ensures { result ≡ nothing }
    {
        Tally {
            done: 0,
            refused: 0,
            failed: 0,
            seen: 0,
        }
    }

    /// With the reply to one more turn.
    pub(crate) fn with_turn(self, reply: &Reply) -> Tally
        requires done { self.done < 2 ^ 31 }
        requires refused { self.refused < 2 ^ 31 }
        requires failed { self.failed < 2 ^ 31 }
        ensures sum { result ≡ plus self (of_turn reply.now) }
        ensures more { IsTurnMore self result }
    {
        match reply {
            Reply::Done { rev: _ } => Tally {
                done: self.done + 1,
                ..self
            },
            Reply::Refused(_) => Tally {
                refused: self.refused + 1,
                ..self
            },
            Reply::KeeperFailed => Tally {
                failed: self.failed + 1,
                ..self
            },
            _ => self,
        }
    }

    /// With the reply to one more question for the faults.
    pub(crate) fn with_question(self, reply: &Reply) -> Tally
        requires { self.seen < 2 ^ 100 }
        ensures sum { result ≡ plus self (of_question reply.now) }
        ensures more { IsQuestionMore self result }
    {
        match faults_told(reply) {
            None => self,
            Some(faults) => Tally {
                seen: self.seen + u128::from(faults),
                ..self
            },
        }
    }
}
