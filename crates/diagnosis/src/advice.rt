//! What to do about two files that stand for no state.
ghost use Rattle.std.specs.Prelude.{◌≡◌};
ghost use Rattle.diagnosis.specs.Advising.{IsAdvice, IsAdviceBeside, sentence_of};

use crate::{Damage, Reading};
use disk_model::FileId;

/// What to do about two files that stand for no state, besides putting both back from one backup.
#[derive(Clone, Copy, Debug, PartialEq, Eq, Drop)]
pub enum Advice {
    /// Nothing else.
    Backup,
    /// One of them may be moved away, whichever it is, to go on with the other.
    MoveEither,
    /// Both may be moved away, to begin with nothing.
    MoveBoth,
    /// This one may be moved away, to begin with nothing.
    MoveToBegin(FileId),
    /// This one may be moved away, to go on with what the other holds.
    MoveToGoOn(FileId),
}

// What to do about a file that has a fault, where the other one is this.
fn beside(faulty: FileId, other: Reading) -> Advice
    ensures { IsAdviceBeside faulty other result }
{
    match other {
        Reading::Whole(held) => {
            if held.is_configured {
                return Advice::MoveToGoOn(faulty);
            }
            Advice::Backup
        }
        Reading::Faulty(_) => Advice::MoveBoth,
        Reading::Empty | Reading::Closed => Advice::MoveToBegin(faulty),
    }
}

/// What to do about two files that stand for no state.
pub fn advice_for(damage: Damage) -> Advice
    ensures { IsAdvice damage result }
{
    match damage.a {
        Reading::Faulty(_) => beside(FileId::A, damage.b),
        Reading::Whole(_) => match damage.b {
            Reading::Whole(_) => Advice::MoveEither,
            Reading::Faulty(_) => beside(FileId::B, damage.a),
            Reading::Empty | Reading::Closed => Advice::Backup,
        },
        Reading::Empty | Reading::Closed => match damage.b {
            Reading::Faulty(_) => beside(FileId::B, damage.a),
            Reading::Whole(_) | Reading::Empty | Reading::Closed => Advice::Backup,
        },
    }
}

/// The end of the line that people read.
pub fn sentence(advice: Advice) -> &'static str
    ensures { result.now ≡ sentence_of advice }
{
    match advice {
        Advice::Backup => "",
        Advice::MoveEither => { ", or move one of them away to go on with what the other holds" }
        Advice::MoveBoth => ", or move both away to begin with nothing",
        Advice::MoveToBegin(FileId::A) => ", or move natgw.a away to begin with nothing",
        Advice::MoveToBegin(FileId::B) => ", or move natgw.b away to begin with nothing",
        Advice::MoveToGoOn(FileId::A) => {
            ", or move natgw.a away to go on with what natgw.b holds, which may be older"
        }
        Advice::MoveToGoOn(FileId::B) => {
            ", or move natgw.b away to go on with what natgw.a holds, which may be older"
        }
    }
}
