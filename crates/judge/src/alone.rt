// Judging a text by itself, with nothing held.
ghost use Rattle.std.specs.Prelude.{◌≡◌, ◌≤◌, length, take, IfOk};
ghost use Rattle.tlv.specs.Series.{found, meaning};
ghost use Rattle.store.specs.Map.{empty};
ghost use Rattle.judge.specs.Alone.{kept_empty};
ghost use Rattle.judge.specs.Judge.{judgement, answered};

use crate::fault::JudgeRefusal;
use crate::kind::TextKind;
use crate::text::judge_text;
use keyed::tag::Tag;
use store::reading::{NotCopied, ReadStore};
use tlv::place::Place;

// A store that holds nothing and has no room.
#[derive(Drop)]
struct NothingHeld {}

impl ReadStore for NothingHeld {
    ghost held = { λ _. empty };

    ghost objects = { λ _. 0 };

    ghost bytes = { λ _. 0 };

    ghost kept = { λ _. kept_empty };

    fn object_limit(&self) -> usize {
        0
    }

    fn byte_limit(&self) -> usize {
        0
    }

    fn object_count(&self) -> usize {
        0
    }

    fn byte_total(&self) -> usize {
        0
    }

    fn length_of(&self, tag: Tag) -> Option<usize> {
        let _ = tag;
        None
    }

    fn copy_out(&self, tag: Tag, out: &mut [u8]) -> Result<usize, NotCopied> {
        let _ = tag;
        let _ = out;
        Err(NotCopied::Missing)
    }
}

// How a text of that kind is judged where nothing is held.
pub fn judge_alone(kind: TextKind, text: &[u8], list: &mut [Place]) -> Result<usize, JudgeRefusal>
    ensures answer { answered result ≡ judgement (length list.old) kind empty text.now }
    ensures within { IfOk result (λ n. n ≤ length list.new) }
    ensures places { IfOk result (λ n. (n ≤ 64) × (meaning text.now ≡ found (take n list.new))) }
{
    judge_text(&NothingHeld {}, kind, text, list)
}
