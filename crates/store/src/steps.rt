// A list of puts and drops, run over a store, and over two stores of different make.
ghost use Rattle.std.specs.Prelude.{◌≡◌, ◌≤◌, min, ◌++◌, length, take, drop};
ghost use Rattle.store.specs.Steps.{value_in, step_answer, step_after, answers_of, map_after, SameAnswers};

use crate::reading::ReadStore;
use crate::writing::{Refused, WriteStore};
use keyed::tag::Tag;

// A part of a text: so many bytes from a place on, as far as the text reaches.
#[derive(Clone, Copy, PartialEq, Eq, Debug)]
pub struct Part {
    pub start: usize,
    pub len: usize,
}

// A call that changes a store.
#[derive(Clone, Copy, PartialEq, Eq, Debug)]
pub enum Step {
    // Put that part of the text under the tag.
    Put(Tag, Part),
    // Drop the tag.
    Drop(Tag),
}

// What a store answers to a step.
#[derive(Clone, Copy, PartialEq, Eq, Debug)]
pub enum StepAnswer {
    // What the put answers.
    Put(Result<(), Refused>),
    // Whether the tag was held.
    Drop(bool),
}

impl Part {
    // Its bytes.
    fn of(self, text: &[u8]) -> &[u8]
        ensures { result.now ≡ value_in text.now self }
    {
        let rest = &text[self.start.min(text.len())..];
        &rest[..self.len.min(rest.len())]
    }
}

// Does one step.
pub fn do_step<S: WriteStore>(store: &mut S, text: &[u8], step: Step) -> StepAnswer
    ensures answer { result ≡ step_answer (S.ReadStore.objects store.old) (S.ReadStore.bytes store.old) text.now (S.ReadStore.held store.old) step }
    ensures after { S.ReadStore.held store.new ≡ step_after (S.ReadStore.objects store.old) (S.ReadStore.bytes store.old) text.now (S.ReadStore.held store.old) step }
    ensures limits { (S.ReadStore.objects store.new ≡ S.ReadStore.objects store.old) × (S.ReadStore.bytes store.new ≡ S.ReadStore.bytes store.old) }
{
    match step {
        Step::Put(tag, part) => StepAnswer::Put(store.put(tag, part.of(text))),
        Step::Drop(tag) => StepAnswer::Drop(store.remove(tag)),
    }
}

// Does the steps in turn, and puts the answers into the places' front.
fn run_all<S: WriteStore>(store: &mut S, text: &[u8], steps: &[Step], answers: &mut [StepAnswer])
    requires { length steps.now ≤ length answers.old }
    ensures answers { answers.new ≡ answers_of (S.ReadStore.objects store.old) (S.ReadStore.bytes store.old) text.now (S.ReadStore.held store.old) steps.now ++ drop (length steps.now) answers.old }
    ensures after { S.ReadStore.held store.new ≡ map_after (S.ReadStore.objects store.old) (S.ReadStore.bytes store.old) text.now (S.ReadStore.held store.old) steps.now }
    ensures limits { (S.ReadStore.objects store.new ≡ S.ReadStore.objects store.old) × (S.ReadStore.bytes store.new ≡ S.ReadStore.bytes store.old) }
{
    // By the index: a `zip` with `answers.iter_mut()` lends the answers for the whole loop, and no invariant can name them.
    for (i, step) in steps.iter().enumerate() {
        answers[i] = do_step(store, text, *step);
    }
}

// Does the steps in turn, as many as there are places for answers, and puts the answers into the places' front; how
// many steps were done. The answers and the map after them are told by the map, the limits and the steps alone.
pub fn run_steps<S: WriteStore>(
    store: &mut S,
    text: &[u8],
    steps: &[Step],
    answers: &mut [StepAnswer],
) -> usize
    ensures done { result ≡ min (length steps.now) (length answers.old) }
    ensures answers { answers.new ≡ answers_of (S.ReadStore.objects store.old) (S.ReadStore.bytes store.old) text.now (S.ReadStore.held store.old) (take result steps.now) ++ drop result answers.old }
    ensures after { S.ReadStore.held store.new ≡ map_after (S.ReadStore.objects store.old) (S.ReadStore.bytes store.old) text.now (S.ReadStore.held store.old) (take result steps.now) }
    ensures limits { (S.ReadStore.objects store.new ≡ S.ReadStore.objects store.old) × (S.ReadStore.bytes store.new ≡ S.ReadStore.bytes store.old) }
{
    let n = steps.len().min(answers.len());
    run_all(store, text, &steps[..n], answers);
    n
}

// Does the steps in turn over two stores, as many as both have places for answers; how many were done. Stores that
// start with equal maps and equal limits give the same answers, those of the map, and have equal maps after, whatever
// their make.
pub fn run_both<A: WriteStore, B: WriteStore>(
    a: &mut A,
    b: &mut B,
    text: &[u8],
    steps: &[Step],
    first: &mut [StepAnswer],
    second: &mut [StepAnswer],
) -> usize
    ensures done { result ≡ min (length steps.now) (min (length first.old) (length second.old)) }
    ensures first { first.new ≡ answers_of (A.ReadStore.objects a.old) (A.ReadStore.bytes a.old) text.now (A.ReadStore.held a.old) (take result steps.now) ++ drop result first.old }
    ensures second { second.new ≡ answers_of (B.ReadStore.objects b.old) (B.ReadStore.bytes b.old) text.now (B.ReadStore.held b.old) (take result steps.now) ++ drop result second.old }
    ensures after { (A.ReadStore.held a.new ≡ map_after (A.ReadStore.objects a.old) (A.ReadStore.bytes a.old) text.now (A.ReadStore.held a.old) (take result steps.now)) × (B.ReadStore.held b.new ≡ map_after (B.ReadStore.objects b.old) (B.ReadStore.bytes b.old) text.now (B.ReadStore.held b.old) (take result steps.now)) }
    ensures alike { A.ReadStore.held a.old ≡ B.ReadStore.held b.old → A.ReadStore.objects a.old ≡ B.ReadStore.objects b.old → A.ReadStore.bytes a.old ≡ B.ReadStore.bytes b.old → SameAnswers (A.ReadStore.objects a.old) (A.ReadStore.bytes a.old) text.now (A.ReadStore.held a.old) steps.now result first.new second.new (A.ReadStore.held a.new) (B.ReadStore.held b.new) }
    ensures limits { ((A.ReadStore.objects a.new ≡ A.ReadStore.objects a.old) × (A.ReadStore.bytes a.new ≡ A.ReadStore.bytes a.old)) × ((B.ReadStore.objects b.new ≡ B.ReadStore.objects b.old) × (B.ReadStore.bytes b.new ≡ B.ReadStore.bytes b.old)) }
{
    let n = steps.len().min(first.len().min(second.len()));
    run_all(a, text, &steps[..n], first);
    run_all(b, text, &steps[..n], second);
    n
}
