// The answer to a command.
ghost use Rattle.std.specs.Prelude.{◌≡◌, ℕ, ◌+◌, ◌<◌, ◌≤◌, true, List, [], length, take, drop, IfOk, Ok, Err};
ghost use Rattle.run.specs.Run.{hands_out, answer_text, answered};
ghost use Rattle.run.specs.Numbers.{no_error};
ghost use Rattle.run.specs.Calls.{follow, at_end, command, run_ended, answer};
ghost use Rattle.run.specs.Law.{Roomy, Does, Lawful};
ghost use Rattle.run.specs.State.{waits};
ghost use Rattle.stages.specs.Nexts.{awaiting, course_of, command_length, IsFirst, IsOnward, IsEnd};
ghost use Rattle.reader.specs.declared.reader.Phase.TheVariants.{AwaitsOptions, AwaitsRecord, AwaitsCryptogram};
ghost use Rattle.reader.specs.Meanings.{meaning, told, done, buffered, step_length};

use crate::reader::courses::{cryptogram_course, options_course, record_course};
use crate::reader::end::law_of_calls;
use crate::reader::{Phase, Reader, Step};
use decision::cryptogram::Cryptogram;
use keeping::reader::put_error_indication;
use keyed::record::Record;
use run::fault::Cause;
use run::outcome::Outcome;
use run::refusal::Refusal;
use stages::answer::answer_text;
use stages::next::Next;
use store::writing::WriteStore;
use tlv::place::Place;

// The records that are left behind the one at `at`, of the first `len`.
fn left_behind(records: &[Record; 64], at: usize, len: usize) -> &[Record]
    requires { (at < 64) × (len ≤ 64) }
    ensures { result.now ≡ drop (at + 1) (take len records.now) }
{
    if at + 1 < len {
        return &records[at + 1..len];
    }
    &records[0..0]
}

impl<S: WriteStore> Reader<S> {
    // Awaits the answer to READ RECORD for the first of that many records.
    fn await_first(&mut self, left: usize)
        requires some { (0 < left) × (left ≤ 64) }
        requires phase { self.old.phase ≡ AwaitsOptions }
        ensures { (bytes : List ℕ) → done (command bytes) (meaning S.ReadStore self.new) ≡ follow (meaning S.ReadStore self.old) (hands_out bytes (awaiting (take left self.old.records)) (meaning S.ReadStore self.old).held) }
    {
        self.at = 0;
        self.len = left;
        self.phase = Phase::AwaitsRecord;
        self.count += 1;
    }

    // Awaits the answer to READ RECORD for the first of the records that are left.
    fn await_next(&mut self, left: usize)
        requires some { (left ≡ length (drop (self.old.at + 1) (take self.old.len self.old.records))) × (0 < left) }
        requires phase { self.old.phase ≡ AwaitsRecord }
        ensures { (bytes : List ℕ) → done (command bytes) (meaning S.ReadStore self.new) ≡ follow (meaning S.ReadStore self.old) (hands_out bytes (awaiting (take left (drop (self.old.at + 1) (take self.old.len self.old.records)))) (meaning S.ReadStore self.old).held) }
    {
        self.phase = Phase::AwaitsRecord;
        self.at += 1;
        self.count += 1;
    }

    // Awaits the answer to READ RECORD for the first of the records, or ends the run.
    fn go_first(&mut self, next: Result<Next, Cause>) -> Step
        requires shape { IfOk next IsFirst }
        requires phase { self.old.phase ≡ AwaitsOptions }
        ensures size { step_length result ≡ command_length next }
        ensures goes { Roomy (meaning S.ReadStore self.old) → (buffer : List ℕ) → done (told (Ok result) buffer) (meaning S.ReadStore self.new) ≡ follow (meaning S.ReadStore self.old) (course_of next buffer self.old.records (meaning S.ReadStore self.old).held) }
    {
        match next {
            Ok(Next::Record { command, left }) => {
                self.await_first(left);
                Step::Command(command)
            }
            Ok(Next::Options { .. }) => unreachable(),
            Ok(Next::Cryptogram { .. }) => unreachable(),
            Ok(Next::End(_)) => unreachable(),
            Err(cause) => {
                self.fail(cause);
                Step::Ended
            }
        }
    }

    // Awaits the answer to READ RECORD for the next record, or that to GENERATE AC, or ends the run.
    fn go_on(&mut self, next: Result<Next, Cause>) -> Step
        requires shape { IfOk next (IsOnward (length (drop (self.old.at + 1) (take self.old.len self.old.records)))) }
        requires phase { self.old.phase ≡ AwaitsRecord }
        ensures size { step_length result ≡ command_length next }
        ensures goes { Roomy (meaning S.ReadStore self.old) → (buffer : List ℕ) → done (told (Ok result) buffer) (meaning S.ReadStore self.new) ≡ follow (meaning S.ReadStore self.old) (course_of next buffer (drop (self.old.at + 1) (take self.old.len self.old.records)) (meaning S.ReadStore self.old).held) }
    {
        match next {
            Ok(Next::Record { command, left }) => {
                self.await_next(left);
                Step::Command(command)
            }
            Ok(Next::Cryptogram { command, requested }) => {
                self.phase = Phase::AwaitsCryptogram(requested);
                self.count += 1;
                Step::Command(command)
            }
            Ok(Next::Options { .. }) => unreachable(),
            Ok(Next::End(_)) => unreachable(),
            Err(cause) => {
                self.fail(cause);
                Step::Ended
            }
        }
    }

    // Ends the run with an outcome that the card's cryptogram gives.
    fn finish(&mut self, outcome: Outcome)
        ensures { Roomy (meaning S.ReadStore self.old) → meaning S.ReadStore self.new ≡ at_end (meaning S.ReadStore self.old) outcome no_error (meaning S.ReadStore self.old).held }
    {
        put_error_indication(&mut self.store, [0, 0, 0, 0, 0, 0]);
        self.phase = Phase::Ended(outcome);
    }

    // Ends the run.
    fn go_end(&mut self, next: Result<Next, Cause>)
        requires shape { IfOk next IsEnd }
        ensures goes { Roomy (meaning S.ReadStore self.old) → done run_ended (meaning S.ReadStore self.new) ≡ follow (meaning S.ReadStore self.old) (course_of next [] [] (meaning S.ReadStore self.old).held) }
    {
        match next {
            Ok(Next::End(outcome)) => self.finish(outcome),
            Ok(Next::Options { .. }) => unreachable(),
            Ok(Next::Record { .. }) => unreachable(),
            Ok(Next::Cryptogram { .. }) => unreachable(),
            Err(cause) => self.fail(cause),
        }
    }

    // Goes where the text of the answer to GET PROCESSING OPTIONS leads.
    fn run_options(&mut self, text: &[u8], buffer: &mut [u8], list: &mut [Place]) -> Step
        requires wide { 261 ≤ length buffer.old }
        requires long { 64 ≤ length list.old }
        requires phase { self.old.phase ≡ AwaitsOptions }
        ensures goes { Roomy (meaning S.ReadStore self.old) → done (told (Ok result) buffer.new) (meaning S.ReadStore self.new) ≡ follow (meaning S.ReadStore self.old) (answer_text (meaning S.ReadStore self.old).phase self.old.shares.card (meaning S.ReadStore self.old).held text.now) }
        ensures rest { buffer.new ≡ buffered (told (Ok result) buffer.new) buffer.old }
        ensures fits { step_length result ≤ length buffer.old }
    {
        let shares = self.shares;
        let next = options_course(
            &mut self.store,
            &shares,
            text,
            &mut self.records,
            buffer,
            list,
        );
        self.go_first(next)
    }

    // Goes where the text of the answer to READ RECORD leads.
    fn run_record(&mut self, text: &[u8], buffer: &mut [u8], list: &mut [Place]) -> Step
        requires wide { 261 ≤ length buffer.old }
        requires long { 64 ≤ length list.old }
        requires phase { self.old.phase ≡ AwaitsRecord }
        ensures goes { Roomy (meaning S.ReadStore self.old) → done (told (Ok result) buffer.new) (meaning S.ReadStore self.new) ≡ follow (meaning S.ReadStore self.old) (answer_text (meaning S.ReadStore self.old).phase self.old.shares.card (meaning S.ReadStore self.old).held text.now) }
        ensures rest { buffer.new ≡ buffered (told (Ok result) buffer.new) buffer.old }
        ensures fits { step_length result ≤ length buffer.old }
    {
        let shares = self.shares;
        let records = self.records;
        let left = left_behind(&records, self.at, self.len);
        let next = record_course(&mut self.store, &shares, text, left, buffer, list);
        self.go_on(next)
    }

    // Goes where the text of the answer to GENERATE AC leads.
    fn run_cryptogram(&mut self, requested: Cryptogram, text: &[u8], list: &mut [Place])
        requires long { 64 ≤ length list.old }
        requires phase { self.old.phase ≡ AwaitsCryptogram requested }
        ensures goes { Roomy (meaning S.ReadStore self.old) → done run_ended (meaning S.ReadStore self.new) ≡ follow (meaning S.ReadStore self.old) (answer_text (meaning S.ReadStore self.old).phase self.old.shares.card (meaning S.ReadStore self.old).held text.now) }
    {
        let shares = self.shares;
        let next = cryptogram_course(&mut self.store, &shares, requested, text, list);
        self.go_end(next);
    }

    // Goes where the text of an answer leads, by what was awaited; where nothing was, the run ends. By the phase and not by
    // a stored step: the phase is what is told of a reader, and brings what the step needs.
    fn run_text(&mut self, text: &[u8], buffer: &mut [u8], list: &mut [Place]) -> Step
        requires wide { 261 ≤ length buffer.old }
        requires long { 64 ≤ length list.old }
        ensures goes { Roomy (meaning S.ReadStore self.old) → done (told (Ok result) buffer.new) (meaning S.ReadStore self.new) ≡ follow (meaning S.ReadStore self.old) (answer_text (meaning S.ReadStore self.old).phase self.old.shares.card (meaning S.ReadStore self.old).held text.now) }
        ensures rest { buffer.new ≡ buffered (told (Ok result) buffer.new) buffer.old }
        ensures fits { step_length result ≤ length buffer.old }
    {
        match self.phase {
            Phase::AwaitsOptions => self.run_options(text, buffer, list),
            Phase::AwaitsRecord => self.run_record(text, buffer, list),
            Phase::AwaitsCryptogram(requested) => {
                self.run_cryptogram(requested, text, list);
                Step::Ended
            }
            Phase::Ready => {
                self.fail(Cause::Stopped);
                Step::Ended
            }
            Phase::Ended(_) => {
                self.fail(Cause::Stopped);
                Step::Ended
            }
        }
    }

    // Goes where an answer leads.
    fn run_answer(&mut self, bytes: &[u8], buffer: &mut [u8], list: &mut [Place]) -> Step
        requires wide { 261 ≤ length buffer.old }
        requires long { 64 ≤ length list.old }
        ensures goes { Roomy (meaning S.ReadStore self.old) → done (told (Ok result) buffer.new) (meaning S.ReadStore self.new) ≡ follow (meaning S.ReadStore self.old) (answered (meaning S.ReadStore self.old).phase self.old.shares.card (meaning S.ReadStore self.old).held bytes.now) }
        ensures rest { buffer.new ≡ buffered (told (Ok result) buffer.new) buffer.old }
        ensures fits { step_length result ≤ length buffer.old }
    {
        match answer_text(bytes) {
            Ok(text) => self.run_text(text, buffer, list),
            Err(cause) => {
                self.fail(cause);
                Step::Ended
            }
        }
    }

    // Takes an answer that no check refuses.
    fn take_answer(&mut self, bytes: &[u8], buffer: &mut [u8], list: &mut [Place]) -> Step
        requires opened { self.old.opened ≡ true }
        requires wide { 261 ≤ length buffer.old }
        requires long { 64 ≤ length list.old }
        requires waiting { waits (meaning S.ReadStore self.old).phase ≡ true }
        ensures does { Roomy (meaning S.ReadStore self.old) → Does (meaning S.ReadStore self.old) (answer bytes.now (length buffer.old) (length list.old)) (told (Ok result) buffer.new) (meaning S.ReadStore self.new) }
        ensures law { Lawful (meaning S.ReadStore self.old) (answer bytes.now (length buffer.old) (length list.old)) (told (Ok result) buffer.new) (meaning S.ReadStore self.new) }
        ensures rest { buffer.new ≡ buffered (told (Ok result) buffer.new) buffer.old }
        ensures fits { step_length result ≤ length buffer.old }
    {
        law_of_calls();
        self.run_answer(bytes, buffer, list)
    }

    // The card answers the command that was handed out.
    pub fn answer(
        &mut self,
        bytes: &[u8],
        buffer: &mut [u8],
        list: &mut [Place],
    ) -> Result<Step, Refusal>
        ensures does { Roomy (meaning S.ReadStore self.old) → Does (meaning S.ReadStore self.old) (answer bytes.now (length buffer.old) (length list.old)) (told result buffer.new) (meaning S.ReadStore self.new) }
        ensures law { Lawful (meaning S.ReadStore self.old) (answer bytes.now (length buffer.old) (length list.old)) (told result buffer.new) (meaning S.ReadStore self.new) }
        ensures refused { (e : Refusal) → result ≡ Err e → meaning S.ReadStore self.new ≡ meaning S.ReadStore self.old }
        ensures rest { buffer.new ≡ buffered (told result buffer.new) buffer.old }
        ensures fits { IfOk result (λ s. step_length s ≤ length buffer.old) }
    {
        law_of_calls();
        if !self.opened {
            return Err(Refusal::NotOpen);
        }
        if buffer.len() < 261 || list.len() < 64 {
            return Err(Refusal::Short);
        }
        if !self.waits() {
            return Err(Refusal::NoCommand);
        }
        Ok(self.take_answer(bytes, buffer, list))
    }
}
