// How a run ends: by a fault of the link, by a stop.
ghost use Rattle.std.specs.Prelude.{◌≡◌, [], IfOk, Err};
ghost use Rattle.run.specs.Calls.{stop, link_fault, failed};
ghost use Rattle.run.specs.Law.{Roomy, Does, Lawful};
ghost use Rattle.reader.specs.Bringing.{LawOfCalls};
ghost use Rattle.reader.specs.declared.reader.Step.TheVariants.{Ended};
ghost use Rattle.reader.specs.Meanings.{meaning, told};

use crate::reader::{Phase, Reader, Step};
use keeping::reader::put_error_indication;
use run::fault::{Cause, RunFault};
use run::outcome::Outcome;
use run::refusal::Refusal;
use store::writing::WriteStore;

// The law of isolation holds of every call that does what its definition says; no code.
pub(crate) fn law_of_calls()
    ensures { LawOfCalls }
{}

impl<S: WriteStore> Reader<S> {
    // Ends the run by a cause.
    pub(crate) fn fail(&mut self, cause: Cause)
        ensures { Roomy (meaning S.ReadStore self.old) → meaning S.ReadStore self.new ≡ failed (meaning S.ReadStore self.old) cause (meaning S.ReadStore self.old).held }
    {
        let fault = RunFault {
            phase: self.phase_kind(),
            awaited: self.awaited(),
            cause,
        };
        put_error_indication(&mut self.store, cause.error_indication());
        self.phase = Phase::Ended(Outcome::EndApplication(fault));
    }

    // The terminal stops the run.
    pub fn stop(&mut self) -> Result<Step, Refusal>
        ensures does { Roomy (meaning S.ReadStore self.old) → Does (meaning S.ReadStore self.old) stop (told result []) (meaning S.ReadStore self.new) }
        ensures ended { IfOk result (λ s. s ≡ Ended) }
        ensures law { Lawful (meaning S.ReadStore self.old) stop (told result []) (meaning S.ReadStore self.new) }
        ensures refused { (e : Refusal) → result ≡ Err e → meaning S.ReadStore self.new ≡ meaning S.ReadStore self.old }
    {
        law_of_calls();
        if !self.opened {
            return Err(Refusal::NotOpen);
        }
        if !self.waits() {
            return Err(Refusal::NoCommand);
        }
        self.fail(Cause::Stopped);
        Ok(Step::Ended)
    }

    // The link to the card failed, with a code 1 to 3.
    pub fn link_fault(&mut self, code: u8) -> Result<Step, Refusal>
        ensures does { Roomy (meaning S.ReadStore self.old) → Does (meaning S.ReadStore self.old) (link_fault code) (told result []) (meaning S.ReadStore self.new) }
        ensures ended { IfOk result (λ s. s ≡ Ended) }
        ensures law { Lawful (meaning S.ReadStore self.old) (link_fault code) (told result []) (meaning S.ReadStore self.new) }
        ensures refused { (e : Refusal) → result ≡ Err e → meaning S.ReadStore self.new ≡ meaning S.ReadStore self.old }
    {
        law_of_calls();
        if !self.opened {
            return Err(Refusal::NotOpen);
        }
        if code == 0 || code > 3 {
            return Err(Refusal::LinkCode);
        }
        if !self.waits() {
            return Err(Refusal::NoCommand);
        }
        self.fail(Cause::Link(code));
        Ok(Step::Ended)
    }
}
