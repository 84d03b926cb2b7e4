// How a run ended.
ghost use Rattle.std.specs.Prelude.{◌≡◌};
ghost use Rattle.run.specs.Numbers.{result_number, outcome_fault, outcome_of};

use crate::fault::RunFault;
use decision::cryptogram::Cryptogram;

#[derive(Clone, Copy, PartialEq, Eq, Debug)]
pub enum Outcome {
    // The card gave a TC.
    Approved,
    // The card gave an AAC.
    Declined,
    // The card gave an ARQC.
    Online,
    // The application is ended, with that fault.
    EndApplication(RunFault),
}

impl Outcome {
    // The outcome of a cryptogram that stands.
    pub fn of_cryptogram(given: Cryptogram) -> Outcome
        ensures { result ≡ outcome_of given }
    {
        match given {
            Cryptogram::Aac => Outcome::Declined,
            Cryptogram::Tc => Outcome::Approved,
            Cryptogram::Arqc => Outcome::Online,
        }
    }

    // The number of the result.
    pub fn result(self) -> u8
        ensures { result ≡ result_number self }
    {
        match self {
            Outcome::Approved => 1,
            Outcome::Declined => 2,
            Outcome::Online => 3,
            Outcome::EndApplication(_) => 4,
        }
    }

    // The fault of the run, for result 4 only.
    pub fn fault(self) -> Option<RunFault>
        ensures { result ≡ outcome_fault self }
    {
        match self {
            Outcome::EndApplication(fault) => Some(fault),
            _ => None,
        }
    }
}

// What is told of an ended run: its outcome, and how many commands were handed out.
#[derive(Clone, Copy, PartialEq, Eq, Debug)]
pub struct OutcomeReport {
    pub outcome: Outcome,
    pub commands: u8,
}
