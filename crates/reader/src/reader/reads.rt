// What can be read of a reader.
ghost use Rattle.std.specs.Prelude.{◌≡◌, ◌≤◌};
ghost use Rattle.run.specs.State.{kind_of, record_of, waits as waits_at, closed};
ghost use Rattle.run.specs.Calls.{outcome_read, phase_read, count_read};
ghost use Rattle.reader.specs.Meanings.{limits_of, meaning};

use crate::reader::{Phase, Reader};
use keeping::shares::Shares;
use keyed::record::Record;
use run::outcome::OutcomeReport;
use run::phase::PhaseKind;
use run::refusal::Refusal;
use store::writing::WriteStore;

impl<S: WriteStore> Reader<S> {
    // A closed reader over a store.
    pub fn new(store: S) -> Reader<S>
        ensures { meaning S.ReadStore result ≡ closed (limits_of S.ReadStore store) (S.ReadStore.held store) }
    {
        Reader {
            store,
            opened: false,
            shares: Shares::default(),
            begun: false,
            phase: Phase::Ready,
            records: [Record::default(); 64],
            at: 0,
            len: 0,
            count: 0,
        }
    }

    // Whether it is open.
    pub fn is_open(&self) -> bool
        ensures { result ≡ (meaning S.ReadStore self.now).opened }
    {
        self.opened
    }

    // The store, for reading.
    pub fn store(&self) -> &S
        ensures { result.now ≡ self.now.store }
    {
        &self.store
    }

    // How many commands were handed out since the last begin taken or clear.
    pub fn count(&self) -> u8
        ensures value { result ≡ count_read (meaning S.ReadStore self.now) }
        ensures few { result ≤ 66 }
    {
        self.count
    }

    // Which phase it is.
    pub(crate) fn phase_kind(&self) -> PhaseKind
        ensures { result ≡ kind_of (meaning S.ReadStore self.now).phase }
    {
        match self.phase {
            Phase::Ready => PhaseKind::Ready,
            Phase::AwaitsOptions => PhaseKind::AwaitsOptions,
            Phase::AwaitsRecord => PhaseKind::AwaitsRecord,
            Phase::AwaitsCryptogram(_) => PhaseKind::AwaitsCryptogram,
            Phase::Ended(_) => PhaseKind::Ended,
        }
    }

    // The number of the phase.
    pub fn phase(&self) -> u8
        ensures { result ≡ phase_read (meaning S.ReadStore self.now) }
    {
        u8::from(self.phase_kind())
    }

    // Whether a command waits for its answer.
    pub(crate) fn waits(&self) -> bool
        ensures { result ≡ waits_at (meaning S.ReadStore self.now).phase }
    {
        matches!(
            self.phase,
            Phase::AwaitsOptions | Phase::AwaitsRecord | Phase::AwaitsCryptogram(_)
        )
    }

    // The record that is awaited, zeros where none is.
    pub(crate) fn awaited(&self) -> Record
        ensures { result ≡ record_of (meaning S.ReadStore self.now).phase }
    {
        match self.phase {
            Phase::AwaitsRecord => self.records[self.at],
            _ => Record::default(),
        }
    }

    // The outcome of the run that ended last, and how many commands it handed out.
    pub fn outcome(&self) -> Result<OutcomeReport, Refusal>
        ensures { result ≡ outcome_read (meaning S.ReadStore self.now) }
    {
        if !self.opened {
            return Err(Refusal::NotOpen);
        }
        match self.phase {
            Phase::Ended(outcome) => Ok(OutcomeReport {
                outcome,
                commands: self.count,
            }),
            _ => Err(Refusal::NoOutcome),
        }
    }
}
