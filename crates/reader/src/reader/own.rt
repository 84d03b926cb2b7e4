// The terminal's own calls: writes and clears.
ghost use Rattle.std.specs.Prelude.{◌≡◌, true, [], length, IfOk, Err};
ghost use Rattle.run.specs.Calls.{write, clear};
ghost use Rattle.run.specs.Law.{Roomy, Does, Lawful};
ghost use Rattle.reader.specs.declared.reader.Step.TheVariants.{Taken};
ghost use Rattle.reader.specs.Meanings.{meaning, told};

use crate::reader::end::law_of_calls;
use crate::reader::{Phase, Reader, Step};
use judge::kind::TextKind;
use keeping::clear::remove_run;
use keeping::take::take_text;
use run::refusal::Refusal;
use store::writing::WriteStore;
use tlv::place::Place;

impl<S: WriteStore> Reader<S> {
    // Removes the terminal's, the card's and the reader's objects, and makes the reader ready.
    pub fn clear(&mut self) -> Result<Step, Refusal>
        ensures does { Roomy (meaning S.ReadStore self.old) → Does (meaning S.ReadStore self.old) clear (told result []) (meaning S.ReadStore self.new) }
        ensures taken { IfOk result (λ s. s ≡ Taken) }
        ensures law { Lawful (meaning S.ReadStore self.old) clear (told result []) (meaning S.ReadStore self.new) }
        ensures refused { (e : Refusal) → result ≡ Err e → meaning S.ReadStore self.new ≡ meaning S.ReadStore self.old }
    {
        law_of_calls();
        if !self.opened {
            return Err(Refusal::NotOpen);
        }
        remove_run(&mut self.store);
        self.begun = false;
        self.phase = Phase::Ready;
        self.count = 0;
        Ok(Step::Taken)
    }

    // Takes the objects that the terminal writes.
    fn take_write(&mut self, text: &[u8], list: &mut [Place]) -> Result<Step, Refusal>
        requires { self.old.opened ≡ true }
        ensures does { Roomy (meaning S.ReadStore self.old) → Does (meaning S.ReadStore self.old) (write text.now (length list.old)) (told result []) (meaning S.ReadStore self.new) }
        ensures taken { IfOk result (λ s. s ≡ Taken) }
        ensures refused { (e : Refusal) → result ≡ Err e → meaning S.ReadStore self.new ≡ meaning S.ReadStore self.old }
    {
        let kind = TextKind::TerminalWrite { begun: self.begun };
        let shares = self.shares;
        take_text(&mut self.store, &shares, kind, text, list)?;
        Ok(Step::Taken)
    }

    // The terminal writes objects of its own.
    pub fn write(&mut self, text: &[u8], list: &mut [Place]) -> Result<Step, Refusal>
        ensures does { Roomy (meaning S.ReadStore self.old) → Does (meaning S.ReadStore self.old) (write text.now (length list.old)) (told result []) (meaning S.ReadStore self.new) }
        ensures taken { IfOk result (λ s. s ≡ Taken) }
        ensures law { Lawful (meaning S.ReadStore self.old) (write text.now (length list.old)) (told result []) (meaning S.ReadStore self.new) }
        ensures refused { (e : Refusal) → result ≡ Err e → meaning S.ReadStore self.new ≡ meaning S.ReadStore self.old }
    {
        law_of_calls();
        if !self.opened {
            return Err(Refusal::NotOpen);
        }
        self.take_write(text, list)
    }
}
