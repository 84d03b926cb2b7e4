// Opening a reader.
ghost use Rattle.std.specs.Prelude.{◌≡◌, ◌≤◌, false, [], length, IfOk, Ok, Err, OnOk};
ghost use Rattle.store.specs.Map.{empty, count};
ghost use Rattle.keeping.specs.Opening.{admit_answer};
ghost use Rattle.keeping.specs.Room.{Roomy};
ghost use Rattle.judge.specs.declared.kind.TextKind.TheVariants.{Configuration};
ghost use Rattle.run.specs.Calls.{taken, checked, own_refusal, start, configured, open_call};
ghost use Rattle.run.specs.Law.{Stands};
ghost use Rattle.reader.specs.declared.reader.Step.TheVariants.{Taken};
ghost use Rattle.reader.specs.Bringing.{OpenedStands, OpenedTaken, RefusedOpening};
ghost use Rattle.reader.specs.Meanings.{limits_of, meaning, told, done};

use crate::reader::{Phase, Reader, Step};
use judge::kind::TextKind;
use keeping::opening::admit;
use keeping::refusal::StoreRefusal;
use keeping::shares::Shares;
use keeping::take::take_text;
use run::refusal::Refusal;
use store::reading::ReadStore;
use store::writing::WriteStore;
use tlv::place::Place;

// Whether a store serves; one that does holds nothing.
fn admitted<S: WriteStore>(store: &S, shares: &Shares) -> Result<(), StoreRefusal>
    ensures answer { result ≡ admit_answer shares.now (S.ReadStore.objects store.now) (S.ReadStore.bytes store.now) (count (S.ReadStore.held store.now)) }
    ensures roomy { OnOk result (Roomy shares.now (S.ReadStore.objects store.now) (S.ReadStore.bytes store.now) (S.ReadStore.held store.now)) }
    ensures nothing { OnOk result (S.ReadStore.held store.now ≡ empty) }
{
    admit(store, shares)
}

// A reader that was opened stands, with no call made of it, and one whose opening was refused is as it was; no code.
fn law_of_opening()
    ensures stands { OpenedStands }
    ensures taken { OpenedTaken }
    ensures refused { RefusedOpening }
{}

impl<S: WriteStore> Reader<S> {
    // Takes the configuration, with a store that serves.
    fn configure(
        &mut self,
        shares: Shares,
        text: &[u8],
        list: &mut [Place],
    ) -> Result<Step, Refusal>
        requires long { 64 ≤ length list.old }
        requires nothing { S.ReadStore.held self.old.store ≡ empty }
        requires roomy { Roomy shares (S.ReadStore.objects self.old.store) (S.ReadStore.bytes self.old.store) (S.ReadStore.held self.old.store) }
        ensures opens { done (told result []) (meaning S.ReadStore self.new) ≡ checked (own_refusal Configuration shares.configuration empty text.now) (meaning S.ReadStore self.old) (record { reply = taken; after = start (configured shares text.now) (limits_of S.ReadStore self.old.store) }) }
    {
        take_text(
            &mut self.store,
            &shares,
            TextKind::Configuration,
            text,
            list,
        )?;
        self.opened = true;
        self.shares = shares;
        self.begun = false;
        self.phase = Phase::Ready;
        self.count = 0;
        Ok(Step::Taken)
    }

    // Opens a closed reader, if its store serves; it then stands.
    fn open_store(
        &mut self,
        shares: Shares,
        text: &[u8],
        list: &mut [Place],
    ) -> Result<Step, Refusal>
        requires closed { self.old.opened ≡ false }
        requires long { 64 ≤ length list.old }
        ensures opens { done (told result []) (meaning S.ReadStore self.new) ≡ open_call (meaning S.ReadStore self.old) shares text.now (length list.old) }
        ensures stands { OnOk result (Stands (configured shares text.now) [] (meaning S.ReadStore self.new)) }
        ensures taken { IfOk result (λ s. s ≡ Taken) }
        ensures refused { (e : Refusal) → result ≡ Err e → meaning S.ReadStore self.new ≡ meaning S.ReadStore self.old }
    {
        law_of_opening();
        admitted(&self.store, &shares)?;
        self.configure(shares, text, list)
    }

    // Opens the reader over its store, with the shares of configuration, terminal and card, and the configuration.
    pub fn open(&mut self, shares: Shares, text: &[u8], list: &mut [Place]) -> Result<Step, Refusal>
        ensures opens { done (told result []) (meaning S.ReadStore self.new) ≡ open_call (meaning S.ReadStore self.old) shares text.now (length list.old) }
        ensures stands { OnOk result (Stands (configured shares text.now) [] (meaning S.ReadStore self.new)) }
        ensures taken { IfOk result (λ s. s ≡ Taken) }
        ensures refused { (e : Refusal) → result ≡ Err e → meaning S.ReadStore self.new ≡ meaning S.ReadStore self.old }
    {
        if self.opened {
            return Err(Refusal::AlreadyOpen);
        }
        if list.len() < 64 {
            return Err(Refusal::Short);
        }
        self.open_store(shares, text, list)
    }
}
