// Begin: the FCI, and GET PROCESSING OPTIONS.
ghost use Rattle.std.specs.Prelude.{◌≡◌, ℕ, ◌≤◌, true, false, List, [], length, drop, IfOk, None, Ok, Err};
ghost use Rattle.keeping.specs.Room.{Roomy as RoomyStore};
ghost use Rattle.run.specs.Run.{begins, first_missing};
ghost use Rattle.run.specs.Calls.{begin, needed_tags, follow};
ghost use Rattle.run.specs.Law.{Roomy, Does, Lawful};
ghost use Rattle.stages.specs.Nexts.{course_of, command_length, IsOptions};
ghost use Rattle.reader.specs.Meanings.{meaning, told, done, buffered, step_length};

use crate::reader::end::law_of_calls;
use crate::reader::{Phase, Reader, Step};
use keeping::shares::Shares;
use run::fault::Cause;
use run::refusal::Refusal;
use stages::card::card_text;
use stages::fci::{after_fci, check_fci};
use stages::missing::first_missing;
use stages::next::Next;
use store::writing::WriteStore;
use tlv::place::Place;

// The objects that must have a value when a sale begins, in the order in which they are looked for.
const NEEDED: [u32; 6] = [0x9F02, 0x9F35, 0xDF_8121, 0xDF_8122, 0xDF_8123, 0xDF_856C];

// Where an FCI leads.
fn fci_course<S: WriteStore>(
    store: &mut S,
    shares: &Shares,
    fci: &[u8],
    buffer: &mut [u8],
    list: &mut [Place],
) -> Result<Next, Cause>
    requires wide { 261 ≤ length buffer.old }
    requires long { 64 ≤ length list.old }
    ensures course { RoomyStore shares.now (S.ReadStore.objects store.old) (S.ReadStore.bytes store.old) (S.ReadStore.held store.old) → course_of result buffer.new [] (S.ReadStore.held store.new) ≡ begins shares.now.card (S.ReadStore.held store.old) fci.now }
    ensures rest { drop (command_length result) buffer.new ≡ drop (command_length result) buffer.old }
    ensures fits { command_length result ≤ length buffer.old }
    ensures shape { IfOk result IsOptions }
    ensures roomy { RoomyStore shares.now (S.ReadStore.objects store.old) (S.ReadStore.bytes store.old) (S.ReadStore.held store.old) → RoomyStore shares.now (S.ReadStore.objects store.new) (S.ReadStore.bytes store.new) (S.ReadStore.held store.new) }
    ensures limits { (S.ReadStore.objects store.new ≡ S.ReadStore.objects store.old) × (S.ReadStore.bytes store.new ≡ S.ReadStore.bytes store.old) }
{
    check_fci(fci)?;
    card_text(store, shares, 0x6F, fci, list)?;
    after_fci(store, buffer)
}

impl<S: WriteStore> Reader<S> {
    // Awaits the answer to GET PROCESSING OPTIONS, or ends the run.
    fn go_options(&mut self, next: Result<Next, Cause>) -> Step
        requires shape { IfOk next IsOptions }
        requires start { self.old.count ≡ 0 }
        ensures size { step_length result ≡ command_length next }
        ensures goes { Roomy (meaning S.ReadStore self.old) → (buffer : List ℕ) → done (told (Ok result) buffer) (meaning S.ReadStore self.new) ≡ follow (meaning S.ReadStore self.old) (course_of next buffer [] (meaning S.ReadStore self.old).held) }
    {
        match next {
            Ok(Next::Options { command }) => {
                self.phase = Phase::AwaitsOptions;
                self.count += 1;
                Step::Command(command)
            }
            Ok(Next::Record { .. }) => unreachable(),
            Ok(Next::Cryptogram { .. }) => unreachable(),
            Ok(Next::End(_)) => unreachable(),
            Err(cause) => {
                self.fail(cause);
                Step::Ended
            }
        }
    }

    // Goes where the FCI leads.
    fn run_fci(&mut self, fci: &[u8], buffer: &mut [u8], list: &mut [Place]) -> Step
        requires wide { 261 ≤ length buffer.old }
        requires long { 64 ≤ length list.old }
        requires start { self.old.count ≡ 0 }
        ensures goes { Roomy (meaning S.ReadStore self.old) → done (told (Ok result) buffer.new) (meaning S.ReadStore self.new) ≡ follow (meaning S.ReadStore self.old) (begins self.old.shares.card (meaning S.ReadStore self.old).held fci.now) }
        ensures rest { buffer.new ≡ buffered (told (Ok result) buffer.new) buffer.old }
        ensures fits { step_length result ≤ length buffer.old }
    {
        let shares = self.shares;
        let next = fci_course(&mut self.store, &shares, fci, buffer, list);
        self.go_options(next)
    }

    // Begins a sale that no check refuses.
    fn start(&mut self, fci: &[u8], buffer: &mut [u8], list: &mut [Place]) -> Step
        requires opened { self.old.opened ≡ true }
        requires wide { 261 ≤ length buffer.old }
        requires long { 64 ≤ length list.old }
        requires fresh { self.old.begun ≡ false }
        requires needed { first_missing needed_tags (S.ReadStore.held self.old.store) ≡ None }
        ensures does { Roomy (meaning S.ReadStore self.old) → Does (meaning S.ReadStore self.old) (begin fci.now (length buffer.old) (length list.old)) (told (Ok result) buffer.new) (meaning S.ReadStore self.new) }
        ensures law { Lawful (meaning S.ReadStore self.old) (begin fci.now (length buffer.old) (length list.old)) (told (Ok result) buffer.new) (meaning S.ReadStore self.new) }
        ensures rest { buffer.new ≡ buffered (told (Ok result) buffer.new) buffer.old }
        ensures fits { step_length result ≤ length buffer.old }
    {
        law_of_calls();
        self.begun = true;
        self.count = 0;
        self.run_fci(fci, buffer, list)
    }

    // A sale begins, with the FCI that the card gave when it was selected.
    pub fn begin(
        &mut self,
        fci: &[u8],
        buffer: &mut [u8],
        list: &mut [Place],
    ) -> Result<Step, Refusal>
        ensures does { Roomy (meaning S.ReadStore self.old) → Does (meaning S.ReadStore self.old) (begin fci.now (length buffer.old) (length list.old)) (told result buffer.new) (meaning S.ReadStore self.new) }
        ensures law { Lawful (meaning S.ReadStore self.old) (begin fci.now (length buffer.old) (length list.old)) (told result buffer.new) (meaning S.ReadStore self.new) }
        ensures refused { (e : Refusal) → result ≡ Err e → meaning S.ReadStore self.new ≡ meaning S.ReadStore self.old }
        ensures rest { buffer.new ≡ buffered (told result buffer.new) buffer.old }
        ensures fits { IfOk result (λ s. step_length s ≤ length buffer.old) }
    {
        law_of_calls();
        if !self.opened {
            return Err(Refusal::NotOpen);
        }
        if buffer.len() < 261 || list.len() < 64 {
            return Err(Refusal::Short);
        }
        if self.begun {
            return Err(Refusal::Begun);
        }
        if let Some(tag) = first_missing(&self.store, &NEEDED) {
            return Err(Refusal::Needed(tag));
        }
        Ok(self.start(fci, buffer, list))
    }
}
