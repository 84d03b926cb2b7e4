// Where the text of an answer leads.
ghost use Rattle.std.specs.Prelude.{◌≡◌, ℕ, ◌≤◌, List, [], length, drop, IfOk};
ghost use Rattle.keeping.specs.Room.{Roomy as RoomyStore};
ghost use Rattle.run.specs.Run.{card_text, after_options, after_record, after_cryptogram};
ghost use Rattle.stages.specs.Nexts.{course_of, command_length, IsFirst, IsOnward, IsEnd};

use decision::cryptogram::Cryptogram;
use keeping::shares::Shares;
use keyed::record::Record;
use run::fault::Cause;
use stages::card::card_text;
use stages::cryptogram::after_cryptogram;
use stages::next::Next;
use stages::options::after_options;
use stages::record::after_record;
use store::writing::WriteStore;
use tlv::place::Place;

// Where the text of the answer to GET PROCESSING OPTIONS leads.
pub(crate) fn options_course<S: WriteStore>(
    store: &mut S,
    shares: &Shares,
    text: &[u8],
    records: &mut [Record; 64],
    buffer: &mut [u8],
    list: &mut [Place],
) -> Result<Next, Cause>
    requires wide { 261 ≤ length buffer.old }
    requires long { 64 ≤ length list.old }
    ensures course { RoomyStore shares.now (S.ReadStore.objects store.old) (S.ReadStore.bytes store.old) (S.ReadStore.held store.old) → course_of result buffer.new records.new (S.ReadStore.held store.new) ≡ card_text 0x77 shares.now.card (S.ReadStore.held store.old) text.now after_options }
    ensures rest { drop (command_length result) buffer.new ≡ drop (command_length result) buffer.old }
    ensures fits { command_length result ≤ length buffer.old }
    ensures shape { IfOk result IsFirst }
    ensures roomy { RoomyStore shares.now (S.ReadStore.objects store.old) (S.ReadStore.bytes store.old) (S.ReadStore.held store.old) → RoomyStore shares.now (S.ReadStore.objects store.new) (S.ReadStore.bytes store.new) (S.ReadStore.held store.new) }
    ensures limits { (S.ReadStore.objects store.new ≡ S.ReadStore.objects store.old) × (S.ReadStore.bytes store.new ≡ S.ReadStore.bytes store.old) }
{
    let n = card_text(store, shares, 0x77, text, list)?;
    after_options(text, &list[..n], records, buffer)
}

// Where the text of the answer to READ RECORD leads, with the records that are left to be read.
pub(crate) fn record_course<S: WriteStore>(
    store: &mut S,
    shares: &Shares,
    text: &[u8],
    left: &[Record],
    buffer: &mut [u8],
    list: &mut [Place],
) -> Result<Next, Cause>
    requires wide { 261 ≤ length buffer.old }
    requires long { 64 ≤ length list.old }
    ensures course { RoomyStore shares.now (S.ReadStore.objects store.old) (S.ReadStore.bytes store.old) (S.ReadStore.held store.old) → course_of result buffer.new left.now (S.ReadStore.held store.new) ≡ card_text 0x70 shares.now.card (S.ReadStore.held store.old) text.now (after_record left.now) }
    ensures rest { drop (command_length result) buffer.new ≡ drop (command_length result) buffer.old }
    ensures fits { command_length result ≤ length buffer.old }
    ensures shape { IfOk result (IsOnward (length left.now)) }
    ensures roomy { RoomyStore shares.now (S.ReadStore.objects store.old) (S.ReadStore.bytes store.old) (S.ReadStore.held store.old) → RoomyStore shares.now (S.ReadStore.objects store.new) (S.ReadStore.bytes store.new) (S.ReadStore.held store.new) }
    ensures limits { (S.ReadStore.objects store.new ≡ S.ReadStore.objects store.old) × (S.ReadStore.bytes store.new ≡ S.ReadStore.bytes store.old) }
{
    card_text(store, shares, 0x70, text, list)?;
    after_record(store, left, buffer)
}

// Where the text of the answer to GENERATE AC leads, where `requested` was.
pub(crate) fn cryptogram_course<S: WriteStore>(
    store: &mut S,
    shares: &Shares,
    requested: Cryptogram,
    text: &[u8],
    list: &mut [Place],
) -> Result<Next, Cause>
    requires long { 64 ≤ length list.old }
    ensures course { RoomyStore shares.now (S.ReadStore.objects store.old) (S.ReadStore.bytes store.old) (S.ReadStore.held store.old) → course_of result [] [] (S.ReadStore.held store.new) ≡ card_text 0x77 shares.now.card (S.ReadStore.held store.old) text.now (after_cryptogram requested) }
    ensures shape { IfOk result IsEnd }
    ensures roomy { RoomyStore shares.now (S.ReadStore.objects store.old) (S.ReadStore.bytes store.old) (S.ReadStore.held store.old) → RoomyStore shares.now (S.ReadStore.objects store.new) (S.ReadStore.bytes store.new) (S.ReadStore.held store.new) }
    ensures limits { (S.ReadStore.objects store.new ≡ S.ReadStore.objects store.old) × (S.ReadStore.bytes store.new ≡ S.ReadStore.bytes store.old) }
{
    let n = card_text(store, shares, 0x77, text, list)?;
    after_cryptogram(requested, text, &list[..n])
}
