// After the answer to READ RECORD.
ghost use Rattle.std.specs.Prelude.{◌≡◌, ◌<◌, ◌≤◌, List, length, drop, IfOk, ◌≢◌};
ghost use Rattle.std.specs.Result.{result_err};
ghost use Rattle.store.specs.Map.{Map};
ghost use Rattle.keeping.specs.Room.{Roomy};
ghost use Rattle.commands.specs.Commands.{bytes};
ghost use Rattle.decision.specs.Decision.{results};
ghost use Rattle.run.specs.Run.{unless, verified, decision, decides, after_record};
ghost use Rattle.stages.specs.Nexts.{course_of, command_length, IsOnward};

use crate::ask::{ask_cryptogram, ask_first};
use crate::cryptogram::first_byte;
use crate::missing::{first_missing, none_missing};
use crate::next::Next;
use commands::value::value_in;
use decision::choice::decide;
use decision::cryptogram::Cryptogram;
use decision::verification::verify;
use keeping::reader::put_verification_results;
use keeping::shares::Shares;
use keyed::record::Record;
use run::fault::Cause;
use store::reading::ReadStore;
use store::writing::WriteStore;

// The Terminal Verification Results of the amount and the floor limit that are held.
fn results_of<S: ReadStore>(store: &S) -> [u8; 5]
    ensures { result ≡ results (bytes (S.ReadStore.held store.now 0x9F02)) (bytes (S.ReadStore.held store.now 0xDF_8123)) }
{
    let mut amount = [0u8; 255];
    let amount = value_in(store, 0x9F02, &mut amount);
    let mut floor = [0u8; 255];
    let floor = value_in(store, 0xDF_8123, &mut floor);
    verify(amount, floor)
}

// What is decided by the objects that are held.
fn decision_of<S: ReadStore>(store: &S) -> Cryptogram
    ensures { result ≡ decision (S.ReadStore.held store.now) }
{
    let mut tvr = [0u8; 255];
    let tvr = value_in(store, 0x95, &mut tvr);
    let mut denial = [0u8; 255];
    let denial = value_in(store, 0xDF_8121, &mut denial);
    let mut online = [0u8; 255];
    let online = value_in(store, 0xDF_8122, &mut online);
    let mut terminal = [0u8; 255];
    let terminal = value_in(store, 0x9F35, &mut terminal);
    decide(tvr, denial, online, first_byte(terminal))
}

// GENERATE AC for what is decided by the objects that are held.
fn ask_decided<S: ReadStore>(store: &S, buffer: &mut [u8]) -> Result<Next, Cause>
    ensures course { 261 ≤ length buffer.old → (records : List Record) → course_of result buffer.new records (S.ReadStore.held store.now) ≡ decides (S.ReadStore.held store.now) }
    ensures rest { drop (command_length result) buffer.new ≡ drop (command_length result) buffer.old }
    ensures fits { command_length result ≤ length buffer.old }
    ensures shape { IfOk result (IsOnward 0) }
{
    let requested = decision_of(store);
    let command = ask_cryptogram(store, requested, buffer)?;
    Ok(Next::Cryptogram { command, requested })
}

// After the last record 5A and 5F24 must have values.
fn check_held<S: ReadStore>(store: &S) -> Result<(), Cause>
    ensures { (left : List Record) → length left ≡ 0 → (brought : Map) → unless (result_err result) (S.ReadStore.held store.now) (decides (verified (S.ReadStore.held store.now))) ≡ after_record left (S.ReadStore.held store.now) brought }
{
    none_missing(first_missing(store, &[0x5A, 0x5F24]))
}

// The Terminal Verification Results are put, and GENERATE AC asks for what is decided by them.
fn put_and_ask<S: WriteStore>(store: &mut S, buffer: &mut [u8]) -> Result<Next, Cause>
    ensures course { 261 ≤ length buffer.old → (s : Shares) → Roomy s (S.ReadStore.objects store.old) (S.ReadStore.bytes store.old) (S.ReadStore.held store.old) → (records : List Record) → course_of result buffer.new records (S.ReadStore.held store.new) ≡ decides (verified (S.ReadStore.held store.old)) }
    ensures rest { drop (command_length result) buffer.new ≡ drop (command_length result) buffer.old }
    ensures fits { command_length result ≤ length buffer.old }
    ensures shape { IfOk result (IsOnward 0) }
    ensures roomy { (s : Shares) → Roomy s (S.ReadStore.objects store.old) (S.ReadStore.bytes store.old) (S.ReadStore.held store.old) → Roomy s (S.ReadStore.objects store.new) (S.ReadStore.bytes store.new) (S.ReadStore.held store.new) }
    ensures limits { (S.ReadStore.objects store.new ≡ S.ReadStore.objects store.old) × (S.ReadStore.bytes store.new ≡ S.ReadStore.bytes store.old) }
{
    put_verification_results(store, results_of(store));
    ask_decided(store, buffer)
}

// After the last record: the decision, where 5A and 5F24 have values.
fn after_last<S: WriteStore>(store: &mut S, buffer: &mut [u8]) -> Result<Next, Cause>
    ensures course { 261 ≤ length buffer.old → (s : Shares) → Roomy s (S.ReadStore.objects store.old) (S.ReadStore.bytes store.old) (S.ReadStore.held store.old) → (left : List Record) → length left ≡ 0 → (brought : Map) → course_of result buffer.new left (S.ReadStore.held store.new) ≡ after_record left (S.ReadStore.held store.old) brought }
    ensures rest { drop (command_length result) buffer.new ≡ drop (command_length result) buffer.old }
    ensures fits { command_length result ≤ length buffer.old }
    ensures shape { IfOk result (IsOnward 0) }
    ensures roomy { (s : Shares) → Roomy s (S.ReadStore.objects store.old) (S.ReadStore.bytes store.old) (S.ReadStore.held store.old) → Roomy s (S.ReadStore.objects store.new) (S.ReadStore.bytes store.new) (S.ReadStore.held store.new) }
    ensures limits { (S.ReadStore.objects store.new ≡ S.ReadStore.objects store.old) × (S.ReadStore.bytes store.new ≡ S.ReadStore.bytes store.old) }
{
    check_held(store)?;
    put_and_ask(store, buffer)
}

// READ RECORD for the first of the records left to be read.
fn ask_next(left: &[Record], buffer: &mut [u8]) -> Result<Next, Cause>
    requires { length left.now ≢ 0 }
    ensures course { 261 ≤ length buffer.old → (held brought : Map) → course_of result buffer.new left.now held ≡ after_record left.now held brought }
    ensures rest { drop (command_length result) buffer.new ≡ drop (command_length result) buffer.old }
    ensures fits { command_length result ≤ length buffer.old }
    ensures shape { IfOk result (IsOnward (length left.now)) }
{
    ask_first(left[0], left.len(), buffer)
}

// READ RECORD for the next of the records left to be read; after the last one the Terminal Verification Results are put,
// and GENERATE AC asks for what is decided. The command buffer has at least 261 bytes.
pub fn after_record<S: WriteStore>(
    store: &mut S,
    left: &[Record],
    buffer: &mut [u8],
) -> Result<Next, Cause>
    ensures course { 261 ≤ length buffer.old → (s : Shares) → Roomy s (S.ReadStore.objects store.old) (S.ReadStore.bytes store.old) (S.ReadStore.held store.old) → (brought : Map) → course_of result buffer.new left.now (S.ReadStore.held store.new) ≡ after_record left.now (S.ReadStore.held store.old) brought }
    ensures rest { drop (command_length result) buffer.new ≡ drop (command_length result) buffer.old }
    ensures fits { command_length result ≤ length buffer.old }
    ensures shape { IfOk result (IsOnward (length left.now)) }
    ensures roomy { (s : Shares) → Roomy s (S.ReadStore.objects store.old) (S.ReadStore.bytes store.old) (S.ReadStore.held store.old) → Roomy s (S.ReadStore.objects store.new) (S.ReadStore.bytes store.new) (S.ReadStore.held store.new) }
    ensures limits { (S.ReadStore.objects store.new ≡ S.ReadStore.objects store.old) × (S.ReadStore.bytes store.new ≡ S.ReadStore.bytes store.old) }
{
    if left.is_empty() {
        return after_last(store, buffer);
    }
    ask_next(left, buffer)
}
