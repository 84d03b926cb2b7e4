// Reading out: the wanted objects, one object, the Data Record.
ghost use Rattle.std.specs.Prelude.{◌≡◌, length};
ghost use Rattle.readout.specs.Output.{held_objects, record_objects};
ghost use Rattle.readout.specs.Wanted.{wanted_objects};
ghost use Rattle.reader.specs.Meanings.{meaning};
ghost use Rattle.host.specs.Replies.{wanted_reply, object_reply, record_reply, left_by, ReadsBack};
ghost use Rattle.host.specs.Own.{OwnWanted, OwnObject, OwnRecord, LawOfWanted, LawOfObject, LawOfRecord};

use crate::refusal::hand_on;
use keyed::tag::Tag;
use reader::reader::Reader;
use readout::held::{write_held, write_record};
use readout::wanted::write_wanted;
use run::outcome::Outcome;
use run::refusal::Refusal;
use store::writing::WriteStore;

// Our own objects are told as the account holds them; no code.
fn law_of_wanted()
    ensures { LawOfWanted }
{}

// Our own objects are told as the account holds them; no code.
fn law_of_object()
    ensures { LawOfObject }
{}

// Our own objects are told as the account holds them; no code.
fn law_of_record()
    ensures { LawOfRecord }
{}

// Writes the wanted objects to the buffer's front, the rest unchanged: how many bytes.
pub fn read_wanted<S: WriteStore>(
    reader: &Reader<S>,
    list: &mut [Tag],
    out: &mut [u8],
) -> Result<usize, Refusal>
    ensures answer { result ≡ wanted_reply (meaning S.ReadStore reader.now) (length list.old) (length out.old) }
    ensures after { out.new ≡ left_by result (wanted_objects (meaning S.ReadStore reader.now).held) out.old }
    ensures reads { ReadsBack result out.new (wanted_objects (meaning S.ReadStore reader.now).held) }
    ensures own { OwnWanted (meaning S.ReadStore reader.now) (length list.old) result out.old out.new }
{
    law_of_wanted();
    if !reader.is_open() {
        return Err(Refusal::NotOpen);
    }
    hand_on(write_wanted(reader.store(), list, out))
}

// Writes the held object of a tag to the buffer's front, the rest unchanged: how many bytes.
pub fn read_object<S: WriteStore>(
    reader: &Reader<S>,
    tag: u32,
    out: &mut [u8],
) -> Result<usize, Refusal>
    ensures answer { result ≡ object_reply (meaning S.ReadStore reader.now) tag (length out.old) }
    ensures after { out.new ≡ left_by result (held_objects tag (meaning S.ReadStore reader.now).held) out.old }
    ensures reads { ReadsBack result out.new (held_objects tag (meaning S.ReadStore reader.now).held) }
    ensures own { OwnObject (meaning S.ReadStore reader.now) tag result out.old out.new }
{
    law_of_object();
    if !reader.is_open() {
        return Err(Refusal::NotOpen);
    }
    hand_on(write_held(reader.store(), tag, out))
}

// Writes the Data Record to the buffer's front, the rest unchanged: how many bytes.
pub fn read_record<S: WriteStore>(reader: &Reader<S>, out: &mut [u8]) -> Result<usize, Refusal>
    ensures answer { result ≡ record_reply (meaning S.ReadStore reader.now) (length out.old) }
    ensures after { out.new ≡ left_by result (record_objects (meaning S.ReadStore reader.now).held) out.old }
    ensures reads { ReadsBack result out.new (record_objects (meaning S.ReadStore reader.now).held) }
    ensures own { OwnRecord (meaning S.ReadStore reader.now) result out.new }
{
    law_of_record();
    let report = reader.outcome()?;
    match report.outcome {
        Outcome::EndApplication(_) => Err(Refusal::NoDataRecord),
        _ => hand_on(write_record(reader.store(), out)),
    }
}
