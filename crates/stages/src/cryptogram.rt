// After the answer to GENERATE AC.
ghost use Rattle.std.specs.Prelude.{◌≡◌, List, [], IfOk, slice_index};
ghost use Rattle.std.specs.Result.{result_err};
ghost use Rattle.store.specs.Map.{Map, empty};
ghost use Rattle.keeping.specs.Keeping.{stored};
ghost use Rattle.commands.specs.Commands.{bytes};
ghost use Rattle.decision.specs.Cryptograms.{answered};
ghost use Rattle.run.specs.Run.{unless, gives, after_cryptogram};
ghost use Rattle.stages.specs.Nexts.{course_of, IsEnd};

use crate::brought::brought;
use crate::missing::{first_not_brought, none_missing};
use crate::next::Next;
use decision::cryptogram::Cryptogram;
use run::fault::Cause;
use run::outcome::Outcome;
use tlv::place::Place;

// The first byte of a value; zero where it has none.
pub(crate) fn first_byte(value: &[u8]) -> u8
    ensures { result ≡ slice_index value.now 0 }
{
    value.first().copied().unwrap_or(0)
}

// The answer must itself bring values of 9F27, 9F36 and 9F26.
fn check_brought(text: &[u8], places: &[Place]) -> Result<(), Cause>
    ensures { (requested : Cryptogram) (held : Map) → unless (result_err result) held (gives held (answered requested (slice_index (bytes (stored text.now places.now empty 0x9F27)) 0))) ≡ after_cryptogram requested held (stored text.now places.now empty) }
{
    none_missing(first_not_brought(text, places, &[0x9F27, 0x9F36, 0x9F26]))
}

// The outcome, if the cryptogram stands that the card gives where `requested` was.
pub fn after_cryptogram(requested: Cryptogram, text: &[u8], places: &[Place]) -> Result<Next, Cause>
    ensures course { (held : Map) → course_of result [] [] held ≡ after_cryptogram requested held (stored text.now places.now empty) }
    ensures shape { IfOk result IsEnd }
{
    check_brought(text, places)?;
    let given = requested.answered(first_byte(brought(text, places, 0x9F27)))?;
    Ok(Next::End(Outcome::of_cryptogram(given)))
}
