// A refusal of reading out, as a refusal of a reader.
ghost use Rattle.std.specs.Prelude.{◌≡◌};
ghost use Rattle.host.specs.Refused.{readout_refused, handed};

use judge::fault::ObjectFault;
use readout::refusal::ReadoutRefusal;
use run::refusal::Refusal;

// The same refusal of a reader.
fn of_reader(refusal: ReadoutRefusal) -> Refusal
    ensures { result ≡ readout_refused refusal }
{
    match refusal {
        ReadoutRefusal::Short => Refusal::Short,
        ReadoutRefusal::Fault(fault) => Refusal::BadText(ObjectFault::Text(fault)),
        ReadoutRefusal::NotHeld => Refusal::TagNotHeld,
    }
}

// The answer of reading out, with the reader's refusal.
pub(crate) fn hand_on(answer: Result<usize, ReadoutRefusal>) -> Result<usize, Refusal>
    ensures { result ≡ handed answer }
{
    answer.map_err(of_reader)
}
