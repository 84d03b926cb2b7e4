// Reading an AFL.
ghost use Rattle.std.specs.Prelude.{◌≡◌, length};
ghost use Rattle.std.specs.Result.{result_ok};
ghost use Rattle.keyed.specs.Elements.{elements, memory};
ghost use Rattle.afl.specs.Afl.{records_of, counted, front};
ghost use Rattle.afl.specs.Laws.{EachOnce, Files};
ghost use Rattle.afl.specs.Steps.{span_of, gather, run_of, afl_from, told};

use keyed::list::KeyedList;
use keyed::record::Record;

// An AFL that breaks a rule.
#[derive(Clone, Copy, PartialEq, Eq, Debug)]
pub struct AflFault;

// The records `first` to `last` of a file.
#[derive(Clone, Copy, PartialEq, Eq, Debug)]
struct Span {
    sfi: u8,
    first: u8,
    last: u8,
}

// What the four bytes of an entry name: SFI times 8, first record, last record, and how many of them are signed.
fn span_of(file: u8, first: u8, last: u8, signed: u8) -> Result<Span, AflFault>
    ensures { result_ok result ≡ span_of file first last signed }
{
    if file % 8 != 0 || file < 8 || file > 240 {
        return Err(AflFault);
    }
    if first == 0 || last < first || signed as usize > last as usize - first as usize + 1 {
        return Err(AflFault);
    }
    Ok(Span {
        sfi: file / 8,
        first,
        last,
    })
}

// Adds the records of a span, unless one is there already or there is no room.
fn add_span(list: &mut KeyedList<'_, Record>, span: Span) -> Result<(), AflFault>
    ensures added { told result (elements list.new) ≡ gather (length (memory list.old)) (elements list.old) (run_of span) }
    ensures room { length (memory list.new) ≡ length (memory list.old) }
    ensures named { list.new.items.ghost_name ≡ list.old.items.ghost_name }
{
    for number in span.first..=span.last {
        let record = Record {
            sfi: span.sfi,
            number,
        };
        list.add(record).map_err(|_| AflFault)?;
    }
    Ok(())
}

// Adds the records of each entry.
fn add_spans(list: &mut KeyedList<'_, Record>, afl: &[u8]) -> Result<(), AflFault>
    ensures added { told result (elements list.new) ≡ afl_from (length (memory list.old)) (elements list.old) afl.now }
    ensures room { length (memory list.new) ≡ length (memory list.old) }
    ensures named { list.new.items.ghost_name ≡ list.old.items.ghost_name }
{
    let mut rest = afl;
    while let [file, first, last, signed, after @ ..] = rest {
        add_span(list, span_of(*file, *first, *last, *signed)?)?;
        rest = after;
    }
    if rest.is_empty() {
        Ok(())
    } else {
        Err(AflFault)
    }
}

// The records that an AFL names, in its order, go to the front of the array; how many there are. Each is there once.
pub fn read_afl(afl: &[u8], records: &mut [Record; 64]) -> Result<usize, AflFault>
    ensures value { result ≡ counted (records_of afl.now) }
    ensures front { front result records.new ≡ records_of afl.now }
    ensures once { EachOnce afl.now }
    ensures files { Files afl.now }
{
    let mut list = KeyedList::new(records);
    add_spans(&mut list, afl)?;
    Ok(list.len())
}
