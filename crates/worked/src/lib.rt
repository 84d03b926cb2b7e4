// The worked examples of a sale: one table, proved by one theorem over the definitions.
#![tactic(auto)]

ghost use Rattle.std.specs.Prelude.{◌≡◌, ◌+◌, length};
ghost use Rattle.tlv.specs.Worked.{table as texts};
ghost use Rattle.worked.specs.Worked.{table, Worked};

// Each row of the table, and each worked text, holds.
fn table_holds()
    ensures { Worked }
{}

// How many worked examples there are, texts among them, of which all hold.
pub fn worked_examples() -> usize
    ensures holds { Worked }
    ensures count { result ≡ length texts + length table }
{
    table_holds();
    tlv::worked::worked_texts() + 25
}
