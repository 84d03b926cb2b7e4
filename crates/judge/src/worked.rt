// The worked judgements.
ghost use Rattle.std.specs.Prelude.{◌≡◌, length};
ghost use Rattle.judge.specs.Worked.{Worked, table};

// Each text of the table is judged as the table says.
fn table_holds()
    ensures { Worked }
{}

// How many worked judgements the table has, of which all hold.
pub fn worked_judgements() -> usize
    ensures holds { Worked }
    ensures count { result ≡ length table }
{
    table_holds();
    22
}
