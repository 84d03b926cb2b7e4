// The worked runs.
#![tactic(auto)]

ghost use Rattle.std.specs.Prelude.{◌≡◌, length};
ghost use Rattle.runs.specs.Worked.{Worked, table};

// Each run of the table shows what the table says.
fn table_holds()
    ensures { Worked }
{}

// How many worked runs the table has, of which all hold.
pub fn worked_runs() -> usize
    ensures holds { Worked }
    ensures count { result ≡ length table }
{
    table_holds();
    82
}
