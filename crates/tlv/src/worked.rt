// The worked texts.
ghost use Rattle.std.specs.Prelude.{◌≡◌, length};
ghost use Rattle.tlv.specs.Worked.{Worked, table};

// Each text of the table has the objects or the fault that the table gives it.
fn table_holds()
    ensures { Worked }
{}

// How many worked texts the table has, of which all hold.
pub fn worked_texts() -> usize
    ensures holds { Worked }
    ensures count { result ≡ length table }
{
    table_holds();
    12
}
