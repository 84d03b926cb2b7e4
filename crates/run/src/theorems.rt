// The theorems, each on a function's contract.
ghost use Rattle.run.specs.Theorems.{EveryCallIsLawful, RefusedCallsChangeNothing, OpeningStands, RefusedOpeningChangesNothing, ReadersStand, CardBytesNeverMoveOwnObjects, AtMost66Commands};

// Every call keeps the law, whatever its bytes, and a refused one changes nothing.
pub fn every_call_is_lawful()
    ensures lawful { EveryCallIsLawful }
    ensures unchanged { RefusedCallsChangeNothing }
{}

// A reader stands from its opening on, and a refused opening changes nothing.
pub fn opening_stands()
    ensures stands { OpeningStands }
    ensures unchanged { RefusedOpeningChangesNothing }
{}

// Whatever is called, in whatever order, the reader stands.
pub fn readers_stand()
    ensures { ReadersStand }
{}

// No byte of a card's moves an object of the terminal's or of the configuration's, or a reply to the terminal.
pub fn card_bytes_never_move_own_objects()
    ensures { CardBytesNeverMoveOwnObjects }
{}

// A run hands out at most 66 commands.
pub fn at_most_66_commands()
    ensures { AtMost66Commands }
{}
