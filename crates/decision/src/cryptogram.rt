// The kinds of cryptogram.
ghost use Rattle.std.specs.Prelude.{◌≡◌};
ghost use Rattle.decision.specs.Cryptograms.{parameter, informed, stands, answered};

// A decline (AAC), an approval offline (TC) or a request to go online (ARQC), each with P1 of the GENERATE AC that asks
// for it.
#[derive(Clone, Copy, Debug, PartialEq, Eq)]
pub enum Cryptogram {
    Aac = 0x00,
    Tc = 0x40,
    Arqc = 0x80,
}

// The card gave a cryptogram that it was not asked for.
#[derive(Clone, Copy, Debug, PartialEq, Eq)]
pub struct WrongCryptogram;

impl Cryptogram {
    // P1 of the GENERATE AC command that asks for it.
    pub fn parameter(self) -> u8
        ensures { result ≡ parameter self }
    {
        self as u8
    }

    // What the Cryptogram Information Data says was given: its top two bits are those of the parameter.
    // Not a `TryFrom<u8>`: P1 is a byte that names a kind too, so the name tells which byte is read.
    pub fn from_information(information: u8) -> Option<Cryptogram>
        ensures { result ≡ informed information }
    {
        match information / 64 * 64 {
            0x00 => Some(Cryptogram::Aac),
            0x40 => Some(Cryptogram::Tc),
            0x80 => Some(Cryptogram::Arqc),
            _ => None,
        }
    }

    // Whether `given` stands where this was requested: AAC always, ARQC if TC or ARQC was requested, TC if TC was.
    fn allows(self, given: Cryptogram) -> bool
        ensures { result ≡ stands self given }
    {
        match given {
            Cryptogram::Aac => true,
            Cryptogram::Tc => self == Cryptogram::Tc,
            Cryptogram::Arqc => self != Cryptogram::Aac,
        }
    }

    // The cryptogram that the card gives where this was requested.
    pub fn answered(self, information: u8) -> Result<Cryptogram, WrongCryptogram>
        ensures { result ≡ answered self information }
    {
        let given = Cryptogram::from_information(information).ok_or(WrongCryptogram)?;
        if self.allows(given) {
            Ok(given)
        } else {
            Err(WrongCryptogram)
        }
    }
}
