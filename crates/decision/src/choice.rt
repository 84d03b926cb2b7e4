// Which cryptogram the reader asks for.
ghost use Rattle.std.specs.Prelude.{◌≡◌, true, ◌≢◌};
ghost use Rattle.decision.specs.Decision.{share_bit, online_only, offline_only, decided};

use crate::cryptogram::Cryptogram;

fn shares_bit(a: &[u8], b: &[u8]) -> bool
    ensures { result ≡ share_bit a.now b.now }
{
    a.iter().zip(b.iter()).any(|(x, y)| x & y != 0)
}

fn is_online_only(terminal: u8) -> bool
    ensures { result ≡ online_only terminal }
{
    matches!(terminal, 0x11 | 0x21 | 0x14 | 0x24 | 0x34)
}

fn is_offline_only(terminal: u8) -> bool
    ensures { result ≡ offline_only terminal }
{
    matches!(terminal, 0x23 | 0x26 | 0x36 | 0x13 | 0x16)
}

// What is decided by the TVR, TAC Denial, TAC Online and the Terminal Type. It is a decline exactly if the TVR and TAC
// Denial share a bit, so it is never an approval then.
pub fn decide(tvr: &[u8], denial: &[u8], online: &[u8], terminal: u8) -> Cryptogram
    ensures value { result ≡ decided tvr.now denial.now online.now terminal }
    ensures denied { share_bit tvr.now denial.now ≡ true → result ≡ Cryptogram.Aac }
    ensures only { result ≡ Cryptogram.Aac → share_bit tvr.now denial.now ≡ true }
    ensures never { share_bit tvr.now denial.now ≡ true → result ≢ Cryptogram.Tc }
{
    if shares_bit(tvr, denial) {
        Cryptogram::Aac
    } else if is_online_only(terminal) {
        Cryptogram::Arqc
    } else if is_offline_only(terminal) {
        Cryptogram::Tc
    } else if shares_bit(tvr, online) {
        Cryptogram::Arqc
    } else {
        Cryptogram::Tc
    }
}
