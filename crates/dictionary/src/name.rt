// The names by which people know the objects.
ghost use Rattle.std.specs.Prelude.{◌≡◌};
ghost use Rattle.std.specs.Option.{option_map};
ghost use Rattle.dictionary.specs.Names.{name_of};

// The name of a tag, or none where the dictionary does not have it.
#[tactic(auto, unfolding(crate::specs::Dictionary::dictionary, crate::specs::Names::names, crate::specs::Names::name_of))]
pub fn name_of(tag: u32) -> Option<&'static str>
    ensures { option_map (λ s. s.now) result ≡ name_of tag }
{
    match tag {
        0x50 => Some("Application Label"),
        0x57 => Some("Track 2 Equivalent Data"),
        0x5A => Some("Application PAN"),
        0x82 => Some("Application Interchange Profile"),
        0x84 => Some("DF Name"),
        0x8C => Some("CDOL1"),
        0x94 => Some("Application File Locator"),
        0x95 => Some("Terminal Verification Results"),
        0x9A => Some("Transaction Date"),
        0x9C => Some("Transaction Type"),
        0x5F24 => Some("Application Expiration Date"),
        0x5F2A => Some("Transaction Currency Code"),
        0x5F34 => Some("Application PAN Sequence Number"),
        0x9F02 => Some("Amount, Authorised (Numeric)"),
        0x9F03 => Some("Amount, Other (Numeric)"),
        0x9F07 => Some("Application Usage Control"),
        0x9F09 => Some("Application Version Number (Reader)"),
        0x9F10 => Some("Issuer Application Data"),
        0x9F11 => Some("Issuer Code Table Index"),
        0x9F12 => Some("Application Preferred Name"),
        0x9F1A => Some("Terminal Country Code"),
        0x9F1E => Some("Interface Device Serial Number"),
        0x9F24 => Some("Payment Account Reference"),
        0x9F26 => Some("Application Cryptogram"),
        0x9F27 => Some("Cryptogram Information Data"),
        0x9F33 => Some("Terminal Capabilities"),
        0x9F35 => Some("Terminal Type"),
        0x9F36 => Some("Application Transaction Counter"),
        0x9F37 => Some("Unpredictable Number"),
        0x9F38 => Some("PDOL"),
        0x9F4E => Some("Merchant Name and Location"),
        0x9F_8109 => Some("Issuer Application Data MAC"),
        0x9F_8111 => Some("Data Envelope 1"),
        0x9F_8112 => Some("Data Envelope 2"),
        0x9F_8113 => Some("Data Envelope 3"),
        0x9F_8114 => Some("Data Envelope 4"),
        0x9F_8115 => Some("Data Envelope 5"),
        0x9F_8116 => Some("Data Envelope 6"),
        0x9F_8117 => Some("Data Envelope 7"),
        0x9F_8118 => Some("Data Envelope 8"),
        0x9F_8119 => Some("Data Envelope 9"),
        0x9F_811A => Some("Data Envelope 10"),
        0xDF_8112 => Some("Tags To Read"),
        0xDF_8115 => Some("Error Indication"),
        0xDF_8121 => Some("Terminal Action Code - Denial"),
        0xDF_8122 => Some("Terminal Action Code - Online"),
        0xDF_8123 => Some("Reader Contactless Floor Limit"),
        0xDF_856C => Some("Default CDOL1"),
        _ => None,
    }
}
