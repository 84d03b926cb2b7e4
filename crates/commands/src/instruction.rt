// The commands, and why one is not built.
ghost use Rattle.std.specs.Prelude.{◌≡◌, ◌/◌, ◌%◌};
ghost use Rattle.commands.specs.Commands.{code};

// The commands, each with its class and instruction byte.
#[derive(Clone, Copy, PartialEq, Eq, Debug)]
pub enum Instruction {
    ReadRecord = 0x00B2,
    GetProcessingOptions = 0x80A8,
    GenerateAc = 0x80AE,
}

impl Instruction {
    // The class byte.
    pub fn class(self) -> u8
        ensures { result ≡ code self / 256 }
    {
        (self as u16).to_be_bytes()[0]
    }

    // The instruction byte.
    pub fn instruction(self) -> u8
        ensures { result ≡ code self % 256 }
    {
        (self as u16).to_be_bytes()[1]
    }
}

// Why a command is not built.
#[derive(Clone, Copy, PartialEq, Eq, Debug)]
pub enum CommandFault {
    // The command buffer has fewer than 261 bytes.
    ShortBuffer,
    // The card's list (PDOL or CDOL1) is faulty or asks for too much data.
    List,
    // Default CDOL1 is.
    DefaultList,
}
