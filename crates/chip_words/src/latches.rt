ghost use Rattle.std.specs.Prelude.{◌≡◌, ◌<◌, Bool, false};
ghost use Rattle.chip_words.specs.Passwords.{has_wrong_password, is_open_after, lower_byte};
ghost use Rattle.chip_words.specs.Sizes.{IsByteOrWord, span};

use crate::sizes::Size;
use std::marker::Model;

/// The password: it opens a latch in the upper byte of a word, or as a byte to the upper half.
const PASSWORD: u16 = 0xA5;

/// What a register with a password reads in its upper byte.
pub const PASSWORD_READS: u16 = 0x9600;

/// The latch of a unit with a password: the unit takes writes while it is open (SLAU367, PMM, FRCTL_A and MPU).
#[derive(Debug, Drop)]
pub struct Latch {
    is_open: bool,
}

impl Model for Latch {
    ghost use Rattle.std.specs.Prelude.{Bool};

    ghost Value = { Bool };

    ghost view = { λ l. l.is_open };
}

impl Latch {
    /// A closed latch, as each reset leaves it.
    pub fn new() -> Latch
        ensures { result ≡ false }
    {
        Latch { is_open: false }
    }

    pub fn is_open(&self) -> bool
        ensures { result ≡ self.now }
    {
        self.is_open
    }

    /// Takes a write of the register with the password, and answers the byte for its lower half, where the unit takes
    /// one: a word brings the password itself.
    pub fn write(&mut self, at: u32, size: Size, value: u16) -> Option<u8>
        requires width { IsByteOrWord size }
        requires fits { value < span size }
        ensures latch { self.new ≡ is_open_after self.old size at value }
        ensures byte { result ≡ lower_byte self.old size at value }
    {
        match size {
            Size::Byte => self.write_byte(at, value as u8),
            Size::Word | Size::Addr => self.write_word(value),
        }
    }

    fn write_byte(&mut self, at: u32, value: u8) -> Option<u8>
        ensures latch { self.new ≡ is_open_after self.old Size.Byte at value }
        ensures byte { result ≡ lower_byte self.old Size.Byte at value }
    {
        if at % 2 == 1 {
            self.is_open = u16::from(value) == PASSWORD;
            None
        } else {
            self.is_open.then_some(value)
        }
    }

    fn write_word(&mut self, value: u16) -> Option<u8>
        ensures latch { self.new ≡ is_open_after self.old Size.Word 0 value }
        ensures byte { result ≡ lower_byte self.old Size.Word 0 value }
    {
        let has_password = value >> 8 == PASSWORD;
        self.is_open |= has_password;
        has_password.then_some((value & 0xFF) as u8)
    }
}

/// Whether a write of a register with a password is a word without it, which asks for a reset.
pub fn is_wrong_password(size: Size, value: u16) -> bool
    ensures { result ≡ has_wrong_password size value }
{
    match size {
        Size::Byte => false,
        Size::Word | Size::Addr => value >> 8 != PASSWORD,
    }
}
