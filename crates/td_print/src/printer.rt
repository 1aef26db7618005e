//! A text that grows at its end.
#![tactic(auto, using(crate::proofs::Texts::texts))]

ghost use Rattle.std.specs.Prelude.{◌≡◌, [], ◌++◌, OnOk};
ghost use Rattle.td_print_layout.specs.Pieces.{number_spelling};

use itoa::Buffer;
use std::alloc::{AllocError, Global};
use std::marker::Model;
use td_ast::token::Base;
use td_num::text::Text;

/// A text that is being written. A contract sees its bytes.
#[derive(Drop)]
pub(crate) struct Printer {
    alloc: Global,
    bytes: Vec<u8>,
}

impl Model for Printer {
    ghost use Rattle.std.specs.Prelude.{List, ℕ};

    ghost Value = { List ℕ };

    ghost view = { λ p. p.bytes.items };
}

impl Printer {
    /// An empty text. Takes no memory.
    pub(crate) fn new(alloc: Global) -> Printer
        ensures { result ≡ [] }
    {
        Printer {
            alloc,
            bytes: Vec::new(alloc),
        }
    }

    /// Writes some bytes. `AllocError`: out of memory.
    pub(crate) fn write(&mut self, bytes: &[u8]) -> Result<(), AllocError>
        ensures { OnOk result (self.new ≡ self.old ++ bytes.now) }
    {
        self.bytes.extend_from_slice(bytes)?;
        Ok(())
    }

    /// Writes a number without leading zeros, a hexadecimal one with digits in lower case. `AllocError`: out of memory.
    pub(crate) fn write_number(&mut self, value: u64, base: Base) -> Result<(), AllocError>
        ensures { OnOk result (self.new ≡ self.old ++ number_spelling value base) }
    {
        match base {
            Base::Decimal => self.write_decimal(value),
            Base::Hexadecimal => self.write_hexadecimal(value),
        }
    }

    fn write_decimal(&mut self, value: u64) -> Result<(), AllocError>
        ensures { OnOk result (self.new ≡ self.old ++ number_spelling value Base.Decimal) }
    {
        let mut buffer = Buffer::new();
        self.write(buffer.format(value).as_bytes())
    }

    fn write_hexadecimal(&mut self, value: u64) -> Result<(), AllocError>
        ensures { OnOk result (self.new ≡ self.old ++ number_spelling value Base.Hexadecimal) }
    {
        let digits = format!(in self.alloc; "0x{value:x}")?;
        self.write(digits.as_bytes())
    }

    /// The text.
    pub(crate) fn into_text(self) -> Text
        ensures { result ≡ self }
    {
        Text::of(self.bytes)
    }
}
