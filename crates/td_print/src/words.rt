//! Names, constants, and types without arguments.
#![tactic(auto, using(crate::proofs::Texts::texts))]

ghost use Rattle.std.specs.Prelude.{◌≡◌, ◌++◌, OnOk};
ghost use Rattle.td_print_layout.specs.Pieces.{text_of, type_spelling};
ghost use Rattle.td_print_layout.specs.Names.{constant_pieces, plain_pieces, qualified_pieces};

use crate::printer::Printer;
use std::alloc::AllocError;
use td_ast::names::{ConstTree, Name, PlainTree};
use td_num::number::{ByteOrder, NumberType, Width};
use td_num::text::Text;

/// The word of a number type.
pub(crate) fn number_word(number: NumberType) -> &'static [u8]
    ensures { result.now ≡ type_spelling number.width number.order }
{
    match (number.width, number.order) {
        (Width::One, ByteOrder::LittleEndian) => b"UINT8",
        (Width::One, ByteOrder::BigEndian) => b"UINT8BE",
        (Width::Two, ByteOrder::LittleEndian) => b"UINT16",
        (Width::Two, ByteOrder::BigEndian) => b"UINT16BE",
        (Width::Four, ByteOrder::LittleEndian) => b"UINT32",
        (Width::Four, ByteOrder::BigEndian) => b"UINT32BE",
        (Width::Eight, ByteOrder::LittleEndian) => b"UINT64",
        (Width::Eight, ByteOrder::BigEndian) => b"UINT64BE",
    }
}

/// Writes a name that is never qualified.
pub(crate) fn write_name(out: &mut Printer, name: &Name) -> Result<(), AllocError>
    ensures { OnOk result (out.new ≡ out.old ++ name.now.text) }
{
    out.write(name.text.as_slice())
}

/// Writes a name that is never qualified, with some bytes before it and some after it.
pub(crate) fn write_between(
    out: &mut Printer,
    before: &[u8],
    name: &Name,
    after: &[u8],
) -> Result<(), AllocError>
    ensures { OnOk result (out.new ≡ out.old ++ (before.now ++ (name.now.text ++ after.now))) }
{
    out.write(before)?;
    write_name(out, name)?;
    out.write(after)
}

/// Writes a name that may be qualified: its text, which has the dot then.
pub(crate) fn write_qualified(out: &mut Printer, text: &Text) -> Result<(), AllocError>
    ensures { OnOk result (out.new ≡ out.old ++ text_of (qualified_pieces text.now)) }
{
    out.write(text.as_slice())?;
    Ok(())
}

/// Writes a constant.
pub(crate) fn write_constant(out: &mut Printer, constant: &ConstTree) -> Result<(), AllocError>
    ensures { OnOk result (out.new ≡ out.old ++ text_of (constant_pieces constant.now)) }
{
    match constant {
        ConstTree::Number(literal) => out.write_number(literal.value, literal.base),
        ConstTree::Named(name) => write_qualified(out, &name.text),
    }
}

/// Writes a plain type.
pub(crate) fn write_plain(out: &mut Printer, plain: &PlainTree) -> Result<(), AllocError>
    ensures { OnOk result (out.new ≡ out.old ++ text_of (plain_pieces plain.now)) }
{
    match plain {
        PlainTree::Number(tree) => out.write(number_word(tree.number)),
        PlainTree::Named(name) => write_qualified(out, &name.text),
    }
}
