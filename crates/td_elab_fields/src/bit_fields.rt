//! Units of bit fields.

ghost use Rattle.std.specs.Prelude.{◌≡◌, ◌+◌, ◌*◌, ◌≤◌, [], ◌∷◌, ◌++◌, None, Some, IfOk, IsOk, OnOk, List};
ghost use Rattle.td_num.specs.Numbers.{bytes_in};
ghost use Rattle.td_elab_rules.specs.declared.fields.FlatField.{FlatField};
ghost use Rattle.td_elab_fields.specs.Narrow.{IsNarrow};
ghost use Rattle.td_elab_rules.specs.BitFields.{fits_room, low_bit, unit_bits, part_of, whole_field, unit_field, new_unit, more_bits, room_of, closed, bit_field, gathered};

use std::alloc::{AllocError, Global};
use td_core::module::{Bits, Element, Extent, Field, Part};
use td_elab_rules::fields::{FlatField, OpenUnit, UnitRoom};
use td_elab_types::types::same_number;
use td_num::items::Items;
use td_num::number::{ByteOrder, NumberType, byte_count};

/// Whether so many bits of a base fit in a number that is being divided.
pub(crate) fn fits_room(room: Option<UnitRoom>, base: NumberType, width: u32) -> bool
    ensures { result ≡ fits_room room base width }
{
    match room {
        Some(unit) => {
            let filled = u64::from(unit.filled) + u64::from(width);
            same_number(unit.base, base) && filled <= 8 * u64::from(byte_count(base.width))
        }
        None => false,
    }
}

/// The lowest of the next bits.
fn low_bit(order: ByteOrder, size: u32, filled: u32, width: u32) -> u32
    requires { filled + width ≤ size }
    ensures { result ≡ low_bit order size filled width }
{
    match order {
        ByteOrder::LittleEndian => filled,
        ByteOrder::BigEndian => size - filled - width,
    }
}

/// The next bits of a unit.
fn unit_bits(base: NumberType, filled: u32, width: u32) -> Bits
    requires { filled + width ≤ 8 * bytes_in base.width }
    ensures { result ≡ unit_bits base filled width }
{
    Bits {
        low: low_bit(base.order, 8 * byte_count(base.width), filled, width),
        width,
    }
}

// Where a value is let go, each way through its variants is a way through the function. So what has many is let go by a call.

/// A field's part.
fn part(flat: FlatField, bits: Option<Bits>) -> Part
    ensures { result ≡ part_of bits flat }
{
    drop(flat.element);
    drop(flat.extent);
    Part {
        name: flat.name,
        bits,
        refinement: flat.refinement,
        action: flat.action,
    }
}

/// One part. `AllocError`: out of memory.
fn one_part(alloc: Global, part: Part) -> Result<Items<Part>, AllocError>
    ensures { IfOk result (λ ps. ps ≡ part ∷ []) }
{
    let mut parts = Items::new(alloc);
    parts.push(part)?;
    Ok(parts)
}

/// A field that is none of bits. `AllocError`: out of memory.
fn whole_field(alloc: Global, flat: FlatField) -> Result<Field, AllocError>
    ensures { IfOk result (λ f. f ≡ whole_field flat) }
{
    let part = Part {
        name: flat.name,
        bits: None,
        refinement: flat.refinement,
        action: flat.action,
    };
    match one_part(alloc, part) {
        Ok(parts) => Ok(Field {
            element: flat.element,
            extent: flat.extent,
            copy: flat.copy,
            parts,
            place: flat.place,
        }),
        Err(error) => {
            drop(flat.element);
            drop(flat.extent);
            Err(error)
        }
    }
}

/// The field of a unit.
fn unit_field(unit: OpenUnit) -> Field
    ensures { result ≡ unit_field unit }
{
    Field {
        element: Element::Number(unit.room.base),
        extent: Extent::Once,
        copy: None,
        parts: unit.parts,
        place: unit.place,
    }
}

/// A unit of one bit field. `AllocError`: out of memory.
fn opened(
    alloc: Global,
    base: NumberType,
    width: u32,
    flat: FlatField,
) -> Result<OpenUnit, AllocError>
    requires { width ≤ 8 * bytes_in base.width }
    ensures { IfOk result (λ u. u ≡ new_unit base width flat) }
{
    let place = flat.place;
    let parts = one_part(alloc, part(flat, Some(unit_bits(base, 0, width))))?;
    let room = UnitRoom {
        base,
        filled: width,
    };
    Ok(OpenUnit { room, parts, place })
}

/// Fields, and the unit that is open after them.
#[derive(Drop)]
pub struct Gathering {
    pub fields: Items<Field>,
    pub unit: Option<OpenUnit>,
}

impl Gathering {
    /// No fields. Takes no memory.
    pub fn new(alloc: Global) -> Gathering
        ensures fields { result.fields ≡ [] }
        ensures unit { result.unit ≡ None }
    {
        Gathering {
            fields: Items::new(alloc),
            unit: None,
        }
    }

    /// The open unit becomes a field. `AllocError`: a unit is open, and out of memory.
    pub fn close(&mut self) -> Result<(), AllocError>
        ensures fields { OnOk result (self.new.fields ≡ self.old.fields ++ closed self.old.unit) }
        ensures unit { OnOk result (self.new.unit ≡ None) }
        ensures memory { self.old.unit ≡ None → IsOk result }
    {
        if let Some(unit) = self.unit.take() {
            self.fields.push(unit_field(unit))?;
        }
        Ok(())
    }

    /// The number that is being divided.
    fn room(&self) -> Option<UnitRoom>
        ensures { result ≡ room_of self.now.unit }
    {
        match &self.unit {
            Some(unit) => Some(unit.room),
            None => None,
        }
    }

    /// A unit that begins with a bit field. `AllocError`: out of memory.
    fn begin(
        &mut self,
        alloc: Global,
        base: NumberType,
        width: u32,
        flat: FlatField,
    ) -> Result<(), AllocError>
        requires { width ≤ 8 * bytes_in base.width }
        ensures fields { OnOk result (self.new.fields ≡ self.old.fields ++ closed self.old.unit) }
        ensures unit { OnOk result (self.new.unit ≡ Some (new_unit base width flat)) }
    {
        match self.close() {
            Ok(()) => {
                self.unit = Some(opened(alloc, base, width, flat)?);
                Ok(())
            }
            Err(error) => {
                drop(flat);
                Err(error)
            }
        }
    }

    /// A bit field in the open unit. `AllocError`: out of memory.
    fn fill(&mut self, unit: OpenUnit, width: u32, flat: FlatField) -> Result<(), AllocError>
        requires { unit.room.filled + width ≤ 8 * bytes_in unit.room.base.width }
        ensures fields { OnOk result (self.new.fields ≡ self.old.fields) }
        ensures unit { OnOk result (self.new.unit ≡ Some (more_bits unit width flat)) }
    {
        let (base, filled) = (unit.room.base, unit.room.filled);
        let mut parts = unit.parts;
        parts.push(part(flat, Some(unit_bits(base, filled, width))))?;
        let room = UnitRoom {
            base,
            filled: filled + width,
        };
        let place = unit.place;
        self.unit = Some(OpenUnit { room, parts, place });
        Ok(())
    }

    /// One more field that is none of bits. `AllocError`: out of memory.
    fn gather_whole(&mut self, alloc: Global, flat: FlatField) -> Result<(), AllocError>
        ensures fields { OnOk result (self.new.fields ≡ (self.old.fields ++ closed self.old.unit) ++ whole_field flat ∷ []) }
        ensures unit { OnOk result (self.new.unit ≡ None) }
    {
        match self.close() {
            Ok(()) => {
                let field = whole_field(alloc, flat)?;
                self.fields.push(field)
            }
            Err(error) => {
                drop(flat);
                Err(error)
            }
        }
    }

    /// One more bit field of a base. `AllocError`: out of memory.
    fn gather_bits(
        &mut self,
        alloc: Global,
        base: NumberType,
        width: u32,
        flat: FlatField,
    ) -> Result<(), AllocError>
        requires bits { bit_field flat.element flat.width ≡ Some (base, width) }
        requires narrow { width ≤ 8 * bytes_in base.width }
        ensures { OnOk result ((rest : List FlatField) → self.new.fields ++ gathered self.new.unit rest ≡ self.old.fields ++ gathered self.old.unit (flat ∷ rest)) }
    {
        if !fits_room(self.room(), base, width) {
            return self.begin(alloc, base, width, flat);
        }
        match self.unit.take() {
            Some(unit) => self.fill(unit, width, flat),
            None => self.begin(alloc, base, width, flat),
        }
    }

    /// One more field. `AllocError`: out of memory.
    pub fn gather(&mut self, alloc: Global, flat: FlatField) -> Result<(), AllocError>
        requires { IsNarrow flat }
        ensures { OnOk result ((rest : List FlatField) → self.new.fields ++ gathered self.new.unit rest ≡ self.old.fields ++ gathered self.old.unit (flat ∷ rest)) }
    {
        match bit_field(&flat) {
            Some((base, width)) => self.gather_bits(alloc, base, width, flat),
            None => self.gather_whole(alloc, flat),
        }
    }
}

/// The base and width of a bit field.
fn bit_field(flat: &FlatField) -> Option<(NumberType, u32)>
    ensures { result ≡ bit_field flat.now.element flat.now.width }
{
    match &flat.element {
        Element::Number(base) => match flat.width {
            Some(width) => Some((*base, width)),
            None => None,
        },
        _ => None,
    }
}
