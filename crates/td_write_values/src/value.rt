//! Values. To contracts a value is a `Datum`, and values in a list are a list.

ghost use Rattle.std.specs.Prelude.{◌≡◌, [], ◌∷◌, ◌++◌, length, OnOk, OnErr, IfOk};

use std::alloc::{AllocError, Global};
use std::marker::Model;
use td_num::text::Text;

/// A value of a type.
#[cycle(value)]
#[derive(Drop)]
pub struct Value {
    pub kind: ValueKind,
}

/// What a value consists of.
#[cycle(value)]
#[derive(Drop)]
pub enum ValueKind {
    /// A number, or the number of the bytes of `all_zeros`.
    Number(u64),
    /// The values of a struct's fields, or of an array's elements.
    List(Values),
    /// The bytes of `all_bytes`, or of a byte-sized array of `UINT8`.
    Bytes(Text),
    /// That of `unit`.
    Empty,
}

/// Values in order.
#[cycle(value)]
#[derive(Drop)]
pub struct Values {
    values: Vec<Value>,
}

impl Model for Value {
    ghost use Rattle.std.specs.Coded.{codes};
    ghost use Rattle.td_write_values.specs.Datum.{Datum, datum_size};
    ghost use Rattle.td_write_values.specs.DatumCode.{datum_code_by};

    ghost Value = { Datum };

    ghost coded = { datum_code_by (Prim.hlevel codes) };

    ghost use Rattle.td_write_values.specs.DatumView.{datum_at};

    ghost view = { λ a. datum_at a.kind };

    ghost size = { datum_size };

    ghost use Rattle.td_write_values.specs.DatumFalls.{lists_smaller};

    ghost size_decreases = { λ a h. lists_smaller a.kind };
}

impl Model for Values {
    ghost use Rattle.std.specs.Prelude.{List};
    ghost use Rattle.std.specs.Coded.{codes, coded_list};
    ghost use Rattle.td_write_values.specs.Datum.{Datum, list_size};
    ghost use Rattle.td_write_values.specs.DatumCode.{datum_code_by, most_le_list_size};

    ghost Value = { List Datum };

    ghost coded = { coded_list (datum_code_by (Prim.hlevel codes)) };

    ghost view = { λ a. a.values.items };

    ghost size = { list_size };

    ghost use Rattle.std.proofs.Common.{arith};

    ghost size_decreases = { λ a h. omega (arith, most_le_list_size a.values.items) };
}

impl Values {
    /// No values. Takes no memory.
    pub fn new(alloc: Global) -> Values
        ensures { result ≡ [] }
    {
        Values {
            values: Vec::new(alloc),
        }
    }

    /// One more value at the end. `AllocError`: out of memory, and the values are as before.
    pub fn push(&mut self, value: Value) -> Result<(), AllocError>
        ensures ok { OnOk result (self.new ≡ self.old ++ value ∷ []) }
        ensures err { OnErr result (self.new ≡ self.old) }
    {
        self.values.push(value)?;
        Ok(())
    }

    /// The values.
    pub fn as_slice(&self) -> &[Value]
        ensures { result.now ≡ self.now }
    {
        self.values.as_slice()
    }
}
