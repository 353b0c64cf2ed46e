//! Reading values: a proof knows what a value in memory is only where the code reads it.

ghost use Rattle.std.specs.List.{AllByRecursion};
ghost use Rattle.cr_value.specs.Packing.{IsBytes, IsValue};

use cr_lattice::table::Row;
use cr_value::value::Value;

fn read_bytes(bytes: &[u8])
    ensures { IsBytes bytes.now }
{
    let _bytes = bytes;
}

fn read(value: &Value)
    ensures { IsValue value.now }
{
    match value {
        Value::Null => {}
        Value::Int(number) => {
            let _number = *number;
        }
        Value::Text(text) => {
            let _text = text.as_str();
        }
        Value::Blob(blob) => read_bytes(blob.as_slice()),
    }
}

fn read_all(values: &[Value])
    ensures { AllByRecursion IsValue values.now }
{
    for value in values {
        read(value);
    }
}

/// Reads the values of rows.
pub fn read_rows(rows: &[Row])
    ensures { AllByRecursion (λ row. AllByRecursion IsValue row) rows.now }
{
    for row in rows {
        read_all(row.as_slice());
    }
}
