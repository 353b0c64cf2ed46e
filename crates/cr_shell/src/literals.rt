//! Values as bytes, in pieces that take no memory.

ghost use Rattle.std.specs.Prelude.{◌∷◌, ◌++◌, codes, []};
ghost use Rattle.hex.specs.Hex.{encode_upper};
ghost use Rattle.cr_value.specs.Literal.{doubled, quoted, blob_literal, text_literal, literal};
ghost use Rattle.cr_shell.specs.Printing.{Prints};

use crate::watched::Watched;
use cr_value::literal::is_printable;
use cr_value::value::Value;
use itoa::Buffer;
use std::io::Write;

const DIGITS: [u8; 16] = *b"0123456789ABCDEF";

fn print_byte<W: Write>(writer: &mut Watched<W>, byte: u8)
    ensures { Prints W.contents writer.old writer.new (encode_upper (byte ∷ [])) }
{
    writer.write_all(&[DIGITS[(byte / 16) as usize], DIGITS[(byte % 16) as usize]]);
}

fn print_digits<W: Write>(writer: &mut Watched<W>, bytes: &[u8])
    ensures { Prints W.contents writer.old writer.new (encode_upper bytes.now) }
{
    for byte in bytes {
        print_byte(writer, *byte);
    }
}

pub(crate) fn print_blob<W: Write>(writer: &mut Watched<W>, bytes: &[u8])
    ensures { Prints W.contents writer.old writer.new (blob_literal bytes.now) }
{
    writer.write_all(b"X'");
    print_digits(writer, bytes);
    writer.write_all(b"'");
}

fn print_doubled_byte<W: Write>(writer: &mut Watched<W>, byte: u8)
    ensures { Prints W.contents writer.old writer.new (doubled (byte ∷ [])) }
{
    if byte == b'\'' {
        writer.write_all(b"''");
    } else {
        writer.write_all(&[byte]);
    }
}

fn print_doubled<W: Write>(writer: &mut Watched<W>, text: &[u8])
    ensures { Prints W.contents writer.old writer.new (doubled text.now) }
{
    for byte in text {
        print_doubled_byte(writer, *byte);
    }
}

fn print_quoted<W: Write>(writer: &mut Watched<W>, text: &[u8])
    ensures { Prints W.contents writer.old writer.new (quoted text.now) }
{
    writer.write_all(b"'");
    print_doubled(writer, text);
    writer.write_all(b"'");
}

fn print_cast<W: Write>(writer: &mut Watched<W>, text: &[u8])
    ensures { Prints W.contents writer.old writer.new (codes "CAST(" ++ blob_literal text.now ++ codes " AS TEXT)") }
{
    writer.write_all(b"CAST(");
    print_blob(writer, text);
    writer.write_all(b" AS TEXT)");
}

pub(crate) fn print_text<W: Write>(writer: &mut Watched<W>, text: &str)
    ensures { Prints W.contents writer.old writer.new (text_literal text.now) }
{
    let bytes = text.as_bytes();
    if is_printable(bytes) {
        print_quoted(writer, bytes);
    } else {
        print_cast(writer, bytes);
    }
}

pub(crate) fn print_value<W: Write>(writer: &mut Watched<W>, value: &Value)
    ensures { Prints W.contents writer.old writer.new (literal value.now) }
{
    match value {
        Value::Null => writer.write_all(b"NULL"),
        Value::Int(number) => {
            let mut buffer = Buffer::new();
            writer.write_text(buffer.format(*number))
        }
        Value::Text(text) => print_text(writer, text.as_str()),
        Value::Blob(blob) => print_blob(writer, blob.as_slice()),
    }
}
