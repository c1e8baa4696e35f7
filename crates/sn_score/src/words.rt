//! Words of a score, written.
ghost use Rattle.std.specs.Prelude.{◌≡◌, ◌<◌, ◌++◌, flat_map, IfOk, OnOk};
ghost use Rattle.std.specs.Fmt.{decimal, signed_decimal};
ghost use Rattle.std.specs.List.{list_all};
ghost use Rattle.sn_score.specs.Words.{digit, hex_byte, hex, quoted_byte, quoted, is_plain_byte, address_word, blob_word};

use itoa::Buffer;
use sn_ports::{NoMemory, Text};

/// The hexadecimal digit of a number below 16.
fn digit(number: u8) -> u8
    requires { number < 16 }
    ensures { result ≡ digit number }
{
    if number < 10 {
        return b'0' + number;
    }
    b'a' - 10 + number
}

/// Two hexadecimal digits.
fn put_hex_byte(out: &mut Text, byte: u8) -> Result<(), NoMemory>
    ensures { OnOk result (out.new.bytes ≡ out.old.bytes ++ hex_byte byte) }
{
    out.append(&[digit(byte / 16), digit(byte % 16)])
}

/// `#` and two digits for each byte.
pub(crate) fn put_blob(out: &mut Text, bytes: &[u8]) -> Result<(), NoMemory>
    ensures { OnOk result (out.new.bytes ≡ out.old.bytes ++ blob_word bytes.now) }
{
    out.append(b"#")?;
    put_hex(out, bytes)
}

fn put_hex(out: &mut Text, bytes: &[u8]) -> Result<(), NoMemory>
    ensures { OnOk result (out.new.bytes ≡ out.old.bytes ++ hex bytes.now) }
{
    for byte in bytes {
        put_hex_byte(out, *byte)?;
    }
    Ok(())
}

/// A byte of a quoted text.
fn put_quoted_byte(out: &mut Text, byte: u8) -> Result<(), NoMemory>
    ensures { OnOk result (out.new.bytes ≡ out.old.bytes ++ quoted_byte byte) }
{
    if byte == b'"' || byte == b'\\' {
        return out.append(&[b'\\', byte]);
    }
    if byte >= 32 && byte <= 126 {
        return out.append(&[byte]);
    }
    out.append(b"\\x")?;
    put_hex_byte(out, byte)
}

fn put_quoted_bytes(out: &mut Text, bytes: &[u8]) -> Result<(), NoMemory>
    ensures { OnOk result (out.new.bytes ≡ out.old.bytes ++ flat_map quoted_byte bytes.now) }
{
    for byte in bytes {
        put_quoted_byte(out, *byte)?;
    }
    Ok(())
}

/// The bytes between two `"`.
pub(crate) fn put_quoted(out: &mut Text, bytes: &[u8]) -> Result<(), NoMemory>
    ensures { OnOk result (out.new.bytes ≡ out.old.bytes ++ quoted bytes.now) }
{
    out.append(b"\"")?;
    put_quoted_bytes(out, bytes)?;
    out.append(b"\"")
}

fn is_plain_byte(byte: u8) -> bool
    ensures { result ≡ is_plain_byte byte }
{
    byte >= 33 && byte <= 126 && !(byte == b'"' || byte == b'\\')
}

fn is_plain(bytes: &[u8]) -> bool
    ensures { result ≡ list_all is_plain_byte bytes.now }
{
    bytes.iter().all(|byte| is_plain_byte(*byte))
}

/// An address, quoted only if it has to be.
pub(crate) fn put_address(out: &mut Text, address: &[u8]) -> Result<(), NoMemory>
    ensures { OnOk result (out.new.bytes ≡ out.old.bytes ++ address_word address.now) }
{
    if is_plain(address) {
        return out.append(address);
    }
    put_quoted(out, address)
}

/// A number without a sign.
pub(crate) fn put_natural(out: &mut Text, number: u32) -> Result<(), NoMemory>
    ensures { OnOk result (out.new.bytes ≡ out.old.bytes ++ decimal number) }
{
    let mut buffer = Buffer::new();
    out.append(buffer.format(number).as_bytes())
}

/// A number, with `-` before it if it is negative.
pub(crate) fn put_int(out: &mut Text, number: i32) -> Result<(), NoMemory>
    ensures { OnOk result (out.new.bytes ≡ out.old.bytes ++ signed_decimal number) }
{
    let mut buffer = Buffer::new();
    out.append(buffer.format(number).as_bytes())
}
