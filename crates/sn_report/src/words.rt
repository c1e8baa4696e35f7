//! Words of a report, written.
ghost use Rattle.std.specs.Prelude.{◌≡◌, ◌++◌, OnOk};
ghost use Rattle.std.specs.Fmt.{decimal, signed_decimal};
ghost use Rattle.sn_report.specs.Reports.{chain_words, id_words, more_words, resource_list, resource_word};

use itoa::Buffer;
use sn_foot::Resource;
use sn_ports::{NoMemory, Text};

/// A number without a sign.
pub fn put_natural(out: &mut Text, number: u64) -> Result<(), NoMemory>
    ensures { OnOk result (out.new.bytes ≡ out.old.bytes ++ decimal number) }
{
    let mut buffer = Buffer::new();
    out.append(buffer.format(number).as_bytes())
}

/// A number, after `-` if it is negative.
pub fn put_int(out: &mut Text, number: i32) -> Result<(), NoMemory>
    ensures { OnOk result (out.new.bytes ≡ out.old.bytes ++ signed_decimal number) }
{
    let mut buffer = Buffer::new();
    out.append(buffer.format(number).as_bytes())
}

/// A letter for the bank, and the number.
fn put_resource(out: &mut Text, resource: Resource) -> Result<(), NoMemory>
    ensures { OnOk result (out.new.bytes ≡ out.old.bytes ++ resource_word resource) }
{
    match resource {
        Resource::Audio(number) => {
            out.append(b"a")?;
            put_natural(out, u64::from(number))
        }
        Resource::Control(number) => {
            out.append(b"c")?;
            put_natural(out, u64::from(number))
        }
        Resource::Buffer(number) => {
            out.append(b"b")?;
            put_natural(out, u64::from(number))
        }
    }
}

/// Each after a comma.
fn put_more(out: &mut Text, resources: &[Resource]) -> Result<(), NoMemory>
    ensures { OnOk result (out.new.bytes ≡ out.old.bytes ++ more_words resources.now) }
{
    for resource in resources {
        out.append(b",")?;
        put_resource(out, *resource)?;
    }
    Ok(())
}

/// With commas between them, or `-` for none.
pub fn put_resources(out: &mut Text, resources: &[Resource]) -> Result<(), NoMemory>
    ensures { OnOk result (out.new.bytes ≡ out.old.bytes ++ resource_list resources.now) }
{
    match resources {
        [] => out.append(b"-"),
        [first, rest @ ..] => {
            put_resource(out, *first)?;
            put_more(out, rest)
        }
    }
}

/// Ids, each after a space.
fn put_ids(out: &mut Text, ids: &[i32]) -> Result<(), NoMemory>
    ensures { OnOk result (out.new.bytes ≡ out.old.bytes ++ id_words ids.now) }
{
    for id in ids {
        out.append(b" ")?;
        put_int(out, *id)?;
    }
    Ok(())
}

/// The ids of a chain, or `-` for none.
pub fn put_chain(out: &mut Text, ids: &[i32]) -> Result<(), NoMemory>
    ensures { OnOk result (out.new.bytes ≡ out.old.bytes ++ chain_words ids.now) }
{
    if ids.is_empty() {
        return out.append(b" -");
    }
    put_ids(out, ids)
}
