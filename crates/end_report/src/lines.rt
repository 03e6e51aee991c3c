//! Growing a printed text.

ghost use Rattle.std.specs.Prelude.{◌≡◌, ◌++◌, OnOk};
ghost use Rattle.std.specs.Fmt.{decimal, signed_decimal};
ghost use Rattle.end_report.specs.Lines.{line, both};

use itoa::Buffer;
use std::alloc::{AllocError, Global};

pub fn put(out: &mut Vec<u8>, text: &str) -> Result<(), AllocError>
    ensures { OnOk result (out.new.items ≡ out.old.items ++ text.now) }
{
    out.extend_from_slice(text.as_bytes())
}

pub fn put_bytes(out: &mut Vec<u8>, bytes: &[u8]) -> Result<(), AllocError>
    ensures { OnOk result (out.new.items ≡ out.old.items ++ bytes.now) }
{
    out.extend_from_slice(bytes)
}

pub fn put_number(_alloc: Global, out: &mut Vec<u8>, number: u64) -> Result<(), AllocError>
    ensures { OnOk result (out.new.items ≡ out.old.items ++ decimal number) }
{
    put(out, Buffer::new().format(number))
}

/// A number that may be below 0.
pub fn put_signed(_alloc: Global, out: &mut Vec<u8>, number: i128) -> Result<(), AllocError>
    ensures { OnOk result (out.new.items ≡ out.old.items ++ signed_decimal number) }
{
    put(out, Buffer::new().format(number))
}

/// A name and a number.
pub fn put_named(
    alloc: Global,
    out: &mut Vec<u8>,
    name: &str,
    number: u64,
) -> Result<(), AllocError>
    ensures { OnOk result (out.new.items ≡ out.old.items ++ both name.now (decimal number)) }
{
    put(out, name)?;
    put(out, " ")?;
    put_number(alloc, out, number)
}

/// A line of a name and a text.
pub fn put_pair(out: &mut Vec<u8>, name: &str, text: &[u8]) -> Result<(), AllocError>
    ensures { OnOk result (out.new.items ≡ out.old.items ++ line (both name.now text.now)) }
{
    put(out, name)?;
    put(out, " ")?;
    put_bytes(out, text)?;
    put(out, "\n")
}

/// A line of a name and a number.
pub fn put_count(alloc: Global, out: &mut Vec<u8>, name: &str, count: u64) -> Result<(), AllocError>
    ensures { OnOk result (out.new.items ≡ out.old.items ++ line (both name.now (decimal count))) }
{
    put(out, name)?;
    put(out, " ")?;
    put_number(alloc, out, count)?;
    put(out, "\n")
}
