//! The fields of blobs.

ghost use Rattle.std.specs.Prelude.{◌≡◌, ◌++◌, OnOk};
ghost use Rattle.std.specs.List.{flat_map};
ghost use Rattle.cs_sign.specs.Blobs.{field_bytes};

use std::alloc::AllocError;

/// A field of a blob: a number with its greatest byte first.
#[derive(Clone, Copy)]
pub(crate) enum Field {
    /// A number of one byte.
    Byte(u8),
    /// A number of four bytes.
    Word(u32),
    /// A number of eight bytes.
    Long(u64),
}

/// Puts a field behind the bytes.
#[tactic(auto, unfolding(crate::specs::Blobs::field_bytes))]
fn put_field(out: &mut Vec<u8>, field: Field) -> Result<(), AllocError>
    ensures { OnOk result (out.new.items ≡ out.old.items ++ field_bytes field) }
{
    match field {
        Field::Byte(number) => out.extend_from_slice(&[number]),
        Field::Word(number) => out.extend_from_slice(&number.to_be_bytes()),
        Field::Long(number) => out.extend_from_slice(&number.to_be_bytes()),
    }
}

/// Puts fields behind the bytes, in their order.
pub(crate) fn put_fields(out: &mut Vec<u8>, fields: &[Field]) -> Result<(), AllocError>
    ensures { OnOk result (out.new.items ≡ out.old.items ++ flat_map field_bytes fields.now) }
{
    for field in fields {
        put_field(out, *field)?;
    }
    Ok(())
}
