ghost use Rattle.std.specs.Prelude.{◌≡◌};

use crate::Row;
use std::marker::Send;
use std::test::Fail;

fn crosses<T: Send>(value: T) -> T
    ensures { result ≡ value }
{
    value
}

#[test]
fn a_row_holds_what_was_set_and_lends_a_part(rt: HostRuntime) -> Result<(), Fail> {
    let mut row = crosses(Row::filled(rt.alloc(), 7u32, 5)?);
    row.set(4, 1);
    row.slice_mut(1, 2)[1] = 9;
    assert_eq!(rt; row.as_slice(), [7, 7, 9, 7, 1].as_slice());
    assert_eq!(rt; row.get(2), 9);
    Ok(())
}

#[test]
fn a_row_of_nothing(rt: HostRuntime) -> Result<(), Fail> {
    let row = Row::filled(rt.alloc(), 7u8, 0)?;
    assert_eq!(rt; row.as_slice().len(), 0);
    Ok(())
}
