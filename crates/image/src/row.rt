// A row: the amount, the weight and the two counts of an item in 20 bytes.
ghost use Rattle.std.specs.Prelude.{◌≡◌, ◌+◌, ◌≤◌, length};
ghost use Rattle.element.specs.Faults.{unless};
ghost use Rattle.image.specs.Rows.{row_start, fault_at, item_at, row_in, WritesRow};

use crate::header::HEADER;
use crate::number::{field, numbers, put_field, put_numbers};
use consolidation::item::Item;
use element::coded::Coded;
use element::fault::ElementFault;

// The bytes of a row.
pub(crate) const ROW: usize = 20;

// The bytes end before the row does.
#[derive(Clone, Copy, PartialEq, Eq, Debug)]
pub struct NoRow;

// The first byte of the row at a place.
pub(crate) fn row_start(place: u32) -> usize
    ensures { result ≡ row_start place }
{
    HEADER + ROW * place as usize
}

// The item in the row at a place, or what is wrong with its element. The place is one of the format, and its room is asked for: a type for both would be made anew at each call.
pub(crate) fn read_row<E: Coded + Copy>(bytes: &[u8], place: u32) -> Result<Item<E>, ElementFault>
    requires { row_start place + 20 ≤ length bytes.now }
    ensures { result ≡ unless (fault_at E.Coded.fault bytes.now place) (item_at E.Coded.decoded bytes.now place) }
{
    let start = row_start(place);
    let amount = i64::from_le_bytes(field(bytes, start));
    let [weight, known, of] = numbers::<3>(bytes, start + 8);
    let element = E::decode(amount, weight)?;
    Ok(Item { element, known, of })
}

// That item; none where the bytes end before that row does, or its element has a fault.
pub(crate) fn row_at<E: Coded + Copy>(bytes: &[u8], place: u32) -> Option<Item<E>>
    ensures { result ≡ row_in E.Coded.fault E.Coded.decoded bytes.now place }
{
    if bytes.len() < row_start(place) + ROW {
        return None;
    }
    read_row(bytes, place).ok()
}

// Writes an item into the row at a place, from which it is read back; where the bytes end before that row does, nothing is changed.
pub fn write_row<E: Coded + Copy>(bytes: &mut [u8], place: u32, item: Item<E>) -> Result<(), NoRow>
    ensures { WritesRow E.Consolidation.amount E.Consolidation.weight E.Coded.fault E.Coded.decoded bytes.old place item result bytes.new }
{
    let start = row_start(place);
    if bytes.len() < start + ROW {
        return Err(NoRow);
    }
    let (amount, weight) = item.element.encode();
    put_field(bytes, start, amount.to_le_bytes());
    put_numbers(bytes, start + 8, [weight, item.known, item.of]);
    Ok(())
}
