// Rows that are written and read back, other kinds, and the numbers of faults.
use crate::listings::Row;
use consolidation::item::Item;
use consolidation::mean::Mean;
use consolidation::single::{Last, Max, Min};
use element::coded::{Coded, KindOfPick};
use element::fault::ElementFault;
use element::kind::{Kind, UnknownKind};
use image::fault::{BadElement, ImageFault};
use image::header::kind_of;
use image::opened::{Image, OpenedImage};
use image::row::{NoRow, write_row};
use std::process::Abort;
use std::test::Fail;

// A full ring of two rows that are all zero, the older of them at place 1.
fn ring(kind: u32) -> [u8; 64] {
    let mut bytes = [0; 64];
    for (field, number) in bytes.chunks_exact_mut(4).zip([kind, 2, 2, 1, 24, 64]) {
        field.copy_from_slice(&number.to_le_bytes());
    }
    bytes
}

fn item<E: Coded + Copy>((amount, weight, known, of): Row) -> Result<Item<E>, ElementFault> {
    let element = E::decode(amount, weight)?;
    Ok(Item { element, known, of })
}

// The row of an index is this one.
fn reads<E: Coded + Copy>(
    rt: &impl Abort,
    image: &Image<E>,
    index: u32,
    row: Row,
) -> Result<(), Fail> {
    let Item { element, known, of } = image.row(index).ok_or("no row")?;
    assert_eq!(rt; (element.amount(), element.weight(), known, of), row);
    Ok(())
}

// Two rows that are written come out, the older first, and nothing past the newer.
fn reads_back<E: Coded + Copy>(rt: &impl Abort, older: Row, newer: Row) -> Result<(), Fail> {
    let mut bytes = ring(E::KIND.number());
    write_row(&mut bytes, 1, item::<E>(older)?)?;
    write_row(&mut bytes, 0, item::<E>(newer)?)?;
    let image = Image::<E>::open(&bytes)?;
    reads(rt, &image, 0, older)?;
    reads(rt, &image, 1, newer)?;
    assert!(rt; image.row(2).is_none());
    assert!(rt; image.row(u32::MAX).is_none());
    Ok(())
}

#[test]
fn rows_are_read_back(rt: HostRuntime) -> Result<(), Fail> {
    let low = (-2147483648, 1, 0, u32::MAX);
    let high = (2147483647, 1, u32::MAX, 0);
    let none = (0, 0, 5, 6);
    reads_back::<Min>(&rt, low, high)?;
    reads_back::<Max>(&rt, high, none)?;
    reads_back::<Last>(&rt, none, low)?;
    reads_back::<Mean>(
        &rt,
        (i64::MIN, u32::MAX, 0, u32::MAX),
        (i64::MAX, 0, u32::MAX, 0),
    )
}

// The older row first, and the image that it lends; and what is refused.
#[test]
fn an_opened_image_tells_its_rows(rt: HostRuntime) -> Result<(), Fail> {
    let mut bytes = ring(Kind::Last.number());
    let older = item::<Last>((-7, 1, 1, 1))?;
    let newer = item::<Last>((0, 0, 0, 1))?;
    write_row(&mut bytes, 1, older)?;
    write_row(&mut bytes, 0, newer)?;
    let opened = OpenedImage::<Last>::open(&bytes)?;
    let mut rows = opened.rows();
    assert_eq!(rt;
        (rows.next(), rows.next(), rows.next()),
        (Some(older), Some(newer), None)
    );
    let image = opened.image();
    assert_eq!(rt;
        (image.span(), image.held(), image.ask(0)),
        (2, 2, Some(newer))
    );
    assert_eq!(rt;
        OpenedImage::<Max>::open(&bytes).err(),
        Some(ImageFault::Kind)
    );
    assert_eq!(rt;
        OpenedImage::<Last>::open(&[0; 23]).err(),
        Some(ImageFault::Length)
    );
    Ok(())
}

#[test]
fn no_row_beyond_the_bytes(rt: HostRuntime) -> Result<(), Fail> {
    let row = item::<Mean>((-1, 2, 3, 4))?;
    for place in [1, 2, u32::MAX] {
        let mut bytes = [7; 63];
        assert_eq!(rt; write_row(&mut bytes, place, row), Err(NoRow));
        assert_eq!(rt; &bytes[..], &[7; 63][..]);
    }
    Ok(())
}

// An image of this kind number opens as `E` only if it is `E`'s.
fn opens<E: Coded + Copy>(rt: &impl Abort, kind: u32) {
    let bytes = ring(kind);
    let fault = (kind != E::KIND.number()).then_some(ImageFault::Kind);
    assert_eq!(rt; Image::<E>::open(&bytes).err(), fault);
}

#[test]
fn only_an_image_of_the_kind_opens(rt: HostRuntime) {
    for kind in 0..6 {
        opens::<Min>(&rt, kind);
        opens::<Max>(&rt, kind);
        opens::<Last>(&rt, kind);
        opens::<Mean>(&rt, kind);
    }
}

#[test]
fn kinds_are_told(rt: HostRuntime) {
    assert_eq!(rt; kind_of(&ring(0)), Err(ImageFault::Kind));
    assert_eq!(rt; kind_of(&ring(1)), Ok(Kind::Min));
    assert_eq!(rt; kind_of(&ring(2)), Ok(Kind::Max));
    assert_eq!(rt; kind_of(&ring(3)), Ok(Kind::Last));
    assert_eq!(rt; kind_of(&ring(4)), Ok(Kind::Mean));
    assert_eq!(rt; kind_of(&ring(5)), Err(ImageFault::Kind));
    assert_eq!(rt; kind_of(&ring(1)[0..23]), Err(ImageFault::Length));
    assert_eq!(rt; Kind::try_from(0), Err(UnknownKind(0)));
    assert_eq!(rt; Kind::try_from(1), Ok(Kind::Min));
    assert_eq!(rt; Kind::try_from(2), Ok(Kind::Max));
    assert_eq!(rt; Kind::try_from(3), Ok(Kind::Last));
    assert_eq!(rt; Kind::try_from(4), Ok(Kind::Mean));
    assert_eq!(rt; Kind::try_from(5), Err(UnknownKind(5)));
}

#[test]
fn faults_have_numbers_and_bytes(rt: HostRuntime) {
    for (fault, number, byte) in [
        (ImageFault::Length, 14, 0),
        (ImageFault::Kind, 15, 0),
        (ImageFault::Span, 16, 4),
        (ImageFault::Held, 17, 8),
        (ImageFault::Head, 17, 12),
        (ImageFault::Offset, 18, 16),
        (ImageFault::Total, 18, 20),
        (
            ImageFault::Element(BadElement {
                place: 1,
                byte: 44,
                fault: ElementFault::WeightAboveOne,
            }),
            19,
            44,
        ),
    ] {
        assert_eq!(rt; (fault.number(), fault.byte()), (number, byte));
    }
    assert_eq!(rt; ElementFault::WeightAboveOne.number(), 1);
    assert_eq!(rt; ElementFault::AmountWithoutWeight.number(), 2);
    assert_eq!(rt; ElementFault::AmountTooWide.number(), 3);
}
