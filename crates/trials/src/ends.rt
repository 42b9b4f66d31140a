// The ends, through many turns, over wrong buffers, and through an image's bytes to its listing.
use archive::archive::Archive;
use archive::refusal::Refusal;
use archive::store_all::store_all;
use consolidation::consolidation::Consolidation;
use consolidation::item::Item;
use consolidation::mean::Mean;
use consolidation::monoid::Monoid;
use consolidation::single::{Last, Max, Min};
use element::coded::Coded;
use image::opened::Image;
use image::ring::ImageRing;
use listing::list;
use rings::latest::LatestRow;
use rings::record::RecordRing;
use std::fmt::Debug;
use std::process::Abort;
use std::test::Fail;

// The item of a number below 1,000, unlike that of any other.
fn item<E: Consolidation + Copy>(number: u32) -> Item<E> {
    Item {
        element: E::hold((number % 1_000) as i32, 1),
        known: 1,
        of: 1,
    }
}

// What an end tells that never changes, and an open row that it never has.
fn is_an_end<E: Consolidation + Copy, A: Archive<Item = Item<E>>>(
    rt: &impl Abort,
    end: &A,
    span: u32,
) {
    assert_eq!(rt; (end.width(), end.span(), end.allowance()), (1, span, 1000));
    let part = end.part();
    assert_eq!(rt; (part.element.amount(), part.element.weight()), (0, 0));
    assert_eq!(rt; (end.begun(), part.known, part.of), (0, 0, 0));
}

// It holds the items of the numbers up to `newest`, so many of them, and no others.
fn holds<E: Consolidation + Copy + PartialEq + Debug, A: Archive<Item = Item<E>>>(
    rt: &impl Abort,
    end: &A,
    newest: u32,
    held: u32,
) {
    assert_eq!(rt; end.held(), held);
    assert!(rt; end.ask(held).is_none());
    assert!(rt; end.ask(u32::MAX).is_none());
    for age in 0..held {
        assert_eq!(rt; end.ask(age), Some(item(newest.wrapping_sub(age))));
    }
}

// Through many turns it holds the newest items, up to its span.
fn turns<E: Consolidation + Copy + PartialEq + Debug, A: Archive<Item = Item<E>> + Drop>(
    rt: &impl Abort,
    mut end: A,
    span: u32,
) {
    is_an_end(rt, &end, span);
    holds(rt, &end, 0, 0);
    for number in 0..23 {
        end.store(item(number));
        is_an_end(rt, &end, span);
        holds(rt, &end, number, span.min(number + 1));
    }
}

// Each end does, over the rows that are lent and over bytes.
fn all_turn<E: Coded + Copy + PartialEq + Debug>(
    rt: &impl Abort,
    one: &mut [Item<E>],
    seven: &mut [Item<E>],
) {
    turns(rt, LatestRow::<E>::new(), 1);
    turns(rt, RecordRing::new(one), 1);
    turns(rt, RecordRing::new(seven), 7);
    turns(rt, ImageRing::<E>::new(&mut [9; 44]), 1);
    turns(rt, ImageRing::<E>::new(&mut [9; 164]), 7);
}

#[test]
fn ends_hold_the_newest(rt: HostRuntime) {
    all_turn::<Min>(&rt, &mut [Item::empty(); 1], &mut [Item::empty(); 7]);
    all_turn::<Max>(&rt, &mut [Item::empty(); 1], &mut [Item::empty(); 7]);
    all_turn::<Last>(&rt, &mut [Item::empty(); 1], &mut [Item::empty(); 7]);
    all_turn::<Mean>(&rt, &mut [Item::empty(); 1], &mut [Item::empty(); 7]);
}

#[test]
fn the_latest_row_is_always_laid_out(rt: HostRuntime) {
    assert_eq!(rt; LatestRow::<Mean>::check(), Ok(()));
}

// Bytes that are refused stay as they are, and the ring over them holds nothing.
fn stays<E: Coded + Copy + PartialEq + Debug>(rt: &impl Abort, bytes: &mut [u8], before: &[u8]) {
    let len = bytes.len();
    assert_eq!(rt;
        ImageRing::<E>::check(bytes),
        Err(Refusal::Span),
        "{len} bytes"
    );
    let mut ring = ImageRing::<E>::new(bytes);
    ring.store(item(7));
    is_an_end(rt, &ring, 0);
    holds(rt, &ring, 7, 0);
    assert!(rt; ring.open().is_none(), "{len} bytes");
    assert_eq!(rt; ring.bytes(), before, "{len} bytes");
}

#[test]
fn wrong_bytes_stay(rt: HostRuntime) -> Result<(), Fail> {
    for len in [0, 1, 23, 24, 25, 43, 45, 63, 60_023, 60_025, 60_044] {
        let mut bytes = vec![in rt.alloc(); 0xa5; len]?;
        let before = vec![in rt.alloc(); 0xa5; len]?;
        stays::<Mean>(&rt, bytes.as_mut_slice(), before.as_slice());
        assert_eq!(rt; bytes.as_slice(), before.as_slice());
    }
    Ok(())
}

// The header and zeroes are written, whatever was there.
fn is_laid_out<E: Coded + Copy>(rt: &impl Abort, bytes: &mut [u8], span: u32) -> Result<(), Fail> {
    assert_eq!(rt; ImageRing::<E>::check(bytes), Ok(()));
    let ring = ImageRing::<E>::new(bytes);
    is_an_end(rt, &ring, span);
    let image = Image::<E>::open(ring.bytes())?;
    assert_eq!(rt; (image.span(), image.held()), (span, 0));
    assert!(rt; ring.bytes()[24..].iter().all(|byte| *byte == 0));
    Ok(())
}

#[test]
fn right_bytes_are_laid_out(rt: HostRuntime) -> Result<(), Fail> {
    for (len, span) in [(44, 1), (64, 2), (60_004, 2_999), (60_024, 3_000)] {
        let mut bytes = vec![in rt.alloc(); 0xa5; len]?;
        is_laid_out::<Last>(&rt, bytes.as_mut_slice(), span)?;
    }
    Ok(())
}

// Rows of which there are none or too many are not written.
fn rows_stay<E: Consolidation + Copy + PartialEq + Debug>(rt: &impl Abort, rows: &mut [Item<E>]) {
    assert_eq!(rt; RecordRing::check(rows), Err(Refusal::Span));
    let mut ring = RecordRing::new(rows);
    ring.store(item(7));
    is_an_end(rt, &ring, 0);
    holds(rt, &ring, 7, 0);
}

#[test]
fn wrong_rows_stay(rt: HostRuntime) -> Result<(), Fail> {
    rows_stay::<Last>(&rt, &mut []);
    let mut rows = vec![in rt.alloc(); item(1); 3_001]?;
    rows_stay(&rt, rows.as_mut_slice());
    assert!(rt; rows.as_slice().iter().all(|row| *row == item(1)));
    assert_eq!(rt; RecordRing::<Last>::check(&rows.as_slice()[1..]), Ok(()));
    Ok(())
}

// The listing of the bytes after some items.
fn lists<E: Coded + Copy>(
    rt: &impl Abort,
    bytes: &mut [u8],
    items: &[Item<E>],
    expected: &str,
) -> Result<(), Fail> {
    let mut ring = ImageRing::<E>::new(bytes);
    store_all(&mut ring, items);
    let mut text = [0; 100];
    let end = list(ring.bytes(), &mut text).ok_or("too long")?;
    assert_eq!(rt; end, expected.len());
    assert_eq!(rt; text.get(..end), Some(expected.as_bytes()));
    Ok(())
}

#[test]
fn stored_items_are_listed(rt: HostRuntime) -> Result<(), Fail> {
    let items = [
        Item {
            element: Mean::hold(-3, 4),
            known: 1,
            of: 1,
        },
        Item::empty(),
        Item {
            element: Mean::hold(7, 60),
            known: 3,
            of: 5,
        },
    ];
    lists(&rt, &mut [9; 64], &items[..0], "image 4 2 0\n")?;
    lists(&rt, &mut [9; 64], &items[..1], "image 4 2 1\n-12 4 1 1\n")?;
    lists(
        &rt,
        &mut [9; 64],
        &items[..2],
        "image 4 2 2\n-12 4 1 1\n0 0 0 0\n",
    )?;
    lists(
        &rt,
        &mut [9; 64],
        &items,
        "image 4 2 2\n0 0 0 0\n420 60 3 5\n",
    )
}
