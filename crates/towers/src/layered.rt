// Layers over layers, over fresh archives and others.
use archive::archive::Archive;
use archive::refusal::Refusal;
use consolidation::consolidation::Consolidation;
use consolidation::item::Item;
use consolidation::mean::Mean;
use consolidation::monoid::Monoid;
use consolidation::single::{Last, Max, Min};
use element::coded::Coded;
use image::ring::ImageRing;
use layers::allowance::AllowanceLayer;
use layers::coarsen::Coarsen;
use layers::twice::coarsen_both_ways;
use rings::latest::LatestRow;
use rings::record::RecordRing;
use std::fmt::Debug;
use std::process::Abort;
use std::test::Fail;

// The point of a number: numbers go up and down, and each tenth is unknown.
fn point<E: Consolidation + Copy>(number: u32) -> Item<E> {
    if number % 10 == 9 {
        return Item {
            element: E::empty(),
            known: 0,
            of: 1,
        };
    }
    Item {
        element: E::hold((number % 13 * 7 % 13) as i32, 1),
        known: 1,
        of: 1,
    }
}

// The points from one number to another, joined one by one.
fn points<E: Consolidation + Copy>(from: u32, to: u32) -> Item<E> {
    (from..to).fold(Item::empty(), |all, number| all.join(point(number)))
}

// What it is to have been given the points before a number: width, span, rows and open row.
fn stands<E: Consolidation + Copy + PartialEq + Debug, A: Archive<Item = Item<E>>>(
    rt: &impl Abort,
    archive: &A,
    width: u32,
    span: u32,
    given: u32,
) -> Result<(), Fail> {
    let rows = given.checked_div(width).ok_or("no width")?;
    let held = span.min(rows);
    let open = rows.wrapping_mul(width);
    assert_eq!(rt;
        (archive.width(), archive.span(), archive.held()),
        (width, span, held),
        "after {given} points"
    );
    assert_eq!(rt;
        archive.begun(),
        given.wrapping_sub(open),
        "after {given} points"
    );
    assert_eq!(rt; archive.part(), points(open, given), "after {given} points");
    assert!(rt; archive.ask(held).is_none(), "after {given} points");
    for age in 0..held {
        let end = open.wrapping_sub(age.wrapping_mul(width));
        assert_eq!(rt;
            archive.ask(age),
            Some(points(end.wrapping_sub(width), end)),
            "after {given} points"
        );
    }
    Ok(())
}

// So it stands at every moment.
fn runs<E: Consolidation + Copy + PartialEq + Debug, A: Archive<Item = Item<E>> + Drop>(
    rt: &impl Abort,
    mut archive: A,
    width: u32,
    span: u32,
) -> Result<(), Fail> {
    for given in 0..130 {
        stands(rt, &archive, width, span, given)?;
        archive.store(point(given));
    }
    Ok(())
}

fn all_run<E: Coded + Copy + PartialEq + Debug>(
    rt: &impl Abort,
    rows: &mut [Item<E>],
    none: &mut [Item<E>],
) -> Result<(), Fail> {
    runs(rt, Coarsen::new(LatestRow::<E>::new(), 0), 1, 1)?;
    runs(rt, Coarsen::new(LatestRow::<E>::new(), 60), 60, 1)?;
    runs(
        rt,
        Coarsen::new(Coarsen::new(LatestRow::<E>::new(), 12), 5),
        60,
        1,
    )?;
    runs(
        rt,
        Coarsen::new(Coarsen::new(RecordRing::new(rows), 3), 2),
        6,
        5,
    )?;
    runs(rt, Coarsen::new(RecordRing::new(none), 3), 3, 0)?;
    let mut bytes = [9; 84];
    let ring = ImageRing::<E>::new(&mut bytes);
    let three = Coarsen::new(AllowanceLayer::new(Coarsen::new(ring, 2), 400), 5);
    runs(rt, three, 10, 3)
}

#[test]
fn towers_join_groups(rt: HostRuntime) -> Result<(), Fail> {
    all_run::<Min>(&rt, &mut [Item::empty(); 5], &mut [])?;
    all_run::<Max>(&rt, &mut [Item::empty(); 5], &mut [])?;
    all_run::<Last>(&rt, &mut [Item::empty(); 5], &mut [])?;
    all_run::<Mean>(&rt, &mut [Item::empty(); 5], &mut [])
}

// 5 over 12 and 60, over different ends, after the same points.
fn both_ways<E: Consolidation + Copy + PartialEq + Debug>(
    rt: &impl Abort,
    rows: &mut [Item<E>],
    items: &[Item<E>],
) -> Result<(), Fail> {
    let row = LatestRow::<E>::new();
    let (twice, once) = coarsen_both_ways(row, RecordRing::new(rows), 12, 5, items);
    let given = u32::try_from(items.len())?;
    stands(rt, &twice, 60, 1, given)?;
    stands(rt, &once, 60, 1, given)
}

#[test]
fn five_over_twelve_is_sixty(rt: HostRuntime) -> Result<(), Fail> {
    let items: [Item<Mean>; 125] = std::array::from_fn(|number| point(number as u32));
    for given in 0..125 {
        both_ways(&rt, &mut [Item::empty(); 1], &items[..given])?;
    }
    Ok(())
}

// 2 over an archive of width 4 that was given 7 points and has 3 of them in its open row: 6 of 8, and after two points more a row.
fn goes_on<E: Consolidation + Copy + PartialEq + Debug, A: Archive<Item = Item<E>> + Drop>(
    rt: &impl Abort,
    mut low: A,
) {
    for number in 0..7 {
        low.store(point(number));
    }
    let mut high = Coarsen::new(low, 2);
    assert_eq!(rt; (high.width(), high.begun(), high.held()), (8, 6, 1));
    assert_eq!(rt; high.part(), points(4, 7));
    high.store(point(7));
    assert_eq!(rt; (high.begun(), high.held()), (7, 1));
    assert_eq!(rt; high.part(), points(4, 8));
    high.store(point(8));
    assert_eq!(rt; (high.begun(), high.held()), (0, 1));
    assert_eq!(rt; high.ask(0), Some(points(4, 9)));
}

#[test]
fn a_layer_goes_over_an_archive_that_is_not_fresh(rt: HostRuntime) {
    goes_on(&rt, Coarsen::new(LatestRow::<Mean>::new(), 4));
}

// Under an allowance of `below` and then one of `above` a row of these counts is shown as it is, or as unknown.
fn shows<E: Consolidation + Copy + PartialEq + Debug>(
    rt: &impl Abort,
    below: u32,
    above: u32,
    (known, of): (u32, u32),
    as_it_is: bool,
) -> Result<(), Fail> {
    let row = Item {
        element: E::hold(7, 2),
        known,
        of,
    };
    let low = AllowanceLayer::new(LatestRow::<E>::new(), below);
    let mut archive = AllowanceLayer::new(low, above);
    archive.store(row);
    assert_eq!(rt; archive.allowance(), below.min(above).min(1_000));
    let shown = archive.ask(0).ok_or("no row")?;
    if as_it_is {
        assert_eq!(rt; shown, row);
    } else {
        let element = shown.element;
        assert_eq!(rt; (element.amount(), element.weight()), (0, 0));
        assert_eq!(rt; (shown.known, shown.of), (0, of));
    }
    Ok(())
}

#[test]
fn unknown_beyond_the_allowance_is_unknown(rt: HostRuntime) -> Result<(), Fail> {
    shows::<Mean>(&rt, 1_000, 500, (3, 5), true)?;
    shows::<Mean>(&rt, 1_000, 500, (2, 5), false)?;
    shows::<Min>(&rt, 400, 1_000, (3, 5), true)?;
    shows::<Min>(&rt, 399, 1_000, (3, 5), false)?;
    shows::<Mean>(&rt, 600, 399, (3, 5), false)?;
    shows::<Mean>(&rt, 0, 0, (5, 5), true)?;
    shows::<Mean>(&rt, 0, 0, (4, 5), false)?;
    shows::<Mean>(&rt, 0, 0, (6, 5), true)?;
    shows::<Mean>(&rt, 0, 0, (0, 0), true)?;
    shows::<Mean>(&rt, 1_001, u32::MAX, (0, u32::MAX), true)?;
    shows::<Mean>(&rt, 999, 1_000, (0, u32::MAX), false)
}

// The allowance is applied when a row is asked for, and not to what is stored.
fn stores_all<E: Consolidation + Copy + PartialEq + Debug>(rt: &impl Abort) {
    let low = Coarsen::new(LatestRow::<E>::new(), 2);
    let mut archive = Coarsen::new(AllowanceLayer::new(low, 250), 2);
    for number in 8..12 {
        archive.store(point(number));
    }
    assert_eq!(rt; archive.ask(0), Some(points::<E>(8, 12)));
}

#[test]
fn a_coarse_row_has_all_that_was_measured(rt: HostRuntime) {
    stores_all::<Last>(&rt);
    stores_all::<Mean>(&rt);
}

// Factors up to `most` fit over an archive of this width, and a layer with another factor joins nothing.
fn factors_fit<A: Archive + Drop>(rt: &impl Abort, below: A, width: u32, most: u32) {
    assert_eq!(rt; below.width(), width);
    assert_eq!(rt; Coarsen::check(&below, 0), Err(Refusal::Factor));
    assert_eq!(rt; Coarsen::check(&below, 1), Ok(()));
    assert_eq!(rt; Coarsen::check(&below, most), Ok(()));
    assert_eq!(rt;
        Coarsen::check(&below, most.wrapping_add(1)),
        Err(Refusal::Factor)
    );
    assert_eq!(rt; Coarsen::new(below, most.wrapping_add(1)).width(), width);
}

// A layer over one by 1,000.
fn wide<A: Archive>(below: A, factor: u32) -> Coarsen<Coarsen<A>> {
    Coarsen::new(Coarsen::new(below, 1_000), factor)
}

#[test]
fn factors_that_do_not_fit_are_refused(rt: HostRuntime) {
    factors_fit(&rt, LatestRow::<Mean>::new(), 1, 1_000);
    factors_fit(&rt, wide(LatestRow::<Mean>::new(), 1), 1_000, 1_000);
    factors_fit(&rt, wide(LatestRow::<Mean>::new(), 300), 300_000, 3);
    factors_fit(&rt, wide(LatestRow::<Mean>::new(), 1_000), 1_000_000, 1);
}

#[test]
fn allowances_that_do_not_fit_are_refused(rt: HostRuntime) {
    let end = LatestRow::<Mean>::new();
    assert_eq!(rt; AllowanceLayer::check(&end, 1_000), Ok(()));
    assert_eq!(rt; AllowanceLayer::check(&end, 1_001), Err(Refusal::Allowance));
}

#[test]
fn refusals_have_numbers(rt: HostRuntime) {
    assert_eq!(rt; Refusal::Factor.number(), 4);
    assert_eq!(rt; Refusal::Span.number(), 5);
    assert_eq!(rt; Refusal::Allowance.number(), 6);
}
