// What is printed of images, whole and at fault.
use listing::{MOST_TEXT, list};
use std::alloc::{AllocError, Global};
use std::process::Abort;
use std::test::Fail;

// The amount, the weight and the two counts of a row.
pub(crate) type Row = (i64, u32, u32, u32);

// Numbers of four bytes, one after the other.
fn push_numbers(bytes: &mut Vec<u8>, numbers: &[u32]) -> Result<(), AllocError> {
    bytes.extend(numbers.iter().flat_map(|number| number.to_le_bytes()))
}

// The numbers of a header and rows, with zeros after them up to `len` bytes, or cut at that many.
fn image(heap: Global, header: &[u32; 6], rows: &[Row], len: usize) -> Result<Vec<u8>, AllocError> {
    let mut bytes = Vec::new(heap);
    push_numbers(&mut bytes, header)?;
    for (amount, weight, known, of) in rows {
        bytes.extend_from_slice(&amount.to_le_bytes())?;
        push_numbers(&mut bytes, &[*weight, *known, *of])?;
    }
    bytes.resize(len, 0)?;
    Ok(bytes)
}

// These bytes, which `what` tells, list as this text, which just fits.
fn lists(
    rt: &(impl Abort + AllocGlobal),
    bytes: &[u8],
    expected: &str,
    what: &str,
) -> Result<(), Fail> {
    let mut text = vec![in rt.alloc(); 0; expected.len()]?;
    let end = list(bytes, text.as_mut_slice());
    assert_eq!(rt; end, Some(expected.len()), "{what}");
    assert_eq!(rt; text.as_slice(), expected.as_bytes(), "{what}");
    Ok(())
}

// Headers, with zeros after them up to a number of bytes, list as these texts.
fn headers_list(
    rt: &(impl Abort + AllocGlobal),
    cases: &[([u32; 6], usize, &str)],
) -> Result<(), Fail> {
    for (header, len, expected) in cases {
        let bytes = image(rt.alloc(), header, &[], *len)?;
        let what = format!(in rt.alloc(); "the header {header:?} of {len} bytes")?;
        lists(rt, bytes.as_slice(), expected, what.as_str())?;
    }
    Ok(())
}

// Headers, with three rows after them, list as these texts.
fn rows_list(
    rt: &(impl Abort + AllocGlobal),
    cases: &[([u32; 6], [Row; 3], &str)],
) -> Result<(), Fail> {
    for (header, rows, expected) in cases {
        let bytes = image(rt.alloc(), header, rows, 84)?;
        let what = format!(in rt.alloc(); "the header {header:?} before {rows:?}")?;
        lists(rt, bytes.as_slice(), expected, what.as_str())?;
    }
    Ok(())
}

// An element that is alone in an image lists as itself, or as its fault.
fn element_lists(
    rt: &(impl Abort + AllocGlobal),
    kind: u32,
    amount: i64,
    weight: u32,
    fault: Option<u32>,
) -> Result<(), Fail> {
    let bytes = image(
        rt.alloc(),
        &[kind, 1, 1, 0, 24, 44],
        &[(amount, weight, 2, 3)],
        44,
    )?;
    let expected = match fault {
        Some(number) => format!(in rt.alloc(); "refused 19 24 0 {number}\n")?,
        None => format!(in rt.alloc(); "image {kind} 1 1\n{amount} {weight} 2 3\n")?,
    };
    let what = format!(in rt.alloc(); "the element {amount} {weight} of kind {kind}")?;
    lists(rt, bytes.as_slice(), expected.as_str(), what.as_str())
}

#[test]
fn lengths(rt: HostRuntime) -> Result<(), Fail> {
    let one = [3, 1, 0, 0, 24, 44];
    let most = [3, 3000, 1, 1, 24, 60024];
    headers_list(
        &rt,
        &[
            (one, 0, "refused 14 0\n"),
            (one, 23, "refused 14 0\n"),
            (one, 24, "refused 18 20\n"),
            (one, 43, "refused 18 20\n"),
            (one, 44, "image 3 1 0\n"),
            (one, 45, "refused 18 20\n"),
            (most, 60023, "refused 18 20\n"),
            (most, 60024, "image 3 3000 1\n0 0 0 0\n"),
            (most, 60025, "refused 14 0\n"),
        ],
    )
}

#[test]
fn kinds_and_spans(rt: HostRuntime) -> Result<(), Fail> {
    headers_list(
        &rt,
        &[
            ([0, 1, 0, 0, 24, 44], 44, "refused 15 0\n"),
            ([1, 1, 0, 0, 24, 44], 44, "image 1 1 0\n"),
            ([2, 1, 0, 0, 24, 44], 44, "image 2 1 0\n"),
            ([3, 1, 0, 0, 24, 44], 44, "image 3 1 0\n"),
            ([4, 1, 0, 0, 24, 44], 44, "image 4 1 0\n"),
            ([5, 1, 0, 0, 24, 44], 44, "refused 15 0\n"),
            ([0x1000001, 1, 0, 0, 24, 44], 44, "refused 15 0\n"),
            ([4, 0, 0, 0, 24, 24], 24, "refused 16 4\n"),
            ([4, 3000, 0, 0, 24, 60024], 60024, "image 4 3000 0\n"),
            ([4, 3001, 0, 0, 24, 60024], 60024, "refused 16 4\n"),
        ],
    )
}

#[test]
fn held_and_head(rt: HostRuntime) -> Result<(), Fail> {
    headers_list(
        &rt,
        &[
            ([3, 2, 3, 0, 24, 64], 64, "refused 17 8\n"),
            ([3, 2, 0, 1, 24, 64], 64, "refused 17 12\n"),
            ([3, 2, 1, 0, 24, 64], 64, "refused 17 12\n"),
            ([3, 2, 1, 1, 24, 64], 64, "image 3 2 1\n0 0 0 0\n"),
            ([3, 2, 1, 2, 24, 64], 64, "refused 17 12\n"),
            ([3, 2, 2, 0, 24, 64], 64, "image 3 2 2\n0 0 0 0\n0 0 0 0\n"),
            ([3, 2, 2, 1, 24, 64], 64, "image 3 2 2\n0 0 0 0\n0 0 0 0\n"),
            ([3, 2, 2, 2, 24, 64], 64, "refused 17 12\n"),
        ],
    )
}

#[test]
fn offset_and_total(rt: HostRuntime) -> Result<(), Fail> {
    headers_list(
        &rt,
        &[
            ([3, 2, 0, 0, 23, 64], 64, "refused 18 16\n"),
            ([3, 2, 0, 0, 25, 64], 64, "refused 18 16\n"),
            ([3, 2, 0, 0, 24, 63], 64, "refused 18 20\n"),
            ([3, 2, 0, 0, 24, 65], 64, "refused 18 20\n"),
            ([3, 2, 0, 0, 24, 65], 65, "refused 18 20\n"),
            ([3, 2, 0, 0, 24, 64], 65, "refused 18 20\n"),
        ],
    )
}

// All the numbers are wrong, and then one after another is put right.
#[test]
fn the_first_fault_answers(rt: HostRuntime) -> Result<(), Fail> {
    headers_list(
        &rt,
        &[
            ([5, 0, 3, 9, 23, 0], 23, "refused 14 0\n"),
            ([5, 0, 3, 9, 23, 0], 60025, "refused 14 0\n"),
            ([5, 0, 3, 9, 23, 0], 64, "refused 15 0\n"),
            ([3, 0, 3, 9, 23, 0], 64, "refused 16 4\n"),
            ([3, 2, 3, 9, 23, 0], 64, "refused 17 8\n"),
            ([3, 2, 2, 9, 23, 0], 64, "refused 17 12\n"),
            ([3, 2, 2, 1, 23, 0], 64, "refused 18 16\n"),
            ([3, 2, 2, 1, 24, 0], 64, "refused 18 20\n"),
        ],
    )
}

#[test]
fn one_row(rt: HostRuntime) -> Result<(), Fail> {
    let header = [3, 1, 1, 0, 24, 44];
    let good = image(rt.alloc(), &header, &[(-7, 1, 1, 1)], 44)?;
    lists(
        &rt,
        good.as_slice(),
        "image 3 1 1\n-7 1 1 1\n",
        "one good row",
    )?;
    let bad = image(rt.alloc(), &header, &[(-7, 2, 1, 1)], 44)?;
    lists(&rt, bad.as_slice(), "refused 19 24 0 1\n", "one bad row")
}

#[test]
fn the_room_of_a_listing(rt: HostRuntime) -> Result<(), Fail> {
    let bytes = image(rt.alloc(), &[3, 1, 0, 0, 24, 44], &[], 44)?;
    let mut short = [b'.'; 11];
    assert_eq!(rt; list(bytes.as_slice(), &mut short), None);
    let mut long = [b'.'; 14];
    assert_eq!(rt; list(bytes.as_slice(), &mut long), Some(12));
    assert_eq!(rt; &long[..], b"image 3 1 0\n..".as_slice());
    assert_eq!(rt; list(&[], &mut long[0..12]), None);
    Ok(())
}

#[test]
fn the_longest_listing(rt: HostRuntime) -> Result<(), Fail> {
    let rows = [(i64::MIN, u32::MAX, u32::MAX, u32::MAX); 3000];
    let bytes = image(rt.alloc(), &[4, 3000, 3000, 0, 24, 60024], &rows, 60024)?;
    let mut text = vec![in rt.alloc(); 0; MOST_TEXT]?;
    assert_eq!(rt;
        list(bytes.as_slice(), text.as_mut_slice()),
        Some(MOST_TEXT)
    );
    Ok(())
}

#[test]
fn rows_oldest_first(rt: HostRuntime) -> Result<(), Fail> {
    let a = (i64::MIN, u32::MAX, 0, 1);
    let b = (i64::MAX, 0, u32::MAX, 2);
    let c = (-7, 1, 1, u32::MAX);
    let two =
        "image 4 3 2\n-9223372036854775808 4294967295 0 1\n9223372036854775807 0 4294967295 2\n";
    let three =
        "image 4 3 3\n-9223372036854775808 4294967295 0 1\n9223372036854775807 0 4294967295 2\n-7 1 1 4294967295\n";
    rows_list(
        &rt,
        &[
            ([4, 3, 0, 0, 24, 84], [a, b, c], "image 4 3 0\n"),
            ([4, 3, 2, 2, 24, 84], [a, b, c], two),
            ([4, 3, 3, 0, 24, 84], [a, b, c], three),
            ([4, 3, 3, 1, 24, 84], [c, a, b], three),
            ([4, 3, 3, 2, 24, 84], [b, c, a], three),
        ],
    )
}

// That is the one at the earliest place, wherever the oldest row stands.
#[test]
fn the_first_bad_row_answers(rt: HostRuntime) -> Result<(), Fail> {
    let good = (-7, 1, 1, 1);
    let heavy = (0, 2, 1, 1);
    let wide = (i64::MAX, 1, 1, 1);
    rows_list(
        &rt,
        &[
            (
                [3, 3, 1, 1, 24, 84],
                [good, heavy, wide],
                "image 3 3 1\n-7 1 1 1\n",
            ),
            (
                [3, 3, 2, 2, 24, 84],
                [good, heavy, wide],
                "refused 19 44 1 1\n",
            ),
            (
                [3, 3, 3, 2, 24, 84],
                [good, good, wide],
                "refused 19 64 2 3\n",
            ),
            (
                [3, 3, 3, 1, 24, 84],
                [wide, heavy, good],
                "refused 19 24 0 3\n",
            ),
            ([3, 3, 3, 1, 24, 85], [wide, heavy, good], "refused 18 20\n"),
        ],
    )
}

#[test]
fn elements(rt: HostRuntime) -> Result<(), Fail> {
    for (amount, weight, fault) in [
        (0, 0, None),
        (0, 1, None),
        (2147483647, 1, None),
        (-2147483648, 1, None),
        (0, 2, Some(1)),
        (2147483648, 2, Some(1)),
        (1, 0, Some(2)),
        (-1, 0, Some(2)),
        (2147483648, 0, Some(2)),
        (2147483648, 1, Some(3)),
        (-2147483649, 1, Some(3)),
    ] {
        for kind in 1..4 {
            element_lists(&rt, kind, amount, weight, fault)?;
        }
        element_lists(&rt, 4, amount, weight, None)?;
    }
    Ok(())
}
