use super::*;

#[test]
fn lowest_in_the_middle(rt: HostRuntime) {
    let mut out = [b'.'; 24];
    assert_eq!(rt; write(&mut out, 2, i64::MIN), Some(22));
    assert_eq!(rt; &out[..], b"..-9223372036854775808..".as_slice());
}

#[test]
fn one_after_another(rt: HostRuntime) {
    let mut out = [b'.'; 26];
    assert_eq!(rt; write(&mut out, 0, 0), Some(1));
    assert_eq!(rt; write(&mut out, 2, -1), Some(4));
    assert_eq!(rt; write(&mut out, 5, 10), Some(7));
    assert_eq!(rt; write(&mut out, 7, i64::MAX), Some(26));
    assert_eq!(rt; &out[..], b"0.-1.109223372036854775807".as_slice());
}

#[test]
fn no_room(rt: HostRuntime) {
    let mut out = [b'.'; 3];
    assert_eq!(rt; write(&mut out, 1, -10), None);
    assert_eq!(rt; write(&mut out, 3, 0), None);
    assert_eq!(rt; write(&mut out, 4, 0), None);
    assert_eq!(rt; write(&mut out, usize::MAX, 0), None);
    assert_eq!(rt; &out[..], b"...".as_slice());
}

#[test]
fn added_to_a_text(rt: HostRuntime) {
    let mut out = [b'.'; 23];
    let mut text = Text::new(&mut out);
    assert_eq!(rt; add(&mut text, i64::MIN), Ok(()));
    assert_eq!(rt; add(&mut text, 0), Ok(()));
    assert_eq!(rt; add(&mut text, -10), Err(Full));
    assert_eq!(rt; text.end(), 21);
    assert_eq!(rt; &out[..], b"-92233720368547758080..".as_slice());
}
