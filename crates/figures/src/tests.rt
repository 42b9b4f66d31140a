use super::*;

fn mean(amount: i64, weight: u32) -> Mean {
    Mean { amount, weight }
}

// A row of 5 points.
fn row(amount: i64, weight: u32, known: u32) -> Item<Mean> {
    Item {
        element: mean(amount, weight),
        known,
        of: 5,
    }
}

#[test]
fn figures_come_out(rt: HostRuntime) {
    let made = figures();
    assert_eq!(rt; made.held, mean(-12, 4));
    assert_eq!(rt; made.joined, mean(8, 6));
    assert_eq!(rt; (made.least.amount(), made.least.weight()), (7, 1));
    assert_eq!(rt; (made.last.amount(), made.last.weight()), (7, 1));
    assert_eq!(rt; (made.width, made.rows, made.begun), (60, 1, 1));
}

#[test]
fn rows_are_shown_or_not(rt: HostRuntime) {
    let made = figures();
    assert_eq!(rt; made.shown, Some(row(420, 60, 3)));
    assert_eq!(rt; made.hidden, Some(row(0, 0, 0)));
}
