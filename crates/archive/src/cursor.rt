// Where a ring of rows is written next.
ghost use Rattle.std.specs.Prelude.{◌≡◌};
ghost use Rattle.archive.specs.Rings.{wrong_span, ring_span, cursor, turned_on, age_place, Turning};

// The most places of a ring.
pub const MOST_ROWS: u32 = 3_000;

#[derive(Clone, Copy, PartialEq, Eq, Debug)]
pub struct Cursor {
    // How many places there are.
    pub span: u32,
    // How many of them hold a row.
    pub held: u32,
    // The place that is written next.
    pub head: u32,
}

// Whether there are no places, or too many of them.
pub fn wrong_span(places: usize) -> bool
    ensures { result ≡ wrong_span places }
{
    places < 1 || places > MOST_ROWS as usize
}

impl Cursor {
    // Of a ring that holds no row; with no place at all where there are too many.
    pub fn new(places: usize) -> Cursor
        ensures { result ≡ cursor (ring_span places) 0 0 }
    {
        Cursor {
            span: if wrong_span(places) { 0 } else { places as u32 },
            held: 0,
            head: 0,
        }
    }

    // Once the place at the head is written.
    pub fn next(self) -> Cursor
        ensures { result ≡ turned_on self }
    {
        let head = self.head.wrapping_add(1);
        Cursor {
            span: self.span,
            held: if self.held < self.span {
                self.held + 1
            } else {
                self.held
            },
            head: if head < self.span { head } else { 0 },
        }
    }

    // The place of the row of an age, 0 for the newest; none past the oldest.
    // `Turning` is a part of what each ring keeps to, and no ghost field here: whoever gives a struct with a `&mut`, in which another has a ghost field, to a generic function gets no proof.
    pub fn place(self, age: u32) -> Option<u32>
        ensures { Turning self → result ≡ age_place self age }
    {
        if age >= self.held {
            None
        } else if age < self.head {
            Some(self.head - 1 - age)
        } else {
            Some(self.head.wrapping_add(self.held - 1 - age))
        }
    }
}
