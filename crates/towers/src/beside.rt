// Archives of several types in one type, as a bank of them has it: lent memory beside layers and images that hold none. And rings in an array, and an image in a struct that asks nothing of its elements.
use archive::archive::Archive;
use consolidation::item::Item;
use consolidation::mean::Mean;
use consolidation::monoid::Monoid;
use image::opened::Image;
use image::ring::ImageRing;
use layers::coarsen::Coarsen;
use rings::latest::LatestRow;
use rings::record::RecordRing;
use std::test::Fail;

#[derive(Drop)]
struct Beside<A, B> {
    one: A,
    other: B,
}

// What is given to both, and how much of it.
#[derive(Drop)]
struct Given<B> {
    items: u32,
    bank: B,
}

impl<A: Archive, B: Archive<Item = A::Item>> Given<Beside<A, B>> {
    fn give(&mut self, item: A::Item) {
        self.bank.one.store(item);
        self.bank.other.store(item);
        self.items = self.items.wrapping_add(1);
    }
}

fn point(known: u32) -> Item<Mean> {
    Item {
        element: Mean {
            amount: 7,
            weight: 1,
        },
        known,
        of: 1,
    }
}

#[test]
fn a_layer_beside_lent_rows(rt: HostRuntime) {
    let mut rows = [Item::empty(); 3];
    let mut given = Given {
        items: 0,
        bank: Beside {
            one: RecordRing::<Mean>::new(&mut rows),
            other: Coarsen::new(LatestRow::<Mean>::new(), 2),
        },
    };
    for known in 0..3 {
        given.give(point(known));
    }
    assert_eq!(rt; given.items, 3);
    assert_eq!(rt; given.bank.one.held(), 3);
    assert_eq!(rt; given.bank.one.ask(0), Some(point(2)));
    assert_eq!(rt; (given.bank.other.held(), given.bank.other.begun()), (1, 1));
    assert_eq!(rt; given.bank.other.ask(0), Some(point(0).join(point(1))));
}

#[test]
fn an_image_beside_lent_rows(rt: HostRuntime) -> Result<(), Fail> {
    let mut bytes = [0; 64];
    let mut ring = ImageRing::<Mean>::new(&mut bytes);
    ring.store(point(1));
    let image = Image::<Mean>::open(ring.bytes()).map_err(|_| "no image")?;
    let mut rows = [Item::empty(); 3];
    let given = Given {
        items: 1,
        bank: Beside {
            one: RecordRing::<Mean>::new(&mut rows),
            other: image,
        },
    };
    assert_eq!(rt; (given.items, given.bank.one.held()), (1, 0));
    let Given { items: _, bank } = given;
    let Beside { one: _, other } = bank;
    assert_eq!(rt; other.ask(0), Some(point(1)));
    Ok(())
}

#[test]
fn rings_in_an_array(rt: HostRuntime) {
    let mut first = [Item::empty(); 2];
    let mut second = [Item::empty(); 3];
    let mut rings = [
        RecordRing::<Mean>::new(&mut first),
        RecordRing::new(&mut second),
    ];
    rings[0].store(point(1));
    rings[1].store(point(2));
    rings[1].store(point(3));
    assert_eq!(rt; (rings[0].span(), rings[1].span()), (2, 3));
    assert_eq!(rt; (rings[0].held(), rings[1].held()), (1, 2));
    assert_eq!(rt;
        (rings[0].ask(0), rings[1].ask(1)),
        (Some(point(1)), Some(point(2)))
    );
}

#[test]
fn image_rings_and_layers_in_arrays(rt: HostRuntime) {
    let mut first = [0; 64];
    let mut second = [0; 84];
    let mut rings = [
        ImageRing::<Mean>::new(&mut first),
        ImageRing::new(&mut second),
    ];
    rings[0].store(point(1));
    assert_eq!(rt; (rings[0].ask(0), rings[1].ask(0)), (Some(point(1)), None));
    let mut few = [Item::empty(); 1];
    let mut more = [Item::empty(); 2];
    let layers = [
        Coarsen::new(RecordRing::<Mean>::new(&mut few), 5),
        Coarsen::new(RecordRing::new(&mut more), 12),
    ];
    assert_eq!(rt; (layers[0].width(), layers[1].width()), (5, 12));
}

#[derive(Drop)]
struct Page<'a, E> {
    image: Image<'a, E>,
    number: u32,
}

#[derive(Drop)]
struct Pen<'a, E> {
    ring: ImageRing<'a, E>,
    number: u32,
}

#[test]
fn a_page_of_any_element(rt: HostRuntime) -> Result<(), Fail> {
    let mut bytes = [0; 64];
    let mut pen = Pen {
        ring: ImageRing::<Mean>::new(&mut bytes),
        number: 7,
    };
    pen.ring.store(point(1));
    let page = Page {
        image: Image::<Mean>::open(pen.ring.bytes()).map_err(|_| "no image")?,
        number: pen.number,
    };
    assert_eq!(rt; (page.number, page.image.held()), (7, 1));
    Ok(())
}
