// An image whose bytes were checked, for reading.
ghost use Rattle.std.specs.Prelude.{◌≡◌, ◌+◌, ◌-◌, ◌<◌, ◌≤◌, List, length, IfOk, IfSome, OnOk};
ghost use Rattle.std.specs.Iterator.{YieldsFirst, item_count};
ghost use Rattle.std.specs.List.{slice_get};
ghost use Rattle.std.specs.Result.{result_err};
ghost use Rattle.archive.specs.Entries.{empty_item, item_counts};
ghost use Rattle.archive.specs.Meanings.{asked};
ghost use Rattle.consolidation.specs.declared.item.Item.{Item};
ghost use Rattle.element.specs.Faults.{unless};
ghost use Rattle.image.specs.Headers.{header_in};
ghost use Rattle.image.specs.Images.{bad_element, image_fault, rows_in, row_of, run};
ghost use Rattle.element.specs.Kinds.{number_of_kind};
ghost use Rattle.image.specs.Opened.{Opened, Ruled, image_meaning};
ghost use Rattle.image.specs.Rows.{row_start};

use crate::fault::{BadElement, ImageFault};
use crate::header::{Header, open_header};
use crate::row::{read_row, row_at, row_start};
use archive::entry::WHOLE;
use consolidation::item::Item;
use consolidation::monoid::Monoid;
use element::coded::Coded;
use std::marker::{Model, PhantomData};

// The header is read from the bytes once, where they are checked, and the bytes are lent. That the two belong together, `Opened`, is promised by `open`, and is a premise of what is read.
#[derive(Drop)]
pub struct Image<'a, E> {
    bytes: &'a [u8],
    header: Header,
    element: PhantomData<E>,
}

// The rows of an image that are left, the oldest first; a clause sees their list, which ends before a row that cannot be read. An opened image has none of these.
#[derive(Drop)]
pub struct Rows<'i, 'a, E: Coded> {
    image: &'i Image<'a, E>,
    index: u32,
}

impl<'i, 'a, E: Coded> Model for Rows<'i, 'a, E> {
    ghost Value = { List (Item E) };

    ghost view = { λ rows. run (row_of E.Coded.fault E.Coded.decoded rows.image.now.header rows.image.now.bytes.now) rows.index (rows.image.now.header.held - rows.index) };
}

// The element's fault in the row at a place, with that place and the row's first byte. The room is asked for, as by `read_row`.
fn check_row<E: Coded + Copy>(bytes: &[u8], place: u32) -> Result<(), BadElement>
    requires { (row_start place + 20 ≤ length bytes.now) × (place < 3000) }
    ensures { result_err result ≡ bad_element E.Coded.fault bytes.now place }
{
    read_row::<E>(bytes, place).map_err(|fault| BadElement {
        place,
        byte: row_start(place) as u32,
        fault,
    })?;
    Ok(())
}

// The header of an image of `E`'s kind, or the first fault of the image.
fn check<E: Coded + Copy>(bytes: &[u8]) -> Result<Header, ImageFault>
    ensures { result ≡ unless (image_fault (number_of_kind E.Coded.KIND) E.Coded.fault bytes.now) (header_in bytes.now) }
{
    let header = open_header(bytes, E::KIND)?;
    for place in 0..header.held {
        check_row::<E>(bytes, place)?;
    }
    Ok(header)
}

// The row of an index; none past the newest, nor where it cannot be read.
fn row_of<E: Coded + Copy>(bytes: &[u8], header: &Header, index: u32) -> Option<Item<E>>
    ensures row { result ≡ row_of E.Coded.fault E.Coded.decoded header.now bytes.now index }
    ensures more { IfSome result (λ _. index < 4294967295) }
{
    if index >= header.held || header.head > header.held {
        return None;
    }
    row_at(bytes, header.place_of(index))
}

impl<'a, E: Coded + Copy> Image<'a, E> {
    // The image of these bytes, or the first fault that they have as one of `E`'s kind.
    pub fn open(bytes: &'a [u8]) -> Result<Image<'a, E>, ImageFault>
        ensures bytes { IfOk result (λ image. image.bytes.now ≡ bytes.now) }
        ensures opened { IfOk result (λ image. Opened (number_of_kind E.Coded.KIND) E.Coded.fault image.header image.bytes.now) }
        ensures ruled { OnOk result (Ruled (number_of_kind E.Coded.KIND) E.Coded.fault bytes.now) }
        ensures fault { result_err result ≡ image_fault (number_of_kind E.Coded.KIND) E.Coded.fault bytes.now }
    {
        let header = check::<E>(bytes)?;
        Ok(Image::of_parts(bytes, header))
    }

    // An image of bytes that are known to have no fault.
    pub(crate) fn of_parts(bytes: &'a [u8], header: Header) -> Image<'a, E>
        ensures bytes { result.bytes.now ≡ bytes.now }
        ensures header { result.header ≡ header }
    {
        Image {
            bytes,
            header,
            element: PhantomData,
        }
    }

    // How many items make one row. Here and below an image answers as an end does, and is no archive, since it has no store.
    pub fn width(&self) -> u32
        ensures { result ≡ (image_meaning E.Monoid.empty E.Coded.decoded self.now.bytes.now).width }
    {
        1
    }

    // How much of a row may be unknown, in thousandths.
    pub fn allowance(&self) -> u32
        ensures { result ≡ (image_meaning E.Monoid.empty E.Coded.decoded self.now.bytes.now).allowance }
    {
        WHOLE
    }

    // How many items the open row has.
    pub fn begun(&self) -> u32
        ensures { result ≡ (image_meaning E.Monoid.empty E.Coded.decoded self.now.bytes.now).begun }
    {
        0
    }

    // The joining of these.
    pub fn part(&self) -> Item<E>
        ensures { result ≡ (image_meaning E.Monoid.empty E.Coded.decoded self.now.bytes.now).part }
    {
        Item::empty()
    }

    // How many rows there is room for.
    pub fn span(&self) -> u32
        ensures { Opened (number_of_kind E.Coded.KIND) E.Coded.fault self.now.header self.now.bytes.now → result ≡ (header_in self.now.bytes.now).span }
    {
        self.header.span
    }

    // How many rows are held.
    pub fn held(&self) -> u32
        ensures { Opened (number_of_kind E.Coded.KIND) E.Coded.fault self.now.header self.now.bytes.now → result ≡ length (rows_in E.Coded.decoded self.now.bytes.now) }
    {
        self.header.held
    }

    // The row of an index, the oldest being the first; none past the newest.
    pub fn row(&self, index: u32) -> Option<Item<E>>
        ensures { Opened (number_of_kind E.Coded.KIND) E.Coded.fault self.now.header self.now.bytes.now → result ≡ slice_get (rows_in E.Coded.decoded self.now.bytes.now) index }
    {
        row_of(self.bytes, &self.header, index)
    }

    // The rows that are held, the oldest first.
    pub fn rows(&self) -> Rows<'_, 'a, E>
        ensures { Opened (number_of_kind E.Coded.KIND) E.Coded.fault self.now.header self.now.bytes.now → result ≡ rows_in E.Coded.decoded self.now.bytes.now }
    {
        Rows {
            image: self,
            index: 0,
        }
    }

    // The row of an age, 0 for the newest; none past the oldest.
    pub fn ask(&self, age: u32) -> Option<Item<E>>
        ensures { Opened (number_of_kind E.Coded.KIND) E.Coded.fault self.now.header self.now.bytes.now → result ≡ asked (empty_item E.Monoid.empty) (item_counts E.Monoid.empty) (image_meaning E.Monoid.empty E.Coded.decoded self.now.bytes.now) age }
    {
        let held = self.held();
        if age >= held {
            return None;
        }
        self.row(held - 1 - age)
    }
}

// An image whose type says that it was opened: what is promised of it has no premise. With today's kit some code gets no proof with it that does with an `Image`: a pair of it and a `&mut` that is handed out, say, or an element of an array of them that is replaced.
#[derive(Drop)]
pub struct OpenedImage<'a, E: Coded> {
    image: Image<'a, E>,
    pub ghost opened: { Opened (number_of_kind E.Coded.KIND) E.Coded.fault image.header image.bytes.now },
}

impl<'a, E: Coded + Copy> OpenedImage<'a, E> {
    // As `Image::open`.
    pub fn open(bytes: &'a [u8]) -> Result<OpenedImage<'a, E>, ImageFault>
        ensures bytes { IfOk result (λ opened. opened.image.bytes.now ≡ bytes.now) }
        ensures ruled { OnOk result (Ruled (number_of_kind E.Coded.KIND) E.Coded.fault bytes.now) }
        ensures fault { result_err result ≡ image_fault (number_of_kind E.Coded.KIND) E.Coded.fault bytes.now }
    {
        let image = Image::open(bytes)?;
        Ok(OpenedImage { image })
    }

    // The image, and that it was opened, which is the premise of what it promises.
    pub fn image(&self) -> &Image<'a, E>
        ensures is { result.now ≡ self.now.image }
        ensures opened { Opened (number_of_kind E.Coded.KIND) E.Coded.fault result.now.header result.now.bytes.now }
    {
        &self.image
    }

    // The rows that are held, the oldest first.
    pub fn rows(&self) -> Rows<'_, 'a, E>
        ensures { result ≡ rows_in E.Coded.decoded self.now.image.bytes.now }
    {
        self.image.rows()
    }
}

impl<'i, 'a, E: Coded + Copy> Iterator for Rows<'i, 'a, E> {
    type Item = Item<E>;

    ghost next_gives = { YieldsFirst (λ rest. rest) };

    ghost remaining = { item_count (λ rest. rest) };

    #[tactic(auto, using(crate::proofs::Left::none_run))]
    fn next(&mut self) -> Option<Item<E>> {
        let row = row_of(self.image.bytes, &self.image.header, self.index)?;
        self.index += 1;
        Some(row)
    }
}
