// Groups of groups are groups.
ghost use Rattle.std.specs.Prelude.{◌≡◌, ◌*◌, false};
ghost use Rattle.layers.specs.Coarser.{unfit, coarser};
ghost use Rattle.archive.specs.Meanings.{stored_all};

use crate::coarsen::Coarsen;
use archive::archive::Archive;
use archive::entry::Entry;
use archive::store_all::store_all;
use consolidation::monoid::Monoid;

// Stores the same items in groups of `outer` groups of `inner`, and in groups of `outer × inner`.
// Where `outer × inner` is a factor that fits, over archives of one meaning, fresh or not, both have one meaning after any items.
pub fn coarsen_both_ways<K: Entry + Copy, A: Archive<Item = K>, B: Archive<Item = K>>(
    first: A,
    second: B,
    inner: u32,
    outer: u32,
    items: &[K],
) -> (Coarsen<Coarsen<A>>, Coarsen<B>)
    ensures well_twice { A.Archive.well first → ⟦<Coarsen<Coarsen<A>> as Archive>⟧.well result.0 }
    ensures well_once { B.Archive.well second → ⟦<Coarsen<B> as Archive>⟧.well result.1 }
    ensures same { A.Archive.well first → B.Archive.well second → A.Archive.meaning first ≡ B.Archive.meaning second → unfit (outer * inner) (B.Archive.meaning second).width ≡ false → ⟦<Coarsen<Coarsen<A>> as Archive>⟧.meaning result.0 ≡ ⟦<Coarsen<B> as Archive>⟧.meaning result.1 }
    ensures value { A.Archive.well first → B.Archive.well second → A.Archive.meaning first ≡ B.Archive.meaning second → unfit (outer * inner) (B.Archive.meaning second).width ≡ false → ⟦<Coarsen<B> as Archive>⟧.meaning result.1 ≡ stored_all K.Monoid.empty K.Monoid.joined (coarser K.Monoid.joined (B.Archive.meaning second) (outer * inner) 0 K.Monoid.empty) items.now }
{
    let mut twice = Coarsen::new(Coarsen::new(first, inner), outer);
    let mut once = Coarsen::new(second, outer.wrapping_mul(inner));
    store_all(&mut twice, items);
    store_all(&mut once, items);
    (twice, once)
}
