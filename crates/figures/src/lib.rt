// Figures that were worked by hand, each from the definitions and from the code.
#![tactic(auto)]

ghost use Rattle.std.specs.Prelude.{◌≡◌, replicate, pos, negsuc, Some};
ghost use Rattle.archive.specs.Entries.{item_counts, shown};
ghost use Rattle.consolidation.specs.Items.{item};
ghost use Rattle.consolidation.specs.Means.{mean, mean_held};
ghost use Rattle.consolidation.specs.Singles.{single};
ghost use Rattle.archive.specs.Meanings.{stored_all};
ghost use Rattle.figures.specs.Worked.{none, joined, tower, point, Figures};

use archive::archive::Archive;
use archive::store_all::store_all;
use consolidation::consolidation::Consolidation;
use consolidation::item::Item;
use consolidation::mean::Mean;
use consolidation::monoid::Monoid;
use consolidation::single::{Last, Min};
use layers::allowance::AllowanceLayer;
use layers::coarsen::Coarsen;
use rings::latest::LatestRow;

// What the code makes of the figures.
#[derive(Clone, Copy, PartialEq, Eq, Debug)]
pub struct Made {
    // −3 held for 4 seconds.
    pub held: Mean,
    // That, joined with the amount 20 and the weight 2.
    pub joined: Mean,
    // The min of empty and 7.
    pub least: Min,
    // The last of 7 and empty.
    pub last: Last,
    // What 3 known of 5 are shown as at the allowance 500, and what 2 are.
    pub shown: Option<Item<Mean>>,
    pub hidden: Option<Item<Mean>>,
    // 5 over 12 over an archive of one row, after 61 points: its width, the rows held and the points of the open row.
    pub width: u32,
    pub rows: u32,
    pub begun: u32,
}

// A row of 5 points, of which some are known, as it is shown at the allowance 500.
fn at_half(known: u32) -> Option<Item<Mean>>
    ensures { result ≡ Some (shown (item_counts (mean (pos 0) 0)) 500 (item (mean_held (pos 7) 60) known 5)) }
{
    let mut archive = AllowanceLayer::new(LatestRow::new(), 500);
    archive.store(Item {
        element: Mean::hold(7, 60),
        known,
        of: 5,
    });
    archive.ask(0)
}

// 5 over 12 over an archive of one row, after 61 points with 7 for a minute.
fn five_over_twelve() -> Coarsen<Coarsen<LatestRow<Mean>>>
    ensures well { ⟦<Coarsen<Coarsen<LatestRow<Mean>>> as Archive>⟧.well result }
    ensures means { ⟦<Coarsen<Coarsen<LatestRow<Mean>>> as Archive>⟧.meaning result ≡ stored_all none joined tower (replicate 61 point) }
{
    let mut tower = Coarsen::new(Coarsen::new(LatestRow::new(), 12), 5);
    let point = Item {
        element: Mean::hold(7, 60),
        known: 1,
        of: 1,
    };
    store_all(&mut tower, &[point; 61]);
    tower
}

// The definitions compute the figures, and so does the code.
pub fn figures() -> Made
    ensures worked { Figures }
    ensures held { result.held ≡ mean (negsuc 11) 4 }
    ensures joined { result.joined ≡ mean (pos 8) 6 }
    ensures least { result.least ≡ single (Some (pos 7)) }
    ensures last { result.last ≡ single (Some (pos 7)) }
    ensures shown { result.shown ≡ Some (item (mean_held (pos 7) 60) 3 5) }
    ensures hidden { result.hidden ≡ Some (item (mean (pos 0) 0) 0 5) }
    ensures width { result.width ≡ 60 }
    ensures rows { result.rows ≡ 1 }
    ensures begun { result.begun ≡ 1 }
{
    let held = Mean::hold(-3, 4);
    let more = Mean {
        amount: 20,
        weight: 2,
    };
    let tower = five_over_twelve();
    Made {
        held,
        joined: held.join(more),
        least: Min::empty().join(Min::hold(7, 1)),
        last: Last::hold(7, 1).join(Last::empty()),
        shown: at_half(3),
        hidden: at_half(2),
        width: tower.width(),
        rows: tower.held(),
        begun: tower.begun(),
    }
}

#[cfg(test)]
mod tests;
