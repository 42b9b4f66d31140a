// The joining of a list, one rule for every consolidation.
ghost use Rattle.std.specs.Prelude.{◌≡◌, List, ◌++◌, fold};

use crate::monoid::Monoid;

// All of `items` joined in their order. Wherever the list is cut in two, this is the joining of its two parts.
pub fn fold<M: Monoid + Copy>(items: &[M]) -> M
    ensures value { result ≡ fold M.Monoid.joined M.Monoid.empty items.now }
    ensures parts { (xs ys : List M) → items.now ≡ xs ++ ys → result ≡ M.Monoid.joined (fold M.Monoid.joined M.Monoid.empty xs) (fold M.Monoid.joined M.Monoid.empty ys) }
{
    items.iter().copied().fold(M::empty(), M::join)
}
