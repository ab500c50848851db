//! What the choices rest on, as laws of the definitions that the contracts cite. Each function does nothing: its
//! contract is the law.

ghost use Rattle.rt_tree_choice.specs.Laws.{SortingIsUnique, SortingIsSorted, DistanceOrderIsUnique, DistanceOrderIsSorted};

/// The sorting along an axis is the only sorted order of a list's positions.
pub fn sorting_is_unique()
    ensures { SortingIsUnique }
{}

/// The sorting along an axis is a sorted order of a list's positions.
pub fn sorting_is_sorted()
    ensures { SortingIsSorted }
{}

/// The order by distance is the only sorted order of a list's positions.
pub fn distance_order_is_unique()
    ensures { DistanceOrderIsUnique }
{}

/// The order by distance is a sorted order of a list's positions.
pub fn distance_order_is_sorted()
    ensures { DistanceOrderIsSorted }
{}
