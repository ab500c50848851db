//! Many windows or points asked of one tree.

ghost use Rattle.std.specs.Prelude.{◌<◌, ◌≤◌, length, IfOk, OnOk};
ghost use Rattle.std.specs.List.{AllZip};
ghost use Rattle.rt_tree.specs.Search.{CountsIn};
ghost use Rattle.rt_tree_many.specs.Answers.{IsLonger, AreNoted, AnswersAt, SpanAnswers};
ghost use Rattle.rt_tree_many.specs.Parts.{FindsIds, FindsMany, FindsNearest};

use crate::parts::FoundMany;
use crate::spans::{Span, add_ids};
use rt_box::Window;
use rt_map::nearest;
use rt_tree::{Reached, Row, Tree};
use std::alloc::{AllocError, Global};

/// Lists that a search fills. They are kept between searches, so they grow only a few times.
#[derive(Drop)]
struct Lists<const D: usize> {
    rows: Vec<Row<D>>,
    reached: Vec<Reached>,
}

/// Adds the ids that a window finds to a list, and tells where they stand.
fn search_one<const D: usize>(
    tree: &Tree<D>,
    window: &Window<D>,
    lists: &mut Lists<D>,
    ids: &mut Vec<i64>,
) -> Result<Span, AllocError>
    ensures longer { OnOk result (IsLonger ids.old.items ids.new.items) }
    ensures finds { IfOk result (SpanAnswers (FindsIds tree.now.lists) ids.new.items window.now) }
{
    lists.rows.clear();
    let _ = tree.search_into(window, &mut lists.rows, &mut lists.reached)?;
    add_ids(ids, &lists.rows)
}

/// Tells where the ids stand that the window at a place finds. It is searched for unless that is noted.
fn search_at<const D: usize>(
    tree: &Tree<D>,
    windows: &[Window<D>],
    place: usize,
    lists: &mut Lists<D>,
    ids: &mut Vec<i64>,
    spans: &mut [Option<Span>],
) -> Result<Span, AllocError>
    requires place { place < length windows.now }
    requires noted { AreNoted (SpanAnswers (FindsIds tree.now.lists) ids.old.items) windows.now spans.old }
    ensures noted { OnOk result (AreNoted (SpanAnswers (FindsIds tree.now.lists) ids.new.items)
        windows.now spans.new) }
    ensures finds { IfOk result (AnswersAt (SpanAnswers (FindsIds tree.now.lists) ids.new.items)
        windows.now place) }
{
    if let Some(span) = spans[place] {
        return Ok(span);
    }
    let span = search_one(tree, &windows[place], lists, ids)?;
    spans[place] = Some(span);
    Ok(span)
}

/// Lists what the windows find in the order of the windows. A window whose answer isn't noted is searched for.
fn list_in_order<const D: usize>(
    tree: &Tree<D>,
    alloc: Global,
    windows: &[Window<D>],
    lists: &mut Lists<D>,
    ids: &mut Vec<i64>,
    spans: &mut [Option<Span>],
) -> Result<FoundMany, AllocError>
    requires { AreNoted (SpanAnswers (FindsIds tree.now.lists) ids.old.items) windows.now spans.old }
    ensures { IfOk result (λ found. FindsMany tree.now.lists windows.now found.ids.items found.starts.items) }
{
    let mut found = FoundMany::with_room(alloc, windows.len())?;
    found.ids.reserve(ids.len())?;
    for place in 0..windows.len() {
        let span = search_at(tree, windows, place, lists, ids, spans)?;
        let part = &ids[span.start..span.end];
        found.add_part(part)?;
    }
    Ok(found)
}

/// Lists what the windows find. They are searched for in their order, so where each answer stands needn't be noted.
fn search_in_turn<const D: usize>(
    tree: &Tree<D>,
    alloc: Global,
    windows: &[Window<D>],
) -> Result<FoundMany, AllocError>
    ensures { IfOk result (λ found. FindsMany tree.now.lists windows.now found.ids.items found.starts.items) }
{
    let mut lists = Lists {
        rows: Vec::new(alloc),
        reached: Vec::new(alloc),
    };
    let mut found = FoundMany::with_room(alloc, windows.len())?;
    for window in windows {
        lists.rows.clear();
        let _ = tree.search_into(window, &mut lists.rows, &mut lists.reached)?;
        found.add(&lists.rows)?;
    }
    Ok(found)
}

/// Finds the ids of the rows whose boxes each window admits: for each window the same as `Tree::search`. The windows are
/// searched for in the order of the places in `order`, and then those that it doesn't name; what is found stands in the order
/// of the windows.
///
/// # Errors
///
/// `AllocError` if no memory is left.
pub fn search_many<const D: usize>(
    tree: &Tree<D>,
    alloc: Global,
    windows: &[Window<D>],
    order: &[usize],
) -> Result<FoundMany, AllocError>
    ensures { IfOk result (λ found. FindsMany tree.now.lists windows.now found.ids.items found.starts.items) }
{
    if order.is_empty() {
        return search_in_turn(tree, alloc, windows);
    }
    let mut ids = Vec::new(alloc);
    let mut spans = vec![in alloc; None; windows.len()]?;
    let mut lists = Lists {
        rows: Vec::new(alloc),
        reached: Vec::new(alloc),
    };
    for place in order {
        if *place < windows.len() {
            let _ = search_at(tree, windows, *place, &mut lists, &mut ids, &mut spans)?;
        }
    }
    list_in_order(tree, alloc, windows, &mut lists, &mut ids, &mut spans)
}

/// Counts the rows that the window at a place admits, unless their number is noted.
fn count_at<const D: usize>(
    tree: &Tree<D>,
    alloc: Global,
    windows: &[Window<D>],
    place: usize,
    counts: &mut [Option<usize>],
) -> Result<usize, AllocError>
    requires place { place < length windows.now }
    requires noted { AreNoted (CountsIn tree.now.lists) windows.now counts.old }
    ensures noted { OnOk result (AreNoted (CountsIn tree.now.lists) windows.now counts.new) }
    ensures counts { IfOk result (AnswersAt (CountsIn tree.now.lists) windows.now place) }
{
    if let Some(count) = counts[place] {
        return Ok(count);
    }
    let count = tree.count(alloc, &windows[place])?;
    counts[place] = Some(count);
    Ok(count)
}

/// Lists the numbers of rows in the order of the windows. For a window whose number isn't noted they are counted.
fn counts_in_order<const D: usize>(
    tree: &Tree<D>,
    alloc: Global,
    windows: &[Window<D>],
    noted: &mut [Option<usize>],
) -> Result<Vec<usize>, AllocError>
    requires { AreNoted (CountsIn tree.now.lists) windows.now noted.old }
    ensures { IfOk result (λ counts. AllZip (CountsIn tree.now.lists) windows.now counts.items) }
{
    let mut counts = Vec::with_capacity(alloc, windows.len())?;
    for place in 0..windows.len() {
        let count = count_at(tree, alloc, windows, place, noted)?;
        counts.push(count)?;
    }
    Ok(counts)
}

/// Counts the rows whose boxes each window admits. The windows are taken in the order of the places in `order`, and then those
/// that it doesn't name; the counts stand in the order of the windows.
///
/// # Errors
///
/// `AllocError` if no memory is left.
pub fn count_many<const D: usize>(
    tree: &Tree<D>,
    alloc: Global,
    windows: &[Window<D>],
    order: &[usize],
) -> Result<Vec<usize>, AllocError>
    ensures { IfOk result (λ counts. AllZip (CountsIn tree.now.lists) windows.now counts.items) }
{
    let mut noted = vec![in alloc; None; windows.len()]?;
    for place in order {
        if *place < windows.len() {
            let _ = count_at(tree, alloc, windows, *place, &mut noted)?;
        }
    }
    counts_in_order(tree, alloc, windows, &mut noted)
}

/// Finds the ids of the `k` rows nearest to each point, in the order of `Tree::nearest`.
///
/// # Errors
///
/// `AllocError` if no memory is left.
pub fn nearest_many<const D: usize>(
    tree: &Tree<D>,
    alloc: Global,
    points: &[[i32; D]],
    k: usize,
) -> Result<FoundMany, AllocError>
    requires { D ≤ 3 }
    ensures { IfOk result (λ found. FindsNearest tree.now.lists k points.now found.ids.items found.starts.items) }
{
    let mut found = FoundMany::with_room(alloc, points.len())?;
    for point in points {
        let rows = nearest(alloc, tree, point, k)?;
        found.add(&rows)?;
    }
    Ok(found)
}
