//! Looking ahead at nodes, for the processor's cache alone.
//!
//! A search that goes into one node after the other waits for the memory of each. In a tree that most caches don't hold,
//! it looks at several nodes before it goes into the first of them, and their waits overlap. What it finds doesn't depend
//! on it, and a look takes no memory. What was seen goes into a number that nothing reads: else the compiler would leave
//! the looks out.

ghost use Rattle.std.specs.Prelude.{◌≤◌, ◌<◌, length};

use crate::searching::Reached;
use rt_tree_node::{Arena, Node};

/// How many nodes are looked at together: the nearest cache holds their boxes and numbers.
const NODES_TOGETHER: usize = 16;

// A node has an array of numbers, and one as large for each axis of its boxes.

/// How many arrays take 2 MB. A tree that has more is at hand in the caches only in part: the first leaves of a search are
/// worth a look, later ones aren't.
const SOME_ARRAYS: usize = 4_096;

/// How many arrays take 7 MB. A tree that has more isn't at hand in the caches of most processors.
const MANY_ARRAYS: usize = 16_384;

/// How many boxes of one axis, and how many numbers, stand on a cache line.
const NUMBERS_A_LINE: usize = 8;

/// How many cache lines are looked at of a node's numbers, and for each axis of its boxes. Most nodes have no more.
const LINES: usize = 6;

/// What is needed of what lies inside the window: its rows, or only how many they are.
#[derive(Clone, Copy)]
pub(crate) enum Need {
    Rows,
    Count,
}

/// How far a search has looked ahead, which goes into nodes level by level.
#[derive(Drop)]
pub(crate) struct LookAhead {
    need: Need,
    /// Whether all leaves are worth a look, or only the first ones.
    is_large: bool,
    /// Up to here in the search's list, nodes were looked at, or need no look.
    until: usize,
    /// The level of the nodes that stand there.
    level: u8,
    seen: i64,
}

// Both loops ask at fixed places whether a node goes so far: the processor foresees most answers. A loop up to the count
// would wait for the node's own memory.

/// A sum of what stands on each cache line of a node's boxes.
#[inline]
fn sum_of_boxes<const D: usize>(node: &Node<D>) -> i64
    requires { D ≤ 3 }
{
    let (boxes, count) = (node.boxes(), node.len());
    let mut sum = 0i64;
    for line in 0..LINES * D {
        let at = line * NUMBERS_A_LINE / D;
        if at < count {
            let rect = &boxes[at];
            rect.facts();
            sum = sum.wrapping_add(i64::from(rect.range(0).lo));
        }
    }
    sum
}

/// A sum of what stands on each cache line of a node's numbers.
#[inline]
fn sum_of_numbers<const D: usize>(node: &Node<D>) -> i64 {
    let (numbers, count) = (node.numbers(), node.len());
    let mut sum = 0i64;
    for line in 0..LINES {
        let at = line * NUMBERS_A_LINE;
        if at < count {
            sum = sum.wrapping_add(numbers[at]);
        }
    }
    sum
}

/// A sum of what stands on the cache lines of a node.
#[inline]
fn sum_of<const D: usize>(tree: &Arena<D>, next: &Reached) -> i64
    requires { D ≤ 3 }
{
    match tree.nodes.get(next.key) {
        Some(node) => sum_of_boxes(node).wrapping_add(sum_of_numbers(node)),
        None => 0,
    }
}

impl LookAhead {
    /// Before a search goes into the root. In a small tree, no node needs a look.
    pub(crate) fn new<const D: usize>(tree: &Arena<D>, need: Need) -> LookAhead
        requires { D ≤ 3 }
    {
        let nodes = tree.nodes.len();
        LookAhead {
            need,
            is_large: nodes > MANY_ARRAYS / (1 + D),
            until: if nodes > SOME_ARRAYS / (1 + D) {
                0
            } else {
                usize::MAX
            },
            level: tree.level,
            seen: 0,
        }
    }

    /// Before a search goes into the next node of its list: looks at that one and at some after it, unless that was done.
    #[inline]
    pub(crate) fn look<const D: usize>(&mut self, tree: &Arena<D>, reached: &[Reached], next: usize)
        requires few { D ≤ 3 }
        requires within { next ≤ length reached.now }
    {
        if next >= self.until {
            self.look_at_next(tree, &reached[next..]);
        }
    }

    /// Whether the node is needed. A count mostly goes into no node inside the window.
    #[inline]
    fn needs(&self, next: &Reached) -> bool {
        matches!(self.need, Need::Rows) || !next.is_inside
    }

    /// Looks at some of the nodes that come next: leaves or their parents. Nodes further up are few, and mostly at hand.
    /// Above the leaves, the rest of the list is one level.
    #[inline(never)]
    fn look_at_next<const D: usize>(&mut self, tree: &Arena<D>, reached: &[Reached])
        requires { D ≤ 3 }
    {
        let level = self.level;
        self.level = level.saturating_sub(1);
        let count = if level > 0 {
            reached.len()
        } else if self.is_large {
            NODES_TOGETHER
        } else {
            usize::MAX
        };
        self.until = self.until.saturating_add(count);
        if level > 1 {
            return;
        }
        for next in reached.iter().take(NODES_TOGETHER) {
            if self.needs(next) {
                self.seen = self.seen.wrapping_add(sum_of(tree, next));
            }
        }
    }
}
