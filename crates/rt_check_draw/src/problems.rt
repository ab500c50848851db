//! The problems of a tree, in red: the boxes of which they speak, and the first of them in words.

ghost use Rattle.std.specs.Prelude.{◌≡◌};
ghost use Rattle.std.specs.List.{flat_map};
ghost use Rattle.rt_check_draw.specs.Axes.{IsWithin};
ghost use Rattle.rt_check_draw.specs.Text.{Adds};
ghost use Rattle.rt_check_draw.specs.Problems.{first_of, mark_at, marks_in, marks_of, marks_text, problem_line, list_head, list_text, problems_text};

use crate::boxes::{Title, add_box, add_boxes, add_words};
use crate::scale::Frame;
use crate::text::add;
use itoa::Buffer;
use rt_check::{NodeRow, Problem, Shadow};
use sqlite_items::at as item_at;
use std::alloc::AllocError;

/// How many problems are listed in words.
pub(crate) const MOST_LISTED: usize = 20;

/// Adds the cell at a place of a node, counted from 0, if there is one.
fn add_mark_at<const D: usize>(
    text: &mut Vec<u8>,
    frame: &Frame,
    problem: &Problem,
    node: &NodeRow<D>,
    at: usize,
) -> Result<(), AllocError>
    requires { IsWithin D frame.now.axes }
    ensures { Adds result text.old text.new (mark_at frame.now problem.now node.now at) }
{
    match item_at(node.cells.as_slice(), at) {
        Some(cell) => add_box(text, frame, &Title::Words(*problem), node.level, cell),
        None => Ok(()),
    }
}

/// Adds the cells of its node of which a problem speaks: one, or all if it speaks of the node.
fn add_marks_in<const D: usize>(
    text: &mut Vec<u8>,
    frame: &Frame,
    problem: &Problem,
    node: &NodeRow<D>,
) -> Result<(), AllocError>
    requires { IsWithin D frame.now.axes }
    ensures { Adds result text.old text.new (marks_in frame.now problem.now node.now) }
{
    if problem.condition.code() == 9 {
        // The position is one of the row entries.
        Ok(())
    } else if problem.position == 0 {
        add_boxes(text, frame, &Title::Words(*problem), node)
    } else {
        add_mark_at(text, frame, problem, node, problem.position as usize - 1)
    }
}

/// Adds the cells of which a problem speaks, if its node is listed.
fn add_marks<const D: usize>(
    text: &mut Vec<u8>,
    frame: &Frame,
    problem: &Problem,
    shadow: &Shadow<D>,
) -> Result<(), AllocError>
    requires { IsWithin D frame.now.axes }
    ensures { Adds result text.old text.new (marks_of frame.now shadow.now.nodes problem.now) }
{
    match shadow.node(problem.node) {
        Some(node) => add_marks_in(text, frame, problem, node),
        None => Ok(()),
    }
}

fn add_each_mark<const D: usize>(
    text: &mut Vec<u8>,
    frame: &Frame,
    problems: &[Problem],
    shadow: &Shadow<D>,
) -> Result<(), AllocError>
    requires { IsWithin D frame.now.axes }
    ensures { Adds result text.old text.new (flat_map (marks_of frame.now shadow.now.nodes) problems.now) }
{
    for problem in problems {
        add_marks(text, frame, problem, shadow)?;
    }
    Ok(())
}

/// Adds the cells of which the problems speak.
fn add_all_marks<const D: usize>(
    text: &mut Vec<u8>,
    frame: &Frame,
    problems: &[Problem],
    shadow: &Shadow<D>,
) -> Result<(), AllocError>
    requires { IsWithin D frame.now.axes }
    ensures { Adds result text.old text.new (marks_text frame.now shadow.now.nodes problems.now) }
{
    add(
        text,
        &[b"<g stroke=\"red\" fill=\"red\" fill-opacity=\"0.1\" stroke-width=\"150\">\n"],
    )?;
    add_each_mark(text, frame, problems, shadow)?;
    add(text, &[b"</g>\n"])
}

fn add_line(text: &mut Vec<u8>, problem: &Problem) -> Result<(), AllocError>
    ensures { Adds result text.old text.new (problem_line problem.now) }
{
    add(text, &[b"<tspan x=\"10000\" dy=\"1800\">"])?;
    add_words(text, problem)?;
    add(text, &[b"</tspan>"])
}

fn add_lines(text: &mut Vec<u8>, problems: &[Problem]) -> Result<(), AllocError>
    ensures { Adds result text.old text.new (flat_map problem_line problems.now) }
{
    for problem in problems {
        add_line(text, problem)?;
    }
    Ok(())
}

fn add_list_head(text: &mut Vec<u8>, start: u64, count: usize) -> Result<(), AllocError>
    ensures { Adds result text.old text.new (list_head start count) }
{
    let (mut y, mut number) = (Buffer::new(), Buffer::new());
    add(
        text,
        &[
            b"<text fill=\"red\" x=\"10000\" y=\"",
            y.format(start).as_bytes(),
            b"\">Problems: ",
            number.format(count).as_bytes(),
        ],
    )
}

/// The problems that are listed in words.
fn first_of(problems: &[Problem]) -> &[Problem]
    ensures { result.now ≡ first_of problems.now }
{
    &problems[..problems.len().min(MOST_LISTED)]
}

/// Adds how many problems there are, and the first of them in words.
fn add_list(text: &mut Vec<u8>, start: u64, problems: &[Problem]) -> Result<(), AllocError>
    ensures { Adds result text.old text.new (list_text start problems.now) }
{
    add_list_head(text, start, problems.len())?;
    add_lines(text, first_of(problems))?;
    add(text, &[b"</text>\n"])
}

/// Adds the problems, if there are some.
pub(crate) fn add_problems<const D: usize>(
    text: &mut Vec<u8>,
    frame: &Frame,
    start: u64,
    problems: &[Problem],
    shadow: &Shadow<D>,
) -> Result<(), AllocError>
    requires { IsWithin D frame.now.axes }
    ensures { Adds result text.old text.new (problems_text frame.now start shadow.now.nodes problems.now) }
{
    if problems.is_empty() {
        return Ok(());
    }
    add_all_marks(text, frame, problems, shadow)?;
    add_list(text, start, problems)
}
