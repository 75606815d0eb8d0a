//! Draws plans.

use dexmerge::Plan;
use rand::RngExt;
use rand::seq::SliceRandom;
use rand_pcg::Pcg32;
use std::alloc::{AllocError, Global};
use std::mem;

/// How many nodes may be open around another, so that no plan is too deep.
const MOST_OPEN: u32 = 62;

/// Consecutive leaves of a plan: from `start` to before `end`.
#[derive(Clone, Copy)]
pub struct Span {
    start: usize,
    end: usize,
}

/// A node that is being drawn: its first leaf, and its parts with the leaves of each.
#[derive(Drop)]
struct Node {
    start: usize,
    parts: Vec<Plan>,
    spans: Vec<Span>,
}

impl Node {
    fn new(alloc: Global, start: usize) -> Node {
        Node {
            start,
            parts: Vec::new(alloc),
            spans: Vec::new(alloc),
        }
    }

    fn push(&mut self, part: Plan, span: Span) -> Result<(), AllocError> {
        self.spans.push(span)?;
        self.parts.push(part)?;
        Ok(())
    }
}

/// A drawn plan.
#[derive(Drop)]
pub struct DrawnPlan {
    pub plan: Plan,
    // The numbers of the files at its leaves, in order.
    leaves: Vec<usize>,
    /// The leaves of each of its nodes; of the plan itself, if it is a leaf.
    pub nodes: Vec<Span>,
    /// The leaves of each part of the plan.
    pub parts: Vec<Span>,
}

impl DrawnPlan {
    // Returns the plan that is the leaf of the first file.
    fn leaf(alloc: Global) -> Result<DrawnPlan, AllocError> {
        let span = Span { start: 0, end: 1 };
        let leaves = Vec::from_slice(alloc, &[0])?;
        let nodes = Vec::from_slice(alloc, &[span])?;
        let parts = Vec::from_slice(alloc, &[span])?;
        Ok(DrawnPlan {
            plan: Plan::Leaf(0),
            leaves,
            nodes,
            parts,
        })
    }

    /// Returns the numbers of the files at these leaves.
    pub fn files(&self, span: &Span) -> &[usize] {
        self.leaves.get(span.start..span.end).unwrap_or(&[])
    }
}

/// A plan that is being drawn: the node that gets the next parts, the nodes around it, and the leaves of the closed
/// nodes.
#[derive(Drop)]
struct Drawing {
    around: Vec<Node>,
    node: Node,
    closed: Vec<Span>,
}

impl Drawing {
    fn new(alloc: Global) -> Drawing {
        Drawing {
            around: Vec::new(alloc),
            node: Node::new(alloc, 0),
            closed: Vec::new(alloc),
        }
    }

    // Opens up to `count` nodes before leaf `at`, as long as the plan is not too deep.
    fn open(&mut self, alloc: Global, count: u32, at: usize) -> Result<(), AllocError> {
        for _ in 0..count {
            if self.around.len() < MOST_OPEN as usize {
                let node = mem::replace(&mut self.node, Node::new(alloc, at));
                self.around.push(node)?;
            }
        }
        Ok(())
    }

    // Closes the node, which is a part of `around`, before leaf `at`.
    fn end(&mut self, around: Node, at: usize) -> Result<(), AllocError> {
        let Node { start, parts, .. } = mem::replace(&mut self.node, around);
        let span = Span { start, end: at };
        self.node.push(Plan::Node(parts), span)?;
        self.closed.push(span)?;
        Ok(())
    }

    // Closes up to `count` open nodes before leaf `at`.
    fn close(&mut self, count: u32, at: usize) -> Result<(), AllocError> {
        for _ in 0..count {
            if let Some(around) = self.around.pop() {
                self.end(around, at)?;
            }
        }
        Ok(())
    }

    // Draws the plan for `files` files, and returns the numbers of the files at its leaves.
    fn draw(
        &mut self,
        alloc: Global,
        rng: &mut Pcg32,
        files: usize,
    ) -> Result<Vec<usize>, AllocError> {
        let deep = rng.random_ratio(1, 8);
        let most_opened = rng.random_range(0..4);
        let most_closed = rng.random_range(0..4);
        if deep {
            self.open(alloc, MOST_OPEN, 0)?;
        }
        let leaves = leaves(alloc, rng, files)?;
        for at in 0..leaves.len() {
            self.open(alloc, rng.random_range(0..=most_opened), at)?;
            let end = at + 1;
            self.node
                .push(Plan::Leaf(leaves[at]), Span { start: at, end })?;
            self.close(rng.random_range(0..=most_closed), end)?;
        }
        let end = leaves.len();
        self.close(MOST_OPEN, end)?;
        self.closed.push(Span { start: 0, end })?;
        Ok(leaves)
    }

    // Returns the drawn plan, with these files at its leaves.
    fn into_plan(self, leaves: Vec<usize>) -> DrawnPlan {
        let Drawing { node, closed, .. } = self;
        DrawnPlan {
            plan: Plan::Node(node.parts),
            leaves,
            nodes: closed,
            parts: node.spans,
        }
    }
}

// Returns the numbers of `files` files in a random order, each once and some more often.
fn leaves(alloc: Global, rng: &mut Pcg32, files: usize) -> Result<Vec<usize>, AllocError> {
    let mut leaves = Vec::new(alloc);
    for file in 0..files {
        leaves.push(file)?;
        if rng.random_ratio(1, 4) {
            leaves.push(rng.random_range(0..files))?;
        }
    }
    leaves.as_mut_slice().shuffle(rng);
    Ok(leaves)
}

/// Draws a plan for `files` files. Nodes begin and end anywhere; some have one part or none; some plans are one node of
/// all files; some are as deep as may be; the plan of a single file may be its leaf.
pub fn draw_plan(alloc: Global, rng: &mut Pcg32, files: usize) -> Result<DrawnPlan, AllocError> {
    if files == 1 && rng.random_ratio(1, 4) {
        return DrawnPlan::leaf(alloc);
    }
    let mut drawing = Drawing::new(alloc);
    let leaves = drawing.draw(alloc, rng, files)?;
    Ok(drawing.into_plan(leaves))
}
