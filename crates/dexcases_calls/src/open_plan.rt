//! Builds plans from left to right.

use dexcases::CaseFault;
use dexmerge::Plan;
use std::alloc::{AllocError, Global};
use std::mem;

/// A plan with open nodes.
#[derive(Drop)]
pub struct OpenPlan {
    // The parts of each open node but the last, after the parts that are in no node.
    outer: Vec<Vec<Plan>>,
    // The parts of the last open node.
    parts: Vec<Plan>,
}

impl OpenPlan {
    /// Returns a plan without parts and nodes.
    pub fn new(alloc: Global) -> OpenPlan {
        OpenPlan {
            outer: Vec::new(alloc),
            parts: Vec::new(alloc),
        }
    }

    /// Returns how many nodes are open.
    pub fn depth(&self) -> usize {
        self.outer.len()
    }

    /// Adds a file.
    pub fn add(&mut self, file: usize) -> Result<(), AllocError> {
        self.parts.push(Plan::Leaf(file))?;
        Ok(())
    }

    /// Opens a node.
    pub fn open(&mut self, alloc: Global) -> Result<(), AllocError> {
        let parts = mem::replace(&mut self.parts, Vec::new(alloc));
        self.outer.push(parts)?;
        Ok(())
    }

    /// Closes the last open node, and returns whether there was one.
    pub fn close(&mut self) -> Result<bool, AllocError> {
        match self.outer.pop() {
            Some(outer) => {
                let parts = mem::replace(&mut self.parts, outer);
                self.parts.push(Plan::Node(parts))?;
                Ok(true)
            }
            None => Ok(false),
        }
    }

    /// Returns the only part that is in no node.
    ///
    /// Error: `Form` if a node is open, or there is not exactly one part.
    pub fn into_plan(self) -> Result<Plan, CaseFault> {
        let OpenPlan { outer, mut parts } = self;
        if !outer.is_empty() || parts.len() > 1 {
            return Err(CaseFault::Form);
        }
        parts.pop().ok_or(CaseFault::Form)
    }

    /// Returns a node of the parts of the last open node.
    pub fn into_node(self) -> Plan {
        let OpenPlan { parts, .. } = self;
        Plan::Node(parts)
    }
}
