//! What shows that an edit changes a decision.

use entity_store::{Entities, Request};

/// How the decision is turned.
#[derive(Clone, Copy, Debug, PartialEq, Eq)]
pub enum Turn {
    /// It is Allow before, and Deny after.
    ToDeny,
    /// It is Deny before, and Allow after.
    ToAllow,
}

/// A request and a store.
#[derive(Debug)]
pub struct Witness {
    /// What is asked.
    pub request: Request,
    /// The entities.
    pub entities: Entities,
}

impl Drop for Witness {
    fn drop(self) {
        let Witness { request, entities } = self;
        drop(request);
        drop(entities);
    }
}
