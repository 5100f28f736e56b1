//! Lists of requests.

ghost use Rattle.std.specs.Prelude.{◌≡◌, []};
ghost use Rattle.json_trees.specs.Trees.{trees_view};
ghost use Rattle.json_document.specs.Faults.{ComesTo};
ghost use Rattle.json_document.specs.Request.{requests_of};

use crate::request::given_request_in;
use crate::{DocumentFault, Place};
use entity_store::Request;
use json_trees::Tree;
use std::alloc::Global;
use std::marker::Model;

/// Requests, in their order; contracts see them as their list.
#[derive(Debug, Drop)]
pub struct Requests {
    items: Vec<Request>,
}

impl Model for Requests {
    ghost use Rattle.std.specs.Prelude.{List};
    ghost use Rattle.std.specs.Coded.{coded_list};
    ghost use Rattle.entity_store.specs.declared.request.Request.{Request};
    ghost use Rattle.entity_store.specs.contracts.request.Request.{the_row as request_row};

    ghost Value = { List Request };

    ghost coded = { coded_list request_row.coded };

    ghost view = { λ r. r.items.items };
}

impl Requests {
    /// These requests.
    pub fn new(items: Vec<Request>) -> Requests
        ensures { result ≡ items.items }
    {
        Requests { items }
    }

    /// The requests, borrowed.
    pub fn as_vec(&self) -> &Vec<Request>
        ensures { result.now.items ≡ self.now }
    {
        &self.items
    }
}

fn read_items(alloc: Global, items: Vec<Tree<'_>>) -> Result<Vec<Request>, DocumentFault>
    ensures { ComesTo (λ v. v.items) result (requests_of [] (trees_view items.entry.items)) }
{
    let mut requests = Vec::new(alloc);
    for item in items {
        let Some(request) = given_request_in(alloc, item)? else {
            return Err(DocumentFault::Place(Place::RequestAt(requests.len())));
        };
        requests.push(request)?;
    }
    Ok(requests)
}

/// The requests of the items; else the place of the first item that is none.
pub(crate) fn read_requests(alloc: Global, items: Vec<Tree<'_>>) -> Result<Requests, DocumentFault>
    ensures { ComesTo (λ qs. qs) result (requests_of [] (trees_view items.entry.items)) }
{
    let requests = read_items(alloc, items)?;
    Ok(Requests::new(requests))
}
