// What a desk was asked to begin. It exists only in clauses.

ghost use Rattle.std.specs.Prelude.{◌≡◌, List, [], ◌∷◌, ◌++◌};
ghost use Rattle.std.specs.Borrow.{ftrue};
ghost use Rattle.fv_outside.specs.headline.Requests.{Request as Asked};
ghost use Rattle.fv_outside.specs.Requests.{coded_requests};

use fv_base::Role;
use std::marker::Model;

/// What a desk was asked to begin, in order. It takes no bytes, and its methods do nothing when they run.
#[derive(Drop)]
pub struct Requests {
    pub ghost list: { List Asked } by { coded_requests },
}

impl Model for Requests {
    ghost also_owns = { λ _. ftrue };
}

/// To read a file of this name for the role, or to write one.
#[derive(Clone, Copy, Drop)]
pub enum Request<'a> {
    Read { role: Role, name: &'a str },
    Write { role: Role, name: &'a str },
}

impl Requests {
    ghost use Rattle.fv_outside.specs.inner.Asked.{request_of};

    /// Nothing was asked for yet.
    pub fn new() -> Requests
        ensures { result.list ≡ [] }
    {
        Requests {}
    }

    /// These requests, and this one after them.
    pub fn and(&self, _request: &Request<'_>) -> Requests
        ensures { result.list ≡ self.now.list ++ request_of _request.now ∷ [] }
    {
        Requests {}
    }
}
