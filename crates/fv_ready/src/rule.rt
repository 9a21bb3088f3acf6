// The rule of a board's table, and what each step tells the seat that makes it.

ghost use Rattle.std.specs.Prelude.{◌≡◌, ℕ, []};
ghost use Rattle.fv_ready.specs.Wired.{graph_wires};
ghost use Rattle.fv_ready.specs.Rule.{Looks, Claims, Starts, Ends, Gives, together, spent};
ghost use Rattle.fv_ready.specs.Whole.{IsWhole, first_view, left_part, right_part};

use crate::{About, Parcel, View};
use atomic_table::{Join, Play, Split, TableRule};
use std::marker::PhantomData;

/// The rule of a board.
pub struct Whole<C> {
    marker: PhantomData<C>,
}

impl<C: Parcel> TableRule<Option<C>, View<C>, About<C>> for Whole<C> {
    ghost holds = { λ about s. IsWhole graph_wires C.edge_of C.key_of about s };

    ghost first = { λ about. first_view about };
}

/// A seat's first number stays, and the others go on.
pub struct ByNumber<C> {
    marker: PhantomData<C>,
}

impl<C> Split<View<C>> for ByNumber<C> {
    ghost left = { λ v. left_part v };

    ghost right = { λ v. right_part v };
}

/// Two seats taken together. The second is spent.
pub struct Together<C> {
    marker: PhantomData<C>,
}

impl<C> Join<View<C>> for Together<C> {
    ghost both = { λ v w. together v w };

    ghost spent = { spent };
}

/// A look at a task's count.
pub struct Look<C> {
    marker: PhantomData<C>,
}

impl<C> Play<Option<C>, View<C>> for Look<C> {
    ghost then = { λ st m n k. Looks st m n k };
}

/// A claim of a task.
pub struct Claiming<C> {
    marker: PhantomData<C>,
}

impl<C: Parcel> Play<Option<C>, View<C>> for Claiming<C> {
    ghost then = { λ st m n k. Claims graph_wires C.edge_of C.key_of st m n k };
}

/// The stamp by which the task in hand starts.
pub struct Starting<C> {
    marker: PhantomData<C>,
}

impl<C> Play<Option<C>, View<C>> for Starting<C> {
    ghost then = { λ st m n k. Starts st m n k };
}

/// The stamp by which the task in hand finishes.
pub struct Finishing<C> {
    marker: PhantomData<C>,
}

impl<C: Parcel> Play<Option<C>, View<C>> for Finishing<C> {
    ghost then = { λ st m n k. Ends graph_wires C.edge_of C.key_of st m n k };
}

/// An arrival at the edge of the slot in front.
pub struct Arriving<C> {
    marker: PhantomData<C>,
}

impl<C> Play<Option<C>, View<C>> for Arriving<C> {
    ghost then = { λ st m n k. Gives graph_wires st m n k };
}

/// A load by which a seat gives all its slots back.
pub struct GivesBack<C> {
    marker: PhantomData<C>,
}

impl<C> Play<Option<C>, View<C>> for GivesBack<C> {
    ghost then = { λ st m n k. (k.0 ≡ m.0) × (k.1 ≡ []) };
}
