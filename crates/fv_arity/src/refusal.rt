// Why diagrams do not compose.

/// The condition that fails.
#[derive(Clone, Copy, PartialEq, Eq, Debug)]
pub enum ArityKind {
    /// `A:B`, where A has not as many outputs as B has inputs.
    Seq,
    /// `A<:B`, where B's inputs are not a multiple of A's outputs.
    Split,
    /// `A:>B`, where A's outputs are not a multiple of B's inputs.
    Merge,
    /// `A~B`, where A has fewer outputs than B has inputs.
    RecOut,
    /// `A~B`, where A has fewer inputs than B has outputs.
    RecIn,
}

/// Why a composition has no arity.
#[derive(Clone, Copy, PartialEq, Eq, Debug)]
pub enum ArityRefusal {
    /// A's outputs and B's inputs do not fit; for `RecIn` A's inputs and B's outputs.
    Arity {
        kind: ArityKind,
        left: u32,
        right: u32,
    },
}
