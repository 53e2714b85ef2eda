ghost use Rattle.std.proofs.Common.{rules};
ghost use Rattle.std.specs.Cmp.{partial_order_from_own_ties};
ghost use Rattle.std.specs.Cmp.Rules.{comparing};
ghost use Rattle.std.specs.Ordering.{int_cmp, nat_cmp, on, flip_args, then_cmp, as_partial_cmp};

use dom_words::Packet;
use std::cmp::Ordering;

// A packet that waits, with its rank and the number of its arrival. The greatest is served first: of the least rank, and of
// these the one that came first.
#[derive(Drop)]
#[derive_where(PartialEq, Eq)]
pub(crate) struct Waiting {
    pub(crate) rank: i32,
    pub(crate) arrival: u64,
    #[derive_where(skip)]
    pub(crate) words: Packet,
}

impl Ord for Waiting {
    ghost cmp = { then_cmp (flip_args (on (λ w. w.rank) int_cmp)) (flip_args (on (λ w. w.arrival) nat_cmp)) };

    ghost total = { Prim.search (comparing, rules) };

    ghost matches_partial_cmp = { Prim.search (comparing, rules) };

    ghost matches_eq = { Prim.search (comparing, rules) };

    fn cmp(&self, other: &Waiting) -> Ordering {
        let rank = other.rank.cmp(&self.rank);
        rank.then(other.arrival.cmp(&self.arrival))
    }
}

impl PartialOrd for Waiting {
    ghost partial_cmp = { as_partial_cmp (then_cmp (flip_args (on (λ w. w.rank) int_cmp)) (flip_args (on (λ w. w.arrival) nat_cmp))) };

    ghost laws = { partial_order_from_own_ties (Prim.search (comparing, rules)) (Prim.search (comparing, rules)) };

    fn partial_cmp(&self, other: &Waiting) -> Option<Ordering> {
        Some(self.cmp(other))
    }
}
