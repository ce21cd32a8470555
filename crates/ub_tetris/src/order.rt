ghost use Rattle.std.specs.Prelude.{◌≡◌, refl};
ghost use Rattle.std.specs.Cmp.{eq_by_cmp_equiv, partial_equiv_from_equiv, partial_order_from_total};
ghost use Rattle.std.specs.Ordering.{as_partial_cmp, eq_by_cmp};
ghost use Rattle.ub_tetris.specs.inner.Events.{awaited_cmp, awaited_total, event_cmp};
ghost use Rattle.ub_tetris.specs.inner.Kept.{held_cmp, held_total, tie_cmp};

use crate::event::Awaited;
use crate::place::Held;
use crate::ranked::Ranked;
use std::cmp::Ordering;

// How two rows stand whose first values are equal: by all their values, and where these are
// equal, by row number.
fn compare_tied(a: &Held, b: &Held) -> Ordering
    ensures { result ≡ tie_cmp a.now.values.items a.now.row.number
        b.now.values.items b.now.row.number }
{
    let by_values = a.values.cmp(&b.values);
    by_values.then(a.row.number.cmp(&b.row.number))
}

impl PartialEq for Ranked {
    ghost eq = { eq_by_cmp held_cmp };

    ghost laws = { partial_equiv_from_equiv (eq_by_cmp_equiv held_total) };

    fn eq(&self, other: &Ranked) -> bool {
        self.cmp(other).is_eq()
    }
}

impl Eq for Ranked {
    ghost laws = { eq_by_cmp_equiv held_total };
}

impl Ord for Ranked {
    ghost cmp = { held_cmp };

    ghost total = { held_total };

    ghost matches_partial_cmp = { λ a b. refl };

    ghost matches_eq = { λ a b. refl };

    fn cmp(&self, other: &Ranked) -> Ordering {
        match other.first.cmp(&self.first) {
            Ordering::Equal => compare_tied(&other.held, &self.held),
            by_first => by_first,
        }
    }
}

impl PartialOrd for Ranked {
    ghost partial_cmp = { as_partial_cmp held_cmp };

    ghost laws = { partial_order_from_total held_total };

    fn partial_cmp(&self, other: &Ranked) -> Option<Ordering> {
        Some(self.cmp(other))
    }
}

// How two stretches stand in the order in which a sweep comes to them.
fn compare_events(a: &Awaited, b: &Awaited) -> Ordering
    ensures { result ≡ event_cmp a.now b.now }
{
    let (first, second) = (a.stretch.span.first, b.stretch.span.first);
    a.rank()
        .cmp(&b.rank())
        .then(first.z.cmp(&second.z))
        .then(first.number.cmp(&second.number))
}

impl PartialEq for Awaited {
    ghost eq = { eq_by_cmp awaited_cmp };

    ghost laws = { partial_equiv_from_equiv (eq_by_cmp_equiv awaited_total) };

    fn eq(&self, other: &Awaited) -> bool {
        self.cmp(other).is_eq()
    }
}

impl Eq for Awaited {
    ghost laws = { eq_by_cmp_equiv awaited_total };
}

// The greatest is the one to which the sweep comes first.
impl Ord for Awaited {
    ghost cmp = { awaited_cmp };

    ghost total = { awaited_total };

    ghost matches_partial_cmp = { λ a b. refl };

    ghost matches_eq = { λ a b. refl };

    fn cmp(&self, other: &Awaited) -> Ordering {
        compare_events(other, self)
    }
}

impl PartialOrd for Awaited {
    ghost partial_cmp = { as_partial_cmp awaited_cmp };

    ghost laws = { partial_order_from_total awaited_total };

    fn partial_cmp(&self, other: &Awaited) -> Option<Ordering> {
        Some(self.cmp(other))
    }
}
