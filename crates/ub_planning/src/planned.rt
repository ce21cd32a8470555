use std::marker::Model;
use ub_bigmin::ZBox;
use ub_boxes::Cover;
use ub_query::{Cond, Query};

/// How the regions of a table are read.
#[derive(Clone, Copy, PartialEq, Eq, Debug)]
pub enum Kind {
    /// None is: no row can be selected, or none is asked for.
    Empty,
    /// Those that meet a box are, in the order of their first keys.
    Scan,
    /// Those that meet a box are, in the order of a dimension, until the limit is filled: a sweep.
    Sweep {
        /// The dimension, counted from 0.
        dim: usize,
        /// Whether the sweep goes from the greatest coordinate down.
        is_descending: bool,
    },
}

/// The plan of a query.
#[derive(Drop)]
pub struct Plan {
    kind: Kind,
    cover: Cover,
    query: Query,
}

impl Model for Plan {
    ghost use Rattle.std.specs.Coded.{codes};
    ghost use Rattle.ub_planning.specs.Plan.{PlanView, kept_by};
    ghost use Rattle.ub_planning.specs.inner.Stored.{shape_code};
    ghost use Rattle.ub_query.specs.Shape.{asked};

    ghost Value = { PlanView };

    ghost coded = { Prim.hlevel (codes, shape_code) };

    ghost view = { λ p. record { kind = p.kind; covering = kept_by p.kind p.cover; asked = asked p.query } };
}

impl Plan {
    ghost use Rattle.std.specs.Prelude.{◌≡◌, ◌≤◌, ◌^◌};
    ghost use Rattle.std.specs.Option.{option_map};
    ghost use Rattle.ub_boxes.specs.Points.{total};
    ghost use Rattle.ub_planning.specs.Plan.{kept_by, residual_of};
    ghost use Rattle.ub_query.specs.Shape.{asked, shape};

    // The plan of these parts.
    pub(crate) fn new(kind: Kind, cover: Cover, query: Query) -> Plan
        ensures { result ≡ record {
          kind = kind;
          covering = kept_by kind cover;
          asked = asked query;
        } }
    {
        Plan { kind, cover, query }
    }

    /// How the regions are read.
    pub fn kind(&self) -> Kind
        ensures { result ≡ self.now.kind }
    {
        self.kind
    }

    /// The boxes, outside of which no row is taken. An empty plan has none.
    pub fn boxes(&self) -> &[ZBox]
        ensures boxes { result.now ≡ self.now.covering.boxes }
        ensures points { total result.now ≤ 2 ^ 128 }
    {
        match self.kind {
            Kind::Empty => &[],
            Kind::Scan | Kind::Sweep { .. } => self.cover.boxes(),
        }
    }

    /// Whether the query's condition names dimensions only and isn't wide; then the rows in its boxes are the selected ones.
    pub fn is_exact(&self) -> bool
        ensures { result ≡ self.now.covering.exact }
    {
        self.cover.is_exact()
    }

    /// Whether the query's condition has too many cells to make boxes of.
    pub fn is_wide(&self) -> bool
        ensures { result ≡ self.now.covering.wide }
    {
        self.cover.is_wide()
    }

    /// The query.
    pub fn query(&self) -> &Query
        ensures { asked result.now ≡ self.now.asked }
    {
        &self.query
    }

    /// The condition that a row in a box may still fail, where the cover isn't exact. An empty plan has none.
    pub fn residual(&self) -> Option<&Cond>
        ensures { option_map (λ c. shape c.now) result ≡ residual_of self.now }
    {
        match self.kind {
            Kind::Empty => None,
            Kind::Scan | Kind::Sweep { .. } if self.cover.is_exact() => None,
            Kind::Scan | Kind::Sweep { .. } => self.query.filter.as_ref(),
        }
    }
}
