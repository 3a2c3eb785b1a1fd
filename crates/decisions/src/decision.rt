//! A condition with its truth decided for each kind of value at each place.

ghost use Rattle.std.specs.Prelude.{◌≡◌, IfOk};
ghost use Rattle.decisions.specs.Tree.{uses, meets_root};
ghost use Rattle.decisions.specs.Truth.{truth};
ghost use Rattle.decisions.specs.Views.{test_view};

use crate::counting::{meets_root, uses_of};
use crate::gathering::literals_of;
use crate::laws::tells_by_places;
use crate::places::side_place;
use crate::relation::Relation;
use crate::side::ComparedSide;
use crate::tables::tables;
use crate::telling::holds;
use crate::test::{Constant, Test};
use std::alloc::{AllocError, Global};
use std::marker::Model;

/// A condition with its truth decided for each kind of value at each place. It stands for the condition.
#[derive(Drop)]
pub struct Decision {
    test: Test,
    literals: Vec<Constant>,
    /// Where `@` compares so with `$`.
    relation: Relation,
    tables: Vec<Vec<bool>>,
    count: u32,
    is_rooted: bool,
}

impl Model for Decision {
    ghost use Rattle.std.specs.Prelude.{◌≡◌, map};
    ghost use Rattle.std.specs.Coded.{codes};
    ghost use Rattle.std.specs.List.Sorted.{IsSortedByKey};
    ghost use Rattle.decisions.specs.contracts.test.Test as condition;
    ghost use Rattle.decisions.specs.declared.test.Test.{Test};
    ghost use Rattle.decisions.specs.Order.{value_cmp};
    ghost use Rattle.decisions.specs.Places.{Decides};
    ghost use Rattle.decisions.specs.Tree.{uses, meets_root};
    ghost use Rattle.decisions.specs.Views.{constant_value, test_view};

    ghost Value = { Test };

    ghost coded = { Prim.hlevel (codes, condition.the_row.coded) };

    ghost view = { λ d. d.test };

    ghost invariant = { λ d. IsSortedByKey constant_value value_cmp d.literals.items × Decides (map constant_value d.literals.items) (map (λ t. t.items) d.tables.items) d.relation (test_view d.test) × (d.count ≡ uses (test_view d.test)) × (d.is_rooted ≡ meets_root (test_view d.test)) };
}

impl Decision {
    /// The decision of a condition. `AllocError` where a growth was refused.
    pub fn new(alloc: Global, test: Test) -> Result<Decision, AllocError>
        ensures { IfOk result (λ decision. decision ≡ test) }
    {
        let Some(count) = uses_of(&test) else {
            return Err(AllocError);
        };
        let literals = literals_of(alloc, &test)?;
        let relation = Relation::apart();
        let is_rooted = meets_root(&test);
        let tables = tables(alloc, &literals, relation, &test)?;
        Ok(Decision {
            test,
            literals,
            relation,
            tables,
            count,
            is_rooted,
        })
    }

    /// How often the side is written.
    pub fn uses(&self) -> u32
        ensures { result ≡ uses (test_view self.now) }
    {
        self.count
    }

    /// Whether it compares `@` with `$`.
    pub fn is_rooted(&self) -> bool
        ensures { result ≡ meets_root (test_view self.now) }
    {
        self.is_rooted
    }

    /// Whether the condition holds where its side has a value, and `@` compares so with `$`: at once where these are apart.
    pub fn holds<S: ComparedSide>(&self, side: &S, relation: Relation) -> bool
        ensures { result ≡ truth (S.value side.now) relation (test_view self.now) }
    {
        tells_by_places();
        if !relation.is(self.relation) {
            return holds(&self.test, side, relation);
        }
        let cells = &self.tables[side.kind_number()];
        cells[side_place(&self.literals, side)]
    }
}
