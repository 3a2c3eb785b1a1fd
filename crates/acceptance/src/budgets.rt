//! A budget of 100 bytes, and a few that ask.

use crate::trial::Trial;
use memory_budget::{Budget, Grant, Share};
use std::alloc::Global;

/// The trials.
pub fn trials(alloc: Global) -> [(&'static str, Trial); 3] {
    [
        (
            "who_holds_least_is_served",
            who_holds_least_is_served(alloc),
        ),
        ("one_that_waits_leaves", one_that_waits_leaves(alloc)),
        (
            "a_newcomer_has_what_is_spared",
            a_newcomer_has_what_is_spared(alloc),
        ),
    ]
}

/// What one that asks is answered, where it is.
fn asked(budget: &mut Budget, party: usize, owner: usize, bytes: usize) -> Option<Grant> {
    if bytes > budget.most() || party >= budget.parties() {
        return None;
    }
    budget.ask(party, owner, bytes).ok()
}

fn share(ticket: u64, owner: usize, bytes: usize) -> Option<Share> {
    Some(Share {
        ticket,
        owner,
        bytes,
    })
}

/// One that holds something asks for more, and then another one asks: that one comes first.
fn who_holds_least_is_served(alloc: Global) -> Trial {
    let Ok(mut budget) = Budget::new(alloc, 100, 0, 3) else {
        return Trial::unprepared();
    };
    let mut trial = Trial::of(&[
        budget.has_room(0, 100),
        asked(&mut budget, 0, 1, 70) == Some(Grant::Granted(0)),
        !budget.is_waited_for(),
        asked(&mut budget, 0, 2, 40) == Some(Grant::Waits(1)),
        budget.is_waited_for(),
        !budget.has_room(1, 10),
        asked(&mut budget, 1, 3, 50) == Some(Grant::Waits(2)),
        budget.next().is_none(),
    ]);
    budget.shrink(0, 0, 50);
    trial.case(budget.left() == 50);
    trial.case(budget.next() == share(2, 3, 50));
    trial.case(budget.next().is_none());
    budget.release(0, 0);
    trial.case(budget.next() == share(1, 2, 40));
    trial.case(budget.next().is_none());
    trial.case(budget.left() == 10);
    trial
}

/// One that waits leaves: the next one of its party has its turn. A share of the whole limit is granted once nothing is held.
fn one_that_waits_leaves(alloc: Global) -> Trial {
    let Ok(mut budget) = Budget::new(alloc, 100, 0, 1) else {
        return Trial::unprepared();
    };
    let mut trial = Trial::of(&[
        asked(&mut budget, 0, 7, 60) == Some(Grant::Granted(0)),
        asked(&mut budget, 0, 8, 100) == Some(Grant::Waits(1)),
        asked(&mut budget, 0, 9, 40) == Some(Grant::Waits(2)),
    ]);
    budget.release(0, 1);
    trial.case(budget.next() == share(2, 9, 40));
    trial.case(budget.left() == 0);
    trial.case(asked(&mut budget, 0, 8, 100) == Some(Grant::Waits(4)));
    budget.release(0, 2);
    budget.release(0, 0);
    trial.case(budget.next() == share(4, 8, 100));
    budget.release(0, 4);
    trial.case(budget.left() == 100);
    trial
}

/// One party holds all but what is spared, and waits for more. Another one that holds nothing is granted what is spared by the next call.
fn a_newcomer_has_what_is_spared(alloc: Global) -> Trial {
    let Ok(mut budget) = Budget::new(alloc, 100, 20, 2) else {
        return Trial::unprepared();
    };
    let mut trial = Trial::of(&[
        budget.most() == 80,
        asked(&mut budget, 0, 1, 81).is_none(),
        asked(&mut budget, 0, 1, 80) == Some(Grant::Granted(0)),
        !budget.has_room(0, 10),
        budget.has_room(1, 20),
        !budget.may_grow(1),
        asked(&mut budget, 0, 2, 10) == Some(Grant::Waits(1)),
        asked(&mut budget, 1, 3, 20) == Some(Grant::Waits(2)),
    ]);
    trial.case(budget.next() == share(2, 3, 20));
    trial.case(budget.next().is_none());
    trial.case(budget.left() == 0);
    budget.release(0, 0);
    trial.case(budget.next() == share(1, 2, 10));
    trial
}
