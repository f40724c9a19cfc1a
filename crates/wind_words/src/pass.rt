use crate::view::View;
use atomic_table::Seat;
use std::marker::Model;

/// The right to make steps on the words: the hub's, which opens and collects winds, or a reader's, which
/// settles them. It takes no memory and may go to another thread. Contracts see it as a `Pass`: the words
/// that it is of, and what it knows.
#[derive(Drop)]
pub struct WindPass {
    pub(crate) seat: Seat<(), View>,
}

impl Model for WindPass {
    ghost use Rattle.std.specs.Prelude.{◌≡◌, ◌≢◌, []};
    ghost use Rattle.wind_words.specs.declared.view.Role.TheVariants.{Spent};
    ghost use Rattle.wind_words.specs.Calls.{Pass};

    ghost Value = { Pass };

    ghost view = { λ p. record { words = p.seat.table_id; view = p.seat.me.0 } };

    ghost invariant = { λ p. (p.seat.me.1 ≡ []) × (p.seat.me.0.role ≢ Spent) };
}
