ghost use Rattle.wind_words.specs.Rule.{WordRule};
ghost use Rattle.wind_words.specs.Calls.{first_hub, new_reader, spent_view, with_won, with_bailed, with_reader, joined};
ghost use Rattle.wind_words.specs.Steps.{opens, ends, collects_replied, collects_bailed, looks};

use crate::view::View;
use atomic_table::{Join, Play, Split, TableRule};

// The rule of the table of words. The key is the number of words.
pub struct Rule;

impl TableRule<(), View, usize> for Rule {
    ghost holds = { λ count s. WordRule count s.words s.views };

    ghost first = { λ _. first_hub };
}

// The kinds of step, and what each tells the pass that makes it.

pub struct Open;

impl Play<(), View> for Open {
    ghost then = { opens };
}

pub struct Settle;

impl Play<(), View> for Settle {
    ghost then = { ends with_won };
}

pub struct Bail;

impl Play<(), View> for Bail {
    ghost then = { ends with_bailed };
}

pub struct CollectReplied;

impl Play<(), View> for CollectReplied {
    ghost then = { collects_replied };
}

pub struct CollectBailed;

impl Play<(), View> for CollectBailed {
    ghost then = { collects_bailed };
}

pub struct Look;

impl Play<(), View> for Look {
    ghost then = { looks };
}

pub struct Reading;

impl Split<View> for Reading {
    ghost left = { with_reader };

    ghost right = { λ _. new_reader };
}

impl Join<View> for Reading {
    ghost both = { joined };

    ghost spent = { spent_view };
}
