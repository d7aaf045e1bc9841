// What each step on a word tells its seat. The kinds of step are these and no others.
ghost use Rattle.host_words.specs.Views.{origin_by, split_left, split_right, joined, spent};
ghost use Rattle.host_words.specs.Tells.{drew, armed, showed, freed, claimed, looked, sealed, counted};

use crate::View;
use atomic_table::{Join, Play, Split};
use trace_model::Booked;

pub(crate) struct Draw;

impl<S: Booked> Play<Option<S>, View> for Draw {
    ghost then = { drew };
}

pub(crate) struct Look;

impl<S: Booked> Play<Option<S>, View> for Look {
    ghost then = { looked (origin_by S.spec S.before) S.journal S.tags };
}

pub(crate) struct Seal;

impl<S: Booked> Play<Option<S>, View> for Seal {
    ghost then = { sealed S.journal };
}

pub(crate) struct Count;

impl<S: Booked> Play<Option<S>, View> for Count {
    ghost then = { counted };
}

pub(crate) struct Arms;

impl<S: Booked> Play<Option<S>, View> for Arms {
    ghost then = { armed };
}

pub(crate) struct Shows;

impl<S: Booked> Play<Option<S>, View> for Shows {
    ghost then = { showed };
}

pub(crate) struct Frees;

impl<S: Booked> Play<Option<S>, View> for Frees {
    ghost then = { freed };
}

pub(crate) struct Claims;

impl<S: Booked> Play<Option<S>, View> for Claims {
    ghost then = { claimed };
}

pub(crate) struct Cut;

impl Split<View> for Cut {
    ghost left = { split_left };

    ghost right = { split_right };
}

pub(crate) struct Glue;

impl Join<View> for Glue {
    ghost both = { joined };

    ghost spent = { spent };
}
