//! What each step tells. These types are for the proofs alone.
ghost use Rattle.std.specs.Prelude.{[]};
ghost use Rattle.ap_board.specs.Rule.{view_of, ended_view, one_more, taking_in};
ghost use Rattle.ap_board.specs.Plays.{opened, offers, takes_it, reclaims, stops, finishes, looks, collects, shows};

use crate::rule::Fits;
use crate::view::{Content, View};
use atomic_table::{Join, Play, Split};

pub(crate) struct Open;

impl<P, O> Play<Option<Content<P, O>>, View<P, O>> for Open {
    ghost then = { opened };
}

pub(crate) struct Offer;

impl<P, O> Play<Option<Content<P, O>>, View<P, O>> for Offer {
    ghost then = { offers };
}

pub(crate) struct Take;

impl<P, O> Play<Option<Content<P, O>>, View<P, O>> for Take {
    ghost then = { takes_it };
}

pub(crate) struct Reclaim;

impl<P, O> Play<Option<Content<P, O>>, View<P, O>> for Reclaim {
    ghost then = { reclaims };
}

pub(crate) struct Stop;

impl<P, O> Play<Option<Content<P, O>>, View<P, O>> for Stop {
    ghost then = { stops };
}

pub(crate) struct Finish;

impl<P, O> Play<Option<Content<P, O>>, View<P, O>> for Finish {
    ghost then = { finishes };
}

pub(crate) struct Look;

impl<P, O> Play<Option<Content<P, O>>, View<P, O>> for Look {
    ghost then = { looks };
}

pub(crate) struct Collect;

impl<P: Fits<O>, O> Play<Option<Content<P, O>>, View<P, O>> for Collect {
    ghost then = { collects P.fits };
}

pub(crate) struct Show;

impl<P: Fits<O>, O> Play<Option<Content<P, O>>, View<P, O>> for Show {
    ghost then = { shows P.fits P.cause };
}

// The first seat makes one more.
pub(crate) struct Another;

impl<P, O> Split<View<P, O>> for Another {
    ghost left = { one_more };

    ghost right = { λ v. view_of v.made v.pads 0 [] [] };
}

// A seat's whole view is cut off.
pub(crate) struct Cut;

impl<P, O> Split<View<P, O>> for Cut {
    ghost left = { λ v. ended_view };

    ghost right = { λ v. v };
}

// A seat's view gets the calls of another.
pub(crate) struct TakeIn;

impl<P, O> Join<View<P, O>> for TakeIn {
    ghost both = { taking_in };

    ghost spent = { ended_view };
}
