//! The rule of the table, and the facts that each step gives the seat that makes it.
ghost use Rattle.std.specs.Prelude.{vec_len};
ghost use Rattle.shared_capture.specs.Start.{opening_pair};
ghost use Rattle.shared_capture.specs.Rule.{Kept};
ghost use Rattle.shared_capture.specs.Steps.{phase_loaded, value_stored, mark_stored, phase_stored};
ghost use Rattle.shared_capture.specs.Steps.{looked, mark_fetched, value_loaded, finished};
ghost use Rattle.shared_capture.specs.Meeting.{met, front_part, back_part, paired};
ghost use Rattle.shared_capture.specs.declared.view.View.TheVariants.{Spent};

use crate::method::Method;
use crate::table::Opening;
use crate::view::View;
use atomic_table::{Join, Play, Split, TableRule};
use std::marker::PhantomData;

/// The rule of the two seats of a method.
pub struct Rule<M> {
    marker: PhantomData<M>,
}

impl<M: Method> TableRule<(), View, Opening> for Rule<M> {
    ghost holds = { λ key. Kept M.KIND (vec_len key.live) };

    ghost first = { λ key. opening_pair key.live.items key.marks.items };
}

pub(crate) struct LoadPhase;

impl Play<(), View> for LoadPhase {
    ghost then = { phase_loaded };
}

pub(crate) struct StoreValue;

impl Play<(), View> for StoreValue {
    ghost then = { value_stored };
}

pub(crate) struct StoreMark;

impl Play<(), View> for StoreMark {
    ghost then = { mark_stored };
}

pub(crate) struct StorePhase<M> {
    marker: PhantomData<M>,
}

impl<M: Method> Play<(), View> for StorePhase<M> {
    ghost then = { phase_stored M.KIND };
}

pub(crate) struct Look;

impl Play<(), View> for Look {
    ghost then = { looked };
}

pub(crate) struct FetchMark;

impl Play<(), View> for FetchMark {
    ghost then = { mark_fetched };
}

pub(crate) struct LoadValue;

impl Play<(), View> for LoadValue {
    ghost then = { value_loaded };
}

pub(crate) struct Finish;

impl Play<(), View> for Finish {
    ghost then = { finished };
}

pub(crate) struct Meet<M> {
    marker: PhantomData<M>,
}

impl<M: Method> Play<(), View> for Meet<M> {
    ghost then = { met M.KIND };
}

/// Parts a pair of views.
pub(crate) struct Part;

impl Split<View> for Part {
    ghost left = { front_part };

    ghost right = { back_part };
}

/// Moves a whole view to a new seat.
pub(crate) struct Move;

impl Split<View> for Move {
    ghost left = { λ v. Spent };

    ghost right = { λ v. v };
}

/// Unites two views.
pub(crate) struct Rejoin;

impl Join<View> for Rejoin {
    ghost both = { paired };

    ghost spent = { Spent };
}
