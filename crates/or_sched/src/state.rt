// Where a reader stands.
ghost use Rattle.std.specs.Prelude.{◌≡◌};
ghost use Rattle.std.proofs.Props.{props};
ghost use Rattle.or_sched.specs.Places.{AreLimits, IsSound, IsSound-prop, AreLimits-prop};
ghost use Rattle.or_sched.specs.HeadPlaces.{HeadSound, KnownSound, HeadSound-prop, KnownSound-prop};
ghost use Rattle.or_sched.specs.declared.head.HeadPlace.{HeadPlace};

use crate::head::{HeadPlace, Known};
use crate::places::{Limits, Place};
use crate::recording::RecFault;

/// In the head, behind so many bytes.
#[derive(Clone, Copy)]
pub(crate) struct Heading {
    pub(crate) known: Known,
    pub(crate) place: HeadPlace,
    pub(crate) count: u64,
    ghost sound: { HeadSound place } by { HeadSound-prop place },
    ghost known_sound: { KnownSound known place } by { KnownSound-prop known place },
    ghost more: { place ≡ HeadPlace.Behind → ⊥ } by { Prim.hlevel props },
}

/// Behind the head, and behind so many bytes of the whole text.
#[derive(Clone, Copy)]
pub(crate) struct Body {
    pub(crate) limits: Limits,
    pub(crate) place: Place,
    pub(crate) count: u64,
    ghost limits_sound: { AreLimits limits } by { AreLimits-prop limits },
    ghost sound: { IsSound limits place } by { IsSound-prop limits place },
}

#[derive(Clone, Copy)]
pub(crate) enum State {
    Head(Heading),
    Body(Body),
    Failed(RecFault),
}
