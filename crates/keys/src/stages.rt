ghost use Rattle.std.specs.Prelude.{◌≡◌, [], take};

use crate::stage::KeyStage;
use std::marker::Model;

// A list of up to seven stages, with no heap. A key is copied, so this is, and the ArrayVec of the kit is not.
#[derive(Clone, Copy, PartialEq, Eq, Debug)]
pub(crate) struct Stages {
    held: [KeyStage; 7],
    count: usize,
}

impl Model for Stages {
    ghost use Rattle.std.specs.Prelude.{List, length, take};
    ghost use Rattle.keys.specs.declared.stage.KeyStage.{KeyStage};
    ghost use Rattle.keys.specs.StageLists.{RestsPast, padded, count_is, padded-take};

    ghost Value = { List KeyStage };

    ghost view = { λ s. take s.count s.held };

    ghost invariant = { λ s. RestsPast s.count s.held };

    ghost inverse = { λ stages. record { held = padded stages; count = length stages } };

    ghost inverse_ok = { λ s h i. record { held = padded-take h i; count = count_is h i } };
}

impl Stages {
    ghost use Rattle.keys.specs.StageLists.{padded};

    pub(crate) fn new() -> Self
        ensures { result ≡ [] }
    {
        Stages {
            held: [KeyStage::AT_REST; 7],
            count: 0,
        }
    }

    // The first seven: all stages of a key that passed its tests.
    pub(crate) fn from_slice(stages: &[KeyStage]) -> Self
        ensures { result ≡ take 7 stages.now }
    {
        let count = stages.len().min(7);
        let mut held = [KeyStage::AT_REST; 7];
        held[..count].copy_from_slice(&stages[..count]);
        Stages { held, count }
    }

    pub(crate) fn as_slice(&self) -> &[KeyStage]
        ensures { result.now ≡ self.now }
    {
        &self.held[..self.count]
    }

    // All seven places: those past the list rest.
    pub(crate) fn places(&self) -> [KeyStage; 7]
        ensures { result ≡ padded self.now }
    {
        self.held
    }
}
