//! Admissible specifications.
ghost use Rattle.std.specs.Prelude.{◌≡◌};
ghost use Rattle.rules.specs.Admissible.{IsAdmissible, most_slots};
ghost use Rattle.pagespec.specs.Items.{groups_of};

use crate::item::Item;
use std::marker::Model;

/// A specification that passed every check. It has the modulo and, for each sheet of a block, the items on that sheet. Contracts see it as the
/// meaning of a text. The invariant of this type says that there is a text with this meaning.
#[derive(Debug, Drop)]
pub struct Spec {
    modulo: u32,
    groups: Vec<Vec<Item>>,
}

impl Model for Spec {
    ghost use Rattle.rules.specs.Specification.{Spec};

    ghost Value = { Spec };

    ghost use Rattle.rules.specs.Admissible.{IsAdmissible, most_slots};
    ghost use Rattle.pagespec.specs.Items.{groups_of};

    ghost view = { λ s. record { modulo = s.modulo; groups = groups_of s.groups.items } };

    ghost invariant = { λ s.
        IsAdmissible most_slots (record { modulo = s.modulo; groups = groups_of s.groups.items }) };
}

impl Spec {
    /// The specification with this modulo and these groups.
    pub(crate) fn new(modulo: u32, groups: Vec<Vec<Item>>) -> Spec
        requires { IsAdmissible most_slots (record { modulo = modulo; groups = groups_of groups.items }) }
        ensures { result ≡ record { modulo = modulo; groups = groups_of groups.items } }
    {
        Spec { modulo, groups }
    }

    /// The number of pages in a block, from 1 to 99,999.
    pub fn modulo(&self) -> u32
        ensures value { result ≡ self.now.modulo }
        ensures admissible { IsAdmissible most_slots self.now }
    {
        self.modulo
    }

    /// The groups, in order. Each group is one sheet of every block. Its items are in the order in which they are drawn.
    pub fn groups(&self) -> &[Vec<Item>]
        ensures items { groups_of result.now ≡ self.now.groups }
        ensures admissible { IsAdmissible most_slots self.now }
    {
        self.groups.as_slice()
    }
}
