// The laws of a board's list, and the limit of its shelf.
ghost use Rattle.std.specs.Prelude.{◌≡◌};
ghost use Rattle.generations.specs.Shelves.{most_shelved};
ghost use Rattle.generations.specs.Laws.{NoneIsLawful, BeginningIsLawful, NextIsLawful, AcceptedAsTold, CountAsTold};

use crate::fold::MOST_SHELVED;

/// No notice at all is lawful, and so is a beginning of a lawful list; one notice more is where it goes on lawfully; a
/// board's last accepted tickets and its count are what its marks told.
pub fn board_laws()
    ensures none { NoneIsLawful }
    ensures beginning { BeginningIsLawful }
    ensures next { NextIsLawful }
    ensures accepted { AcceptedAsTold }
    ensures count { CountAsTold }
{}

/// The shelf has room for as many generations as the documents say.
pub fn limits_law()
    ensures { MOST_SHELVED ≡ most_shelved }
{}
