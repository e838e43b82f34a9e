// Which board it is.
use std::marker::Brand;

/// Which board it is. Each call of a service picks it.
pub trait BoardName {
    ghost use Rattle.generations.specs.Beginnings.{Opening};

    ghost opening: { Opening };
}

impl BoardName for Brand {
    ghost use Rattle.std.specs.Prelude.{[]};

    ghost opening = { record { book = record { number = 0; log_name = 0; cells_name = 0 }; starts = []; count = 0 } };
}
