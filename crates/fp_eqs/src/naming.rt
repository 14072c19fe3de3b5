ghost use Rattle.fp_eqs.specs.Equations.{Equations, IsMonotone};

use std::marker::Brand;

/// Names a system in types, for a store that many threads share. A caller picks the system at a
/// call with `Brand`.
pub trait Naming {
    ghost equations: { Equations };

    ghost monotone: { IsMonotone equations };
}

impl Naming for Brand {
    ghost use Rattle.fp_eqs.specs.Demos.{chain, chain-laws};

    ghost equations = { chain 2 };

    ghost monotone = { chain-laws 2 };
}
