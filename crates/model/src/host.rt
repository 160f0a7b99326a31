// What a host gives as numbers.
ghost use Rattle.std.specs.Prelude.{◌≡◌};
ghost use Rattle.model.specs.Exports.{given_of};

use crate::{Given, Params};

// The rows travel beside, as bytes.
impl From<Params> for Given {
    ghost from_gives = { λ p g. g ≡ given_of p };

    #[tactic(auto, unfolding(crate::specs::Base::flag))]
    fn from(p: Params) -> Given {
        Given {
            base: p.base,
            bytes: p.bytes,
            blocks: p.blocks,
            min: p.min,
            max: p.max,
            offsets: usize::from(p.offsets),
            unified: usize::from(p.unified),
            lower: p.lower,
            eager: usize::from(p.eager),
        }
    }
}
