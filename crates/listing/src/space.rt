// The space of the census program.
ghost use Rattle.std.specs.Prelude.{◌≡◌};
ghost use Rattle.model.specs.Census.{census_params};

use model::Params;
use native_ms::classes;

pub const BASE: usize = 16384;

pub const BLOCK_BYTES: usize = 4096;

pub const BLOCKS: usize = 4;

// "4 blocks of 4,096, base 16384, MIN = MAX = 8, unified, no offsets, L 0."
#[tactic(auto, unfolding(model::specs::Census::census_params))]
pub fn params() -> Params
    ensures { result ≡ census_params }
{
    Params {
        base: BASE,
        bytes: BLOCK_BYTES,
        blocks: BLOCKS,
        min: 8,
        max: 8,
        offsets: false,
        unified: true,
        lower: 0,
        eager: false,
        rows: classes::no_rows(),
        count: 0,
    }
}
