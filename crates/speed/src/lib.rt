// Entry points for the benchmark in C, over sheets of 1024 by 1024 pixels. C knows no Result, so each answers one number.
#![tactic(auto)]

ghost use Rattle.std.specs.Prelude.{◌≡◌, ℕ, Bool, Result};
ghost use Rattle.sheet.specs.declared.refusal.Refusal.{Refusal as Refused};
ghost use Rattle.sheet.specs.Refusals.{Answers, passed};
ghost use Rattle.erosion.specs.Memory.{needs_all, needs_memory};
ghost use Rattle.erosion.specs.Rounds.{Rounded, Settles, CountsPhases};
ghost use Rattle.metric.specs.Metrics.{chamfer as chamfer_model, squared_euclidean};
ghost use Rattle.speed.specs.Codes.{full, code_of, count_of};

use erosion::{directional, parallel, raster};
use metric::chamfer::Chamfer;
use metric::squared_euclidean::SquaredEuclidean;
use metric::weights::Weights;
use sheet::refusal::Refusal;
use sheet::size::Size;

const FULL: Size = Size {
    width: 1024,
    height: 1024,
};

// A parallel round: 0 where it altered nothing, 1 where it did, and one more than its number for a refusal.
#[unsafe(no_mangle)]
pub extern "C" fn speed_round(keys: &[u64], spare: &mut [u64], straight: u32, diagonal: u32) -> u32
    ensures { (a : Result Bool Refused) × (result ≡ code_of a) × Answers (needs_memory full keys.now (needs_memory full spare.old passed)) (spare.new ≡ spare.old) (Rounded full straight diagonal keys.now spare.old spare.new) a }
{
    let weights = Weights { straight, diagonal };
    match parallel::round(FULL, keys, spare, weights) {
        Ok(altered) => u32::from(altered),
        Err(refusal) => u32::from(refusal) + 1,
    }
}

// A count, and for a refusal the greatest number less its own.
fn coded(counted: Result<u64, Refusal>) -> u64
    ensures { result ≡ count_of counted }
{
    match counted {
        Ok(count) => count,
        Err(refusal) => u64::MAX - u64::from(u32::from(refusal)),
    }
}

// A settling by the raster order and the chamfer.
#[unsafe(no_mangle)]
pub extern "C" fn speed_raster(picture: &[u8], keys: &mut [u64], spare: &mut [u64]) -> u64
    ensures { (a : Result ℕ Refused) × (result ≡ count_of a) × Answers (needs_all full picture.now keys.old spare.old passed) ((keys.new ≡ keys.old) × (spare.new ≡ spare.old)) (λ count. Settles chamfer_model full picture.now keys.old keys.new spare.old spare.new × (count ≡ 2)) a }
{
    coded(raster::settle(FULL, &Chamfer, picture, keys, spare))
}

// A settling by the directional order and the squared Euclidean metric.
#[unsafe(no_mangle)]
pub extern "C" fn speed_directional(picture: &[u8], keys: &mut [u64], spare: &mut [u64]) -> u64
    ensures { (a : Result ℕ Refused) × (result ≡ count_of a) × Answers (needs_all full picture.now keys.old spare.old passed) ((keys.new ≡ keys.old) × (spare.new ≡ spare.old)) (λ count. Settles squared_euclidean full picture.now keys.old keys.new spare.old spare.new × CountsPhases squared_euclidean full picture.now count) a }
{
    coded(directional::settle(FULL, &SquaredEuclidean, picture, keys, spare))
}
