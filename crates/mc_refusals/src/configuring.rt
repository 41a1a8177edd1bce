//! Configurations of one stripe.
ghost use Rattle.std.specs.Prelude.{◌≡◌, IfOk, IfSome, length};
ghost use Rattle.mc_item.specs.Config.{IsBounded, IsSound};

use mc_item::{Config, NoMemory, Numbers};
use std::alloc::Global;

// One stripe, and for each of these sizes a class of four chunks.
fn config_of(alloc: Global, sizes: &[u64]) -> Result<Config, NoMemory>
    ensures { IfOk result (λ config. config.sizes ≡ sizes.now) }
{
    let chunks = vec![in alloc; 4; sizes.len()]?;
    let sizes = Vec::from_slice(alloc, sizes)?;
    let usual = Config::usual(alloc, 1)?;
    Ok(Config {
        sizes: Numbers::from_vec(sizes),
        chunks: Numbers::from_vec(chunks),
        ..usual
    })
}

fn sound_config(alloc: Global, sizes: &[u64]) -> Option<Config>
    ensures sound { IfSome result IsSound }
    ensures bounded { IfSome result IsBounded }
    ensures sizes { IfSome result (λ config. config.sizes ≡ sizes.now) }
{
    config_of(alloc, sizes).ok()?.check().ok()
}

/// Returns the configuration of a stripe and a class, of 200 bytes.
pub(crate) fn world_config(alloc: Global) -> Option<Config>
    ensures sound { IfSome result IsSound }
    ensures bounded { IfSome result IsBounded }
{
    sound_config(alloc, &[200])
}

/// Returns the configuration of a store: two classes, of 100 and 200 bytes.
pub(crate) fn store_config(alloc: Global) -> Option<Config>
    ensures sound { IfSome result IsSound }
    ensures bounded { IfSome result IsBounded }
    ensures classes { IfSome result (λ config. length config.sizes ≡ 2) }
{
    sound_config(alloc, &[100, 200])
}
