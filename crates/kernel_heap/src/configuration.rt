// Whether a machine can be made from a configuration.
ghost use Rattle.std.specs.Prelude.{◌↔◌, IsTrue, IfErr, OnOk};
ghost use Rattle.kernel_heap.specs.Config.{IsGoodConfig, IsConfigRefused};
ghost use Rattle.paged_systems.specs.Window.{IsHeapWindow};

use crate::run_error::RunError;
use dlmalloc::is_granularity;
use machine_model::Config;

/// The bytes of a page.
const PAGE: u64 = 4096;

/// The end of the lower canonical half, in bytes.
const LOWER_END: u64 = 1 << 47;

/// The first address of the upper canonical half.
const UPPER_START: u64 = 0xffff_8000_0000_0000;

/// Whether a window of `pages` pages from an address may be used.
fn is_good_window(base: u64, pages: u64) -> bool
    ensures { IsTrue result ↔ IsHeapWindow base pages }
{
    let Some(bytes) = pages.checked_mul(PAGE) else {
        return false;
    };
    // A window with the last page would end at 2^64.
    let Some(end) = base.checked_add(bytes) else {
        return false;
    };
    pages > 0 && base % PAGE == 0 && PAGE <= base && (end <= LOWER_END || UPPER_START <= base)
}

/// Finds out why no machine can be made from the configuration. It takes no memory.
pub(crate) fn check(config: &Config) -> Result<(), RunError>
    ensures good { OnOk result (IsGoodConfig config.now) }
    ensures refused { IfErr result (λ error. IsConfigRefused config.now error) }
{
    if !is_good_window(config.base, config.pages) {
        return Err(RunError::BadWindow);
    }
    if !is_granularity(config.granularity) {
        return Err(RunError::BadGranularity);
    }
    if config.frames == 0 {
        return Err(RunError::TooFewFrames);
    }
    Ok(())
}
