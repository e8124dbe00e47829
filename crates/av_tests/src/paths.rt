//! Names for the files of tests.

use std::env;
use std::path::PathBuf;
use std::test::Fail;
use std::time::{Duration, SystemTime, UNIX_EPOCH};

/// A file on the host that no other test has, if no other has this name.
pub fn path_of_test(rt: &HostRuntime, name: &str) -> Result<PathBuf, Fail> {
    let a = rt.alloc();
    let now = SystemTime::now(rt)?
        .duration_since(UNIX_EPOCH)
        .unwrap_or(Duration::ZERO);
    let name = format!(in a; "{name}.{}", now.as_nanos())?;
    Ok(env::temp_dir(rt)?.join(a, name.as_str())?)
}
