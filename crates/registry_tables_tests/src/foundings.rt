//! A store is founded once, and is read only if it names the newest schema.

use crate::steps::Step;
use crate::stores::check;
use std::test::Fail;

const STEPS: &[Step<'static>] = &[
    Step::State,
    Step::TryToFound,
    Step::State,
    Step::TryToFound,
    Step::State,
    Step::Open,
    Step::Run("UPDATE meta SET version = 6"),
    Step::Open,
];

const STATES: &str = "true false None
Ok(())
false true Some(5)
Err(Store)
false true Some(5)
opened
Foreign
";

#[test]
fn a_store_is_founded_once(rt: HostRuntime) -> Result<(), Fail> {
    check(&rt, &[(&[STEPS], &[STATES])])
}
