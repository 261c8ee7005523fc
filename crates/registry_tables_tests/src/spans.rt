//! The rows of reserved numbers.

use crate::steps::Step;
use crate::stores::{Case, check};
use crate::values::Put;
use std::test::Fail;

const ROWS: Step<'static> = Step::Ask(&["SELECT lo, hi FROM spans3 ORDER BY vid, lo"]);

const RESERVED: Put<'static> = Put::Reserve(0x2000, 0x20ff);

const RELEASED: Put<'static> = Put::Release(0x2010, 0x201f);

const CASES: &[Case<'static>] = &[
    (
        &[&[Step::Found, Step::Make(&[RESERVED]), ROWS]],
        &["8192|8447|\n"],
    ),
    (
        &[&[Step::Found, Step::Make(&[RESERVED, RELEASED]), ROWS]],
        &["8192|8207|\n8224|8447|\n"],
    ),
    (
        &[&[
            Step::Found,
            Step::Make(&[RESERVED, RELEASED, Put::Reserve(0x2010, 0x201f)]),
            ROWS,
        ]],
        &["8192|8447|\n"],
    ),
    (
        &[&[
            Step::Found,
            Step::Make(&[Put::Reserve(0x2010, 0x201f), Put::Reserve(0x2000, 0x200f)]),
            ROWS,
        ]],
        &["8192|8223|\n"],
    ),
    (
        &[&[
            Step::Found,
            Step::Make(&[Put::Reserve(0x2000, 0x200e), Put::Reserve(0x2010, 0x201f)]),
            ROWS,
        ]],
        &["8192|8206|\n8208|8223|\n"],
    ),
    (
        &[&[
            Step::Found,
            Step::Make(&[Put::Reserve(1, 0xffff), Put::Release(1, 0xffff)]),
            ROWS,
        ]],
        &[""],
    ),
];

#[test]
fn spans_are_kept_maximal(rt: HostRuntime) -> Result<(), Fail> {
    check(&rt, CASES)
}
