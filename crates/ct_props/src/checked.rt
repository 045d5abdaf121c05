ghost use Rattle.std.specs.Prelude.{IfOk, IfErr};
ghost use Rattle.ct_props.specs.PropsOf.{HasChecked};
ghost use Rattle.ct_props.specs.Refusal.{HasReason};
ghost use Rattle.ct_props.specs.FirstRefused.{IsFirstRefused};

use crate::PropFault;
use crate::numbers::{processors, seconds, skip_code};
use crate::patterns::{groups, patterns};
use ct_base::{List, Pair};
use ct_groups::Groups;
use ct_regex::Regex;
use std::alloc::Global;

/// The properties whose values can be refused.
#[derive(Drop)]
pub struct Checked {
    pub processors: u32,
    pub fail: List<Regex>,
    pub pass: List<Regex>,
    pub skip: List<Regex>,
    pub skip_code: Option<i32>,
    pub timeout: Option<u64>,
    pub cost: Option<u64>,
    pub groups: Groups,
}

impl Checked {
    /// Reads the keys in byte order, so the least bad one is found first.
    pub fn of(alloc: Global, props: &[Pair]) -> Result<Checked, PropFault>
        ensures ok { IfOk result (λ checked. HasChecked props.now checked) }
        ensures bad { IfErr result (λ fault. IsFirstRefused props.now fault) }
        ensures reason { IfErr result HasReason }
    {
        let cost = seconds(alloc, props, b"COST")?;
        let fail = patterns(alloc, props, b"FAIL_REGULAR_EXPRESSION")?;
        let pass = patterns(alloc, props, b"PASS_REGULAR_EXPRESSION")?;
        let processors = processors(alloc, props, b"PROCESSORS")?;
        let groups = groups(alloc, props, b"RESOURCE_GROUPS")?;
        let skip = patterns(alloc, props, b"SKIP_REGULAR_EXPRESSION")?;
        let skip_code = skip_code(alloc, props, b"SKIP_RETURN_CODE")?;
        let timeout = seconds(alloc, props, b"TIMEOUT")?;
        Ok(Checked {
            processors,
            fail,
            pass,
            skip,
            skip_code,
            timeout,
            cost,
            groups,
        })
    }
}
