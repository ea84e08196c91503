//! Prints the certificate of match of the built-in transform, at two budgets: `certify [fixed|float]`, both kinds where none is named.
#![tactic(auto)]

mod certificate;
mod kind;
mod patch;
mod sheet;
mod words;

use certificate::Certificate;
use engine::budget::Budget;
use kind::Kind;
use number::fixed::Fixed;
use number::float::Float;
use patch::PATCHES;
use std::env;
use transform::fork;

/// One budget that lets every patch come to its end, and one that does not.
const BUDGETS: [u16; 2] = [3, 2];

// The certificates of one number kind, at each budget.
fn certify(rt: &HostRuntime, kind: Kind) -> anyhow::Result<()> {
    for steps in BUDGETS {
        let certificate = Certificate {
            transform: fork(),
            name: "the built-in transform",
            kind,
            budget: Budget::new(steps)?,
        };
        match kind {
            Kind::Fixed => certificate.print::<Fixed>(rt, &PATCHES)?,
            Kind::Float => certificate.print::<Float>(rt, &PATCHES)?,
        }
    }
    Ok(())
}

fn run(rt: &HostRuntime) -> anyhow::Result<()> {
    let mut args = env::args(rt)?;
    let _ = args.next();
    match args.next() {
        Some(kind) => certify(rt, kind.as_str().parse()?),
        None => {
            certify(rt, Kind::Fixed)?;
            certify(rt, Kind::Float)
        }
    }
}

fn main(rt: HostRuntime) -> anyhow::Result<()> {
    run(&rt)
}
