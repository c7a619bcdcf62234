//! Benchmarks of the program's crates. Without words each runs once on a small input. With the name
//! of one and a number it runs that many times on a large input, which it makes itself, so that the
//! cost of a run is the difference between two numbers; for a script the number is that of its lines
//! (docs/PERFORMANCE.md).
#![tactic(auto)]

mod firmware;
mod matching;
mod policies;
mod proofs;
mod records;
mod scripts;
mod trees;

use std::env;

fn main(rt: HostRuntime) -> anyhow::Result<()> {
    let alloc = rt.alloc();
    let mut words = env::args(&rt)?;
    drop(words.next());
    let Some(name) = words.next() else {
        for name in records::NAMES {
            let count = records::run(alloc, name, records::SMALL, 1)?;
            println!(rt; "{name} {count}")?;
        }
        for name in firmware::NAMES {
            let count = firmware::run(alloc, name, firmware::SMALL, 1)?;
            println!(rt; "{name} {count}")?;
        }
        for name in trees::NAMES {
            let count = trees::run(&rt, name, trees::SMALL, 1)?;
            println!(rt; "{name} {count}")?;
        }
        for name in matching::NAMES {
            let count = matching::run(alloc, name, matching::SMALL, 1)?;
            println!(rt; "{name} {count}")?;
        }
        for name in scripts::NAMES {
            let count = scripts::run(alloc, name, scripts::SMALL)?;
            println!(rt; "{name} {count}")?;
        }
        for name in policies::NAMES {
            let count = policies::run(alloc, name, policies::SMALL, 1)?;
            println!(rt; "{name} {count}")?;
        }
        for name in proofs::NAMES {
            let count = proofs::run(alloc, name, proofs::SMALL, 1)?;
            println!(rt; "{name} {count}")?;
        }
        return Ok(());
    };
    let rounds = words.next().and_then(|word| word.parse::<u32>().ok());
    let rounds = rounds.unwrap_or(1);
    let count = if name.as_str().starts_with("firmware") {
        firmware::run(alloc, name.as_str(), firmware::LARGE, rounds)?
    } else if name.as_str().starts_with("tree") {
        trees::run(&rt, name.as_str(), trees::LARGE, rounds)?
    } else if name.as_str().starts_with("explain") || name.as_str().starts_with("foresee") {
        matching::run(alloc, name.as_str(), matching::LARGE, rounds)?
    } else if name.as_str().starts_with("script") {
        scripts::run(alloc, name.as_str(), rounds)?
    } else if name.as_str().starts_with("policy") {
        policies::run(alloc, name.as_str(), policies::LARGE, rounds)?
    } else if name.as_str().starts_with("joint")
        || name.as_str().starts_with("prove")
        || name.as_str().starts_with("check")
    {
        proofs::run(alloc, name.as_str(), proofs::LARGE, rounds)?
    } else {
        records::run(alloc, name.as_str(), records::LARGE, rounds)?
    };
    println!(rt; "{name} {count}")?;
    Ok(())
}
