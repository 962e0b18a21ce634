//! Benchmarks. Each prints ratios within one run: how its time grows with its work, what threads take
//! against one, or one way against a plain one. Without a word the program names them.
#![tactic(auto)]

mod bridging;
mod copying;
mod filling;
mod racing;
mod report;
mod stopwatch;
mod tagging;
mod teams;

use std::{env, io};

fn main(rt: HostRuntime) -> io::Result<()> {
    let alloc = rt.alloc();
    let mut words = env::args(&rt)?.skip(1);
    let Some(word) = words.next() else {
        println!(rt; "bridge")?;
        println!(rt; "fills")?;
        println!(rt; "patches")?;
        println!(rt; "tags")?;
        println!(rt; "threads")?;
        return Ok(());
    };
    if word.as_str() == "bridge" {
        return bridging::print(&rt, alloc);
    }
    if word.as_str() == "fills" {
        return filling::print(&rt, alloc);
    }
    if word.as_str() == "patches" {
        return copying::print(&rt, alloc);
    }
    if word.as_str() == "tags" {
        return tagging::print(&rt, alloc);
    }
    if word.as_str() == "threads" {
        return racing::print(&rt, alloc);
    }
    println!(rt; "no such benchmark")?;
    Ok(())
}
