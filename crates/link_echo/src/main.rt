//! Sends each text of each link back: `link_echo ADDRESS LINKS`.
#![tactic(auto)]

use anyhow::{Context, Result, bail};
use link_io::{Accepted, Got, Link, Listener, Sent, WebListener};
use std::alloc::Global;
use std::rt::Env;
use std::thread::{JoinHandle, Threads};
use std::{env, thread};

/// How many quiet looks in a row end a link.
const MOST_QUIET: u32 = 200;

/// Why a link ended.
#[derive(Clone, Copy, Debug)]
enum End {
    Closed,
    Fault,
    Idle,
    Memory,
}

/// What a link saw.
#[derive(Clone, Copy, Debug, Drop)]
struct Tally {
    end: End,
    texts: u64,
    longest: usize,
    quiets: u64,
    faults: u64,
}

/// Sends each text back, until the link ends or is quiet for too long.
fn echo<K: Link>(alloc: Global, link: &mut K, tally: &mut Tally) -> End {
    let mut quiet_looks = 0u32;
    for _ in 0..u64::MAX {
        match link.receive(alloc) {
            Got::Text(text) => {
                quiet_looks = 0;
                tally.texts = tally.texts.saturating_add(1);
                tally.longest = tally.longest.max(text.len());
                match link.send(alloc, text.as_slice()) {
                    Sent::Whole => {}
                    Sent::Failed => return End::Fault,
                    Sent::OutOfMemory => return End::Memory,
                }
            }
            Got::Quiet => {
                quiet_looks = quiet_looks.saturating_add(1);
                if quiet_looks > MOST_QUIET {
                    return End::Idle;
                }
            }
            Got::Closed => return End::Closed,
            Got::Failed => return End::Fault,
            Got::OutOfMemory => return End::Memory,
        }
    }
    End::Idle
}

/// Serves one link to its end.
fn serve<K: Link>(alloc: Global, mut link: K) -> Tally {
    let mut tally = Tally {
        end: End::Idle,
        texts: 0,
        longest: 0,
        quiets: 0,
        faults: 0,
    };
    tally.end = echo(alloc, &mut link, &mut tally);
    link.close();
    tally.quiets = link.quiets();
    tally.faults = link.faults();
    tally
}

fn words(rt: &(impl Env + AllocGlobal)) -> Result<(String, u64)> {
    let mut args = env::args(rt)?;
    let _program = args.next();
    let address = args.next().context("no address")?;
    let links = args.next().context("no number of links")?;
    Ok((address, links.parse::<u64>().context("a number of links")?))
}

/// Serves each link in a thread of its own, until the listener stops.
fn accept_links(
    rt: &impl Threads,
    alloc: Global,
    listener: &mut WebListener<HostRuntime>,
) -> Result<Vec<JoinHandle<Tally>>> {
    let mut running = Vec::new(alloc);
    for _ in 0..u64::MAX {
        match listener.accept(alloc) {
            Accepted::Link(link) => {
                let Ok(child) = thread::spawn(rt, move || serve(alloc, link)) else {
                    bail!("no thread");
                };
                running.push(child)?;
            }
            Accepted::Stop => return Ok(running),
            Accepted::Failed => bail!("the listener failed"),
            Accepted::OutOfMemory => bail!("no memory"),
        }
    }
    Ok(running)
}

fn main(rt: HostRuntime) -> Result<()> {
    let (address, links) = words(&rt)?;
    let mut listener = WebListener::bind(rt.clone()?, address.as_str(), Some(links));
    println!(rt; "listening")?;
    let mut served = 0u64;
    for child in accept_links(&rt, rt.alloc(), &mut listener)? {
        let Tally {
            end,
            texts,
            longest,
            quiets,
            faults,
        } = child.join(&rt);
        println!(rt; "{end:?}: {texts} texts, longest {longest}, {quiets} quiet, {faults} faults")?;
        served = served.saturating_add(1);
    }
    println!(rt; "served {served}")?;
    Ok(())
}
