//! The links between all ports.
ghost use Rattle.std.specs.Prelude.{◌<◌, ◌≤◌, length, IfOk, OnOk};
ghost use Rattle.vmx_switch.specs.declared.answer.TheConstants.{MAX_PORTS};
ghost use Rattle.vmx_replay_start.specs.Linking.{IsJoined, IsJoinedIfOther, AreLinked, AreNone, IsTaken, links_view, outs_view, ins_view};

use std::alloc::{AllocError, Global};
use std::mem;
use vmx_io::List;
use vmx_link::{LinkIn, LinkOut, pair};
use vmx_model::LINK_CAPACITY;

/// The ends of links by port: those of the links from it, and those of the links to it.
#[derive(Drop)]
pub(crate) struct Links {
    out: List<List<LinkOut>>,
    input: List<List<LinkIn>>,
}

/// A link from each of so many ports to each other; its two ends stand at their ports, behind those of lower ports.
pub(crate) fn links_between(alloc: Global, ports: u32) -> Result<Links, AllocError>
    requires few { ports ≤ MAX_PORTS }
    ensures linked { IfOk result (λ l. AreLinked ports (links_view l)) }
{
    let mut links = no_links(alloc, ports)?;
    for from in 0..ports {
        for to in 0..ports {
            join_if_other(alloc, &mut links, from, to)?;
        }
    }
    Ok(links)
}

/// No link between so many ports.
fn no_links(alloc: Global, ports: u32) -> Result<Links, AllocError>
    ensures none { IfOk result (λ l. AreNone ports (links_view l)) }
{
    let mut out = List::new(alloc);
    let mut input = List::new(alloc);
    for _port in 0..ports {
        out.push(List::new(alloc))?;
        input.push(List::new(alloc))?;
    }
    Ok(Links { out, input })
}

/// A link from a port to another, where they differ.
fn join_if_other(alloc: Global, links: &mut Links, from: u32, to: u32) -> Result<(), AllocError>
    requires from { from < length links.old.out }
    requires to { to < length links.old.input }
    ensures joined { OnOk result (IsJoinedIfOther from to (links_view links.old) (links_view links.new)) }
{
    if from != to {
        join(alloc, links, from, to)?;
    }
    Ok(())
}

/// A link from a port to another.
fn join(alloc: Global, links: &mut Links, from: u32, to: u32) -> Result<(), AllocError>
    requires from { from < length links.old.out }
    requires to { to < length links.old.input }
    ensures joined { OnOk result (IsJoined from to (links_view links.old) (links_view links.new)) }
{
    let (out, input) = pair(alloc, from, to, LINK_CAPACITY as u32)?;
    links.out.at_mut(from as usize).push(out)?;
    links.input.at_mut(to as usize).push(input)?;
    Ok(())
}

/// Takes the ends at a port out.
pub(crate) fn take_ends(
    alloc: Global,
    links: &mut Links,
    port: u32,
) -> (List<LinkOut>, List<LinkIn>)
    requires out { port < length links.old.out }
    requires input { port < length links.old.input }
    ensures taken { IsTaken port (outs_view result.0) (ins_view result.1) (links_view links.old) (links_view links.new) }
{
    let out = mem::replace(links.out.at_mut(port as usize), List::new(alloc));
    let input = mem::replace(links.input.at_mut(port as usize), List::new(alloc));
    (out, input)
}
