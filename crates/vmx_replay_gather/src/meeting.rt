//! The ends of all links meet.
ghost use Rattle.std.specs.Prelude.{◌≡◌, ◌++◌, map, IfOk, OnOk};
ghost use Rattle.vmx_link.specs.Ends.{in_view, facts_view};
ghost use Rattle.vmx_replay_start.specs.Linking.{outs_view, ins_view};
ghost use Rattle.vmx_replay_gather.specs.Records.{link_by};
ghost use Rattle.vmx_replay_gather.specs.Meeting.{ComeInOrder, AreOfLinks, HasFirstAt, TakesFirst};

use std::alloc::{AllocError, Global};
use vmx_io::List;
use vmx_link::{LinkFacts, LinkIn, LinkOut, meet};

/// The ends of all links: those that lead out, by sender and then target, and those that lead in, by port and then sender.
#[derive(Drop)]
pub(crate) struct LinkEnds {
    pub(crate) out: List<LinkOut>,
    pub(crate) input: List<List<LinkIn>>,
}

/// Lets both ends of each link meet: the ends out one after the other, each with the first end that is left at its target. The facts
/// stand in the order of the ends out.
pub(crate) fn meet_all(alloc: Global, ends: LinkEnds) -> Result<List<LinkFacts>, AllocError>
    requires order { ComeInOrder (outs_view ends.out) (map ins_view ends.input) }
    requires links { AreOfLinks (map ins_view ends.input) (outs_view ends.out) (map ins_view ends.input) }
    ensures met { IfOk result (λ ls. map facts_view ls ≡ map (link_by (map ins_view ends.input)) (outs_view ends.out)) }
{
    let LinkEnds { mut out, mut input } = ends;
    let mut links = List::new(alloc);
    while let Some(end) = out.pop_first() {
        let other = take_first(&mut input, end.to());
        links.push(meet(end, other))?;
    }
    Ok(links)
}

/// Takes the first end at a port out.
fn take_first(input: &mut List<List<LinkIn>>, port: u32) -> LinkIn
    requires there { HasFirstAt port (map ins_view input.old) }
    ensures taken { TakesFirst port (in_view result) (map ins_view input.old) (map ins_view input.new) }
{
    match input.at_mut(port as usize).pop_first() {
        Some(end) => end,
        None => unreachable!(),
    }
}

/// Puts ends behind others.
pub(crate) fn append(ends: &mut List<LinkOut>, more: List<LinkOut>) -> Result<(), AllocError>
    ensures appended { OnOk result (ends.new ≡ ends.old ++ more) }
{
    let mut more = more;
    while let Some(end) = more.pop_first() {
        ends.push(end)?;
    }
    Ok(())
}
