//! How many moves every execution makes at most: the states of a search have ranks, which fall along each stint.

ghost use Rattle.std.specs.Prelude.{◌≡◌, true, length, IfSome};
ghost use Rattle.edi_explore.specs.Links.{AreBelow, FallAlongAll, FallsAlong, HaveRanks};

use crate::states::Link;
use std::alloc::{AllocError, Global};

/// The links from where those of this state begin on.
fn links_from<'a>(links: &'a [Link], starts: &[usize], state: u32) -> &'a [Link] {
    let Some(start) = starts.get(state as usize) else {
        return &links[..0];
    };
    if *start > links.len() {
        return &links[..0];
    }
    &links[*start..]
}

/// Where the links of each of so many states begin. Those of one state are side by side.
fn starts_of(alloc: Global, links: &[Link], count: usize) -> Result<Vec<usize>, AllocError> {
    let mut starts = vec![in alloc; 0; count]?;
    let mut before = None;
    for index in 0..links.len() {
        let from = links[index].from;
        if before == Some(from) {
            continue;
        }
        before = Some(from);
        if let Some(start) = starts.get_mut(from as usize) {
            *start = index;
        }
    }
    Ok(starts)
}

/// How many links from one of so many states lead to each of them.
fn counts_of(alloc: Global, links: &[Link], count: usize) -> Result<Vec<u32>, AllocError> {
    let mut counts: Vec<u32> = vec![in alloc; 0; count]?;
    for link in links {
        if link.from as usize >= count {
            continue;
        }
        if let Some(leading) = counts.get_mut(link.to as usize) {
            *leading = leading.saturating_add(1);
        }
    }
    Ok(counts)
}

/// Takes the links of a state away, which are the first of these. A state to which no other link leads then is appended.
fn take_away(
    links: &[Link],
    state: u32,
    counts: &mut [u32],
    order: &mut Vec<u32>,
) -> Result<(), AllocError> {
    for link in links {
        if link.from != state {
            return Ok(());
        }
        let Some(leading) = counts.get_mut(link.to as usize) else {
            return Ok(());
        };
        *leading = leading.saturating_sub(1);
        if *leading == 0 {
            order.push(link.to)?;
        }
    }
    Ok(())
}

/// The states in an order in which each one comes after all that lead to it. Those to which a circle of links leads are left out.
fn ordered(
    alloc: Global,
    links: &[Link],
    starts: &[usize],
    count: usize,
) -> Result<Vec<u32>, AllocError> {
    let mut counts = counts_of(alloc, links, count)?;
    let mut order = Vec::with_capacity(alloc, count)?;
    if counts.first() == Some(&0) {
        order.push(0)?;
    }
    for next in 0..count {
        let Some(state) = order.get(next) else {
            return Ok(order);
        };
        let state = *state;
        take_away(
            links_from(links, starts, state),
            state,
            &mut counts,
            &mut order,
        )?;
    }
    Ok(order)
}

/// One more than the ranks of all states to which a state leads. Its links are the first of these.
fn rank_over(links: &[Link], state: u32, ranks: &[u32]) -> u32 {
    let mut rank: u32 = 0;
    for link in links {
        if link.from != state {
            return rank;
        }
        if let Some(below) = ranks.get(link.to as usize) {
            rank = rank.max(below.saturating_add(1));
        }
    }
    rank
}

/// A rank for each of so many states: the links of a longest way from there. Where links go round in a circle it says nothing.
fn ranks_of(alloc: Global, links: &[Link], count: usize) -> Result<Vec<u32>, AllocError> {
    let starts = starts_of(alloc, links, count)?;
    let order = ordered(alloc, links, &starts, count)?;
    let mut ranks: Vec<u32> = vec![in alloc; 0; count]?;
    let mut left = order.len();
    for _ in 0..order.len() {
        left = left.saturating_sub(1);
        let Some(state) = order.get(left) else {
            return Ok(ranks);
        };
        let rank = rank_over(links_from(links, &starts, *state), *state, &ranks);
        if let Some(at) = ranks.get_mut(*state as usize) {
            *at = rank;
        }
    }
    Ok(ranks)
}

/// Whether the rank falls along a link, if it leads from a state that has one.
fn falls(ranks: &[u32], link: &Link) -> bool
    ensures { result ≡ true → FallsAlong ranks.now link.now }
{
    let from = link.from as usize;
    let to = link.to as usize;
    if from >= ranks.len() {
        return true;
    }
    if to >= ranks.len() {
        return false;
    }
    ranks[to] < ranks[from]
}

/// Whether the ranks fall along all links.
fn fall(ranks: &[u32], links: &[Link]) -> bool
    ensures { result ≡ true → FallAlongAll ranks.now links.now }
{
    for link in links {
        if !falls(ranks, link) {
            return false;
        }
    }
    true
}

/// The least number above all ranks.
fn least_above(ranks: &[u32]) -> usize
    ensures { AreBelow ranks.now result }
{
    let mut least: usize = 0;
    for rank in ranks {
        least = least.max(*rank as usize + 1);
    }
    least
}

/// A number above the ranks of so many states, which fall along each link: none where links go round in a circle, or memory runs out.
pub(crate) fn longest(alloc: Global, links: &[Link], count: usize) -> Option<usize>
    ensures ranks { IfSome result (HaveRanks links.now count) }
{
    let Ok(ranks) = ranks_of(alloc, links, count) else {
        return None;
    };
    if ranks.len() != count {
        return None;
    }
    if !fall(&ranks, links) {
        return None;
    }
    Some(least_above(&ranks))
}
